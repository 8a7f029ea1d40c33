ghost use Rattle.std.specs.Prelude.{◌≡◌, ◌<◌, ◌≤◌, IfOk, IfSome, length, sum, is_some};
ghost use Rattle.nest_syntax.specs.Arrays.{place_in, place_of};
ghost use Rattle.word_store.specs.Memory.{IsSound, most_words, zeros, number_at, loaded, stored, array_words};

use nest_syntax::NoMemory;
use std::alloc::Global;
use std::marker::Model;

/// The words of all arrays of a program, one array after another in order of declaration. An array is named by its
/// number in that order, and a word by its array and its subscript, both from 0.
#[derive(Debug, Drop)]
pub struct Words {
    words: Vec<i64>,
    /// How many words each array has.
    sizes: Vec<u64>,
    /// The place in `words` at which each array starts, so that an access costs a constant.
    starts: Vec<usize>,
}

impl Model for Words {
    ghost use Rattle.word_store.specs.Memory.{Memory};
    ghost use Rattle.word_store.specs.Layout.{IsLaidOut};

    ghost Value = { Memory };

    ghost view = { λ w. record { sizes = w.sizes.items; words = w.words.items } };

    ghost invariant = { λ w. IsLaidOut (record { sizes = w.sizes.items; words = w.words.items }) w.starts.items };
}

impl Words {
    /// Arrays of these lengths, with 0 in each word. All lengths together are at most 1,048,576.
    pub fn zeros(alloc: Global, lengths: &[u64]) -> Result<Words, NoMemory>
        requires { sum lengths.now ≤ most_words }
        ensures { IfOk result (λ made. made ≡ zeros lengths.now) }
    {
        let mut starts = Vec::with_capacity(alloc, lengths.len())?;
        let mut count = 0usize;
        for length in lengths {
            starts.push(count)?;
            count += *length as usize;
        }
        Ok(Words {
            words: vec![in alloc; 0i64; count]?,
            sizes: Vec::from_slice(alloc, lengths)?,
            starts,
        })
    }

    /// The same arrays with the same words.
    pub fn copy(&self, alloc: Global) -> Result<Words, NoMemory>
        ensures { IfOk result (λ copied. copied ≡ self.now) }
    {
        Ok(Words {
            words: Vec::from_slice(alloc, self.words.as_slice())?,
            sizes: Vec::from_slice(alloc, self.sizes.as_slice())?,
            starts: Vec::from_slice(alloc, self.starts.as_slice())?,
        })
    }

    /// Makes the words those of `other`, whose arrays have the same lengths. Takes no memory.
    pub fn copy_from(&mut self, other: &Words)
        requires { self.old.sizes ≡ other.now.sizes }
        ensures { self.new ≡ other.now }
    {
        self.words.copy_from_slice(other.words.as_slice());
    }

    /// How many arrays there are.
    pub fn arrays(&self) -> usize
        ensures count { result ≡ length self.now.sizes }
        ensures sound { IsSound self.now }
    {
        self.sizes.len()
    }

    /// How many words each array has, in order.
    pub fn lengths(&self) -> &[u64]
        ensures { result.now ≡ self.now.sizes }
    {
        self.sizes.as_slice()
    }

    /// The words of an array, in order.
    pub fn array(&self, array: u32) -> &[i64]
        requires { array < length self.now.sizes }
        ensures { result.now ≡ array_words self.now array }
    {
        let start = self.starts[array as usize];
        let end = start + self.sizes[array as usize] as usize;
        &self.words[start..end]
    }

    /// The word at a subscript of an array. None comes exactly where the subscript is outside the array.
    pub fn load(&self, array: u32, place: i64) -> Option<i64>
        requires { array < length self.now.sizes }
        ensures { result ≡ loaded self.now array place }
    {
        let number = self.number_at(array, place)?;
        Some(self.words[number])
    }

    /// Writes the word at a subscript of an array. False comes exactly where the subscript is outside the array, and
    /// nothing has changed then.
    pub fn store(&mut self, array: u32, place: i64, value: i64) -> bool
        requires { array < length self.old.sizes }
        ensures inside { result ≡ is_some (place_of self.old.sizes array place) }
        ensures after { self.new ≡ stored self.old array place value }
    {
        match self.number_at(array, place) {
            Some(number) => {
                self.words[number] = value;
                true
            }
            None => false,
        }
    }

    /// The number of the word at a subscript of an array, from 0 over all arrays. None comes exactly where the subscript is
    /// outside the array.
    pub fn number_of(&self, array: u32, place: i64) -> Option<u32>
        requires { array < length self.now.sizes }
        ensures number { result ≡ number_at self.now.sizes array place }
        ensures within { IfSome result (λ n. n < sum self.now.sizes) }
    {
        match self.number_at(array, place) {
            Some(number) => Some(number as u32),
            None => None,
        }
    }

    fn number_at(&self, array: u32, place: i64) -> Option<usize>
        requires { array < length self.now.sizes }
        ensures number { result ≡ number_at self.now.sizes array place }
        ensures inside { IfSome result (λ n. n < length self.now.words) }
        ensures within { IfSome result (λ n. n < sum self.now.sizes) }
        ensures few { IfSome result (λ n. n < most_words) }
    {
        let place = place_in(self.sizes[array as usize], place)?;
        Some(self.starts[array as usize] + place as usize)
    }
}

fn place_in(size: u64, place: i64) -> Option<u64>
    ensures { result ≡ place_in size place }
{
    if place >= 0 && (place as u64) < size {
        Some(place as u64)
    } else {
        None
    }
}
