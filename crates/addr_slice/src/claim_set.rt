ghost use Rattle.std.specs.Prelude.{◌≡◌, ◌<◌, ◌≤◌, ◌+◌, ◌↔◌, IsTrue, IfOk, IfSome, sum};
ghost use Rattle.word_store.specs.Memory.{most_words};
ghost use Rattle.addr_slice.specs.Claims.{words_of, has, is_claimed, no_claims, with_claim, with_stretch, AreClaimed, IsNext, IsEven, Clash};

use crate::deep_set::DeepSet;
use crate::stretch_set::StretchSet;
use nest_syntax::NoMemory;
use std::alloc::Global;
use std::marker::Model;

/// A set of claims: words, each for reading or for writing or for both. Words are numbered from 0 over all arrays of a
/// program, in order of declaration. No call but `with_room` takes memory.
#[derive(Debug, Drop)]
pub struct Claims {
    reads: StretchSet,
    writes: StretchSet,
    // What is claimed at all: a walk then passes over what neither of the two has.
    either: DeepSet,
}

impl Model for Claims {
    ghost use Rattle.std.specs.Prelude.{◌≡◌, ◌≤◌, length};
    ghost use Rattle.addr_slice.specs.Claims.{Claimed, AreEven};

    ghost Value = { Claimed };

    ghost view = { λ c. record { reads = c.reads; writes = c.writes } };

    ghost invariant = { λ c. AreEven c.reads c.writes c.either };
}

impl Claims {
    /// No claim, with room for the words of arrays of these lengths, at most 1,048,576 together. Takes a little over
    /// seven bits for each word.
    pub fn with_room(alloc: Global, lengths: &[u64]) -> Result<Claims, NoMemory>
        requires { sum lengths.now ≤ most_words }
        ensures { IfOk result (λ made. made ≡ no_claims (sum lengths.now)) }
    {
        let words = lengths.iter().sum::<u64>() as usize;
        Ok(Claims {
            reads: StretchSet::empty(alloc, words)?,
            writes: StretchSet::empty(alloc, words)?,
            either: DeepSet::empty(alloc, words)?,
        })
    }

    /// How many words there is room for.
    pub fn words(&self) -> usize
        ensures words { result ≡ words_of self.now }
        ensures few { words_of self.now ≤ most_words }
    {
        self.reads.len()
    }

    /// Whether a word is claimed for writing, or for reading where `write` is false. A word that there is no room for
    /// is claimed for neither. A constant cost.
    pub fn has(&self, word: u32, write: bool) -> bool
        ensures { result ≡ has self.now word write }
    {
        if write {
            self.writes.has(word as usize)
        } else {
            self.reads.has(word as usize)
        }
    }

    /// The least word not below the given one that is claimed for reading or for writing. None comes exactly where there
    /// is none. A constant cost: a walk over all claimed words costs as much as there are.
    pub fn next_from(&self, word: u32) -> Option<u32>
        ensures next { IsNext (is_claimed self.now) word result }
        ensures within { IfSome result (λ next. next < words_of self.now) }
        ensures few { words_of self.now ≤ most_words }
    {
        let next = self.either.next_from(word as usize)?;
        Some(next as u32)
    }

    /// Claims a word that there is room for, for writing or for reading. A constant cost.
    pub fn add(&mut self, word: u32, write: bool)
        requires { word < words_of self.old }
        ensures { self.new ≡ with_claim self.old word write }
    {
        if write {
            self.writes.insert(word as usize);
        } else {
            self.reads.insert(word as usize);
        }
        self.either.insert(word as usize);
    }

    /// Claims `count` words that there is room for, from `first` on, for writing or for reading. The cost grows with
    /// `count`, but is a constant where it is known that all of them are claimed so.
    pub(crate) fn add_all(&mut self, first: u32, count: u32, write: bool)
        requires inside { first + count ≤ words_of self.old }
        requires few { words_of self.old ≤ most_words }
        ensures claims { self.new ≡ with_stretch self.old first count write }
        ensures room { words_of self.new ≡ words_of self.old }
    {
        if count == 0 {
            return;
        }
        let last = first + (count - 1);
        if self.is_whole(first, last, write) {
            return;
        }
        for k in 0..count {
            self.add(first + k, write);
        }
        self.mark_whole(first, last, write);
    }

    // Whether it is known that all words from the first to the last are claimed.
    fn is_whole(&self, first: u32, last: u32, write: bool) -> bool
        ensures known { IsTrue result → AreClaimed self.now first last write }
        ensures even { IsEven self.now }
    {
        if write {
            self.writes.is_whole(first as usize, last as usize)
        } else {
            self.reads.is_whole(first as usize, last as usize)
        }
    }

    // Makes known that all words from the first to the last are claimed.
    fn mark_whole(&mut self, first: u32, last: u32, write: bool)
        requires order { first ≤ last }
        requires within { last < words_of self.old }
        requires claimed { AreClaimed self.old first last write }
        ensures { self.new ≡ self.old }
    {
        if write {
            self.writes.mark_whole(first as usize, last as usize);
        } else {
            self.reads.mark_whole(first as usize, last as usize);
        }
    }

    /// Forgets all claims. Costs as much as there are.
    pub fn clear(&mut self)
        ensures { self.new ≡ no_claims (words_of self.old) }
    {
        self.reads.clear();
        self.writes.clear();
        self.either.clear();
    }

    /// Whether two sets of claims clash: both claim some word, and one of them claims it for writing. Costs a walk over
    /// the claims of `self`.
    pub fn clashes(&self, other: &Claims) -> bool
        ensures { IsTrue result ↔ Clash self.now other.now }
    {
        let mut from = 0;
        while let Some(word) = self.next_from(from) {
            let is_other_claimed = other.has(word, false) || other.has(word, true);
            if (self.has(word, true) && is_other_claimed) || other.has(word, true) {
                return true;
            }
            from = word + 1;
        }
        false
    }
}
