ghost use Rattle.std.specs.Prelude.{◌≡◌, ◌<◌, ◌≤◌, ◌+◌, ◌&&◌, ◌||◌, true, length, sum, slice_index};
ghost use Rattle.word_store.specs.Memory.{most_words};
ghost use Rattle.addr_slice.specs.Claims.{is_set};
ghost use Rattle.range_sign.specs.Overlap.{any_below, writes_into, conflict_at};
ghost use Rattle.range_sign.specs.Exact.{Exact, holds};

use crate::signature::{MOST_ARRAYS, Signature};
use addr_slice::DeepSet;
use nest_syntax::NoMemory;
use std::alloc::Global;
use std::marker::Model;

/// A signature of the very words: two bits for each word. `note` costs a constant, `clear` as much as was noted, and
/// `overlap` the same and one step an array.
#[derive(Debug, Drop)]
pub struct ExactSign {
    /// How many words each array has.
    sizes: Vec<u64>,
    /// The number of each array's first word, where words are numbered over all arrays.
    starts: Vec<usize>,
    reads: DeepSet,
    writes: DeepSet,
}

impl Model for ExactSign {
    ghost use Rattle.range_sign.specs.Exact.{Exact, IsLaidOut};

    ghost Value = { Exact };

    ghost view = { λ s. record { sizes = s.sizes.items; reads = s.reads; writes = s.writes } };

    ghost invariant = { λ s. IsLaidOut (record { sizes = s.sizes.items; reads = s.reads; writes = s.writes }) s.starts.items };
}

impl ExactSign {
    fn arrays(&self) -> usize
        ensures count { result ≡ length self.now.sizes }
        ensures few { result ≤ most_words }
    {
        self.sizes.len()
    }

    /// Whether a word of an array that `self` holds as written is one that `other` holds.
    fn writes_into(&self, other: &ExactSign, array: usize) -> bool
        requires array { array < length self.now.sizes }
        requires sizes { self.now.sizes ≡ other.now.sizes }
        ensures { result ≡ any_below (writes_into (holds self.now) (holds other.now) array) (slice_index self.now.sizes array) }
    {
        let size = self.sizes[array] as usize;
        has_common(
            &self.writes,
            &other.reads,
            &other.writes,
            self.starts[array],
            size,
        )
    }

    /// Whether the two hold a common word of an array, one of them as written.
    fn conflicts_in(&self, other: &ExactSign, array: usize) -> bool
        requires array { array < length self.now.sizes }
        requires sizes { self.now.sizes ≡ other.now.sizes }
        ensures { result ≡ any_below (conflict_at (holds self.now) (holds other.now) array) (slice_index self.now.sizes array) }
    {
        self.writes_into(other, array) || other.writes_into(self, array)
    }
}

/// Whether one of the numbers from `start` on, as many as `count`, is in the first set and in the second or the third.
fn has_common(
    first: &DeepSet,
    second: &DeepSet,
    third: &DeepSet,
    start: usize,
    count: usize,
) -> bool
    requires { start + count ≤ 1048576 }
    ensures { result ≡ any_below (λ place. is_set first.now (start + place) && (is_set second.now (start + place) || is_set third.now (start + place))) count }
{
    let end = start + count;
    let mut from = start;
    'words: while let Some(word) = first.next_from(from) {
        if word >= end {
            return false;
        }
        if is_in_either(second, third, word) {
            return true;
        }
        from = word + 1;
    }
    false
}

fn is_in_either(first: &DeepSet, second: &DeepSet, word: usize) -> bool
    ensures { result ≡ (is_set first.now word || is_set second.now word) }
{
    first.has(word) || second.has(word)
}

impl Signature for ExactSign {
    ghost use Rattle.std.specs.Prelude.{true};
    ghost use Rattle.range_sign.specs.Exact.{nothing, with_note, holds};
    ghost use Rattle.range_sign.specs.ExactLaws.{keeps_sizes, holds_what_is_noted};

    const EXACT: bool = true;

    ghost EXACT = { true };

    ghost sizes_of = { λ s. s.sizes };

    ghost holds = { holds };

    ghost nothing = { nothing };

    ghost with_note = { with_note };

    fn make(alloc: Global, lengths: &[u64]) -> Result<ExactSign, NoMemory> {
        if lengths.len() > MOST_ARRAYS {
            return Err(NoMemory);
        }
        let mut starts = Vec::with_capacity(alloc, lengths.len())?;
        let mut count = 0usize;
        for length in lengths {
            starts.push(count)?;
            count += *length as usize;
        }
        Ok(ExactSign {
            sizes: Vec::from_slice(alloc, lengths)?,
            starts,
            reads: DeepSet::empty(alloc, count)?,
            writes: DeepSet::empty(alloc, count)?,
        })
    }

    fn clear(&mut self) {
        self.reads.clear();
        self.writes.clear();
    }

    fn note(&mut self, array: u32, place: u64, write: bool) {
        let word = self.starts[array as usize] + place as usize;
        if write {
            self.writes.insert(word);
        } else {
            self.reads.insert(word);
        }
    }

    fn overlap(&self, other: &ExactSign) -> Option<u32> {
        for array in 0..self.arrays() {
            if self.conflicts_in(other, array) {
                return Some(array as u32);
            }
        }
        None
    }

    ghost keeps_sizes = { keeps_sizes };

    ghost holds_what_is_noted = { holds_what_is_noted };
}
