ghost use Rattle.std.specs.Prelude.{◌≡◌, ℕ, ◌<◌, ◌≤◌, true, false, nat_lt, IfOk, length, replicate, slice_index, slice_set};
ghost use Rattle.addr_slice.specs.Claims.{is_set, IsNext};

use crate::bits::{ROW, in_rows, least_bit, next_bit, put_in_rows};
use crate::word_set::WordSet;
use nest_syntax::NoMemory;
use std::alloc::Global;
use std::marker::Model;

/// A set of numbers below a count, as a flag for each, for sets of which few numbers are kept and often forgotten. The
/// rows that aren't 0 are a set of their own, with its summary: an empty stretch is passed 262,144 numbers at a time, and
/// to forget all costs by the rows that are filled.
#[derive(Debug, Drop)]
pub struct DeepSet {
    count: usize,
    rows: Vec<u64>,
    filled: WordSet,
}

impl Model for DeepSet {
    ghost use Rattle.std.specs.Prelude.{List, Bool};
    ghost use Rattle.addr_slice.specs.WordSet.{flags_of, IsFilled};

    ghost Value = { List Bool };

    ghost view = { λ s. flags_of s.count s.rows.items };

    ghost invariant = { λ s. IsFilled s.count s.rows.items s.filled };
}

impl DeepSet {
    pub fn empty(alloc: Global, count: usize) -> Result<DeepSet, NoMemory>
        requires { count ≤ 1048576 }
        ensures { IfOk result (λ made. made ≡ replicate count false) }
    {
        let row_count = count.div_ceil(ROW);
        let rows = vec![in alloc; 0u64; row_count]?;
        let filled = WordSet::empty(alloc, row_count)?;
        Ok(DeepSet {
            count,
            rows,
            filled,
        })
    }

    /// Below which count the numbers are.
    pub fn len(&self) -> usize
        ensures len { result ≡ length self.now }
        ensures few { length self.now ≤ 1048576 }
    {
        self.count
    }

    pub fn has(&self, number: usize) -> bool
        ensures { result ≡ is_set self.now number }
    {
        number < self.count && in_rows(&self.rows, number)
    }

    /// Puts a number into the set. A constant cost.
    pub fn insert(&mut self, number: usize)
        requires { number < length self.old }
        ensures { self.new ≡ slice_set self.old number true }
    {
        put_in_rows(&mut self.rows, number);
        self.filled.insert(number / ROW);
    }

    /// The least number of the set that isn't below `from`. A constant cost.
    pub fn next_from(&self, from: usize) -> Option<usize>
        ensures { IsNext (is_set self.now) from result }
    {
        let row = from / ROW;
        if row >= self.rows.len() {
            return None;
        }
        if let Some(bit) = next_bit(self.rows[row], from % ROW) {
            return Some(row * ROW + bit);
        }
        let row = self.filled.next_from(row + 1)?;
        Some(row * ROW + least_bit(self.rows[row]))
    }

    /// Forgets all numbers. Costs as much as there are.
    pub fn clear(&mut self)
        ensures { self.new ≡ replicate (length self.old) false }
    {
        empty_filled(&mut self.rows, &self.filled);
        self.filled.clear();
    }
}

// Sets to 0 each row that is filled, which are all that aren't 0.
fn empty_filled(rows: &mut [u64], filled: &WordSet)
    requires as_many { length filled.now ≡ length rows.old }
    requires exact { (row : ℕ) → is_set filled.now row ≡ nat_lt 0 (slice_index rows.old row) }
    ensures { (row : ℕ) → slice_index rows.new row ≡ 0 }
{
    let mut from = 0;
    while let Some(row) = filled.next_from(from) {
        rows[row] = 0;
        from = row + 1;
    }
}
