ghost use Rattle.std.specs.Prelude.{◌≡◌, ◌<◌, ◌≤◌, true, false, IfOk, length, replicate, slice_set};
ghost use Rattle.addr_slice.specs.Claims.{is_set, IsNext};

use crate::bits::{
    ROW, empty_all_rows, empty_rows, in_rows, least_bit, next_bit, next_in_rows, put_in_rows,
};
use nest_syntax::NoMemory;
use std::alloc::Global;
use std::marker::Model;

/// A set of numbers below a count, as a flag for each. The summary has a bit for each row, set where the row isn't 0:
/// with it an empty stretch is passed 4,096 numbers at a time.
#[derive(Debug, Drop)]
pub(crate) struct WordSet {
    count: usize,
    rows: Vec<u64>,
    summary: Vec<u64>,
}

impl Model for WordSet {
    ghost use Rattle.std.specs.Prelude.{List, Bool};
    ghost use Rattle.addr_slice.specs.WordSet.{flags_of, IsSummed};

    ghost Value = { List Bool };

    ghost view = { λ s. flags_of s.count s.rows.items };

    ghost invariant = { λ s. IsSummed s.count s.rows.items s.summary.items };
}

impl WordSet {
    pub(crate) fn empty(alloc: Global, count: usize) -> Result<WordSet, NoMemory>
        requires { count ≤ 1048576 }
        ensures { IfOk result (λ made. made ≡ replicate count false) }
    {
        let row_count = count.div_ceil(ROW);
        let rows = vec![in alloc; 0u64; row_count]?;
        let summary = vec![in alloc; 0u64; row_count.div_ceil(ROW)]?;
        Ok(WordSet {
            count,
            rows,
            summary,
        })
    }

    pub(crate) fn has(&self, number: usize) -> bool
        ensures { result ≡ is_set self.now number }
    {
        number < self.count && in_rows(&self.rows, number)
    }

    pub(crate) fn insert(&mut self, number: usize)
        requires { number < length self.old }
        ensures { self.new ≡ slice_set self.old number true }
    {
        put_in_rows(&mut self.rows, number);
        put_in_rows(&mut self.summary, number / ROW);
    }

    pub(crate) fn next_from(&self, from: usize) -> Option<usize>
        ensures { IsNext (is_set self.now) from result }
    {
        let row = from / ROW;
        if row >= self.rows.len() {
            return None;
        }
        if let Some(bit) = next_bit(self.rows[row], from % ROW) {
            return Some(row * ROW + bit);
        }
        let row = next_in_rows(&self.summary, row + 1)?;
        Some(row * ROW + least_bit(self.rows[row]))
    }

    pub(crate) fn clear(&mut self)
        ensures { self.new ≡ replicate (length self.old) false }
    {
        empty_rows(&mut self.rows, &self.summary);
        empty_all_rows(&mut self.summary);
    }
}
