ghost use Rattle.std.specs.Prelude.{◌≡◌, ◌<◌, ◌≤◌, false, length, slice_index};
ghost use Rattle.word_store.specs.Memory.{most_words};
ghost use Rattle.range_sign.specs.Overlap.{any_below, conflict_at};
ghost use Rattle.range_sign.specs.Ranges.{Ranges, spans_at, holds, EndsInside};

use crate::signature::{MOST_ARRAYS, Signature};
use crate::spans::{NO_SPANS, Spans, conflict, with_span};
use nest_syntax::NoMemory;
use std::alloc::Global;
use std::marker::Model;

/// A signature of four places an array: the least and the greatest read, and the same for written. A constant cost for each
/// access, and one step an array for `clear` and `overlap`.
#[derive(Debug, Drop)]
pub struct RangeSign {
    /// How many words each array has.
    sizes: Vec<u64>,
    spans: Vec<Spans>,
}

impl Model for RangeSign {
    ghost use Rattle.range_sign.specs.Ranges.{Ranges, AreInSizes};

    ghost Value = { Ranges };

    ghost view = { λ s. record { sizes = s.sizes.items; spans = s.spans.items } };

    ghost invariant = { λ s. AreInSizes s.sizes.items s.spans.items };
}

impl RangeSign {
    fn arrays(&self) -> usize
        ensures count { result ≡ length self.now.sizes }
        ensures few { result ≤ most_words }
    {
        self.sizes.len()
    }

    fn spans_at(&self, array: usize) -> &Spans
        requires { array < length self.now.sizes }
        ensures is { result.now ≡ spans_at self.now.spans array }
        ensures inside { EndsInside (slice_index self.now.sizes array) result.now.written }
    {
        &self.spans[array]
    }

    /// Whether the two hold a common word of an array, one of them as written.
    fn conflicts_in(&self, other: &RangeSign, array: usize) -> bool
        requires array { array < length self.now.sizes }
        requires sizes { self.now.sizes ≡ other.now.sizes }
        ensures { result ≡ any_below (conflict_at (holds self.now) (holds other.now) array) (slice_index self.now.sizes array) }
    {
        let own = self.spans_at(array);
        let others = other.spans_at(array);
        conflict(own, others)
    }
}

impl Signature for RangeSign {
    ghost use Rattle.std.specs.Prelude.{false};
    ghost use Rattle.range_sign.specs.Ranges.{nothing, with_note, holds};
    ghost use Rattle.range_sign.specs.RangeLaws.{keeps_sizes, holds_what_is_noted};

    const EXACT: bool = false;

    ghost EXACT = { false };

    ghost sizes_of = { λ s. s.sizes };

    ghost holds = { holds };

    ghost nothing = { nothing };

    ghost with_note = { with_note };

    fn make(alloc: Global, lengths: &[u64]) -> Result<RangeSign, NoMemory> {
        if lengths.len() > MOST_ARRAYS {
            return Err(NoMemory);
        }
        Ok(RangeSign {
            sizes: Vec::from_slice(alloc, lengths)?,
            spans: vec![in alloc; NO_SPANS; lengths.len()]?,
        })
    }

    fn clear(&mut self) {
        self.spans.fill(NO_SPANS);
    }

    fn note(&mut self, array: u32, place: u64, write: bool) {
        let spans = *self.spans_at(array as usize);
        self.spans[array as usize] = with_span(spans, place, write);
    }

    fn overlap(&self, other: &RangeSign) -> Option<u32> {
        for array in 0..self.arrays() {
            if self.conflicts_in(other, array) {
                return Some(array as u32);
            }
        }
        None
    }

    ghost keeps_sizes = { keeps_sizes };

    ghost holds_what_is_noted = { holds_what_is_noted };
}
