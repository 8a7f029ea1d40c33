ghost use Rattle.std.specs.Prelude.{◌≡◌, ◌≤◌, ◌+◌, ◌^◌, ◌*ℤ◌, ◌+ℤ◌, pos};
ghost use Rattle.dep_graph.specs.Spans.{between, span_sum, span_in, span_of, narrow};

use crate::around::{Around, Turning};
use crate::forms::Form;

/// The least and the greatest value of the part of a form over the loops around: neither passes 2^62.
#[derive(Clone, Copy, Debug)]
pub(crate) struct Span {
    pub least: i64,
    pub greatest: i64,
}

/// The least and the greatest value, before it is known whether they pass 2^62.
#[derive(Clone, Copy)]
pub(crate) struct WideSpan {
    pub least: i128,
    pub greatest: i128,
}

const WIDEST: u128 = 1 << 62;

/// The span of a form, none where it passes 2^62 on either side.
pub(crate) fn span_of(around: Around, form: &Form) -> Option<Span>
    ensures { result ≡ narrow (span_of around form.now) }
{
    match around {
        Around::Nothing => WideSpan {
            least: 0,
            greatest: 0,
        }
        .narrow(),
        Around::One(outer) => span_in(form.outer, outer).narrow(),
        Around::Two(outer, inner) => { span_in(form.outer, outer).sum(span_in(form.inner, inner)) }
    }
}

fn span_in(factor: i64, turning: Turning) -> WideSpan
    ensures { result ≡ span_in factor turning }
{
    between(product(factor, turning.low), product(factor, turning.last))
}

fn product(a: i64, b: i64) -> i128
    ensures { result ≡ a *ℤ b }
{
    i128::from(a) * i128::from(b)
}

fn between(a: i128, b: i128) -> WideSpan
    ensures { result ≡ between a b }
{
    if a <= b {
        WideSpan {
            least: a,
            greatest: b,
        }
    } else {
        WideSpan {
            least: b,
            greatest: a,
        }
    }
}

impl WideSpan {
    // Where one of two sums passes 128 bits, it passes 2^62.
    fn sum(self, other: WideSpan) -> Option<Span>
        ensures { result ≡ narrow (span_sum self other) }
    {
        let least = self.least.checked_add(other.least)?;
        let greatest = self.greatest.checked_add(other.greatest)?;
        WideSpan { least, greatest }.narrow()
    }

    fn narrow(self) -> Option<Span>
        ensures { result ≡ narrow self }
    {
        if self.least.unsigned_abs() <= WIDEST && self.greatest.unsigned_abs() <= WIDEST {
            Some(Span {
                least: self.least as i64,
                greatest: self.greatest as i64,
            })
        } else {
            None
        }
    }
}
