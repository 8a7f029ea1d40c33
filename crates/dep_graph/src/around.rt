ghost use Rattle.std.specs.Prelude.{◌≡◌, true, false, IfSome, FitsSigned};
ghost use Rattle.nest_syntax.specs.declared.operators.Un.TheVariants.{Neg};
ghost use Rattle.std.specs.Int.{w64, int_gap};
ghost use Rattle.nest_syntax.specs.Words.{turns, variable};
ghost use Rattle.dep_graph.specs.declared.around.Around.TheVariants.{One};
ghost use Rattle.dep_graph.specs.Forms.{symbol_inside};
ghost use Rattle.dep_graph.specs.Spans.{negated_bound, bound_of, literal_in, turns_behind_first, header_of, within};

use crate::forms::Symbol;
use nest_syntax::{Expr, Loop, Un};

/// A bound of a loop: a number, a number behind a unary `-`, or anything else.
#[derive(Clone, Copy)]
pub(crate) enum Bound {
    Number(i64),
    Negated(i64),
    Other,
}

/// A loop of a body that has turns and literal bounds: its variable goes from `low` to `last`.
#[derive(Clone, Copy)]
pub(crate) struct Turning {
    pub name: u32,
    pub low: i64,
    pub last: i64,
}

/// What is known of the turns of a loop of a body: nothing, where a bound isn't literal, that there are none, or from
/// where its variable goes to where.
#[derive(Clone, Copy)]
pub(crate) enum Header {
    Open,
    Idle,
    Turns(Turning),
}

/// The loops of a body with literal bounds around a place in it, the outer one first.
#[derive(Clone, Copy)]
pub(crate) enum Around {
    Nothing,
    One(Turning),
    Two(Turning, Turning),
}

impl Around {
    /// The symbol of the variable of a loop around, the innermost first.
    pub(crate) fn symbol_of(self, name: u32) -> Option<Symbol>
        ensures { result ≡ symbol_inside self name }
    {
        match self {
            Around::Nothing => None,
            Around::One(outer) => outer.symbol_of(name),
            Around::Two(outer, inner) => {
                if inner.name == name {
                    Some(Symbol::Inner)
                } else {
                    outer.symbol_of(name)
                }
            }
        }
    }

    /// The same with one loop more inside.
    pub(crate) fn within(self, turning: Turning) -> Around
        ensures { result ≡ within self turning }
    {
        match self {
            Around::Nothing => Around::One(turning),
            Around::One(outer) => Around::Two(outer, turning),
            Around::Two(outer, inner) => Around::Two(outer, inner),
        }
    }
}

impl Turning {
    fn symbol_of(self, name: u32) -> Option<Symbol>
        ensures { result ≡ symbol_inside (One self) name }
    {
        if self.name == name {
            Some(Symbol::Outer)
        } else {
            None
        }
    }
}

impl Bound {
    fn of(expr: &Expr) -> Bound
        ensures { result ≡ bound_of expr.now }
    {
        match expr {
            Expr::Number(n) => Bound::Number(*n),
            Expr::Unary(operation, part) => Bound::of(part.get()).behind(*operation),
            Expr::Scalar(_) | Expr::Word(..) | Expr::Binary(..) | Expr::Choice(..) => Bound::Other,
        }
    }

    // The bound behind a unary operation.
    fn behind(self, operation: Un) -> Bound
        ensures { result ≡ negated_bound operation self }
    {
        match operation {
            Un::Neg => self.negated(),
            Un::Not | Un::Flip => Bound::Other,
        }
    }

    fn negated(self) -> Bound
        ensures { result ≡ negated_bound Neg self }
    {
        match self {
            Bound::Number(n) => Bound::Negated(n),
            Bound::Negated(_) | Bound::Other => Bound::Other,
        }
    }

    #[tactic(auto, using(std::proofs::lemmas::Int::wraps))]
    fn literal(self) -> Option<i64>
        ensures { result ≡ literal_in self }
    {
        match self {
            Bound::Number(n) => Some(n),
            Bound::Negated(n) => Some(n.wrapping_neg()),
            Bound::Other => None,
        }
    }
}

/// What is known of the turns of a loop.
pub(crate) fn header_of(inner: &Loop) -> Header
    ensures { result ≡ header_of inner.now.name inner.now.low inner.now.high inner.now.through inner.now.step }
{
    let Some(low) = Bound::of(&inner.low).literal() else {
        return Header::Open;
    };
    let Some(high) = Bound::of(&inner.high).literal() else {
        return Header::Open;
    };
    match turns_behind_first(low, high, inner.step, inner.through) {
        None => Header::Idle,
        Some(behind) => Header::Turns(Turning {
            name: inner.name,
            low,
            last: value_in_turn(low, inner.step, behind),
        }),
    }
}

fn value_in_turn(low: i64, step: u64, turn: u64) -> i64
    requires { FitsSigned w64 (variable low step turn) }
    ensures { result ≡ variable low step turn }
{
    low.wrapping_add_unsigned(turn * step)
}

// How many turns come behind the first; none where there is no first.
fn turns_behind_first(low: i64, high: i64, step: u64, through: bool) -> Option<u64>
    ensures number { result ≡ turns_behind_first (turns low high step through) }
    ensures reach { IfSome result (λ behind. FitsSigned w64 (variable low step behind)) }
{
    if through {
        behind_first_through(low, high, step)
    } else {
        behind_first_below(low, high, step)
    }
}

fn behind_first_through(low: i64, high: i64, step: u64) -> Option<u64>
    ensures number { result ≡ turns_behind_first (turns low high step true) }
    ensures reach { IfSome result (λ behind. FitsSigned w64 (variable low step behind)) }
{
    if high < low {
        None
    } else {
        Some(gap(low, high).checked_div(step).unwrap_or(0))
    }
}

// A loop with a step of 0 would have no turns here.
#[tactic(auto, using(word_store::proofs::Counts::div_ceil_is))]
fn behind_first_below(low: i64, high: i64, step: u64) -> Option<u64>
    ensures number { result ≡ turns_behind_first (turns low high step false) }
    ensures reach { IfSome result (λ behind. FitsSigned w64 (variable low step behind)) }
{
    if step == 0 {
        return None;
    }
    gap(low, high).div_ceil(step).checked_sub(1)
}

fn gap(low: i64, high: i64) -> u64
    ensures { result ≡ int_gap low high }
{
    if low < high { high.abs_diff(low) } else { 0 }
}
