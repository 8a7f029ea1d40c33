ghost use Rattle.std.specs.Prelude.{◌≡◌, ℕ, ◌<◌, IfOk, FitsSigned};
ghost use Rattle.std.specs.Int.{w64};
ghost use Rattle.nest_syntax.specs.Words.{turns, counted, variable};
ghost use Rattle.task_hop.specs.Meaning as hop;

use nest_syntax::Cause;
use word_store::count_turns;

/// How often a loop turns. For a step of 0, which no checked program has, the definition gives no turn, or one where
/// the loop goes through its high bound and `low` isn't above it.
pub(crate) fn turns_of(low: i64, high: i64, step: u64, through: bool) -> Result<u64, Cause>
    ensures count { result ≡ counted (turns low high step through) }
    ensures reach { IfOk result (λ n. (k : ℕ) → k < n → FitsSigned w64 (variable low step k)) }
{
    if step > 0 {
        return count_turns(low, high, step, through);
    }
    Ok(u64::from(through && low <= high))
}

/// The variable's value in the turn behind this one: it never passes the last.
pub(crate) fn next_value(value: i64, step: u64, last: i64) -> i64
    ensures { result ≡ hop.next_value value step last }
{
    match value.checked_add_unsigned(step) {
        Some(next) => if next < last { next } else { last },
        None => last,
    }
}
