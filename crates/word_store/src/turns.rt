ghost use Rattle.std.specs.Prelude.{◌≡◌, ℕ, ◌<◌, true, false, IfOk, FitsSigned};
ghost use Rattle.std.specs.Int.{w64, int_gap};
ghost use Rattle.nest_syntax.specs.Words.{turns, counted, variable};

use nest_syntax::Cause;

/// The most turns that a loop may have.
const MOST_TURNS: u64 = 16_777_216;

/// How often a loop turns: its variable goes from `low` by `step` while it is below `high`, or at most `high` where
/// `through` is set. `Loop` comes exactly where that is more than 16,777,216 times. In each turn the variable is a
/// word.
pub fn count_turns(low: i64, high: i64, step: u64, through: bool) -> Result<u64, Cause>
    requires { 0 < step }
    ensures count { result ≡ counted (turns low high step through) }
    ensures reach { IfOk result (λ n. (k : ℕ) → k < n → FitsSigned w64 (variable low step k)) }
{
    if through {
        count_through(low, high, step)
    } else {
        count_below(low, high, step)
    }
}

/// The loop's variable in turn `k`, counted from 0.
pub fn value_in_turn(low: i64, step: u64, k: u64) -> i64
    requires { FitsSigned w64 (variable low step k) }
    ensures { result ≡ variable low step k }
{
    low.wrapping_add_unsigned(k * step)
}

#[tactic(auto, using(crate::proofs::Counts::div_ceil_is))]
fn count_below(low: i64, high: i64, step: u64) -> Result<u64, Cause>
    requires { 0 < step }
    ensures count { result ≡ counted (turns low high step false) }
    ensures reach { IfOk result (λ n. (k : ℕ) → k < n → FitsSigned w64 (variable low step k)) }
{
    let turns = gap(low, high).div_ceil(step);
    if turns <= MOST_TURNS {
        Ok(turns)
    } else {
        Err(Cause::Loop)
    }
}

// The turns behind the first are counted first: all of them together may be 2^64.
fn count_through(low: i64, high: i64, step: u64) -> Result<u64, Cause>
    requires { 0 < step }
    ensures count { result ≡ counted (turns low high step true) }
    ensures reach { IfOk result (λ n. (k : ℕ) → k < n → FitsSigned w64 (variable low step k)) }
{
    if high < low {
        return Ok(0);
    }
    let turns_behind_first = gap(low, high) / step;
    if turns_behind_first < MOST_TURNS {
        Ok(turns_behind_first + 1)
    } else {
        Err(Cause::Loop)
    }
}

fn gap(low: i64, high: i64) -> u64
    ensures { result ≡ int_gap low high }
{
    if low < high { high.abs_diff(low) } else { 0 }
}
