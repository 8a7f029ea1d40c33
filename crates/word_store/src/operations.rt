ghost use Rattle.std.specs.Prelude.{◌≡◌, ◌≢◌};
ghost use Rattle.nest_syntax.specs.Words as word;

use nest_syntax::{Bin, Cause, Op, Un};

/// The result of a binary operation, which wraps. `Divide` comes exactly where `/` or `%` has a divisor of 0.
/// `&&` and `||` are no operation of two words: what they need is for the caller to evaluate.
#[tactic(auto, using(std::proofs::lemmas::Int::wraps))]
pub fn apply(op: Bin, left: i64, right: i64) -> Result<i64, Cause>
    requires not_both { op ≢ Bin.Both }
    requires not_either { op ≢ Bin.Either }
    ensures { result ≡ word.apply op left right }
{
    match op {
        Bin::Add => Ok(left.wrapping_add(right)),
        Bin::Sub => Ok(left.wrapping_sub(right)),
        Bin::Mul => Ok(left.wrapping_mul(right)),
        Bin::Div => divide(left, right),
        Bin::Rem => remainder(left, right),
        Bin::Shl => Ok(shift_left(left, right)),
        Bin::Shr => Ok(shift_right(left, right)),
        Bin::And => Ok(left & right),
        Bin::Xor => Ok(left ^ right),
        Bin::Or => Ok(left | right),
        Bin::Less => Ok(flag(left < right)),
        Bin::LessEq => Ok(flag(left <= right)),
        Bin::More => Ok(flag(left > right)),
        Bin::MoreEq => Ok(flag(left >= right)),
        Bin::Equal => Ok(flag(left == right)),
        Bin::NotEqual => Ok(flag(left != right)),
        Bin::Both | Bin::Either => unreachable!(),
    }
}

/// The result of a unary operation. `-` wraps, `!` gives 0 or 1.
#[tactic(auto, using(std::proofs::lemmas::Int::wraps))]
pub fn apply_un(op: Un, value: i64) -> i64
    ensures { result ≡ word.apply_un op value }
{
    match op {
        Un::Neg => value.wrapping_neg(),
        Un::Not => flag(value == 0),
        Un::Flip => !value,
    }
}

/// The new value of what is assigned: `value` itself for `=`, the operation on the `old` one for `op=`. `Divide` comes
/// exactly where `/=` or `%=` has a divisor of 0.
pub fn assign(op: Op, old: i64, value: i64) -> Result<i64, Cause>
    ensures { result ≡ word.assigned (word.operation_of op) old value }
{
    match op {
        Op::Set => Ok(value),
        Op::Add => apply(Bin::Add, old, value),
        Op::Sub => apply(Bin::Sub, old, value),
        Op::Mul => apply(Bin::Mul, old, value),
        Op::Div => apply(Bin::Div, old, value),
        Op::Rem => apply(Bin::Rem, old, value),
        Op::Shl => apply(Bin::Shl, old, value),
        Op::Shr => apply(Bin::Shr, old, value),
        Op::And => apply(Bin::And, old, value),
        Op::Xor => apply(Bin::Xor, old, value),
        Op::Or => apply(Bin::Or, old, value),
    }
}

fn flag(holds: bool) -> i64
    ensures { result ≡ word.flag holds }
{
    if holds { 1 } else { 0 }
}

fn divide(left: i64, right: i64) -> Result<i64, Cause>
    ensures { result ≡ word.quotient left right }
{
    if right == 0 {
        return Err(Cause::Divide);
    }
    Ok(left.wrapping_div(right))
}

fn remainder(left: i64, right: i64) -> Result<i64, Cause>
    ensures { result ≡ word.remainder left right }
{
    if right == 0 {
        return Err(Cause::Divide);
    }
    Ok(left.wrapping_rem(right))
}

fn shift_count(by: i64) -> u32
    ensures { result ≡ word.shift_count by }
{
    by.rem_euclid(64) as u32
}

fn shift_left(left: i64, by: i64) -> i64
    ensures { word.apply Bin.Shl left by ≡ Ok result }
{
    left.wrapping_shl(shift_count(by))
}

fn shift_right(left: i64, by: i64) -> i64
    ensures { word.apply Bin.Shr left by ≡ Ok result }
{
    left.wrapping_shr(shift_count(by))
}
