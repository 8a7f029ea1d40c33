//! The value of a word.
ghost use Rattle.std.specs.Prelude.{◌≡◌, ◌≤◌, pos, neg_ℤ};
ghost use Rattle.nest_data.specs.Values as value;

use nest_lex::number_within;

/// The greatest value: 2^63 - 1.
const GREATEST: u64 = 9_223_372_036_854_775_807;

/// The number of this size below 0.
fn negated(number: u64) -> i64
    requires { number ≤ 9223372036854775808 }
    ensures { result ≡ neg_ℤ (pos number) }
{
    if number == 0 {
        0
    } else {
        -1 - (number - 1) as i64
    }
}

/// The value of a word: an optional `-` and decimal digits, in the range of 64 bits with their sign. Zeros may stand in
/// front.
pub(crate) fn value_of(word: &[u8]) -> Option<i64>
    ensures { result ≡ value.value_of word.now }
{
    if word.is_empty() {
        return None;
    }
    if word[0] == b'-' {
        Some(negated(number_within(GREATEST + 1, &word[1..])?))
    } else {
        Some(number_within(GREATEST, word)? as i64)
    }
}
