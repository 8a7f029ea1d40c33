//! Numbers.
ghost use Rattle.std.specs.Prelude.{◌≡◌, ℕ, MatchOption};
ghost use Rattle.nest_lex.specs.Spelling.{IsNumber, number_within};

use crate::scan::is_digit;

/// The greatest number: 2^63 - 1.
const GREATEST: u64 = 9_223_372_036_854_775_807;

/// The number that decimal digits spell. None comes where there is no digit or another byte, or the number is above
/// `most`. Zeros may stand in front.
#[tactic(auto, using(crate::proofs::Numbers::no_digit, crate::proofs::Numbers::too_large, crate::proofs::Numbers::is_within))]
pub fn number_within(most: u64, bytes: &[u8]) -> Option<u64>
    ensures { result ≡ number_within most bytes.now }
{
    if bytes.is_empty() {
        return None;
    }
    let mut number: u64 = 0;
    for byte in bytes {
        if !is_digit(*byte) {
            return None;
        }
        let digit = u64::from(*byte - b'0');
        if digit > most || number > (most - digit) / 10 {
            return None;
        }
        number = 10 * number + digit;
    }
    Some(number)
}

/// The number that a word is, if it is one.
#[tactic(auto, using(crate::proofs::Numbers::is_number))]
pub fn number_of(word: &[u8]) -> Option<u64>
    ensures { MatchOption result ((n : ℕ) → IsNumber word.now n → ⊥) (λ n. IsNumber word.now n) }
{
    if word.len() > 1 && word[0] == b'0' {
        return None;
    }
    number_within(GREATEST, word)
}
