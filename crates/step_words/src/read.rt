ghost use Rattle.std.specs.Prelude.{◌≤◌, length, MatchResult};
ghost use Rattle.step_words.specs.Steps.{Name, Refuses, words_in};

use crate::refused::StepsRefused;
use crate::words::next_word;
use nest_lex::number_within;
use std::alloc::Global;

/// The actors that the words name, of a machine with so many workers: each word is decimal digits, at most
/// `workers + 1`. `Word` tells the number, from 0, of the first word that isn't.
pub fn read_steps(alloc: Global, bytes: &[u8], workers: u8) -> Result<Vec<u8>, StepsRefused>
    requires few { workers ≤ 8 }
    requires small { length bytes.now ≤ 33554432 }
    ensures { MatchResult result (λ steps. Name workers (words_in bytes.now) steps.items) (λ refused. Refuses workers (words_in bytes.now) refused) }
{
    let mut steps = Vec::new(alloc);
    let mut rest = bytes;
    let mut number = 0u64;
    'words: while let Some((word, behind)) = next_word(rest) {
        match number_within(u64::from(workers) + 1, word) {
            Some(actor) => steps.push(actor as u8)?,
            None => return Err(StepsRefused::Word(number)),
        }
        rest = behind;
        number += 1;
    }
    Ok(steps)
}
