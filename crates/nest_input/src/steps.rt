//! The step words of an input.
ghost use Rattle.std.specs.Prelude.{◌≤◌, Ok, MatchResult, length};
ghost use Rattle.nest_input.specs.Input.{SaysSteps, RefusesSteps};

use nest_lex::parts;
use std::alloc::Global;
use step_words::StepsRefused;

/// The actors that the step words of an input name, of a machine with so many workers, or the number, from 0, of the
/// first word that names none. An input without the line `steps` has no step words.
pub fn read_steps(alloc: Global, input: &[u8], workers: u8) -> Result<Vec<u8>, StepsRefused>
    requires few { workers ≤ 8 }
    requires small { length input.now ≤ 33554432 }
    ensures { MatchResult result (λ steps. SaysSteps input.now workers (Ok steps.items)) (λ refused. RefusesSteps input.now workers refused) }
{
    let parts = parts(input);
    let words = match parts.steps {
        Some(start) => &input[start..],
        None => &[],
    };
    step_words::read_steps(alloc, words, workers)
}
