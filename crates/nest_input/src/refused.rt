//! Why an input is refused.

use nest_data::DataKind;
use nest_lex::Spot;
use nest_syntax::{Line, NoMemory};
use thiserror::Error;

/// What is wrong with an input. Of a nest it is the first fault of the text, `Token` or `Dense`, else `Syntax`, else
/// `Rule`; of data lines it is `Data`. All lines are lines of the input, counted from 1.
#[derive(Clone, Copy, Debug, PartialEq, Eq)]
pub enum Refusal {
    /// A byte that begins no token, the first of digits that are no number, or the start of a comment that isn't ended.
    Token(Spot),
    /// A token that opens a 65th bracket, or is the 129th of its run.
    Dense(Spot),
    /// The first token that can't follow those before it in any program, or the end of the nest where they only begin
    /// one.
    Syntax(Spot),
    /// The lowest rule that is broken, from 1 to 14, and the lowest line that breaks it.
    Rule { rule: u8, line: Line },
    /// The first faulty data line, and the first of its faults.
    Data { kind: DataKind, line: u32 },
}

/// The answer to an input that is refused, or where memory ran out.
#[derive(Clone, Copy, Debug, PartialEq, Eq, Error)]
pub enum InputRefused {
    #[error("the input is refused")]
    Refused(Refusal),
    #[error("out of memory")]
    NoMemory,
}

impl From<NoMemory> for InputRefused {
    ghost use Rattle.std.specs.Prelude.{◌≡◌};
    ghost use Rattle.nest_input.specs.declared.refused.InputRefused.TheVariants.{NoMemory as OutOfMemory};

    ghost from_gives = { λ _ e. e ≡ OutOfMemory };

    fn from(_error: NoMemory) -> InputRefused {
        InputRefused::NoMemory
    }
}
