ghost use Rattle.std.specs.Prelude.{◌≡◌};
ghost use Rattle.nest_check.specs.declared.refused.CheckRefused.TheVariants.{NoMemory as OutOfMemory};

use nest_syntax::{Line, NoMemory};
use thiserror::Error;

/// Why a program isn't checked.
#[derive(Clone, Copy, Debug, Drop, PartialEq, Eq, Error)]
pub enum CheckRefused {
    /// The lowest rule that the program breaks, counted from 1, and the lowest line that breaks it.
    #[error("a rule is broken")]
    Rule { rule: u8, line: Line },
    /// There was no memory left.
    #[error("out of memory")]
    NoMemory,
}

impl From<NoMemory> for CheckRefused {
    ghost from_gives = { λ _ e. e ≡ OutOfMemory };

    fn from(_error: NoMemory) -> CheckRefused {
        CheckRefused::NoMemory
    }
}
