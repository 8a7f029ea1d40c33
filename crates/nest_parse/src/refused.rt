ghost use Rattle.std.specs.Prelude.{◌≡◌};
ghost use Rattle.nest_parse.specs.declared.refused.Stop.TheVariants.{NoMemory};
ghost use Rattle.nest_parse.specs.declared.refused.ParseRefused.TheVariants.{NoMemory as OutOfMemory};

use std::alloc::AllocError;
use thiserror::Error;

/// Why tokens give no program.
#[derive(Clone, Copy, Debug, Drop, PartialEq, Eq, Error)]
pub enum ParseRefused {
    /// The first token that can't follow those before it in any program, by its number from 0; the number of all
    /// tokens names the end.
    #[error("no program")]
    Syntax { token: usize },
    /// There was no memory left.
    #[error("out of memory")]
    NoMemory,
}

/// Why a part of a program isn't read. At a `Fault` the cursor stands before the token that can't stand there.
#[derive(Clone, Copy, Debug, Drop, PartialEq, Eq)]
pub(crate) enum Stop {
    Fault,
    NoMemory,
}

impl From<AllocError> for Stop {
    ghost from_gives = { λ _ e. e ≡ NoMemory };

    fn from(_error: AllocError) -> Stop {
        Stop::NoMemory
    }
}

impl From<AllocError> for ParseRefused {
    ghost from_gives = { λ _ e. e ≡ OutOfMemory };

    fn from(_error: AllocError) -> ParseRefused {
        ParseRefused::NoMemory
    }
}
