//! Why step words are refused.

use std::alloc::{AllocError, AllocFailed};
use thiserror::Error;

/// The answer of `read_steps` to words that name no steps, or where memory ran out.
#[derive(Clone, Copy, Debug, PartialEq, Eq, Error)]
pub enum StepsRefused {
    /// The number, from 0, of the first word that names no actor.
    #[error("a word that is no step word")]
    Word(u64),
    #[error("out of memory")]
    NoMemory,
}

impl From<AllocError> for StepsRefused {
    ghost use Rattle.std.specs.Prelude.{◌≡◌};
    ghost use Rattle.step_words.specs.declared.refused.StepsRefused.TheVariants.{NoMemory};

    ghost from_gives = { λ _ e. e ≡ NoMemory };

    fn from(_error: AllocError) -> StepsRefused {
        StepsRefused::NoMemory
    }
}

impl<T: Drop> From<AllocFailed<T>> for StepsRefused {
    ghost use Rattle.std.specs.Prelude.{◌≡◌};
    ghost use Rattle.step_words.specs.declared.refused.StepsRefused.TheVariants.{NoMemory};

    ghost from_gives = { λ _ e. e ≡ NoMemory };

    fn from(_error: AllocFailed<T>) -> StepsRefused {
        StepsRefused::NoMemory
    }
}
