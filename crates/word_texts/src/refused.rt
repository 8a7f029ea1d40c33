//! Why words are refused.

use std::alloc::AllocError;
use thiserror::Error;

/// Why words are refused: they give no texts, or say no call, or memory ran out.
#[derive(Clone, Copy, Debug, PartialEq, Eq, Error)]
pub enum WordsRefused {
    #[error("words that say nothing")]
    Words,
    #[error("out of memory")]
    NoMemory,
}

impl From<AllocError> for WordsRefused {
    ghost use Rattle.std.specs.Prelude.{◌≡◌};
    ghost use Rattle.word_texts.specs.declared.refused.WordsRefused.TheVariants.{NoMemory};

    ghost from_gives = { λ _ e. e ≡ NoMemory };

    fn from(_error: AllocError) -> WordsRefused {
        WordsRefused::NoMemory
    }
}
