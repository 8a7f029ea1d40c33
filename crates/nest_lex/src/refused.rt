//! Why a text is refused.

use crate::token::Spot;
use std::alloc::AllocError;
use thiserror::Error;

/// Why a text has no tokens.
#[derive(Clone, Copy, Debug, PartialEq, Eq)]
pub enum LexKind {
    /// A byte that begins no token.
    Byte,
    /// Digits that are no number: a zero in front, a letter, a digit or `_` behind, or a value above 2^63 - 1. Their
    /// spot is that of the first digit.
    Number,
    /// A comment that isn't ended. Its spot is its start.
    Comment,
    /// A token that opens a 65th bracket, or is the 129th of its run.
    Dense,
}

/// The answer of `lex` to a text that has no tokens, or where memory ran out.
#[derive(Clone, Copy, Debug, PartialEq, Eq, Error)]
pub enum LexRefused {
    /// The first fault of the text.
    #[error("no token")]
    Fault { kind: LexKind, at: Spot },
    #[error("out of memory")]
    NoMemory,
}

impl From<AllocError> for LexRefused {
    ghost use Rattle.std.specs.Prelude.{◌≡◌};
    ghost use Rattle.nest_lex.specs.declared.refused.LexRefused.TheVariants.{NoMemory};

    ghost from_gives = { λ _ e. e ≡ NoMemory };

    fn from(_error: AllocError) -> LexRefused {
        LexRefused::NoMemory
    }
}
