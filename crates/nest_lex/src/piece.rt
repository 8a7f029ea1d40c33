//! What a token is before its name is numbered.

use crate::token::{Keyword, Mark};

/// A token apart from its place. Which name it is, only its bytes say.
#[derive(Clone, Copy, Debug, PartialEq, Eq)]
pub enum Piece {
    Name,
    Number(u64),
    Keyword(Keyword),
    Mark(Mark),
}
