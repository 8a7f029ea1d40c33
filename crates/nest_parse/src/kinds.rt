//! Equality of keywords and of marks, as contracts see it.
ghost use Rattle.std.specs.Prelude.{◌≡◌, ◌↔◌, IsTrue};

use nest_lex::{Keyword, Mark};

pub(crate) fn is_same_keyword(left: Keyword, right: Keyword) -> bool
    ensures { IsTrue result ↔ (left ≡ right) }
{
    left == right
}

pub(crate) fn is_same_mark(left: Mark, right: Mark) -> bool
    ensures { IsTrue result ↔ (left ≡ right) }
{
    left == right
}
