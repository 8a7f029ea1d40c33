//! A place among tokens.
ghost use Rattle.std.specs.Prelude.{◌≡◌, ◌<◌, Some, [], ◌∷◌, length, IsTrue, ◌↔◌};
ghost use Rattle.nest_lex.specs.declared.token.Kind.{Kind};
ghost use Rattle.nest_lex.specs.declared.token.Spot.{Spot};
ghost use Rattle.nest_parse.specs.Grammar.{token};
ghost use Rattle.nest_parse.specs.Expected.{next_kind, line_of};

use nest_lex::{Kind, Token};
use nest_syntax::Line;
use std::marker::Model;

/// A place among tokens. Contracts see the tokens that are left.
#[derive(Drop)]
pub(crate) struct Cursor<'a> {
    rest: &'a [Token],
}

impl<'a> Model for Cursor<'a> {
    ghost use Rattle.std.specs.Prelude.{List};
    ghost use Rattle.nest_lex.specs.declared.token.Token.{Token};

    ghost Value = { List Token };

    ghost view = { λ c. c.rest.now };
}

impl<'a> Cursor<'a> {
    pub(crate) fn new(tokens: &'a [Token]) -> Cursor<'a>
        ensures { result ≡ tokens.now }
    {
        Cursor { rest: tokens }
    }

    /// The line of the next token, or 0 at the end.
    pub(crate) fn line(&self) -> Line
        ensures { result ≡ line_of self.now }
    {
        match self.rest {
            [] => Line(0),
            [first, ..] => Line(first.spot.line),
        }
    }

    /// How many tokens are left.
    pub(crate) fn left(&self) -> usize
        ensures { result ≡ length self.now }
    {
        self.rest.len()
    }

    pub(crate) fn is_done(&self) -> bool
        ensures { IsTrue result ↔ (self.now ≡ []) }
    {
        self.rest.is_empty()
    }

    /// The kind of the next token.
    pub(crate) fn next_kind(&self) -> Option<Kind>
        ensures { result ≡ next_kind self.now }
    {
        match self.rest {
            [] => None,
            [first, ..] => Some(first.kind),
        }
    }

    /// Passes the next token, if there is one.
    pub(crate) fn skip(&mut self)
        ensures passed { (kind : Kind) → next_kind self.old ≡ Some kind → (spot : Spot) × (self.old ≡ token kind spot ∷ self.new) }
        ensures shorter { (kind : Kind) → next_kind self.old ≡ Some kind → length self.new < length self.old }
    {
        if let Some((_first, rest)) = self.rest.split_first() {
            self.rest = rest;
        }
    }
}
