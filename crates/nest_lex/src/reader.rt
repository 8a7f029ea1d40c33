//! A reader goes over a text from the front, a gap or a piece at a time.
ghost use Rattle.std.specs.Prelude.{◌≡◌, ◌<◌, ◌≤◌, ℕ, List, length, OnOk, IfErr, map};
ghost use Rattle.nest_lex.specs.Pieces.{IsGap, Stands};
ghost use Rattle.nest_lex.specs.Text.{AreTokens, AreWellNamed, IsRefusal};

use crate::found::{Found, found_at};
use crate::load::Load;
use crate::names::kind_of;
use crate::piece::Piece;
use crate::refused::{LexKind, LexRefused};
use crate::spot::{START, spot_after};
use crate::token::{Spot, Token, Tokens};
use indexmap::IndexSet;
use nest_syntax::Name;
use sqlite_items::Items;
use std::alloc::Global;

/// What was read of a text up to a place: its names and tokens, and the load there.
#[derive(Drop)]
pub struct Reader<'a> {
    seen: IndexSet<&'a [u8]>,
    names: Items<Name>,
    list: Items<Token>,
    load: Load,
    pub at: usize,
    spot: Spot,
}

impl<'a> Reader<'a> {
    ghost use Rattle.nest_lex.specs.Reader.{HasRead};

    pub fn new(alloc: Global) -> Reader<'a>
        ensures { (text : List ℕ) → HasRead text result }
    {
        Reader {
            seen: IndexSet::new(alloc),
            names: Items::new(alloc),
            list: Items::new(alloc),
            load: Load::none(),
            at: 0,
            spot: START,
        }
    }

    fn pass_gap(&mut self, bytes: &[u8], to: usize)
        requires read { HasRead bytes.now self.old }
        requires small { length bytes.now ≤ 33554432 }
        requires ordered { self.old.at < to }
        requires within { to ≤ length bytes.now }
        requires gap { IsGap bytes.now self.old.at to }
        ensures read { HasRead bytes.now self.new }
        ensures at { self.new.at ≡ to }
    {
        self.spot = spot_after(bytes, self.at, to, self.spot);
        self.at = to;
    }

    fn take_piece(
        &mut self,
        alloc: Global,
        bytes: &'a [u8],
        piece: Piece,
        next: usize,
    ) -> Result<(), LexRefused>
        requires read { HasRead bytes.now self.old }
        requires small { length bytes.now ≤ 33554432 }
        requires stands { Stands bytes.now piece self.old.at next }
        ensures read { OnOk result (HasRead bytes.now self.new) }
        ensures at { OnOk result (self.new.at ≡ next) }
        ensures refused { IfErr result (IsRefusal bytes.now) }
    {
        let load = self.load.after(piece);
        if !load.is_allowed() {
            return Err(LexRefused::Fault {
                kind: LexKind::Dense,
                at: self.spot,
            });
        }
        let kind = kind_of(
            alloc,
            &mut self.seen,
            &mut self.names,
            &bytes[self.at..next],
            piece,
        )?;
        self.list.push(Token {
            kind,
            spot: self.spot,
        })?;
        self.load = load;
        self.spot = spot_after(bytes, self.at, next, self.spot);
        self.at = next;
        Ok(())
    }

    /// Goes on behind what stands next.
    pub fn step(&mut self, alloc: Global, bytes: &'a [u8]) -> Result<(), LexRefused>
        requires read { HasRead bytes.now self.old }
        requires small { length bytes.now ≤ 33554432 }
        requires more { self.old.at < length bytes.now }
        ensures read { OnOk result (HasRead bytes.now self.new) }
        ensures on { OnOk result (self.old.at < self.new.at) }
        ensures refused { IfErr result (IsRefusal bytes.now) }
    {
        let at = self.spot;
        match found_at(bytes, self.at) {
            Found::Gap(to) => {
                self.pass_gap(bytes, to);
                Ok(())
            }
            Found::Piece(piece, next) => self.take_piece(alloc, bytes, piece, next),
            Found::Fault(kind) => Err(LexRefused::Fault { kind, at }),
        }
    }

    /// The tokens of a text that was read to its end.
    pub fn tokens(self, bytes: &[u8]) -> Tokens
        requires read { HasRead bytes.now self }
        requires small { length bytes.now ≤ 33554432 }
        requires end { self.at ≡ length bytes.now }
        ensures tokens { AreTokens bytes.now result }
        ensures named { AreWellNamed result }
    {
        let Reader {
            names,
            list,
            spot,
            ..
        } = self;
        Tokens {
            names,
            list,
            end: spot,
        }
    }
}
