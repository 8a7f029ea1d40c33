//! The parser of the whole language.
ghost use Rattle.std.specs.Prelude.{◌≡◌, ◌∷◌, ◌<◌, ℕ, List, length, IfOk, IfErr, IsSome, OnOk};
ghost use Rattle.nest_syntax.specs.declared.tree.Program.{Program};
ghost use Rattle.nest_syntax.specs.Named.{IsWellNamed};
ghost use Rattle.nest_lex.specs.Text.{AreWellNamed};
ghost use Rattle.nest_lex.specs.declared.token.Token.{Token};
ghost use Rattle.nest_lex.specs.declared.token.Tokens.{Tokens};
ghost use Rattle.nest_parse.specs.Grammar as grammar;
ghost use Rattle.nest_parse.specs.Expected as machine;

use crate::cursor::Cursor;
use crate::refused::{ParseRefused, Stop};
use nest_lex::{Keyword, Tokens};
use nest_syntax::{Decl, Loop, Name, Program};
use sqlite_items::Items;
use std::alloc::{AllocError, Global};

impl<'a> Cursor<'a> {
    /// The next loop at depth 1, if one begins here.
    fn next_region(&mut self, alloc: Global) -> Result<Option<Loop>, Stop>
        ensures reads { machine.ReadsNext grammar.IsLoop machine.Loops self.old self.new result }
        ensures shorter { IfOk result (λ found. IsSome found → length self.new < length self.old) }
    {
        let line = self.line();
        if !self.pass_keyword(Keyword::For) {
            return Ok(None);
        }
        Ok(Some(self.turns(alloc, line)?))
    }

    /// The loops that follow, as many as there are.
    fn regions(&mut self, alloc: Global) -> Result<Items<Loop>, Stop>
        ensures reads { machine.Reads grammar.AreLoops (λ k. machine.Loops ∷ k) self.old self.new result }
    {
        let mut list = Items::new(alloc);
        'list: while let Some(region) = self.next_region(alloc)? {
            list.push(region)?;
        }
        Ok(list)
    }

    /// Declarations and loops, up to the end.
    fn whole(&mut self, alloc: Global) -> Result<(Items<Decl>, Items<Loop>), Stop>
        ensures { machine.ReadsProgram self.old self.new result }
    {
        let decls = self.declarations(alloc)?;
        let regions = self.regions(alloc)?;
        if !self.is_done() {
            return Err(Stop::Fault);
        }
        Ok((decls, regions))
    }
}

fn copy_names(alloc: Global, names: &Items<Name>) -> Result<Items<Name>, AllocError>
    ensures { IfOk result (λ copies. copies ≡ names.now) }
{
    let mut copies = Items::new(alloc);
    let names = names.as_slice();
    for name in names {
        copies.push(Items::from_slice(alloc, name.as_slice())?)?;
    }
    Ok(copies)
}

/// The program that the tokens spell, with their names.
///
/// A list of tokens spells at most one program. `Syntax` comes only where the tokens spell none. It names the first
/// token that can't follow those before it in any program, by its number from 0; the number of all tokens names the
/// end.
pub fn parse(alloc: Global, tokens: &Tokens) -> Result<Program, ParseRefused>
    requires { AreWellNamed tokens.now }
    ensures derives { IfOk result (λ p. grammar.Derives tokens.now p) }
    ensures only { IfOk result (λ p. (q : Program) → grammar.Derives tokens.now q → q ≡ p) }
    ensures named { IfOk result IsWellNamed }
    ensures fault { IfErr result (grammar.IsFault tokens.now.list) }
{
    let mut cursor = Cursor::new(tokens.list.as_slice());
    match cursor.whole(alloc) {
        Ok((decls, regions)) => Ok(Program {
            names: copy_names(alloc, &tokens.names)?,
            decls,
            regions,
        }),
        Err(Stop::Fault) => Err(ParseRefused::Syntax {
            token: tokens.list.len() - cursor.left(),
        }),
        Err(Stop::NoMemory) => Err(ParseRefused::NoMemory),
    }
}

/// A list of tokens has one program or one fault, and never both.
pub fn one_program()
    ensures program { (tokens : Tokens) (program other : Program) → grammar.Derives tokens program → grammar.Derives tokens other → program ≡ other }
    ensures fault { (tokens : List Token) (at other : ℕ) → grammar.IsFaultAt tokens at → grammar.IsFaultAt tokens other → at ≡ other }
    ensures never_both { (tokens : Tokens) (program : Program) (at : ℕ) → grammar.Derives tokens program → grammar.IsFaultAt tokens.list at → ⊥ }
{}
