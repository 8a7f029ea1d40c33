//! Declarations before the loops.
ghost use Rattle.std.specs.Prelude.{◌≡◌, ◌∷◌, ◌<◌, ◌≤◌, pos, neg_ℤ, length, IfOk, IsSome, OnOk};
ghost use Rattle.nest_lex.specs.declared.token.Keyword.TheVariants as words;
ghost use Rattle.nest_lex.specs.declared.token.Mark.TheVariants as marks;
ghost use Rattle.nest_parse.specs.Grammar as grammar;
ghost use Rattle.nest_parse.specs.Expected as machine;

use crate::cursor::Cursor;
use crate::refused::Stop;
use nest_lex::{Keyword, Mark};
use nest_syntax::{Decl, Line};
use sqlite_items::Items;
use std::alloc::Global;

impl<'a> Cursor<'a> {
    /// `LENGTH];`
    fn array_length(&mut self) -> Result<u64, Stop>
        ensures reads { machine.Reads machine.IsLength machine.length_then self.old self.new result }
        ensures shorter { OnOk result (length self.new < length self.old) }
    {
        let length = self.number()?;
        self.sign(Mark::CloseSquare)?;
        self.sign(Mark::Semicolon)?;
        Ok(length)
    }

    /// An array that is never written, behind its `const`.
    fn fixed_array(&mut self, line: Line) -> Result<Decl, Stop>
        ensures reads { machine.Reads (machine.IsBehind (grammar.keyword words.Const) grammar.IsDecl line)
            (λ k. machine.Word words.Long ∷ machine.AnyName ∷ machine.This marks.OpenSquare ∷ machine.length_then k) self.old self.new result }
        ensures shorter { OnOk result (length self.new < length self.old) }
    {
        self.keyword(Keyword::Long)?;
        let name = self.name()?;
        self.sign(Mark::OpenSquare)?;
        let length = self.array_length()?;
        Ok(Decl::Array {
            line,
            name,
            length,
            fixed: true,
        })
    }

    /// A declaration, behind its `long` and its name.
    fn behind_declared(&mut self, line: Line, name: u32) -> Result<Decl, Stop>
        ensures reads { machine.Reads (machine.IsBehindDeclared line name) (λ k. machine.DeclTail ∷ k) self.old self.new result }
        ensures shorter { OnOk result (length self.new < length self.old) }
    {
        if self.pass_mark(Mark::OpenSquare) {
            let length = self.array_length()?;
            return Ok(Decl::Array {
                line,
                name,
                length,
                fixed: false,
            });
        }
        self.sign(Mark::Assign)?;
        let scalar = self.scalar(line, name)?;
        self.sign(Mark::Semicolon)?;
        Ok(scalar)
    }

    /// A scalar, behind its `=`, with its value.
    fn scalar(&mut self, line: Line, name: u32) -> Result<Decl, Stop>
        ensures reads { machine.Reads (machine.IsScalar line name) (λ k. machine.Signed ∷ k) self.old self.new result }
        ensures shorter { OnOk result (length self.new < length self.old) }
    {
        if self.pass_mark(Mark::Minus) {
            let number = self.number()?;
            return Ok(negative_scalar(line, name, number));
        }
        let number = self.number()?;
        Ok(positive_scalar(line, name, number))
    }

    /// The next declaration, if one begins here.
    fn next_declaration(&mut self) -> Result<Option<Decl>, Stop>
        ensures reads { machine.ReadsNext grammar.IsDecl machine.Decls self.old self.new result }
        ensures shorter { IfOk result (λ found. IsSome found → length self.new < length self.old) }
    {
        let line = self.line();
        if self.pass_keyword(Keyword::Const) {
            return Ok(Some(self.fixed_array(line)?));
        }
        if !self.pass_keyword(Keyword::Long) {
            return Ok(None);
        }
        let name = self.name()?;
        Ok(Some(self.behind_declared(line, name)?))
    }

    /// The declarations that follow, as many as there are.
    pub(crate) fn declarations(&mut self, alloc: Global) -> Result<Items<Decl>, Stop>
        ensures reads { machine.Reads grammar.AreDecls (λ k. machine.Decls ∷ k) self.old self.new result }
    {
        let mut list = Items::new(alloc);
        'list: while let Some(decl) = self.next_declaration()? {
            list.push(decl)?;
        }
        Ok(list)
    }
}

fn positive_scalar(line: Line, name: u32, number: u64) -> Decl
    requires { number ≤ grammar.greatest }
    ensures { result ≡ Decl.Scalar line name (pos number) }
{
    Decl::Scalar {
        line,
        name,
        value: number as i64,
    }
}

fn negative_scalar(line: Line, name: u32, number: u64) -> Decl
    requires { number ≤ grammar.greatest }
    ensures { result ≡ Decl.Scalar line name (neg_ℤ (pos number)) }
{
    Decl::Scalar {
        line,
        name,
        value: -(number as i64),
    }
}
