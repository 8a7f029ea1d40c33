//! The header of a loop.
ghost use Rattle.std.specs.Prelude.{◌∷◌, ◌<◌, length, OnOk};
ghost use Rattle.nest_parse.specs.Grammar as grammar;
ghost use Rattle.nest_parse.specs.Expected as machine;

use crate::cursor::Cursor;
use crate::refused::Stop;
use crate::value::SHIFT;
use nest_lex::Mark;
use nest_syntax::Expr;
use std::alloc::Global;

impl<'a> Cursor<'a> {
    /// `= VALUE;`
    pub(crate) fn initial(&mut self, alloc: Global) -> Result<Expr, Stop>
        ensures reads { machine.Reads machine.IsInitial machine.initial_then self.old self.new result }
        ensures shorter { OnOk result (length self.new < length self.old) }
    {
        self.sign(Mark::Assign)?;
        self.value_then(alloc, Mark::Semicolon)
    }

    /// `NAME < HIGH;` or `NAME <= HIGH;`: whether the loop goes through its high bound, and the bound.
    pub(crate) fn test(&mut self, alloc: Global, name: u32) -> Result<(bool, Expr), Stop>
        ensures reads { machine.Reads (machine.IsTest name) (machine.test_then name) self.old self.new result }
        ensures shorter { OnOk result (length self.new < length self.old) }
    {
        self.same_name(name)?;
        let through = self.comparison()?;
        let high = self.terms(alloc, SHIFT)?;
        self.sign(Mark::Semicolon)?;
        Ok((through, high))
    }

    /// `NAME++`, `++NAME` or `NAME += STEP`.
    pub(crate) fn step(&mut self, name: u32) -> Result<u64, Stop>
        ensures reads { machine.Reads (grammar.IsStep name) (λ k. machine.Step name ∷ k) self.old self.new result }
        ensures shorter { OnOk result (length self.new < length self.old) }
    {
        if self.pass_mark(Mark::Increment) {
            self.same_name(name)?;
            return Ok(1);
        }
        self.same_name(name)?;
        if self.pass_mark(Mark::Increment) {
            return Ok(1);
        }
        self.sign(Mark::PlusAssign)?;
        self.number()
    }
}
