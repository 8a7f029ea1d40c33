//! Expressions. At a fault the cursor stands before the token that can't stand there.
ghost use Rattle.std.specs.Prelude.{◌≡◌, suc, pos, ◌∷◌, ◌<◌, ◌≤◌, length, OnOk};
ghost use Rattle.nest_parse.specs.Grammar as grammar;
ghost use Rattle.nest_parse.specs.Expected as machine;

use crate::cursor::Cursor;
use crate::refused::Stop;
use nest_lex::Mark;
use nest_syntax::Expr;
use sqlite_items::Boxed;
use std::alloc::Global;

/// Two depths for `terms`: below the first are the levels of all operators, below the second those up to the shifts.
pub(crate) const LOOSEST: usize = 10;

pub(crate) const SHIFT: usize = 3;

fn literal(number: u64) -> Expr
    requires { number ≤ grammar.greatest }
    ensures { result ≡ Expr.Number (pos number) }
{
    Expr::Number(number as i64)
}

impl<'a> Cursor<'a> {
    #[cycle(value)]
    pub(crate) fn value(&mut self, alloc: Global) -> Result<Expr, Stop>
        ensures reads { machine.Reads grammar.IsExpr machine.value_then self.old self.new result }
        ensures shorter { OnOk result (length self.new < length self.old) }
    {
        let test = self.terms(alloc, LOOSEST)?;
        if !self.pass_mark(Mark::Question) {
            return Ok(test);
        }
        let first = self.value_then(alloc, Mark::Colon)?;
        let second = self.value(alloc)?;
        Ok(Expr::Choice(
            Boxed::new(alloc, test)?,
            Boxed::new(alloc, first)?,
            Boxed::new(alloc, second)?,
        ))
    }

    /// An expression and the mark that ends it.
    #[cycle(value)]
    pub(crate) fn value_then(&mut self, alloc: Global, mark: Mark) -> Result<Expr, Stop>
        ensures reads { machine.Reads (machine.IsExprThen mark) (λ k. machine.value_then (machine.This mark ∷ k)) self.old self.new result }
        ensures shorter { OnOk result (length self.new < length self.old) }
    {
        let value = self.value(alloc)?;
        self.sign(mark)?;
        Ok(value)
    }

    /// An expression whose operators are of the levels below `depth`.
    #[cycle(value)]
    pub(crate) fn terms(&mut self, alloc: Global, depth: usize) -> Result<Expr, Stop>
        requires { depth ≤ 10 }
        ensures reads { machine.Reads (grammar.IsLevel depth) (machine.level_then depth) self.old self.new result }
        ensures shorter { OnOk result (length self.new < length self.old) }
    {
        if depth == 0 {
            self.factor(alloc)
        } else {
            self.chain(alloc, depth - 1)
        }
    }

    /// Terms of `depth`, joined by its operators, which group to the left.
    #[cycle(value)]
    fn chain(&mut self, alloc: Global, depth: usize) -> Result<Expr, Stop>
        requires { depth ≤ 9 }
        ensures reads { machine.Reads (grammar.IsLevel (suc depth)) (machine.level_then (suc depth)) self.old self.new result }
        ensures shorter { OnOk result (length self.new < length self.old) }
    {
        let mut left = self.terms(alloc, depth)?;
        'joins: while let Some(op) = self.pass_binary(depth) {
            let right = self.terms(alloc, depth)?;
            left = Expr::Binary(op, Boxed::new(alloc, left)?, Boxed::new(alloc, right)?);
        }
        Ok(left)
    }

    #[cycle(value)]
    fn factor(&mut self, alloc: Global) -> Result<Expr, Stop>
        ensures reads { machine.Reads grammar.IsFactor (λ k. machine.Factor ∷ k) self.old self.new result }
        ensures shorter { OnOk result (length self.new < length self.old) }
    {
        if let Some(name) = self.pass_name() {
            return self.behind_name(alloc, name);
        }
        if self.pass_mark(Mark::OpenRound) {
            return self.value_then(alloc, Mark::CloseRound);
        }
        if let Some(op) = self.pass_unary() {
            let part = self.factor(alloc)?;
            return Ok(Expr::Unary(op, Boxed::new(alloc, part)?));
        }
        let number = self.number()?;
        Ok(literal(number))
    }

    /// What begins with a name that was passed: a word, where a `[` follows.
    #[cycle(value)]
    fn behind_name(&mut self, alloc: Global, name: u32) -> Result<Expr, Stop>
        ensures reads { machine.Reads (machine.IsBehindName name) (λ k. machine.Subscript ∷ k) self.old self.new result }
        ensures within { OnOk result (length self.new ≤ length self.old) }
    {
        if !self.pass_mark(Mark::OpenSquare) {
            return Ok(Expr::Scalar(name));
        }
        let place = self.value_then(alloc, Mark::CloseSquare)?;
        Ok(Expr::Word(name, Boxed::new(alloc, place)?))
    }
}
