//! Statements, blocks and loops. At a fault the cursor stands before the token that can't stand there.
ghost use Rattle.std.specs.Prelude.{◌∷◌, ◌<◌, ◌≤◌, length, IfOk, IsSome, OnOk};
ghost use Rattle.nest_lex.specs.declared.token.Keyword.TheVariants as words;
ghost use Rattle.nest_lex.specs.declared.token.Mark.TheVariants as marks;
ghost use Rattle.nest_parse.specs.Grammar as grammar;
ghost use Rattle.nest_parse.specs.Expected as machine;

use crate::cursor::Cursor;
use crate::refused::Stop;
use nest_lex::{Keyword, Mark};
use nest_syntax::{Arm, Expr, Line, Loop, Op, Stmt};
use sqlite_items::Items;
use std::alloc::Global;

impl<'a> Cursor<'a> {
    /// A declaration in a block, behind its `long`.
    fn local(&mut self, alloc: Global, line: Line) -> Result<Stmt, Stop>
        ensures reads { machine.Reads (machine.IsBehind (grammar.keyword words.Long) grammar.IsStatement line) (λ k. machine.AnyName ∷ machine.initial_then k) self.old self.new result }
        ensures shorter { OnOk result (length self.new < length self.old) }
    {
        let name = self.name()?;
        let value = self.initial(alloc)?;
        Ok(Stmt::Declare { line, name, value })
    }

    /// The operation and the value of an assignment, with its `;`.
    fn assigned(&mut self, alloc: Global) -> Result<(Op, Expr), Stop>
        ensures reads { machine.Reads machine.IsAssigned machine.assigned_then self.old self.new result }
        ensures shorter { OnOk result (length self.new < length self.old) }
    {
        let op = self.assignment()?;
        let value = self.value_then(alloc, Mark::Semicolon)?;
        Ok((op, value))
    }

    /// An assignment to a name or to a word, behind the name.
    fn target(&mut self, alloc: Global, line: Line, name: u32) -> Result<Stmt, Stop>
        ensures reads { machine.Reads (machine.IsBehind (grammar.named name) grammar.IsStatement line) (λ k. machine.Subscript ∷ machine.assigned_then k) self.old self.new result }
        ensures shorter { OnOk result (length self.new < length self.old) }
    {
        if self.pass_mark(Mark::OpenSquare) {
            let place = self.value_then(alloc, Mark::CloseSquare)?;
            let (op, value) = self.assigned(alloc)?;
            return Ok(Stmt::Write {
                line,
                array: name,
                place,
                op,
                value,
            });
        }
        let (op, value) = self.assigned(alloc)?;
        Ok(Stmt::Assign {
            line,
            name,
            op,
            value,
        })
    }

    #[cycle(block)]
    fn block(&mut self, alloc: Global) -> Result<Items<Stmt>, Stop>
        ensures reads { machine.Reads machine.IsBlock machine.block_then self.old self.new result }
        ensures shorter { OnOk result (length self.new < length self.old) }
    {
        self.sign(Mark::OpenCurly)?;
        let body = self.statements(alloc)?;
        self.sign(Mark::CloseCurly)?;
        Ok(body)
    }

    /// The statements that follow, as many as there are.
    #[cycle(block)]
    fn statements(&mut self, alloc: Global) -> Result<Items<Stmt>, Stop>
        ensures reads { machine.Reads grammar.IsStatements (λ k. machine.Statements ∷ k) self.old self.new result }
        ensures within { OnOk result (length self.new ≤ length self.old) }
    {
        let mut list = Items::new(alloc);
        'list: while let Some(stmt) = self.statement(alloc)? {
            list.push(stmt)?;
        }
        Ok(list)
    }

    /// The next statement, if one begins here.
    #[cycle(block)]
    fn statement(&mut self, alloc: Global) -> Result<Option<Stmt>, Stop>
        ensures reads { machine.ReadsNext grammar.IsStatement machine.Statements self.old self.new result }
        ensures shorter { IfOk result (λ found. IsSome found → length self.new < length self.old) }
        ensures within { OnOk result (length self.new ≤ length self.old) }
    {
        let line = self.line();
        if self.pass_keyword(Keyword::Long) {
            return Ok(Some(self.local(alloc, line)?));
        }
        if let Some(name) = self.pass_name() {
            return Ok(Some(self.target(alloc, line, name)?));
        }
        if self.pass_keyword(Keyword::If) {
            return Ok(Some(self.branch(alloc, line)?));
        }
        if self.pass_keyword(Keyword::For) {
            return Ok(Some(Stmt::Loop(self.turns(alloc, line)?)));
        }
        Ok(None)
    }

    /// An arm, behind its `if`.
    #[cycle(block)]
    fn arm(&mut self, alloc: Global, line: Line) -> Result<Arm, Stop>
        ensures reads { machine.Reads (machine.IsArmAt line) machine.arm_then self.old self.new result }
        ensures shorter { OnOk result (length self.new < length self.old) }
    {
        self.sign(Mark::OpenRound)?;
        let test = self.value_then(alloc, Mark::CloseRound)?;
        let body = self.block(alloc)?;
        Ok(Arm { line, test, body })
    }

    /// An `if` with all its arms, behind the first `if`.
    #[cycle(block)]
    fn branch(&mut self, alloc: Global, line: Line) -> Result<Stmt, Stop>
        ensures reads { machine.Reads (machine.IsBehind (grammar.keyword words.If) grammar.IsStatement line) (λ k. machine.arm_then (machine.Elses ∷ k)) self.old self.new result }
        ensures shorter { OnOk result (length self.new < length self.old) }
    {
        let first = self.arm(alloc, line)?;
        let mut arms = Items::new(alloc);
        arms.push(first)?;
        'arms: while self.pass_keyword(Keyword::Else) {
            let line = self.line();
            if !self.pass_keyword(Keyword::If) {
                let other = self.block(alloc)?;
                return Ok(Stmt::If { arms, other });
            }
            let next = self.arm(alloc, line)?;
            arms.push(next)?;
        }
        Ok(Stmt::If {
            arms,
            other: Items::new(alloc),
        })
    }

    /// A loop, behind its `for`.
    #[cycle(block)]
    pub(crate) fn turns(&mut self, alloc: Global, line: Line) -> Result<Loop, Stop>
        ensures reads { machine.Reads (machine.IsBehind (grammar.keyword words.For) grammar.IsLoop line)
            (λ k. machine.This marks.OpenRound ∷ machine.Word words.Long ∷ machine.LoopName ∷ k) self.old self.new result }
        ensures shorter { OnOk result (length self.new < length self.old) }
    {
        self.sign(Mark::OpenRound)?;
        self.keyword(Keyword::Long)?;
        let name = self.variable()?;
        self.turned(alloc, line, name)
    }

    /// A loop, behind the name of its variable.
    #[cycle(block)]
    fn turned(&mut self, alloc: Global, line: Line, name: u32) -> Result<Loop, Stop>
        ensures reads { machine.Reads (machine.IsBehindVariable line name) (machine.header_then name) self.old self.new result }
        ensures shorter { OnOk result (length self.new < length self.old) }
    {
        let low = self.initial(alloc)?;
        let (through, high) = self.test(alloc, name)?;
        let step = self.step(name)?;
        self.sign(Mark::CloseRound)?;
        let body = self.block(alloc)?;
        Ok(Loop {
            line,
            name,
            low,
            high,
            through,
            step,
            body,
        })
    }
}
