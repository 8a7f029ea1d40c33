ghost use Rattle.std.specs.Prelude.{◌≡◌, ◌++◌, ◌∷◌, [], OnOk, map, false, true};
ghost use Rattle.nest_syntax.specs.Words.{operation_of};
ghost use Rattle.dep_graph.specs.Accesses.{access, reads, changes, accesses, arm_accesses, loop_accesses, block_accesses, all_of, Knows};

use crate::accesses::{Access, AccessAt, Invocation};
use crate::around::{Around, Header, header_of};
use nest_syntax::{Arm, Expr, Line, Loop, NoMemory, Op, Stmt};

impl Invocation<'_> {
    fn add_access(
        &self,
        at: AccessAt,
        place: &Expr,
        around: Around,
        found: &mut Vec<Access>,
    ) -> Result<(), NoMemory>
        requires { Knows self.now.checked.now self.now.nest.now self.now.written self.now.given.keys }
        ensures { OnOk result (found.new.items ≡ found.old.items ++ access self.now.checked.now self.now.nest.now around at.array place.now at.write at.line) }
    {
        if self.written.has(at.array) {
            let subscript = self.subscript_of(around, place)?;
            found.push(Access { at, subscript })?;
        }
        Ok(())
    }

    fn add_reads(
        &self,
        expr: &Expr,
        line: Line,
        around: Around,
        found: &mut Vec<Access>,
    ) -> Result<(), NoMemory>
        requires { Knows self.now.checked.now self.now.nest.now self.now.written self.now.given.keys }
        ensures { OnOk result (found.new.items ≡ found.old.items ++ reads self.now.checked.now self.now.nest.now line around expr.now) }
    {
        match expr {
            Expr::Number(_) => Ok(()),
            Expr::Scalar(_) => Ok(()),
            Expr::Word(array, place) => {
                self.add_reads(place.get(), line, around, found)?;
                let at = AccessAt {
                    array: *array,
                    write: false,
                    line,
                };
                self.add_access(at, place.get(), around, found)
            }
            Expr::Unary(_, part) => self.add_reads(part.get(), line, around, found),
            Expr::Binary(_, left, right) => {
                self.add_reads(left.get(), line, around, found)?;
                self.add_reads(right.get(), line, around, found)
            }
            Expr::Choice(test, first, second) => {
                self.add_reads(test.get(), line, around, found)?;
                self.add_reads(first.get(), line, around, found)?;
                self.add_reads(second.get(), line, around, found)
            }
        }
    }

    // Behind `op=` the word is read before it is written.
    fn add_changes(
        &self,
        at: AccessAt,
        op: Op,
        place: &Expr,
        around: Around,
        found: &mut Vec<Access>,
    ) -> Result<(), NoMemory>
        requires { Knows self.now.checked.now self.now.nest.now self.now.written self.now.given.keys }
        ensures { OnOk result (found.new.items ≡ found.old.items ++ changes self.now.checked.now self.now.nest.now around at.array place.now (operation_of op) at.line) }
    {
        let write = AccessAt { write: true, ..at };
        match op {
            Op::Set => self.add_access(write, place, around, found),
            _ => {
                let read = AccessAt { write: false, ..at };
                self.add_access(read, place, around, found)?;
                self.add_access(write, place, around, found)
            }
        }
    }

    #[cycle(gather)]
    pub(crate) fn add_block(
        &self,
        stmts: &[Stmt],
        around: Around,
        found: &mut Vec<Access>,
    ) -> Result<(), NoMemory>
        requires { Knows self.now.checked.now self.now.nest.now self.now.written self.now.given.keys }
        ensures { OnOk result (found.new.items ≡ found.old.items ++ block_accesses self.now.checked.now self.now.nest.now stmts.now around) }
    {
        for stmt in stmts {
            self.add_stmt(stmt, around, found)?;
        }
        Ok(())
    }

    #[cycle(gather)]
    fn add_stmt(&self, stmt: &Stmt, around: Around, found: &mut Vec<Access>) -> Result<(), NoMemory>
        requires { Knows self.now.checked.now self.now.nest.now self.now.written self.now.given.keys }
        ensures { OnOk result (found.new.items ≡ found.old.items ++ accesses self.now.checked.now self.now.nest.now stmt.now around) }
    {
        match stmt {
            Stmt::Declare { line, value, .. } => self.add_reads(value, *line, around, found),
            Stmt::Assign { line, value, .. } => self.add_reads(value, *line, around, found),
            Stmt::Write {
                line,
                array,
                place,
                op,
                value,
            } => {
                self.add_reads(place, *line, around, found)?;
                self.add_reads(value, *line, around, found)?;
                let at = AccessAt {
                    array: *array,
                    write: true,
                    line: *line,
                };
                self.add_changes(at, *op, place, around, found)
            }
            Stmt::If { arms, other } => {
                self.add_arms(arms.as_slice(), around, found)?;
                self.add_block(other.as_slice(), around, found)
            }
            Stmt::Loop(inner) => self.add_loop(inner, around, found),
        }
    }

    #[cycle(gather)]
    fn add_arms(
        &self,
        arms: &[Arm],
        around: Around,
        found: &mut Vec<Access>,
    ) -> Result<(), NoMemory>
        requires { Knows self.now.checked.now self.now.nest.now self.now.written self.now.given.keys }
        ensures { OnOk result (found.new.items ≡ found.old.items ++ all_of (map (arm_accesses self.now.checked.now self.now.nest.now) arms.now) around) }
    {
        for arm in arms {
            self.add_reads(&arm.test, arm.line, around, found)?;
            self.add_block(arm.body.as_slice(), around, found)?;
        }
        Ok(())
    }

    #[cycle(gather)]
    fn add_loop(
        &self,
        inner: &Loop,
        around: Around,
        found: &mut Vec<Access>,
    ) -> Result<(), NoMemory>
        requires { Knows self.now.checked.now self.now.nest.now self.now.written self.now.given.keys }
        ensures { OnOk result (found.new.items ≡ found.old.items ++ loop_accesses self.now.checked.now self.now.nest.now inner.now around) }
    {
        self.add_reads(&inner.low, inner.line, around, found)?;
        self.add_reads(&inner.high, inner.line, around, found)?;
        match header_of(inner) {
            Header::Open => self.add_block(inner.body.as_slice(), around, found),
            Header::Idle => Ok(()),
            Header::Turns(turning) => {
                self.add_block(inner.body.as_slice(), around.within(turning), found)
            }
        }
    }
}
