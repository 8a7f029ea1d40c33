ghost use Rattle.std.specs.Prelude.{◌≡◌, ◌==◌, ◌||◌, nat_lt, length, OnOk, IfOk, map};
ghost use Rattle.std.specs.List.{flat_map};
ghost use Rattle.nest_check.specs.Through.{through};
ghost use Rattle.nest_syntax.specs.Shape.{Declares, body_of_loop};
ghost use Rattle.nest_check.specs.Entries.{statements, statements_of, statements_in_arm, statements_in_loop};
ghost use Rattle.nest_check.specs.Rules.{is_large_body};
ghost use Rattle.nest_check.specs.Noted.{counted, entered};

use crate::first_names::FirstNames;
use nest_syntax::{Arm, Line, Loop, NoMemory, Stmt};
use std::alloc::Global;

const MOST_STATEMENTS: u32 = 1024;

const MOST_LOCALS: usize = 16;

/// How much room is left for entries, and the names that they declare.
#[derive(Debug, Drop)]
pub(crate) struct Tally {
    pub room: u32,
    pub names: FirstNames,
}

impl Tally {
    /// Counts an entry that declares no name.
    pub fn count(&mut self)
        ensures { self.new ≡ counted self.old }
    {
        self.room = self.room.saturating_sub(1);
    }

    /// Counts an entry that declares a name. Names beyond `most` are left out.
    pub fn declare(&mut self, most: usize, name: u32, line: Line) -> Result<(), NoMemory>
        ensures { OnOk result (self.new ≡ entered most self.old (Declares (name, line))) }
    {
        self.room = self.room.saturating_sub(1);
        self.names.note(most, name, line)
    }

    /// Whether no room is left or there are more names than `most`.
    fn is_over(&self, most: usize) -> bool
        ensures { result ≡ (self.now.room == 0 || nat_lt most (length self.now.names)) }
    {
        self.room == 0 || most < self.names.len()
    }
}

/// Whether the body of an invocation has too many statements or too many names of locals.
pub(crate) fn is_large_body(alloc: Global, invoked: &Loop) -> Result<bool, NoMemory>
    ensures { IfOk result (λ large. large ≡ is_large_body (body_of_loop invoked.now)) }
{
    let mut tally = Tally {
        room: MOST_STATEMENTS + 1,
        names: FirstNames::new(alloc),
    };
    tally
        .names
        .note(MOST_LOCALS + 1, invoked.name, invoked.line)?;
    count_block(invoked.body.as_slice(), &mut tally)?;
    Ok(tally.is_over(MOST_LOCALS))
}

#[cycle(count)]
fn count_block(stmts: &[Stmt], tally: &mut Tally) -> Result<(), NoMemory>
    ensures { OnOk result (tally.new ≡ through (entered 17) tally.old (statements_of stmts.now)) }
{
    for stmt in stmts {
        count_stmt(stmt, tally)?;
    }
    Ok(())
}

#[cycle(count)]
fn count_stmt(stmt: &Stmt, tally: &mut Tally) -> Result<(), NoMemory>
    ensures { OnOk result (tally.new ≡ through (entered 17) tally.old (statements stmt.now)) }
{
    match stmt {
        Stmt::Declare { line, name, .. } => tally.declare(MOST_LOCALS + 1, *name, *line),
        Stmt::Assign { .. } => {
            tally.count();
            Ok(())
        }
        Stmt::Write { .. } => {
            tally.count();
            Ok(())
        }
        Stmt::If { arms, other } => {
            tally.count();
            count_arms(arms.as_slice(), tally)?;
            count_block(other.as_slice(), tally)
        }
        Stmt::Loop(inner) => count_loop(inner, tally),
    }
}

#[cycle(count)]
fn count_arms(arms: &[Arm], tally: &mut Tally) -> Result<(), NoMemory>
    ensures { OnOk result (tally.new ≡ through (entered 17) tally.old (flat_map statements_in_arm arms.now)) }
{
    for arm in arms {
        count_block(arm.body.as_slice(), tally)?;
    }
    Ok(())
}

#[cycle(count)]
fn count_loop(inner: &Loop, tally: &mut Tally) -> Result<(), NoMemory>
    ensures { OnOk result (tally.new ≡ through (entered 17) tally.old (statements_in_loop inner.now)) }
{
    tally.declare(MOST_LOCALS + 1, inner.name, inner.line)?;
    count_block(inner.body.as_slice(), tally)
}
