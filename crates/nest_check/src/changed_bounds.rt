ghost use Rattle.std.specs.Prelude.{◌≡◌, ◌||◌, ℕ, List, IfOk};
ghost use Rattle.nest_syntax.specs.Lowest.{lowest};
ghost use Rattle.nest_syntax.specs.Among.{is_among};
ghost use Rattle.nest_check.specs.ChangedBounds.{changes, changes_one, changes_one_in_arms, changes_in_loop, changes_its_bound, lines_of_changed_bounds};
ghost use Rattle.nest_check.specs.NamedIn.{HasSameNames};

use crate::named::NamedIn;
use data_local::loops_of;
use nest_syntax::{Arm, Line, Loop, Lowest, NoMemory, Program, Stmt};
use std::alloc::Global;

/// The lowest line of a loop whose high bound names its own variable or what the loop assigns.
pub(crate) fn lowest_changed_bound(
    alloc: Global,
    program: &Program,
) -> Result<Option<Line>, NoMemory>
    ensures { IfOk result (λ found. found ≡ lowest (lines_of_changed_bounds program.now)) }
{
    let loops = loops_of(alloc, program)?;
    let mut found = Lowest::new();
    for one in &loops {
        found.note_where(changes_its_bound(alloc, one)?, one.line);
    }
    Ok(found.line())
}

fn changes_its_bound(alloc: Global, one: &Loop) -> Result<bool, NoMemory>
    ensures { IfOk result (λ changes. changes ≡ changes_its_bound one.now) }
{
    let high = NamedIn::new(alloc, &one.high)?;
    Ok(is_changed(one, &high))
}

// Whether a loop changes one of these names, as its variable or by an assignment.
fn is_changed(one: &Loop, high: &NamedIn) -> bool
    ensures { (scalars arrays : List ℕ) → HasSameNames high.now scalars arrays → result ≡ (is_among scalars one.now.name || changes_one scalars arrays one.now.body) }
{
    high.has_scalar(one.name) || block_changes(one.body.as_slice(), high)
}

// Whether one of the statements assigns a name of the bound.
#[cycle(change)]
fn block_changes(stmts: &[Stmt], high: &NamedIn) -> bool
    ensures { (scalars arrays : List ℕ) → HasSameNames high.now scalars arrays → result ≡ changes_one scalars arrays stmts.now }
{
    for stmt in stmts {
        if stmt_changes(stmt, high) {
            return true;
        }
    }
    false
}

#[cycle(change)]
fn stmt_changes(stmt: &Stmt, high: &NamedIn) -> bool
    ensures { (scalars arrays : List ℕ) → HasSameNames high.now scalars arrays → result ≡ changes scalars arrays stmt.now }
{
    match stmt {
        Stmt::Declare { .. } => false,
        Stmt::Assign { name, .. } => high.has_scalar(*name),
        Stmt::Write { array, .. } => high.has_array(*array),
        Stmt::If { arms, other } => {
            arms_change(arms.as_slice(), high) || block_changes(other.as_slice(), high)
        }
        Stmt::Loop(inner) => loop_changes(inner, high),
    }
}

#[cycle(change)]
fn arms_change(arms: &[Arm], high: &NamedIn) -> bool
    ensures { (scalars arrays : List ℕ) → HasSameNames high.now scalars arrays → result ≡ changes_one_in_arms scalars arrays arms.now }
{
    for arm in arms {
        if block_changes(arm.body.as_slice(), high) {
            return true;
        }
    }
    false
}

#[cycle(change)]
fn loop_changes(inner: &Loop, high: &NamedIn) -> bool
    ensures { (scalars arrays : List ℕ) → HasSameNames high.now scalars arrays → result ≡ changes_in_loop scalars arrays inner.now }
{
    block_changes(inner.body.as_slice(), high)
}
