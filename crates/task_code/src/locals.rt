ghost use Rattle.std.specs.Prelude.{◌≡◌, IfOk, OnOk};
ghost use Rattle.std.specs.List.{flat_map};
ghost use Rattle.nest_check.specs.Through.{through};
ghost use Rattle.nest_check.specs.Entries.{statements, statements_of, statements_in_arm, statements_in_loop};
ghost use Rattle.task_code.specs.Bodies.{told, with_name, with_variable, with_entry, layout_of};

use crate::bodies::Body;
use crate::layout::place_of;
use nest_syntax::{Arm, Loop, NoMemory, Stmt};
use std::alloc::Global;

/// The locals of a body, each once: the variable of the loop that invokes it, where one does, and then those that the body
/// declares, in the order of its text.
pub(crate) fn locals_of(alloc: Global, body: &Body<'_>) -> Result<Vec<u32>, NoMemory>
    ensures { IfOk result (λ names. names.items ≡ layout_of (told body.now)) }
{
    let mut names = Vec::new(alloc);
    note_variable(body, &mut names)?;
    note_block(body.stmts, &mut names)?;
    Ok(names)
}

fn note(name: u32, names: &mut Vec<u32>) -> Result<(), NoMemory>
    ensures { OnOk result (names.new.items ≡ with_name names.old.items name) }
{
    if place_of(names.as_slice(), name).is_none() {
        names.push(name)?;
    }
    Ok(())
}

fn note_variable(body: &Body<'_>, names: &mut Vec<u32>) -> Result<(), NoMemory>
    ensures { OnOk result (names.new.items ≡ with_variable (told body.now).header names.old.items) }
{
    match body.header {
        Some(invoked) => note(invoked.name, names),
        None => Ok(()),
    }
}

#[cycle(walk)]
fn note_block(stmts: &[Stmt], names: &mut Vec<u32>) -> Result<(), NoMemory>
    ensures { OnOk result (names.new.items ≡ through with_entry names.old.items (statements_of stmts.now)) }
{
    for stmt in stmts {
        note_stmt(stmt, names)?;
    }
    Ok(())
}

#[cycle(walk)]
fn note_stmt(stmt: &Stmt, names: &mut Vec<u32>) -> Result<(), NoMemory>
    ensures { OnOk result (names.new.items ≡ through with_entry names.old.items (statements stmt.now)) }
{
    match stmt {
        Stmt::Declare { name, .. } => note(*name, names),
        Stmt::Assign { .. } => Ok(()),
        Stmt::Write { .. } => Ok(()),
        Stmt::If { arms, other } => {
            note_arms(arms.as_slice(), names)?;
            note_block(other.as_slice(), names)
        }
        Stmt::Loop(inner) => note_loop(inner, names),
    }
}

#[cycle(walk)]
fn note_arms(arms: &[Arm], names: &mut Vec<u32>) -> Result<(), NoMemory>
    ensures { OnOk result (names.new.items ≡ through with_entry names.old.items (flat_map statements_in_arm arms.now)) }
{
    for arm in arms {
        note_block(arm.body.as_slice(), names)?;
    }
    Ok(())
}

#[cycle(walk)]
fn note_loop(inner: &Loop, names: &mut Vec<u32>) -> Result<(), NoMemory>
    ensures { OnOk result (names.new.items ≡ through with_entry names.old.items (statements_in_loop inner.now)) }
{
    note(inner.name, names)?;
    note_block(inner.body.as_slice(), names)
}
