ghost use Rattle.std.specs.Prelude.{◌≡◌, ◌++◌, ◌||◌, ◌==◌, ℕ, map, true, IfOk, OnOk};
ghost use Rattle.std.specs.List.{concat};
ghost use Rattle.nest_syntax.specs.Locals.{given, given_in_arm, given_in_loop, names_given};
ghost use Rattle.nest_syntax.specs.Among.{is_among};

use indexmap::IndexSet;
use nest_syntax::{Arm, Loop, NoMemory, Stmt};
use std::alloc::Global;

/// The names that a body gives: those that it declares or assigns, and those of the variables of its loops.
pub(crate) fn names_given(alloc: Global, body: &[Stmt]) -> Result<IndexSet<u32>, NoMemory>
    ensures { IfOk result (λ found. (name : ℕ) → is_among found.keys name ≡ is_among (names_given true body.now) name) }
{
    let mut names = Vec::new(alloc);
    add_block(body, &mut names)?;
    set_of(alloc, &names)
}

fn set_of(alloc: Global, names: &[u32]) -> Result<IndexSet<u32>, NoMemory>
    ensures { IfOk result (λ found. (name : ℕ) → is_among found.keys name ≡ is_among names.now name) }
{
    let mut found = IndexSet::new(alloc);
    for name in names {
        add_name(*name, &mut found)?;
    }
    Ok(found)
}

fn add_name(name: u32, found: &mut IndexSet<u32>) -> Result<(), NoMemory>
    ensures { OnOk result ((other : ℕ) → is_among found.new.keys other ≡ (is_among found.old.keys other || (other == name))) }
{
    found.insert(name)?;
    Ok(())
}

#[cycle(give)]
fn add_block(stmts: &[Stmt], names: &mut Vec<u32>) -> Result<(), NoMemory>
    ensures { OnOk result (names.new.items ≡ names.old.items ++ names_given true stmts.now) }
{
    for stmt in stmts {
        add_stmt(stmt, names)?;
    }
    Ok(())
}

#[cycle(give)]
fn add_stmt(stmt: &Stmt, names: &mut Vec<u32>) -> Result<(), NoMemory>
    ensures { OnOk result (names.new.items ≡ names.old.items ++ given true stmt.now) }
{
    match stmt {
        Stmt::Declare { name, .. } => {
            names.push(*name)?;
            Ok(())
        }
        Stmt::Assign { name, .. } => {
            names.push(*name)?;
            Ok(())
        }
        Stmt::Write { .. } => Ok(()),
        Stmt::If { arms, other } => {
            add_arms(arms.as_slice(), names)?;
            add_block(other.as_slice(), names)
        }
        Stmt::Loop(inner) => add_loop(inner, names),
    }
}

#[cycle(give)]
fn add_arms(arms: &[Arm], names: &mut Vec<u32>) -> Result<(), NoMemory>
    ensures { OnOk result (names.new.items ≡ names.old.items ++ concat (map (given_in_arm true) arms.now)) }
{
    for arm in arms {
        add_block(arm.body.as_slice(), names)?;
    }
    Ok(())
}

#[cycle(give)]
fn add_loop(inner: &Loop, names: &mut Vec<u32>) -> Result<(), NoMemory>
    ensures { OnOk result (names.new.items ≡ names.old.items ++ given_in_loop true inner.now) }
{
    names.push(inner.name)?;
    add_block(inner.body.as_slice(), names)
}
