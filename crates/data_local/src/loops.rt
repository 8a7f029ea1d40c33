ghost use Rattle.std.specs.Prelude.{◌≡◌, ◌∷◌, ◌++◌, map, IfOk, OnOk};
ghost use Rattle.std.specs.List.{flat_map};
ghost use Rattle.data_local.specs.Loops.{loops, loops_in, loops_of, loops_in_arm};

use nest_syntax::{Arm, Loop, NoMemory, Program, Stmt};
use std::alloc::Global;

/// All loops of a program, its regions among them, in the order of the text.
pub fn loops_of<'a>(alloc: Global, program: &'a Program) -> Result<Vec<&'a Loop>, NoMemory>
    ensures { IfOk result (λ found. map (λ l. l.now) found.items ≡ loops_of program.now) }
{
    let mut found = Vec::new(alloc);
    for region in program.regions.as_slice() {
        add_loop(region, &mut found)?;
    }
    Ok(found)
}

/// The loops of a body, at any depth.
pub(crate) fn loops_in<'a>(alloc: Global, body: &'a [Stmt]) -> Result<Vec<&'a Loop>, NoMemory>
    ensures { IfOk result (λ found. map (λ l. l.now) found.items ≡ loops_in body.now) }
{
    let mut found = Vec::new(alloc);
    add_loops(body, &mut found)?;
    Ok(found)
}

#[cycle(gather)]
fn add_loops<'a>(stmts: &'a [Stmt], found: &mut Vec<&'a Loop>) -> Result<(), NoMemory>
    ensures { OnOk result (map (λ l. l.now) found.new.items ≡ map (λ l. l.now) found.old.items ++ loops_in stmts.now) }
{
    for stmt in stmts {
        add_loops_of(stmt, found)?;
    }
    Ok(())
}

#[cycle(gather)]
fn add_loops_of<'a>(stmt: &'a Stmt, found: &mut Vec<&'a Loop>) -> Result<(), NoMemory>
    ensures { OnOk result (map (λ l. l.now) found.new.items ≡ map (λ l. l.now) found.old.items ++ loops stmt.now) }
{
    match stmt {
        Stmt::Declare { .. } => Ok(()),
        Stmt::Assign { .. } => Ok(()),
        Stmt::Write { .. } => Ok(()),
        Stmt::If { arms, other } => {
            add_loops_of_arms(arms.as_slice(), found)?;
            add_loops(other.as_slice(), found)?;
            Ok(())
        }
        Stmt::Loop(inner) => {
            add_loop(inner, found)?;
            Ok(())
        }
    }
}

#[cycle(gather)]
fn add_loops_of_arms<'a>(arms: &'a [Arm], found: &mut Vec<&'a Loop>) -> Result<(), NoMemory>
    ensures { OnOk result (map (λ l. l.now) found.new.items ≡ map (λ l. l.now) found.old.items ++ flat_map loops_in_arm arms.now) }
{
    for arm in arms {
        add_loops(arm.body.as_slice(), found)?;
    }
    Ok(())
}

#[cycle(gather)]
fn add_loop<'a>(inner: &'a Loop, found: &mut Vec<&'a Loop>) -> Result<(), NoMemory>
    ensures { OnOk result (map (λ l. l.now) found.new.items ≡ map (λ l. l.now) found.old.items ++ (inner.now ∷ loops_in inner.now.body)) }
{
    found.push(inner)?;
    add_loops(inner.body.as_slice(), found)
}
