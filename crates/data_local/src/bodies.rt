ghost use Rattle.std.specs.Prelude.{◌≡◌, ◌++◌, map, IfOk, OnOk};
ghost use Rattle.std.specs.List.{flat_map};
ghost use Rattle.nest_syntax.specs.Arrays.{arrays_of};
ghost use Rattle.nest_syntax.specs.Shape.{bodies_of};
ghost use Rattle.data_local.specs.Bodies.{AreLocalsByBody, bodies_in_item, bodies_in_items};

use crate::locals::{DataLocals, data_locals_of};
use crate::written::WrittenArrays;
use nest_syntax::{Arm, NoMemory, Program, Stmt};
use std::alloc::Global;
use std::slice::from_ref;

/// The data locals of each body of a program, in the order of the bodies' numbers.
pub fn data_locals_by_body(alloc: Global, program: &Program) -> Result<Vec<DataLocals>, NoMemory>
    ensures { IfOk result (λ lists. AreLocalsByBody (arrays_of program.now.decls) (bodies_of program.now) lists.items) }
{
    let written = WrittenArrays::new(alloc, program.decls.as_slice())?;
    let bodies = bodies_of(alloc, program)?;
    let mut lists = Vec::new(alloc);
    for body in &bodies {
        lists.push(data_locals_of(alloc, &written, body)?)?;
    }
    Ok(lists)
}

/// The bodies of a program in textual order.
pub(crate) fn bodies_of<'a>(
    alloc: Global,
    program: &'a Program,
) -> Result<Vec<&'a [Stmt]>, NoMemory>
    ensures { IfOk result (λ found. map (λ body. body.now) found.items ≡ bodies_of program.now) }
{
    let mut found = Vec::new(alloc);
    for region in program.regions.as_slice() {
        add_bodies(region.body.as_slice(), &mut found)?;
    }
    Ok(found)
}

#[cycle(gather_bodies)]
fn add_bodies<'a>(stmts: &'a [Stmt], found: &mut Vec<&'a [Stmt]>) -> Result<(), NoMemory>
    ensures { OnOk result (map (λ body. body.now) found.new.items ≡ map (λ body. body.now) found.old.items ++ bodies_in_items stmts.now) }
{
    for stmt in stmts {
        add_bodies_of(stmt, found)?;
    }
    Ok(())
}

#[cycle(gather_bodies)]
fn add_bodies_of<'a>(stmt: &'a Stmt, found: &mut Vec<&'a [Stmt]>) -> Result<(), NoMemory>
    ensures { OnOk result (map (λ body. body.now) found.new.items ≡ map (λ body. body.now) found.old.items ++ bodies_in_item stmt.now) }
{
    match stmt {
        Stmt::Declare { .. } => Ok(()),
        Stmt::Assign { .. } => Ok(()),
        Stmt::Write { .. } => {
            found.push(from_ref(stmt))?;
            Ok(())
        }
        Stmt::If { arms, other } => {
            add_bodies_of_arms(arms.as_slice(), found)?;
            add_bodies(other.as_slice(), found)?;
            Ok(())
        }
        Stmt::Loop(invoked) => {
            found.push(invoked.body.as_slice())?;
            Ok(())
        }
    }
}

#[cycle(gather_bodies)]
fn add_bodies_of_arms<'a>(arms: &'a [Arm], found: &mut Vec<&'a [Stmt]>) -> Result<(), NoMemory>
    ensures { OnOk result (map (λ body. body.now) found.new.items ≡ map (λ body. body.now) found.old.items ++ flat_map (λ arm. bodies_in_items arm.body) arms.now) }
{
    for arm in arms {
        add_bodies(arm.body.as_slice(), found)?;
    }
    Ok(())
}
