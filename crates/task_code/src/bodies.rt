ghost use Rattle.std.specs.Prelude.{◌≡◌, [], map, IfOk, OnOk};
ghost use Rattle.std.specs.List.{flat_map};
ghost use Rattle.nest_syntax.specs.Shape.{items, items_of, items_in_arm, invoked_by};
ghost use Rattle.nest_check.specs.Through.{through};
ghost use Rattle.task_code.specs.Bodies.{told, with_invoked};

use nest_syntax::{Arm, Line, Loop, NoMemory, Program, Stmt};
use std::alloc::Global;
use std::slice::from_ref;

/// A body of a program: the loop that invokes it, where one does, and its statements.
#[derive(Clone, Copy, Debug)]
pub struct Body<'a> {
    pub line: Line,
    pub header: Option<&'a Loop>,
    pub stmts: &'a [Stmt],
}

/// The bodies of a program in textual order.
pub fn bodies_of<'a>(alloc: Global, program: &'a Program) -> Result<Vec<Body<'a>>, NoMemory>
    ensures { IfOk result (λ found. map told found.items ≡ invoked_by program.now) }
{
    let mut found = Vec::new(alloc);
    for region in program.regions.as_slice() {
        add_items(region.body.as_slice(), &mut found)?;
    }
    Ok(found)
}

#[cycle(gather)]
fn add_items<'a>(stmts: &'a [Stmt], found: &mut Vec<Body<'a>>) -> Result<(), NoMemory>
    ensures { OnOk result (map told found.new.items ≡ through with_invoked (map told found.old.items) (items_of stmts.now)) }
{
    for stmt in stmts {
        add_item(stmt, found)?;
    }
    Ok(())
}

#[cycle(gather)]
fn add_item<'a>(stmt: &'a Stmt, found: &mut Vec<Body<'a>>) -> Result<(), NoMemory>
    ensures { OnOk result (map told found.new.items ≡ through with_invoked (map told found.old.items) (items stmt.now)) }
{
    match stmt {
        Stmt::Declare { .. } => Ok(()),
        Stmt::Assign { .. } => Ok(()),
        Stmt::Write { line, .. } => {
            found.push(Body {
                line: *line,
                header: None,
                stmts: from_ref(stmt),
            })?;
            Ok(())
        }
        Stmt::If { arms, other } => {
            add_arms(arms.as_slice(), found)?;
            add_items(other.as_slice(), found)
        }
        Stmt::Loop(invoked) => {
            found.push(Body {
                line: invoked.line,
                header: Some(invoked),
                stmts: invoked.body.as_slice(),
            })?;
            Ok(())
        }
    }
}

#[cycle(gather)]
fn add_arms<'a>(arms: &'a [Arm], found: &mut Vec<Body<'a>>) -> Result<(), NoMemory>
    ensures { OnOk result (map told found.new.items ≡ through with_invoked (map told found.old.items) (flat_map items_in_arm arms.now)) }
{
    for arm in arms {
        add_items(arm.body.as_slice(), found)?;
    }
    Ok(())
}
