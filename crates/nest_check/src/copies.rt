//! Copies of a program's tree.
ghost use Rattle.std.specs.Prelude.{◌≡◌, IfOk};

use nest_syntax::{Arm, Decl, Loop, Name, NoMemory, Program, Stmt};
use sqlite_items::Items;
use std::alloc::Global;

/// An equal program.
pub(crate) fn copy_program(alloc: Global, program: &Program) -> Result<Program, NoMemory>
    ensures { IfOk result (λ copied. copied ≡ program.now) }
{
    Ok(Program {
        names: copy_names(alloc, program.names.as_slice())?,
        decls: copy_decls(alloc, program.decls.as_slice())?,
        regions: copy_regions(alloc, program.regions.as_slice())?,
    })
}

fn copy_names(alloc: Global, names: &[Name]) -> Result<Items<Name>, NoMemory>
    ensures { IfOk result (λ copied. copied ≡ names.now) }
{
    let mut copied = Items::new(alloc);
    for name in names {
        copied.push(Items::from_slice(alloc, name.as_slice())?)?;
    }
    Ok(copied)
}

fn copy_decls(alloc: Global, decls: &[Decl]) -> Result<Items<Decl>, NoMemory>
    ensures { IfOk result (λ copied. copied ≡ decls.now) }
{
    let mut copied = Items::new(alloc);
    for decl in decls {
        copied.push(copy_decl(decl))?;
    }
    Ok(copied)
}

fn copy_decl(decl: &Decl) -> Decl
    ensures { result ≡ decl.now }
{
    match decl {
        Decl::Array {
            line,
            name,
            length,
            fixed,
        } => Decl::Array {
            line: *line,
            name: *name,
            length: *length,
            fixed: *fixed,
        },
        Decl::Scalar { line, name, value } => Decl::Scalar {
            line: *line,
            name: *name,
            value: *value,
        },
    }
}

fn copy_regions(alloc: Global, regions: &[Loop]) -> Result<Items<Loop>, NoMemory>
    ensures { IfOk result (λ copied. copied ≡ regions.now) }
{
    let mut copied = Items::new(alloc);
    for region in regions {
        copied.push(copy_loop(alloc, region)?)?;
    }
    Ok(copied)
}

#[cycle(copy)]
fn copy_block(alloc: Global, stmts: &[Stmt]) -> Result<Items<Stmt>, NoMemory>
    ensures { IfOk result (λ copied. copied ≡ stmts.now) }
{
    let mut copied = Items::new(alloc);
    for stmt in stmts {
        copied.push(copy_stmt(alloc, stmt)?)?;
    }
    Ok(copied)
}

#[cycle(copy)]
fn copy_stmt(alloc: Global, stmt: &Stmt) -> Result<Stmt, NoMemory>
    ensures { IfOk result (λ copied. copied ≡ stmt.now) }
{
    match stmt {
        Stmt::Declare { line, name, value } => Ok(Stmt::Declare {
            line: *line,
            name: *name,
            value: value.copy(alloc)?,
        }),
        Stmt::Assign {
            line,
            name,
            op,
            value,
        } => Ok(Stmt::Assign {
            line: *line,
            name: *name,
            op: *op,
            value: value.copy(alloc)?,
        }),
        Stmt::Write {
            line,
            array,
            place,
            op,
            value,
        } => Ok(Stmt::Write {
            line: *line,
            array: *array,
            place: place.copy(alloc)?,
            op: *op,
            value: value.copy(alloc)?,
        }),
        Stmt::If { arms, other } => Ok(Stmt::If {
            arms: copy_arms(alloc, arms.as_slice())?,
            other: copy_block(alloc, other.as_slice())?,
        }),
        Stmt::Loop(inner) => Ok(Stmt::Loop(copy_loop(alloc, inner)?)),
    }
}

#[cycle(copy)]
fn copy_arms(alloc: Global, arms: &[Arm]) -> Result<Items<Arm>, NoMemory>
    ensures { IfOk result (λ copied. copied ≡ arms.now) }
{
    let mut copied = Items::new(alloc);
    for arm in arms {
        copied.push(copy_arm(alloc, arm)?)?;
    }
    Ok(copied)
}

#[cycle(copy)]
fn copy_arm(alloc: Global, arm: &Arm) -> Result<Arm, NoMemory>
    ensures { IfOk result (λ copied. copied ≡ arm.now) }
{
    Ok(Arm {
        line: arm.line,
        test: arm.test.copy(alloc)?,
        body: copy_block(alloc, arm.body.as_slice())?,
    })
}

#[cycle(copy)]
fn copy_loop(alloc: Global, inner: &Loop) -> Result<Loop, NoMemory>
    ensures { IfOk result (λ copied. copied ≡ inner.now) }
{
    Ok(Loop {
        line: inner.line,
        name: inner.name,
        low: inner.low.copy(alloc)?,
        high: inner.high.copy(alloc)?,
        through: inner.through,
        step: inner.step,
        body: copy_block(alloc, inner.body.as_slice())?,
    })
}
