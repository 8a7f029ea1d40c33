ghost use Rattle.std.specs.Prelude.{◌≡◌, ◌≤◌, ◌+◌, ◌++◌, [], ◌∷◌, map, length, IfOk, OnOk};
ghost use Rattle.data_local.specs.Givings.{given, tried, given_by, given_by_loop};
ghost use Rattle.data_local.specs.Rows.{Adds, AddsArms};

use nest_syntax::{Arm, Expr, Loop, NoMemory, Stmt};

/// A giving of a body, or a test, whose number is that of its row, counted from 1. Both stand `under` the test of this
/// number and all that it stands under, or under none where it is 0.
#[derive(Clone, Copy)]
pub(crate) enum Row<'a> {
    Test {
        number: u32,
        test: &'a Expr,
        under: u32,
    },
    Gives {
        name: u32,
        value: &'a Expr,
        under: u32,
    },
}

#[cycle(keep)]
pub(crate) fn keep_block<'a>(
    stmts: &'a [Stmt],
    under: u32,
    rows: &mut Vec<Row<'a>>,
) -> Result<(), NoMemory>
    requires { under ≤ length rows.old.items }
    ensures { OnOk result (Adds rows.old.items rows.new.items under (given_by stmts.now)) }
{
    for stmt in stmts {
        keep_stmt(stmt, under, rows)?;
    }
    Ok(())
}

#[cycle(keep)]
fn keep_stmt<'a>(stmt: &'a Stmt, under: u32, rows: &mut Vec<Row<'a>>) -> Result<(), NoMemory>
    requires { under ≤ length rows.old.items }
    ensures { OnOk result (Adds rows.old.items rows.new.items under (given stmt.now)) }
{
    match stmt {
        Stmt::Declare { name, value, .. } => keep_giving(*name, value, under, rows),
        Stmt::Assign { name, value, .. } => keep_giving(*name, value, under, rows),
        Stmt::Write { .. } => Ok(()),
        Stmt::If { arms, other } => {
            let last = keep_arms(arms.as_slice(), under, rows)?;
            keep_block(other.as_slice(), last, rows)
        }
        Stmt::Loop(inner) => keep_loop(inner, under, rows),
    }
}

// The number of the last test, under which the last block stands.
#[cycle(keep)]
fn keep_arms<'a>(arms: &'a [Arm], under: u32, rows: &mut Vec<Row<'a>>) -> Result<u32, NoMemory>
    requires { under ≤ length rows.old.items }
    ensures { IfOk result (λ last. AddsArms rows.old.items rows.new.items under last (map tried arms.now)) }
{
    let mut last = under;
    for arm in arms {
        last = keep_test(&arm.test, last, rows)?;
        keep_block(arm.body.as_slice(), last, rows)?;
    }
    Ok(last)
}

#[cycle(keep)]
fn keep_loop<'a>(inner: &'a Loop, under: u32, rows: &mut Vec<Row<'a>>) -> Result<(), NoMemory>
    requires { under ≤ length rows.old.items }
    ensures { OnOk result (Adds rows.old.items rows.new.items under (given_by_loop inner.now)) }
{
    keep_block(inner.body.as_slice(), under, rows)
}

fn keep_giving<'a>(
    name: u32,
    value: &'a Expr,
    under: u32,
    rows: &mut Vec<Row<'a>>,
) -> Result<(), NoMemory>
    ensures { OnOk result (rows.new.items ≡ rows.old.items ++ Row.Gives name value.entry under ∷ []) }
{
    rows.push(Row::Gives { name, value, under })?;
    Ok(())
}

// Where a number would pass 32 bits, it answers `NoMemory`.
fn keep_test<'a>(test: &'a Expr, under: u32, rows: &mut Vec<Row<'a>>) -> Result<u32, NoMemory>
    ensures number { IfOk result (λ number. number ≡ length rows.old.items + 1) }
    ensures rows { IfOk result (λ number. rows.new.items ≡ rows.old.items ++ Row.Test number test.entry under ∷ []) }
{
    let Ok(number) = u32::try_from(rows.len() + 1) else {
        return Err(NoMemory);
    };
    rows.push(Row::Test {
        number,
        test,
        under,
    })?;
    Ok(number)
}
