ghost use Rattle.std.specs.Prelude.{◌≡◌, List, map, IfOk, OnOk};
ghost use Rattle.nest_syntax.specs.Arrays.{Array};
ghost use Rattle.nest_syntax.specs.Lowest.{IsLowest, lower_of, lines_where, Lowers};
ghost use Rattle.data_local.specs.Written.{TellsWritten};
ghost use Rattle.data_local.specs.Loops.{line_of};
ghost use Rattle.data_local.specs.Bounds.{HasDataBoundIn, HasDataBound};
ghost use Rattle.data_local.specs.Breaches.{is_data, has_data_bound};

use crate::bodies::bodies_of;
use crate::locals::{DataLocals, data_locals_of};
use crate::loops::loops_in;
use crate::written::WrittenArrays;
use nest_syntax::{Expr, Line, Loop, Lowest, NoMemory, Program, Stmt};
use std::alloc::Global;

/// The lowest line of a loop that stands inside a body and has a data expression as a bound. None comes exactly where
/// there is no such loop.
pub fn lowest_data_bound(alloc: Global, program: &Program) -> Result<Option<Line>, NoMemory>
    ensures { IfOk result (λ found. IsLowest (HasDataBound program.now) found) }
{
    let written = WrittenArrays::new(alloc, program.decls.as_slice())?;
    let bodies = bodies_of(alloc, program)?;
    let mut found = Lowest::new();
    for body in &bodies {
        note_data_bounds(alloc, body, &written, &mut found)?;
    }
    Ok(found.line())
}

// Notes the loops of a body that have a data expression as a bound.
fn note_data_bounds(
    alloc: Global,
    body: &[Stmt],
    written: &WrittenArrays,
    found: &mut Lowest,
) -> Result<(), NoMemory>
    ensures { OnOk result ((arrays : List Array) → TellsWritten arrays written.now → Lowers (HasDataBoundIn arrays body.now) found.old found.new) }
{
    let locals = data_locals_of(alloc, written, body)?;
    let inner = loops_in(alloc, body)?;
    note_where_data(&inner, &locals, written, found);
    Ok(())
}

fn note_where_data(
    loops: &[&Loop],
    locals: &DataLocals,
    written: &WrittenArrays,
    found: &mut Lowest,
)
    ensures { (arrays : List Array) → TellsWritten arrays written.now
        → found.new ≡ lower_of found.old (lines_where line_of (has_data_bound arrays locals.now) (map (λ l. l.now) loops.now)) }
{
    for one in loops {
        found.note_where(has_data_bound(one, locals, written), one.line);
    }
}

fn has_data_bound(one: &Loop, locals: &DataLocals, written: &WrittenArrays) -> bool
    ensures { (arrays : List Array) → TellsWritten arrays written.now → result ≡ has_data_bound arrays locals.now one.now }
{
    is_data(&one.low, locals, written) || is_data(&one.high, locals, written)
}

fn is_data(expr: &Expr, locals: &DataLocals, written: &WrittenArrays) -> bool
    ensures { (arrays : List Array) → TellsWritten arrays written.now → result ≡ is_data arrays locals.now expr.now }
{
    written.are_named_in(expr) || locals.are_named_in(expr)
}
