//! The opening of an engine: all its memory is taken here.
ghost use Rattle.std.specs.Prelude.{◌≡◌, IfOk, replicate};
ghost use Rattle.nest_syntax.specs.Arrays.{arrays_of, sizes_of};
ghost use Rattle.nest_mean.specs.Nest.{CanRun};
ghost use Rattle.progress_board.specs.Options.{IsInRange};
ghost use Rattle.task_code.specs.CodeOf.{IsCodeOf};
ghost use Rattle.task_frame.specs.Stops.{StopsInside};
ghost use Rattle.sched_cursor.specs.Laws.{IsCursorOf, restarted};
ghost use Rattle.domore_machine.specs.Machine as machine;
ghost use Rattle.domore_machine.specs.Facts.{no_facts};
ghost use Rattle.domore_core.specs.Tables.{state_of, setup_by, sizes_by, IsPlan, IsSound, IsDeskBy};

use crate::desk::Desk;
use crate::plan::Plan;
use crate::seat::Seat;
use crate::table::Table;
use crate::tally::Tally;
use addr_slice::Claims;
use nest_mean::{Job, Scalars};
use nest_partition::partition;
use nest_syntax::NoMemory;
use progress_board::Options;
use sched_cursor::Cursor;
use shadow_memory::Shadow;
use std::alloc::Global;
use task_code::{TaskCode, compile};

pub(crate) fn open_plan(alloc: Global, job: Job, options: Options) -> Result<Plan, NoMemory>
    requires { IsInRange options }
    ensures job { IfOk result (λ plan. plan.job ≡ job) }
    ensures options { IfOk result (λ plan. plan.options ≡ options) }
    ensures runs { IfOk result (λ plan. CanRun plan.job) }
    ensures code { IfOk result (λ plan. IsCodeOf plan.job.program plan.code) }
    ensures inside { IfOk result (λ plan. StopsInside (sizes_by plan) plan.code) }
    ensures plan { IfOk result (λ plan. IsPlan plan) }
{
    let code = compiled(alloc, &job)?;
    let split = partition(alloc, job.checked())?;
    Ok(Plan {
        job,
        options,
        code,
        split,
    })
}

// The code of a job's bodies.
fn compiled(alloc: Global, job: &Job) -> Result<TaskCode, NoMemory>
    ensures code { IfOk result (λ code. IsCodeOf job.now.program code) }
    ensures inside { IfOk result (λ code. StopsInside (sizes_of (arrays_of job.now.program.decls)) code) }
{
    compile(alloc, job.checked())
}

/// The table of a run, with no iteration handed out.
pub(crate) fn open_table(alloc: Global, plan: &Plan) -> Result<Table, NoMemory>
    requires { IsPlan plan.now }
    ensures state { IfOk result (λ table. state_of table ≡ machine.opening (setup_by plan.now) (restarted plan.now.job.program table.desk.cursor) plan.now.job.opening.words) }
    ensures sound { IfOk result (λ table. IsSound plan.now table) }
{
    Ok(Table {
        words: plan.job.words().copy(alloc)?,
        seats: open_seats(alloc, plan.options.workers)?,
        trap: None,
        halted: false,
        desk: open_desk(alloc, plan)?,
    })
}

fn open_desk(alloc: Global, plan: &Plan) -> Result<Desk, NoMemory>
    requires { IsPlan plan.now }
    ensures cursor { IfOk result (λ desk. desk.cursor ≡ restarted plan.now.job.program desk.cursor) }
    ensures facts { IfOk result (λ desk. desk.tally.facts ≡ no_facts) }
    ensures desk { IfOk result (λ desk. IsDeskBy plan.now desk) }
{
    let checked = plan.job.checked();
    let names = checked.program().names.len();
    let claims = Claims::with_room(alloc, checked.lengths())?;
    let shadow = Shadow::new(alloc, claims.words() as u32, plan.options.workers)?;
    Ok(Desk {
        cursor: Cursor::start(alloc, checked)?,
        tally: Tally::open(plan.options),
        shadow,
        claims,
        scalars: Scalars::zeros(alloc, names)?,
    })
}

fn open_seats(alloc: Global, workers: u8) -> Result<Vec<Seat>, NoMemory>
    ensures { IfOk result (λ seats. seats.items ≡ replicate workers machine.opening_seat) }
{
    let mut seats = Vec::with_capacity(alloc, workers as usize)?;
    'open: while seats.len() < workers as usize {
        seats.push(Seat::open(alloc)?)?;
    }
    Ok(seats)
}
