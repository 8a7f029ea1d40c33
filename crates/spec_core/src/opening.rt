//! The opening of an engine: all its memory is taken here.
ghost use Rattle.std.specs.Prelude.{◌≡◌, ◌<◌, ◌*◌, [], false, None, IfOk, map, length, replicate, slice_index_or};
ghost use Rattle.nest_syntax.specs.Arrays.{Array, arrays_of};
ghost use Rattle.nest_mean.specs.Nest.{CanRun};
ghost use Rattle.progress_board.specs.Options.{IsInRange};
ghost use Rattle.task_code.specs.CodeOf.{IsCodeOf};
ghost use Rattle.task_frame.specs.Stops.{StopsInside};
ghost use Rattle.sched_cursor.specs.Laws.{restarted};
ghost use Rattle.spec_machine.specs.Facts.{no_facts};
ghost use Rattle.spec_machine.specs.Machine as machine;
ghost use Rattle.spec_core.specs.Signatures.{signs};
ghost use Rattle.spec_core.specs.Tables.{state_of, setup_by, sizes_by, IsPlan, IsSound, IsDeskBy};

use crate::desk::Desk;
use crate::epochs::Epochs;
use crate::plan::Plan;
use crate::seat::Seat;
use crate::shared::shared_bodies;
use crate::table::Table;
use crate::tally::Tally;
use checkpoint::Checkpoint;
use epoch_plan::Seen;
use nest_check::Checked;
use nest_mean::Job;
use nest_syntax::{Decl, NoMemory};
use progress_board::Options;
use range_sign::Signature;
use sched_cursor::Cursor;
use spec_checker::Checker;
use std::alloc::Global;
use task_code::compile;

pub(crate) fn open_plan(alloc: Global, job: Job, options: Options) -> Result<Plan, NoMemory>
    requires { IsInRange options }
    ensures job { IfOk result (λ plan. plan.job ≡ job) }
    ensures options { IfOk result (λ plan. plan.options ≡ options) }
    ensures runs { CanRun job }
    ensures code { IfOk result (λ plan. IsCodeOf job.program plan.code) }
    ensures inside { IfOk result (λ plan. StopsInside (sizes_by plan) plan.code) }
    ensures plan { IfOk result (λ plan. IsPlan plan) }
{
    let code = compile(alloc, job.checked())?;
    let shared = shared_bodies(alloc, job.checked())?;
    let consts = consts_of(alloc, job.checked())?;
    Ok(Plan {
        job,
        options,
        code,
        shared,
        consts,
    })
}

// Of each array whether it is `const`.
fn consts_of(alloc: Global, checked: &Checked) -> Result<Vec<bool>, NoMemory>
    ensures { IfOk result (λ consts. consts.items ≡ map (λ (a : Array). a.fixed) (arrays_of checked.now.decls)) }
{
    let mut consts = Vec::new(alloc);
    for decl in checked.program().decls.as_slice() {
        if let Decl::Array { fixed, .. } = decl {
            consts.push(*fixed)?;
        }
    }
    Ok(consts)
}

/// The table of a run, with no epoch open.
pub(crate) fn open_table<G: Signature>(alloc: Global, plan: &Plan) -> Result<Table<G>, NoMemory>
    requires { IsPlan plan.now }
    ensures state { IfOk result (λ table. state_of table ≡ machine.opening (setup_by (signs G.EXACT G.holds G.nothing G.with_note) plan.now) (restarted plan.now.job.program table.desk.cursor) plan.now.job.opening.words) }
    ensures sound { IfOk result (λ table. IsSound G.sizes_of plan.now table) }
{
    let words = plan.job.words();
    Ok(Table {
        words: words.copy(alloc)?,
        mark: Checkpoint::mark(alloc, words)?,
        desk: open_desk(alloc, plan)?,
        distance: u32::from(plan.far()),
        seats: open_seats(alloc, plan)?,
        seen: open_seen(alloc, plan)?,
        checker: Checker::new(),
        abort: None,
        trap: None,
        concluded: false,
    })
}

fn open_desk(alloc: Global, plan: &Plan) -> Result<Desk, NoMemory>
    requires { IsPlan plan.now }
    ensures cursor { IfOk result (λ desk. desk.cursor ≡ restarted plan.now.job.program desk.cursor) }
    ensures rest { IfOk result (λ desk. desk ≡ record { cursor = desk.cursor; early = None; epochs = []; sealed = false; tally = record { options = plan.now.options; facts = no_facts } }) }
    ensures desk { IfOk result (λ desk. IsDeskBy plan.now desk) }
{
    Ok(Desk {
        cursor: Cursor::start(alloc, plan.job.checked())?,
        early: None,
        epochs: Epochs::none(alloc)?,
        sealed: false,
        tally: Tally::open(plan.options),
    })
}

fn open_seats<G: Signature>(alloc: Global, plan: &Plan) -> Result<Vec<Seat<G>>, NoMemory>
    requires { IsPlan plan.now }
    ensures { IfOk result (λ seats. seats.items ≡ replicate plan.now.options.workers (record { hand = machine.Idle; done = 0; begun = 0; signs = replicate plan.now.options.segment (G.nothing (sizes_by plan.now)) })) }
{
    let workers = plan.options.workers as usize;
    let mut seats = Vec::with_capacity(alloc, workers)?;
    'open: while seats.len() < workers {
        seats.push(Seat::open(alloc, plan.job.checked().lengths(), plan.options.segment)?)?;
    }
    Ok(seats)
}

fn open_seen(alloc: Global, plan: &Plan) -> Result<Vec<Seen>, NoMemory>
    requires { IsPlan plan.now }
    ensures { IfOk result (λ seen. length seen.items ≡ plan.now.options.segment * plan.now.options.workers) }
{
    let tasks = plan.options.segment as usize * plan.options.workers as usize;
    Ok(vec![in alloc; Seen([0; 8]); tasks]?)
}
