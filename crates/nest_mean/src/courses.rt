ghost use Rattle.std.specs.Prelude.{◌≡◌, true, ◌*◌, ◌<◌, ℕ, map, length, FitsSigned};
ghost use Rattle.std.specs.Int.{w64};
ghost use Rattle.nest_syntax.specs.declared.tree.Stmt.TheOpen.{Stmt-F};
ghost use Rattle.nest_syntax.specs.Words.{variable, most_turns};
ghost use Rattle.nest_syntax.specs.Course.{item_of, item_node, looped_of, region_of, tested_of};
ghost use Rattle.nest_syntax.specs.Outcome.{place_of_trap};
ghost use Rattle.word_store.specs.Memory.{HasLayout};
ghost use Rattle.nest_mean.specs.Bound.{most_iterations};
ghost use Rattle.nest_mean.specs.CourseParts.{IsReady, Passes, PassesArms, PassesTurns, items_in, setting_in, bodies_in};

use crate::events::{changed_value, scheduled, scheduled_header};
use crate::expressions::is_zero;
use crate::iterations::{run_iterations, run_write};
use crate::jobs::Job;
use crate::run::Run;
use nest_syntax::{Arm, Cause, Expr, Line, Loop, Op, Place, Stmt};
use word_store::value_in_turn;

/// Runs a region: its header, its turns and the event of leaving it.
pub(crate) fn run_region(region: &Loop, run: &mut Run, job: &Job) -> Result<(), Place>
    requires { IsReady job.now (most_iterations * length (region_of (setting_in job.now) region.now).bodies) run.old }
    ensures { Passes (setting_in job.now) (region_of (setting_in job.now) region.now) most_iterations result run.old run.new }
{
    match scheduled_header(region, run, job) {
        Ok((low, count)) => run_region_turns(region, low, count, run, job),
        Err(cause) => Err(scheduler_trap(cause, region.line, run.number)),
    }
}

fn run_region_turns(
    region: &Loop,
    low: i64,
    count: u64,
    run: &mut Run,
    job: &Job,
) -> Result<(), Place>
    requires ready { IsReady job.now (count * (most_turns * length (items_in (setting_in job.now) region.now.body).bodies)) run.old }
    requires reach { (k : ℕ) → k < count → FitsSigned w64 (variable low region.now.step k) }
    ensures { PassesTurns (setting_in job.now) (items_in (setting_in job.now) region.now.body) region.now low count result run.old run.new }
{
    for k in 0..count {
        let value = value_in_turn(low, region.step, k);
        run.scalars.set(region.name, value);
        run_items(region.body.as_slice(), run, job)?;
    }
    Ok(())
}

#[cycle(items)]
fn run_items(items: &[Stmt], run: &mut Run, job: &Job) -> Result<(), Place>
    requires { IsReady job.now (most_turns * length (items_in (setting_in job.now) items.now).bodies) run.old }
    ensures { Passes (setting_in job.now) (items_in (setting_in job.now) items.now) most_turns result run.old run.new }
{
    for item in items {
        run_item(item, run, job)?;
    }
    Ok(())
}

#[cycle(items)]
fn run_item(item: &Stmt, run: &mut Run, job: &Job) -> Result<(), Place>
    requires { IsReady job.now (most_turns * length (item_of (setting_in job.now) item.now).bodies) run.old }
    ensures { Passes (setting_in job.now) (item_of (setting_in job.now) item.now) most_turns result run.old run.new }
{
    match item {
        Stmt::Declare { line, name, value } => {
            change_scheduled(*line, *name, Op::Set, value, run, job)
        }
        Stmt::Assign {
            line,
            name,
            op,
            value,
        } => change_scheduled(*line, *name, *op, value, run, job),
        Stmt::Write { .. } => run_write(item, run, job),
        Stmt::If { arms, other } => {
            if run_item_arms(arms.as_slice(), run, job)? {
                return Ok(());
            }
            run_items(other.as_slice(), run, job)
        }
        Stmt::Loop(invoked) => run_invocation(invoked, run, job),
    }
}

// Whether an arm was taken: the first whose test isn't 0.
#[cycle(items)]
fn run_item_arms(arms: &[Arm], run: &mut Run, job: &Job) -> Result<bool, Place>
    requires { IsReady job.now (most_turns * bodies_in (map (tested_of (setting_in job.now)) arms.now)) run.old }
    ensures { PassesArms (setting_in job.now) (map (tested_of (setting_in job.now)) arms.now) result run.old run.new }
{
    for arm in arms {
        match scheduled(&arm.test, run, job) {
            Ok(test) => {
                if !is_zero(test) {
                    run_items(arm.body.as_slice(), run, job)?;
                    return Ok(true);
                }
            }
            Err(cause) => return Err(scheduler_trap(cause, arm.line, run.number)),
        }
    }
    Ok(false)
}

fn run_invocation(invoked: &Loop, run: &mut Run, job: &Job) -> Result<(), Place>
    requires { IsReady job.now most_turns run.old }
    ensures { Passes (setting_in job.now) (looped_of (setting_in job.now) invoked.now).invocation most_turns result run.old run.new }
{
    match scheduled_header(invoked, run, job) {
        Ok((low, count)) => run_iterations(invoked, low, count, run, job),
        Err(cause) => Err(scheduler_trap(cause, invoked.line, run.number)),
    }
}

// `=` and `op=` of a scalar among the items. A trap leaves the scalars as they were.
fn change_scheduled(
    line: Line,
    name: u32,
    op: Op,
    value: &Expr,
    run: &mut Run,
    job: &Job,
) -> Result<(), Place>
    requires { HasLayout run.old.words job.now.program.decls }
    ensures { Passes (setting_in job.now) (item_node (setting_in job.now) (Stmt-F.Assign line name op value.now)) most_turns result run.old run.new }
{
    match changed_value(name, op, value, run, job) {
        Ok(new) => {
            run.scalars.set(name, new);
            Ok(())
        }
        Err(cause) => Err(scheduler_trap(cause, line, run.number)),
    }
}

// A trap of the scheduler, behind so many iterations.
fn scheduler_trap(cause: Cause, line: Line, number: u64) -> Place
    ensures { result ≡ place_of_trap cause line number true }
{
    Place {
        cause,
        line,
        number,
        by_scheduler: true,
    }
}
