ghost use Rattle.std.specs.Prelude.{◌≡◌, IfOk, IfErr};
ghost use Rattle.progress_board.specs.Actors.{actors_of};
ghost use Rattle.progress_board.specs.Rotation.{taken, rotation};
ghost use Rattle.nest_runtime.specs.Ran.{IsRun, IsRefusedRun};

use crate::ran::Ran;
use cross_crew::{Gate, crew_run};
use lone_crew::{StepRefused, lone_run, strict_run};
use nest_syntax::NoMemory;
use progress_board::Machine;
use std::alloc::Global;
use std::sync::Wait;
use std::thread::Threads;

/// Runs a machine to its end on the caller's thread: the entries of the schedule whose actors have a step, and then the
/// rotation.
pub fn drive_alone<M: Machine>(alloc: Global, machine: M, schedule: &[u8]) -> Result<Ran, NoMemory>
    ensures run { IfOk result (λ ran. IsRun M.step M.is_finished M.ending_of M.words_of M.facts_of machine ran.outcome ran.facts ran.history.items) }
    ensures rotation { IfOk result (λ ran. ran.history.items ≡ rotation M.step M.measure machine (actors_of (M.options_of machine)) schedule.now) }
{
    let mut machine = machine;
    let mut history = Vec::new(alloc);
    lone_run(&mut machine, schedule, &mut history)?;
    Ran::told(alloc, &machine, history)
}

/// Makes given steps, each of which has to be enabled in its turn, and then runs the machine to its end by the rotation.
///
/// `Step` has the number, from 0, of the first step that names no actor, or whose actor has no enabled row.
pub fn drive_strict<M: Machine>(alloc: Global, machine: M, steps: &[u8]) -> Result<Ran, StepRefused>
    ensures run { IfOk result (λ ran. IsRun M.step M.is_finished M.ending_of M.words_of M.facts_of machine ran.outcome ran.facts ran.history.items) }
    ensures enabled { IfOk result (λ ran. taken M.step machine steps.now ≡ steps.now) }
    ensures rotation { IfOk result (λ ran. ran.history.items ≡ rotation M.step M.measure machine (actors_of (M.options_of machine)) steps.now) }
    ensures refused { IfErr result (IsRefusedRun M.step machine steps.now) }
{
    let mut machine = machine;
    let mut history = Vec::new(alloc);
    strict_run(&mut machine, steps, &mut history)?;
    Ok(Ran::told(alloc, &machine, history)?)
}

/// Runs a machine by a thread for each of its actors. What they leave is finished on the caller's thread, by the rotation.
/// The call may wait.
pub fn drive_crew<R: Threads + Wait + Sync, M: Machine, G: Gate>(
    rt: &R,
    alloc: Global,
    machine: M,
    gate: &G,
) -> Result<Ran, NoMemory>
    ensures { IfOk result (λ ran. IsRun M.step M.is_finished M.ending_of M.words_of M.facts_of machine ran.outcome ran.facts ran.history.items) }
{
    let (mut machine, mut history) = crew_run(rt, alloc, machine, gate)?;
    lone_run(&mut machine, &[], &mut history)?;
    Ran::told(alloc, &machine, history)
}
