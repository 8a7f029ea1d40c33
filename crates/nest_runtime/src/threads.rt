ghost use Rattle.std.specs.Prelude.{◌≡◌, IfOk};
ghost use Rattle.nest_mean.specs.Outcomes.{outcome};
ghost use Rattle.progress_board.specs.Options.{IsInRange};
ghost use Rattle.nest_runtime.specs.Jobs.{RunsJob};

use crate::laws::runs_end_as_job;
use crate::opened::Opened;
use crate::ran::Ran;
use cross_crew::Gate;
use nest_mean::Job;
use nest_syntax::NoMemory;
use progress_board::Options;
use std::alloc::Global;
use std::sync::Wait;
use std::thread::Threads;

/// Runs a job with the engine of its options, by a thread for each actor. What they leave is finished on the caller's
/// thread, by the rotation. The gate is called behind each step of a thread. The call may wait, and nothing says that it
/// returns.
pub fn run_job<R: Threads + Wait + Sync, G: Gate>(
    rt: &R,
    alloc: Global,
    job: Job,
    options: Options,
    gate: &G,
) -> Result<Ran, NoMemory>
    requires { IsInRange options }
    ensures outcome { IfOk result (λ ran. ran.outcome ≡ outcome job) }
    ensures run { IfOk result (λ ran. RunsJob job options ran.history.items ran.facts) }
{
    runs_end_as_job();
    // It tells that the job can be run.
    let _words = job.words();
    let machine = Opened::open(alloc, job, options)?;
    machine.crew(rt, alloc, gate)
}
