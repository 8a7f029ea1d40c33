ghost use Rattle.std.specs.Prelude.{◌≡◌, IfOk, IfErr};
ghost use Rattle.nest_mean.specs.Outcomes.{outcome};
ghost use Rattle.progress_board.specs.Options.{IsInRange};
ghost use Rattle.nest_runtime.specs.Jobs.{RunsAlone, RunsStrict, RefusesSteps};

use crate::laws::runs_end_as_job;
use crate::opened::Opened;
use crate::ran::Ran;
use lone_crew::StepRefused;
use nest_mean::Job;
use nest_syntax::NoMemory;
use progress_board::Options;
use std::alloc::Global;

/// Runs a job with the engine of its options, on the caller's thread: the entries of the schedule whose actors have a step,
/// and then the rotation.
pub fn run_alone(
    alloc: Global,
    job: Job,
    options: Options,
    schedule: &[u8],
) -> Result<Ran, NoMemory>
    requires { IsInRange options }
    ensures outcome { IfOk result (λ ran. ran.outcome ≡ outcome job) }
    ensures run { IfOk result (λ ran. RunsAlone job options schedule.now ran.history.items ran.facts) }
{
    runs_end_as_job();
    // It tells that the job can be run.
    let _words = job.words();
    let machine = Opened::open(alloc, job, options)?;
    machine.alone(alloc, schedule)
}

/// Runs a job with the engine of its options, on the caller's thread: given steps, each of which has to be enabled in its
/// turn, and then the rotation.
///
/// `Step` has the number, from 0, of the first step that names no actor, or whose actor has no enabled row.
pub fn run_strict(
    alloc: Global,
    job: Job,
    options: Options,
    steps: &[u8],
) -> Result<Ran, StepRefused>
    requires { IsInRange options }
    ensures outcome { IfOk result (λ ran. ran.outcome ≡ outcome job) }
    ensures run { IfOk result (λ ran. RunsStrict job options steps.now ran.history.items ran.facts) }
    ensures refused { IfErr result (RefusesSteps job options steps.now) }
{
    runs_end_as_job();
    // It tells that the job can be run.
    let _words = job.words();
    let machine = Opened::open(alloc, job, options)?;
    machine.strict(alloc, steps)
}
