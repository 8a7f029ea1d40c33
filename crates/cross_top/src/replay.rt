ghost use Rattle.std.specs.Prelude.{◌≡◌, ◌≤◌, ◌++◌, IfOk, decimal, length};
ghost use Rattle.nest_io.specs.declared.transfer.TheConstants.{MOST_BYTES};
ghost use Rattle.progress_board.specs.Options.{IsInRange};
ghost use Rattle.cross_top.specs.Answers.{AnswersReplay, AnswersSteps, refusal, job_of};

use crate::alone::told;
use crate::answers::{Reply, refusal};
use crate::status::Status;
use cross_words::Call;
use itoa::Buffer;
use lone_crew::StepRefused;
use nest_input::read_steps;
use nest_mean::Job;
use nest_runtime::run_strict;
use nest_syntax::NoMemory;
use std::alloc::Global;
use step_words::StepsRefused;

/// The outcome of a job by its engine on one thread, by the steps of an input and then the rotation, told as the call asks;
/// or the first of its step words that names no actor, or of its steps that isn't enabled.
pub fn replay(alloc: Global, call: &Call, input: &[u8], job: Job) -> Result<Reply, NoMemory>
    requires few { length input.now ≤ MOST_BYTES }
    requires in_range { IsInRange call.now.options }
    ensures { IfOk result (λ reply. AnswersReplay call.now input.now job.program job.opening.words reply) }
{
    match read_steps(alloc, input, call.options.workers) {
        Ok(steps) => replay_steps(alloc, call, job, steps.as_slice()),
        Err(StepsRefused::Word(number)) => refused_at(alloc, b"step word ", number),
        Err(StepsRefused::NoMemory) => Err(NoMemory),
    }
}

/// The same of the steps.
fn replay_steps(alloc: Global, call: &Call, job: Job, steps: &[u8]) -> Result<Reply, NoMemory>
    requires { IsInRange call.now.options }
    ensures { IfOk result (λ reply. AnswersSteps call.now (job_of job.program job.opening.words) steps.now reply) }
{
    // The engine takes the job, and what is told goes by the copy.
    let copy = job.copy(alloc)?;
    match run_strict(alloc, job, call.options, steps) {
        Ok(ran) => told(alloc, call, &copy, ran),
        Err(StepRefused::Step(number)) => refused_at(alloc, b"step ", number),
        Err(StepRefused::NoMemory) => Err(NoMemory),
    }
}

/// The refusal that names a number.
fn refused_at(alloc: Global, what: &[u8], number: u64) -> Result<Reply, NoMemory>
    ensures { IfOk result (λ reply. reply ≡ refusal Status.TextRefused (what.now ++ decimal number)) }
{
    let mut digits = Buffer::new();
    let mut reason = Vec::from_slice(alloc, what)?;
    reason.extend_from_slice(digits.format(number).as_bytes())?;
    refusal(alloc, Status::TextRefused, reason.as_slice())
}
