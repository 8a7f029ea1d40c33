ghost use Rattle.std.specs.Prelude.{IfOk};
ghost use Rattle.progress_board.specs.Options.{IsInRange};
ghost use Rattle.cross_top.specs.Answers.{TellsLeast};

use crate::answers::Reply;
use crate::status::Status;
use cross_words::Call;
use nest_mean::Job;
use nest_profile::least_distance;
use nest_report::print_least;
use nest_syntax::NoMemory;
use std::alloc::Global;

/// The least distance of a job. A job that traps has one too, and is done.
pub fn profile(alloc: Global, call: &Call, job: &Job) -> Result<Reply, NoMemory>
    requires { IsInRange call.now.options }
    ensures { IfOk result (TellsLeast call.now job.now) }
{
    let least = least_distance(alloc, job, &call.options)?;
    let text = print_least(alloc, least)?;
    Ok(Reply {
        status: Status::Done,
        text,
        history: Vec::new(alloc),
    })
}
