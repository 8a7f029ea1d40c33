ghost use Rattle.std.specs.Prelude.{IfOk, ◌≡◌};
ghost use Rattle.progress_board.specs.Options.{IsInRange};
ghost use Rattle.nest_profile.specs.Walked.{IsPlan};

use nest_mean::Job;
use nest_partition::{Split, partition};
use nest_syntax::NoMemory;
use progress_board::Options;
use spec_core::shared_bodies;
use std::alloc::Global;

/// What is found of a job before the walk: what of its program depends on written arrays, and of each body whether the
/// turns of its invocations are shared out.
#[derive(Drop)]
pub(crate) struct Plan {
    pub(crate) options: Options,
    pub(crate) split: Split,
    pub(crate) shared: Vec<bool>,
}

impl Plan {
    pub(crate) fn open(alloc: Global, job: &Job, options: &Options) -> Result<Plan, NoMemory>
        requires { IsInRange options.now }
        ensures options { IfOk result (λ plan. plan.options ≡ options.now) }
        ensures plan { IfOk result (λ plan. IsPlan job.now plan) }
    {
        Ok(Plan {
            options: *options,
            split: partition(alloc, job.checked())?,
            shared: shared_bodies(alloc, job.checked())?,
        })
    }
}
