ghost use Rattle.std.specs.Prelude.{IfOk};
ghost use Rattle.progress_board.specs.Options.{IsInRange};
ghost use Rattle.spec_core.specs.Signatures.{signs};
ghost use Rattle.nest_profile.specs.Least.{IsLeast, IsLeastBy};

use crate::plan::Plan;
use crate::walk::Walk;
use nest_mean::Job;
use nest_syntax::NoMemory;
use progress_board::{Options, Sign};
use range_sign::{ExactSign, RangeSign, Signature};
use std::alloc::Global;

/// The least distance of a job: the least difference of epoch numbers, 1 for neighbours, of two tasks of one segment,
/// of different epochs and workers, whose hulls overlap. A hull is the signature, of the kind that the options say, of
/// what the iterations of a task claim. None comes exactly where there are no such tasks. Segments are those that
/// textual order reaches.
///
/// All memory is taken before the first event. The cost is that of the run in textual order, of the claims of all
/// iterations, and of comparing the tasks of a segment that are no further apart than the answer.
pub fn least_distance(alloc: Global, job: &Job, options: &Options) -> Result<Option<u64>, NoMemory>
    requires { IsInRange options.now }
    ensures { IfOk result (IsLeast job.now options.now) }
{
    match options.sign {
        Sign::Exact => least_by::<ExactSign>(alloc, job, options),
        Sign::Range => least_by::<RangeSign>(alloc, job, options),
    }
}

// by one kind of signature
fn least_by<G: Signature>(
    alloc: Global,
    job: &Job,
    options: &Options,
) -> Result<Option<u64>, NoMemory>
    requires { IsInRange options.now }
    ensures { IfOk result (IsLeastBy (signs G.EXACT G.holds G.nothing G.with_note) job.now options.now) }
{
    let plan = Plan::open(alloc, job, options)?;
    let mut walk = Walk::<G>::open(alloc, job, &plan)?;
    'events: while walk.step(job, &plan) {}
    walk.cut();
    Ok(walk.least())
}
