//! The tasks of the open epochs.
ghost use Rattle.std.specs.Prelude.{◌≡◌, ◌<◌, ◌≤◌, ◌^◌, ◌+◌, false, if◌then◌else◌, nat_lt, length};
ghost use Rattle.epoch_plan.specs.Blocks.{most_trips};
ghost use Rattle.spec_machine.specs.Machine as machine;
ghost use Rattle.spec_core.specs.Hands.{hand_of};
ghost use Rattle.spec_core.specs.Blocks.{planned_at, block_in, has_below_in, first_in};
ghost use Rattle.spec_core.specs.Tables.{IsPlan, IsDeskBy, IsEpochBy};

use crate::desk::Desk;
use crate::hand::Held;
use crate::pieces::first_piece;
use crate::plan::Plan;
use epoch_plan::{Epoch, block_of};

/// The iterations of a worker's task in the epoch with an index: from the first number up to and without the second. None
/// comes where the task has none.
fn task_in(epoch: &Epoch, index: u32, worker: u8, workers: u8) -> Option<(u64, u64)>
    requires trips { epoch.now.trips ≤ most_trips }
    requires numbers { epoch.now.first + epoch.now.trips ≤ 2 ^ 60 }
    requires own { worker < workers }
    requires few { workers ≤ 8 }
    ensures { result ≡ block_in epoch.now workers index worker }
{
    let (from, to) = block_of(epoch, index, worker, workers);
    if from < to {
        Some((epoch.first + from, epoch.first + to))
    } else {
        None
    }
}

impl Desk {
    /// The iterations of a worker's task.
    pub(crate) fn task(&self, plan: &Plan, epoch: u32, worker: u8) -> Option<(u64, u64)>
        requires plan { IsPlan plan.now }
        requires desk { IsDeskBy plan.now self.now }
        requires open { epoch < length self.now.epochs }
        requires own { worker < plan.now.options.workers }
        ensures { result ≡ block_in (planned_at self.now.epochs epoch) plan.now.options.workers epoch worker }
    {
        task_in(self.epochs.get(epoch), epoch, worker, plan.options.workers)
    }

    /// Whether a worker's task has an iteration below a number.
    pub(crate) fn has_below(&self, plan: &Plan, epoch: u32, worker: u8, number: u64) -> bool
        requires plan { IsPlan plan.now }
        requires desk { IsDeskBy plan.now self.now }
        requires own { worker < plan.now.options.workers }
        ensures { result ≡ has_below_in plan.now.options.workers self.now.epochs epoch worker number }
    {
        if epoch as usize >= self.epochs.len() {
            return false;
        }
        match self.task(plan, epoch, worker) {
            Some((from, _)) => from < number,
            None => false,
        }
    }

    /// How a worker's task begins.
    pub(crate) fn first_of(&self, plan: &Plan, epoch: u32, worker: u8) -> Held
        requires plan { IsPlan plan.now }
        requires desk { IsDeskBy plan.now self.now }
        requires open { epoch < length self.now.epochs }
        requires own { worker < plan.now.options.workers }
        ensures { hand_of result ≡ first_in plan.now.code (planned_at self.now.epochs epoch) (block_in (planned_at self.now.epochs epoch) plan.now.options.workers epoch worker) }
    {
        match self.task(plan, epoch, worker) {
            Some((number, _)) => Held::Task {
                number,
                piece: first_piece(&plan.code, self.epochs.get(epoch), number),
            },
            None => Held::Empty,
        }
    }
}
