ghost use Rattle.std.specs.Prelude.{◌≡◌, ◌<◌, ◌≤◌, ◌↔◌, IsTrue};
ghost use Rattle.epoch_plan.specs.Blocks.{most_workers};
ghost use Rattle.spec_checker.specs.Order.{is_before};
ghost use Rattle.spec_checker.specs.Due.{IsReached};

use nest_syntax::TaskName;

/// Whether a task stands before another one: tasks stand in order of epoch and then worker.
pub fn is_before(first: TaskName, second: TaskName) -> bool
    ensures { result ≡ is_before first second }
{
    first.epoch < second.epoch || (first.epoch == second.epoch && first.worker < second.worker)
}

/// Whether a worker that has finished so many epochs has finished its part of a task's epoch and of those before: its own
/// tasks that don't stand behind this one.
fn is_ahead(count: u32, worker: u8, task: TaskName) -> bool
    ensures { IsTrue result ↔ ((task.epoch ≤ count) × (worker ≤ task.worker → task.epoch < count)) }
{
    count > task.epoch || (count == task.epoch && worker > task.worker)
}

/// Whether a task and every one before it are finished.
pub fn is_reached(finished: &[u32; 8], workers: u8, task: TaskName) -> bool
    requires { workers ≤ most_workers }
    ensures { IsTrue result ↔ IsReached finished.now workers task }
{
    for worker in 0..workers {
        let count = finished[worker as usize];
        if !is_ahead(count, worker, task) {
            return false;
        }
    }
    true
}
