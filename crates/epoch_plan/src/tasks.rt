ghost use Rattle.std.specs.Prelude.{◌≡◌, ◌≤◌, ◌<◌, ◌*◌, ◌-◌, ◌++◌, length, drop};
ghost use Rattle.epoch_plan.specs.Blocks.{most_workers};
ghost use Rattle.epoch_plan.specs.Tasks.{is_unordered, unordered_tasks};

use nest_syntax::TaskName;

/// What a task saw as it began: for each worker how many epochs of the segment it had finished.
#[derive(Clone, Copy, Debug, PartialEq, Eq)]
pub struct Seen(pub [u32; 8]);

/// Whether an early task and a late one, of different workers, may have run at the same time: the epoch of `early` comes
/// before that of `late`, and `late`, which saw `seen`, began before `early` was finished. Workers are below 8.
pub fn unordered(seen: &Seen, early: TaskName, late: TaskName) -> bool
    requires { early.worker < most_workers }
    ensures { result ≡ is_unordered seen.now early late }
{
    early.epoch < late.epoch
        && early.worker != late.worker
        && early.epoch >= seen.0[early.worker as usize]
}

/// Writes the names of all tasks that are unordered with `late`, which saw `seen`, to the front of `into`, in order of
/// epoch and then worker, and answers how many they are. What is behind them in `into` stays. There has to be room for a
/// name of each other worker in each earlier epoch. Takes no memory.
pub fn unordered_pairs(seen: &Seen, late: TaskName, workers: u8, into: &mut [TaskName]) -> usize
    requires worker { late.worker < workers }
    requires workers { workers ≤ most_workers }
    requires room { late.epoch * (workers - 1) ≤ length into.old }
    ensures count { result ≡ length (unordered_tasks seen.now late workers) }
    ensures names { into.new ≡ unordered_tasks seen.now late workers ++ drop result into.old }
{
    let mut count = 0;
    for epoch in 0..late.epoch {
        for worker in 0..workers {
            let early = TaskName { epoch, worker };
            if unordered(seen, early, late) {
                into[count] = early;
                count += 1;
            }
        }
    }
    count
}
