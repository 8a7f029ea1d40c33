ghost use Rattle.std.specs.Prelude.{◌≡◌, ◌≤◌, ◌<◌};
ghost use Rattle.epoch_plan.specs.Blocks.{most_trips, most_workers, block};

/// An epoch: one invocation, all of whose turns were handed to the workers at once.
#[derive(Clone, Copy, Debug)]
pub struct Epoch {
    /// The number of the body that each turn runs.
    pub body: u32,
    /// The number of the iteration that is turn 0, from 0 over the whole run.
    pub first: u64,
    /// The invocation's variable is `low + turn * step`.
    pub low: i64,
    pub step: u64,
    /// How many turns there are, at most 16,777,216.
    pub trips: u64,
    /// Whether no two of the turns conflict, so that all workers may share them.
    pub all: bool,
    /// The scheduler's scalars as the invocation was entered.
    pub env: [i64; 32],
}

/// The turns that a worker runs in the epoch with this index, from the first number up to and without the second. An
/// epoch whose turns may be shared is cut into as many blocks as there are workers, of the same size but for rounding; any
/// other goes whole to one worker, by its index, and the others have `(0, 0)`. There are 1 to 8 workers.
pub fn block_of(epoch: &Epoch, index: u32, worker: u8, workers: u8) -> (u64, u64)
    requires trips { epoch.now.trips ≤ most_trips }
    requires worker { worker < workers }
    requires workers { workers ≤ most_workers }
    ensures { result ≡ block epoch.now index worker workers }
{
    let (count, workers) = (epoch.trips, u64::from(workers));
    let worker = u64::from(worker);
    if epoch.all {
        (count * worker / workers, count * (worker + 1) / workers)
    } else if u64::from(index) % workers == worker {
        (0, count)
    } else {
        (0, 0)
    }
}
