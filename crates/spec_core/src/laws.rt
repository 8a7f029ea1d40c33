ghost use Rattle.spec_core.specs.Theorems.{HistoriesCommitTruly, HistoriesEndAsJob, HistoriesGiveUpForCause, HistoriesGiveUpOnce, HistoriesGiveUpForTrap, HistoriesCountSteps};

/// A commit that comes next in a legal history of an opened engine is true, whatever stale words were read on the way.
pub fn histories_commit_truly<S>()
    ensures { HistoriesCommitTruly S }
{}

/// Each complete history of an opened engine ends with the outcome of the job in textual order.
pub fn histories_end_as_job<S>()
    ensures { HistoriesEndAsJob S }
{}

/// Segments are given up only for a cause in the nest.
pub fn histories_give_up_for_cause<S>()
    ensures { HistoriesGiveUpForCause S }
{}

/// A segment is given up once at most.
pub fn histories_give_up_once<S>()
    ensures { HistoriesGiveUpOnce S }
{}

/// Where the set distance is below the least at which the hulls of two tasks overlap, no segment is given up for an
/// overlap, and for a trap only the segment in which the outcome traps.
pub fn histories_give_up_for_trap<S>()
    ensures { HistoriesGiveUpForTrap S }
{}

/// The counts of a legal history are those of its steps.
pub fn histories_count_steps<S>()
    ensures { HistoriesCountSteps S }
{}
