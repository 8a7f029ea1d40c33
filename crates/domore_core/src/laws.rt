ghost use Rattle.domore_core.specs.Theorems.{HistoriesEndAsJob, HistoriesKeepOrder};

/// Each complete history of an opened engine ends with the outcome of the job in textual order, and where that is no
/// trap, with the facts that are due.
pub fn histories_end_as_job()
    ensures { HistoriesEndAsJob }
{}

/// Each legal history of an opened engine leaves a trace that replays from the job's words and is in order, and that
/// settles to the words of the state.
pub fn histories_keep_order()
    ensures { HistoriesKeepOrder }
{}
