//! The iterations of a checked program as the machine of `domore_machine` is built on them.
//!
//! The functions here are laws: each one's contract says what holds, and it does nothing.
#![tactic(auto)]

ghost use Rattle.nest_tasks.specs.Forgetting.{ForgettingKeepsHistories};
ghost use Rattle.nest_tasks.specs.Carried.{ForgettingKeepsNests};
ghost use Rattle.nest_tasks.specs.Longest.{BoundedHistoriesFall};

/// A machine whose pieces are those of another with something forgotten has the histories of the other, through the same
/// states but for what is forgotten, and with the same accesses.
pub fn forgetting_keeps_histories<B, C, P, Q>()
    ensures { ForgettingKeepsHistories B C P Q }
{}

/// Where a machine is set up for a nest, one that forgets something of its pieces keeps textual order of that nest, ends as
/// it does, goes on until then, and has no longer histories.
pub fn forgetting_keeps_nests<B, C, P, Q>()
    ensures { ForgettingKeepsNests B C P Q }
{}

/// The length of the longest history from a state falls at each step, where the histories from the opening are bounded.
pub fn bounded_histories_fall<S>()
    ensures { BoundedHistoriesFall S }
{}
