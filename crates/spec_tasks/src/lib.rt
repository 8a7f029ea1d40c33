//! The machine of `spec_machine` with pieces of work that hold no count, and signatures in place of notes.
//!
//! The functions here are laws: each one's contract says what holds, and it does nothing.
#![tactic(auto)]

ghost use Rattle.spec_tasks.specs.Notes.{NotesKeepLaw};
ghost use Rattle.spec_tasks.specs.Forgetting.{ForgettingKeepsHistories};
ghost use Rattle.spec_tasks.specs.Carried.{ForgettingKeepsNests};
ghost use Rattle.spec_tasks.specs.Costing.{IterationsBoundCosts};

/// Where a kind of signature keeps what was noted of words that are touched, the notes themselves keep the law of
/// signatures.
pub fn notes_keep_law<G>()
    ensures { NotesKeepLaw G }
{}

/// A machine whose pieces are those of another with something forgotten, and whose signatures are made of the other's notes,
/// has the histories of the other, through the same states but for what is forgotten, and with the same accesses and
/// rollbacks.
pub fn forgetting_keeps_histories<B, C, P, Q, G>()
    ensures { ForgettingKeepsHistories B C P Q G }
{}

/// Where a machine is set up for a nest, one that forgets something of its pieces, and has signatures in place of notes,
/// commits what textual order of that nest computes, ends as it does, gives a segment up only for a cause in it, goes on
/// until it is finished, and has no longer histories.
pub fn forgetting_keeps_nests<B, C, P, Q, G>()
    ensures { ForgettingKeepsNests B C P Q G }
{}

/// Where costs bound the fuel of each iteration of a nest, they bound that of all segments.
pub fn iterations_bound_costs<B, C, P, G>()
    ensures { IterationsBoundCosts B C P G }
{}
