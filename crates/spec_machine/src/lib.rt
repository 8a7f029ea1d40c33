//! The engine that passes barriers speculatively: workers go on past the end of an invocation, a checker compares what the
//! tasks noted, and a segment whose tasks may have read stale words is run again from its checkpoint. Each function here is a
//! law: its contract says what holds of every history, whatever the order of the actors in it, and it does nothing.
//!
//! `specs/` has the machine as a definition, for any invocations, cursors, pieces of work and kind of signatures, its table
//! row by row, and what is claimed of it.
#![tactic(auto)]

ghost use Rattle.spec_machine.specs.Theorems.{CommitsAreTrue, HistoriesEndAsNest, AbortsTell, NotedIsWithinHull, RollbacksAreCaused, BelowLeastAreTraps, SegmentsAreRestoredOnce, FactsAreCounted, MovesAreRows, UnfinishedGoOn, EndedHaveNoStep, EndedStay, FinishedIsAllEnded};
ghost use Rattle.spec_machine.specs.Invariant.{HistoriesKeepInvariant};
ghost use Rattle.spec_machine.specs.Measure.{StepsFall, HistoriesAreBounded, OpeningIsWithinBound, PairsAreCounted};

/// Each legal history leaves a state with the invariant.
pub fn histories_keep_invariant<B, C, P, G>()
    ensures { HistoriesKeepInvariant B C P G }
{}

/// Each commit that a legal history comes to marks the words of textual order, whatever stale words were read on the way.
pub fn commits_are_true<B, C, P, G>()
    ensures { CommitsAreTrue B C P G }
{}

/// Each complete history ends as the nest does in textual order: with its final words, or at its first trap.
pub fn histories_end_as_nest<B, C, P, G>()
    ensures { HistoriesEndAsNest B C P G }
{}

/// A segment is given up for a task that trapped at a distance above 0, or for an unordered pair whose signatures overlap, first
/// in the array that is told.
pub fn aborts_tell<B, C, P, G>()
    ensures { AbortsTell B C P G }
{}

/// What a task noted is within its hull, the signature of the claims of its iterations.
pub fn noted_is_within_hull<B, C, P, G>()
    ensures { NotedIsWithinHull B C P G }
{}

/// Each rollback has its cause in the nest: a pair whose hulls overlap within the set distance, or a trap of textual order
/// in that segment, or two tasks of it that clash within the set distance.
pub fn rollbacks_are_caused<B, C, P, G>()
    ensures { RollbacksAreCaused B C P G }
{}

/// Below the least distance there is no rollback of an overlap, and one of a trap only in the segment in which the nest
/// traps.
pub fn below_least_are_traps<B, C, P, G>()
    ensures { BelowLeastAreTraps B C P G }
{}

/// A segment is restored at most once.
pub fn segments_are_restored_once<B, C, P, G>()
    ensures { SegmentsAreRestoredOnce B C P G }
{}

/// What is counted is of the history: its commits, the checker's steps and its rollbacks, of which the first 64 are listed.
pub fn facts_are_counted<B, C, P, G>()
    ensures { FactsAreCounted B C P G }
{}

/// The move of an actor is exactly the row that the table enables for it; so it enables no two of one actor.
pub fn moves_are_rows<B, C, P, G>()
    ensures { MovesAreRows B C P G }
{}

/// In each state that a legal history leaves and that isn't finished, some actor has a step.
pub fn unfinished_go_on<B, C, P, G>()
    ensures { UnfinishedGoOn B C P G }
{}

/// An actor whose part is ended has no step.
pub fn ended_have_no_step<B, C, P, G>()
    ensures { EndedHaveNoStep B C P G }
{}

/// The part of an actor stays ended.
pub fn ended_stay<B, C, P, G>()
    ensures { EndedStay B C P G }
{}

/// The machine is finished exactly where the parts of all actors are ended.
pub fn finished_is_all_ended<B, C, P, G>()
    ensures { FinishedIsAllEnded B C P G }
{}

/// The measure of a state falls at each step of a legal history.
pub fn steps_fall<B, C, P, G>()
    ensures { StepsFall B C P G }
{}

/// No legal history is longer than the measure of the opening.
pub fn histories_are_bounded<B, C, P, G>()
    ensures { HistoriesAreBounded B C P G }
{}

/// Where the costs bound the fuel of all iterations, the measure of the opening is within the bound.
pub fn opening_is_within_bound<B, C, P, G>()
    ensures { OpeningIsWithinBound B C P G }
{}

/// The pairs of tasks of n epochs are half as many as the ordered pairs of epochs and of workers.
pub fn pairs_are_counted()
    ensures { PairsAreCounted }
{}
