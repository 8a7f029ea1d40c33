//! The engine that keeps textual order without a barrier: a scheduler hands iterations out with what they wait for, and
//! workers carry them out, also past the end of an invocation. Each function here is a law: its contract says what holds
//! of every history, whatever the order of the actors in it, and it does nothing.
//!
//! `specs/` has the machine as a definition, for any bodies, cursors and pieces of work, and what is claimed of it.
#![tactic(auto)]

ghost use Rattle.domore_machine.specs.Theorems.{HistoriesKeepOrder, HistoriesEndAsNest, FactsAreOfNest, HandedOutIsNext, UnfinishedGoOn, EndedHaveNoStep, EndedStay, FinishedIsAllEnded};
ghost use Rattle.domore_machine.specs.Waits.{NeedsAreGreatest};
ghost use Rattle.domore_machine.specs.Facts.{FactsCount};
ghost use Rattle.domore_machine.specs.Invariant.{HistoriesKeepInvariant, FinishedWhereFree};
ghost use Rattle.domore_machine.specs.Measure.{StepsFall, HistoriesAreBounded, OpeningIsWithinBound};

/// What an iteration needs of a worker is the greatest lower iteration of that worker whose claims clash with its own.
pub fn needs_are_greatest()
    ensures { NeedsAreGreatest }
{}

/// Each legal history leaves a state with the invariant.
pub fn histories_keep_invariant<B, C, P>()
    ensures { HistoriesKeepInvariant B C P }
{}

/// While no trap is kept, all iterations that were handed out are finished exactly where every seat is free.
pub fn finished_where_free<B, C, P>()
    ensures { FinishedWhereFree B C P }
{}

/// Each legal history leaves a trace that replays from the opening words and is in order, and that settles to the words
/// of the state.
pub fn histories_keep_order<B, C, P>()
    ensures { HistoriesKeepOrder B C P }
{}

/// Each complete history ends as the nest does in textual order: with its final words, or at its first trap.
pub fn histories_end_as_nest<B, C, P>()
    ensures { HistoriesEndAsNest B C P }
{}

/// Where the nest doesn't trap, the facts of each complete history are those of the nest.
pub fn facts_are_of_nest<B, C, P>()
    ensures { FactsAreOfNest B C P }
{}

/// What the scheduler hands out is the nest's next iteration.
pub fn handed_out_is_next<B, C, P>()
    ensures { HandedOutIsNext B C P }
{}

/// The facts of a list of events are counts of it, and the first 64 of the waits of its iterations.
pub fn facts_count()
    ensures { FactsCount }
{}

/// In each state that a legal history leaves and that isn't finished, some worker or the scheduler has a step.
pub fn unfinished_go_on<B, C, P>()
    ensures { UnfinishedGoOn B C P }
{}

/// The measure of a state falls at each step of a legal history.
pub fn steps_fall<B, C, P>()
    ensures { StepsFall B C P }
{}

/// No legal history is longer than the measure of the opening.
pub fn histories_are_bounded<B, C, P>()
    ensures { HistoriesAreBounded B C P }
{}

/// Where the costs bound the fuel of all iterations, the measure of the opening is within the bound.
pub fn opening_is_within_bound<B, C, P>()
    ensures { OpeningIsWithinBound B C P }
{}

/// An actor whose part is ended has no step.
pub fn ended_have_no_step<B, C, P>()
    ensures { EndedHaveNoStep B C P }
{}

/// The part of an actor stays ended.
pub fn ended_stay<B, C, P>()
    ensures { EndedStay B C P }
{}

/// The machine is finished exactly where the parts of all actors are ended.
pub fn finished_is_all_ended<B, C, P>()
    ensures { FinishedIsAllEnded B C P }
{}
