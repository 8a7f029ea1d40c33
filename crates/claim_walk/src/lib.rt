//! What an iteration may read and write, and what it costs, found by a walk over its body that runs nothing.
//!
//! The walk is a definition, in `specs/Walk.antt`. The functions here are its laws: each one's contract says what holds,
//! and it does nothing.
#![tactic(auto)]

ghost use Rattle.claim_walk.specs.Laws.{ClaimsHoldTurns, StepsBoundTurns, WalksKeepOthers, WalksKeepNumber, StepsAreOfLocals, StepsAreOfScope, RoundsFindDataLocals};

/// In a program that keeps the rules the claims of an iteration hold its turn, whatever it reads: each access to a word of
/// a written array is claimed.
pub fn claims_hold_turns()
    ensures { ClaimsHoldTurns }
{}

/// In such a program the operations and stops of an iteration's turn, without its end, are no more than its walk meets.
pub fn steps_bound_turns()
    ensures { StepsBoundTurns }
{}

/// In such a program the walk changes no scalar but those of the body's locals.
pub fn walks_keep_others()
    ensures { WalksKeepOthers }
{}

/// The walk leaves as many scalars as there were.
pub fn walks_keep_number()
    ensures { WalksKeepNumber }
{}

/// The walk of an iteration depends on which names are data locals, but not on the list that has them.
pub fn steps_are_of_locals()
    ensures { StepsAreOfLocals }
{}

/// In a program that keeps the rules the walk of an iteration depends only on the scalars in scope at its body, the
/// variable of its invocation and the `const` words.
pub fn steps_are_of_scope()
    ensures { StepsAreOfScope }
{}

/// The data locals of a body are those that are found round by round.
pub fn rounds_find_data_locals()
    ensures { RoundsFindDataLocals }
{}
