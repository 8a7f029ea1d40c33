//! What the machine of `domore_machine` is built on for a checked program: pieces of its code, the iterations that a cursor
//! hands out, and their claims.
//!
//! `specs/Setups.antt` has the setup as a definition. The functions here are laws: each one's contract says what holds, and
//! it does nothing.
#![tactic(auto)]

ghost use Rattle.nest_setup.specs.Laws.{SetupsAreRight, SetupsKeepNests, MeasuresFall, BodyCostsBoundTurns, CursorsKeepUp, EventsAgree, AnswersTellEvents, EntriesAreOfBodies, PlacesAreKept};
ghost use Rattle.nest_setup.specs.Ahead.{SeatsGoOn};
ghost use Rattle.nest_setup.specs.Walked.{WalksFit};

/// With the stops that are left beside each piece, the setup of a program that keeps the rules is one for its nest.
pub fn setups_are_right()
    ensures { SetupsAreRight }
{}

/// The machine of a program's setup keeps textual order of the nest, ends as it does, goes on until then, and has no history
/// longer than the bound.
pub fn setups_keep_nests()
    ensures { SetupsKeepNests }
{}

/// The length of the longest history from a state, up to the bound, falls at each step of a legal history.
pub fn measures_fall()
    ensures { MeasuresFall }
{}

/// A turn of a body has no more operations and stops than the body's text says.
pub fn body_costs_bound_turns()
    ensures { BodyCostsBoundTurns }
{}

/// Along each history the machine's cursor stays one of the program, and counts the iterations that were handed out.
pub fn cursors_keep_up()
    ensures { CursorsKeepUp }
{}

/// The event at which a cursor stands is told by any words that have the `const` words of the opening.
pub fn events_agree()
    ensures { EventsAgree }
{}

/// What `advance` answers on the present words, with the cursor that it leaves, is the event that the opening words tell.
pub fn answers_tell_events()
    ensures { AnswersTellEvents }
{}

/// A code has an entry for each body of its program, and from there the hops do what the body says.
pub fn entries_are_of_bodies()
    ensures { EntriesAreOfBodies }
{}

/// What is held goes on inside the arrays, where the stops of the code are inside, and what is queued has an entry.
pub fn seats_go_on()
    ensures { SeatsGoOn }
{}

/// Scalars in 32 places are as they stand in their places.
pub fn places_are_kept()
    ensures { PlacesAreKept }
{}

/// The claims that the walk finds hold the turns, and what it meets bounds them.
pub fn walks_fit()
    ensures { WalksFit }
{}
