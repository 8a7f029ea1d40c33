//! The law that lets the steps of iterations be made out of order: traces that replay and are in order give what textual
//! order gives. Each function here is a law: its contract says what holds, and it does nothing.
//!
//! `specs/` has the definitions on which engines are built: trees, cut turns, traces, claims, pieces of work, courses.
#![tactic(auto)]

ghost use Rattle.settle_law.specs.Law.{PartsAreTextual, FinishedPartsReach, FinishedPartsSettle, FinishedPartsAreWhole, TrappedPartIsTextual};
ghost use Rattle.settle_law.specs.Claims.{ClaimsPartIterations};
ghost use Rattle.settle_law.specs.Tasks.{StopsTell, PiecesBegin};
ghost use Rattle.settle_law.specs.Courses.{EventsTell, CursorsBegin, TrappedIterationIsOutcome};
ghost use Rattle.settle_law.specs.Reading.{TurnIsTree, AccessesAreTree, ReadsAreMade, MadeIsRead, ReadsApartAreApart, ReadsWithinAreWithin, WithinTurnIsWithin, InsideTurnsTell, TellingTurnsKeep, FollowedNestsKeep, RealisedTurnsKeep, ReachedIsAfter, AfterIsReached, ProgramIsNest, ProgramAccesses};

/// In a trace that keeps the law's premises each part agrees with textual order, as far as textual order gets: it is
/// what the iteration makes first there, and it is finished or trapped only where the iteration is.
pub fn parts_are_textual()
    ensures { PartsAreTextual }
{}

/// Where the parts up to an iteration are finished, textual order gets there.
pub fn finished_parts_reach()
    ensures { FinishedPartsReach }
{}

/// Where the parts up to an iteration are finished and the trace has nothing else, it settles to the words that textual
/// order reaches there.
pub fn finished_parts_settle()
    ensures { FinishedPartsSettle }
{}

/// Where the parts up to an iteration are finished, each is all that textual order makes there.
pub fn finished_parts_are_whole()
    ensures { FinishedPartsAreWhole }
{}

/// Where a part is trapped behind finished ones, textual order traps there in the same way.
pub fn trapped_part_is_textual()
    ensures { TrappedPartIsTextual }
{}

/// Iterations within claims that don't clash are apart.
pub fn claims_part_iterations()
    ensures { ClaimsPartIterations }
{}

/// The stop at which a piece stands says what its iteration still has to do behind it.
pub fn stops_tell<P>()
    ensures { StopsTell P }
{}

/// A piece that realises a cut turn has all of it left to do.
pub fn pieces_begin<P>()
    ensures { PiecesBegin P }
{}

/// A turn on the words ends as its plain tree does.
pub fn turn_is_tree()
    ensures { TurnIsTree }
{}

/// A turn on the words makes the accesses of its plain tree.
pub fn accesses_are_tree()
    ensures { AccessesAreTree }
{}

/// What a turn makes on a list of reads, its plain tree makes.
pub fn reads_are_made()
    ensures { ReadsAreMade }
{}

/// What a plain tree makes, its turn makes on the values read.
pub fn made_is_read()
    ensures { MadeIsRead }
{}

/// Turns are apart on all lists of reads exactly where their plain trees are apart.
pub fn reads_apart_are_apart()
    ensures { ReadsApartAreApart }
{}

/// Claims cover what a turn makes on all lists of reads exactly where they hold its plain tree.
pub fn reads_within_are_within()
    ensures { ReadsWithinAreWithin }
{}

/// Claims hold a turn exactly where they hold its plain tree.
pub fn within_turn_is_within()
    ensures { WithinTurnIsWithin }
{}

/// Of a turn that stays inside its arrays, the opening words tell rightly which words are `const`.
pub fn inside_turns_tell()
    ensures { InsideTurnsTell }
{}

/// A turn of which the `const` words are told rightly writes none of them.
pub fn telling_turns_keep()
    ensures { TellingTurnsKeep }
{}

/// A turn whose cut turn is realised writes no `const` word.
pub fn realised_turns_keep<P>()
    ensures { RealisedTurnsKeep P }
{}

/// A nest whose course a cursor follows, with pieces that realise its cut turns, keeps its `const` words.
pub fn followed_nests_keep<B, C, P>()
    ensures { FollowedNestsKeep B C P }
{}

/// The words that a nest reaches in textual order are those of the law for its family.
pub fn reached_is_after()
    ensures { ReachedIsAfter }
{}

/// The law's words for the family of a nest are those that it reaches, up to its last iteration.
pub fn after_is_reached()
    ensures { AfterIsReached }
{}

/// A program's nest has the turns, the events and the outcome of the program, and reaches its words.
pub fn program_is_nest()
    ensures { ProgramIsNest }
{}

/// The accesses of a program's iterations in textual order are those of the law for its nest.
pub fn program_accesses()
    ensures { ProgramAccesses }
{}

/// The event at which a cursor stands says what of the nest lies behind it.
pub fn events_tell<B, C>()
    ensures { EventsTell B C }
{}

/// A cursor that follows the course of a nest has all of it before it.
pub fn cursors_begin<B, C>()
    ensures { CursorsBegin B C }
{}

/// An iteration that traps where textual order reaches it is the outcome.
pub fn trapped_iteration_is_outcome()
    ensures { TrappedIterationIsOutcome }
{}
