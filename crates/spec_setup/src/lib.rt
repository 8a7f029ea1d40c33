//! What the speculative machine is built on for a checked program: pieces of its code, the invocations that a cursor hands
//! out, which of them all workers share, and signatures of either kind.
//!
//! `specs/Setups.antt` has the setup as a definition. The functions here are laws: each one's contract says what holds, and
//! it does nothing.
#![tactic(auto)]

ghost use Rattle.spec_setup.specs.Ahead.{StatesGoOn, ScriptsStay};
ghost use Rattle.spec_setup.specs.Blocks.{BlocksAreShares};
ghost use Rattle.spec_setup.specs.Laws.{SetupsAreRight, SetupsKeepNests, SignsHoldNotes};

/// With the stops that are left beside each piece, and notes in place of signatures, the setup of a program that keeps the
/// rules is one for its nest.
pub fn setups_are_right<S>()
    ensures { SetupsAreRight S }
{}

/// The machine of a program's setup commits what textual order computes, ends as the nest does, gives a segment up only for
/// a cause in the nest and once at most, goes on until it is finished, and has no history longer than the bound.
pub fn setups_keep_nests<S>()
    ensures { SetupsKeepNests S }
{}

/// Exact signatures and those of ranges hold what they noted.
pub fn signs_hold_notes()
    ensures { SignsHoldNotes }
{}

/// The block of a worker in an epoch is its share of the turns.
pub fn blocks_are_shares()
    ensures { BlocksAreShares }
{}

/// What a legal history leaves goes on: what is held is inside its task and the arrays, and the counts have room.
pub fn states_go_on<S>()
    ensures { StatesGoOn S }
{}

/// No step changes the script of the cursor.
pub fn scripts_stay<S>()
    ensures { ScriptsStay S }
{}
