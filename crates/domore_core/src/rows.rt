//! A move is made by the method of its row.
ghost use Rattle.std.specs.Prelude.{◌≡◌, Some};
ghost use Rattle.std.specs.Option.{option_map};
ghost use Rattle.domore_machine.specs.Machine as machine;
ghost use Rattle.domore_core.specs.Moves.{told};
ghost use Rattle.domore_core.specs.Tables.{state_of, setup_by, engine_of, IsPlan, IsSound};
ghost use Rattle.domore_core.specs.Ahead.{GoesOn};

use crate::moves::{Move, Turn};
use crate::plan::Plan;
use crate::table::Table;

impl Table {
    /// Makes the enabled move of an actor that needs no work.
    #[tactic(auto, using(crate::proofs::Applying::sound_still))]
    pub(crate) fn apply(&mut self, plan: &Plan, actor: u8, turn: Turn)
        requires plan { IsPlan plan.now }
        requires sound { IsSound plan.now self.old }
        requires goes { GoesOn (engine_of plan.now self.old) }
        requires enabled { option_map told (machine.move_of (setup_by plan.now) (state_of self.old) actor) ≡ Some (Move.Turn turn) }
        ensures state { machine.step (setup_by plan.now) (state_of self.old) actor ≡ Some (state_of self.new) }
        ensures sound { IsSound plan.now self.new }
    {
        match turn {
            Turn::Scalar => self.scalar(plan),
            Turn::Drain => self.drain(plan),
            Turn::Dispatch => self.dispatch(plan),
            Turn::Halt => self.halt(plan),
            Turn::Take => self.take(plan, actor),
            Turn::Pass => self.pass(plan, actor),
            Turn::DropHeld => self.drop_held(plan, actor),
            Turn::DropQueued => self.drop_queued(plan, actor),
            Turn::End => self.end(plan, actor),
        }
    }
}
