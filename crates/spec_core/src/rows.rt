//! A move is made by the method of its row.
ghost use Rattle.std.specs.Prelude.{◌≡◌, Some};
ghost use Rattle.spec_machine.specs.Machine as machine;
ghost use Rattle.spec_core.specs.Signatures.{signs};
ghost use Rattle.spec_core.specs.Engine.{told_in};
ghost use Rattle.spec_core.specs.Tables.{state_of, setup_by, sizes_by, IsPlan, IsSound, GoesOn};

use crate::moves::{Move, Turn};
use crate::plan::Plan;
use crate::table::Table;
use range_sign::Signature;

impl<G: Signature> Table<G> {
    /// Makes the enabled move of an actor that needs no work.
    pub(crate) fn apply(&mut self, plan: &Plan, actor: u8, turn: Turn)
        requires plan { IsPlan plan.now }
        requires sound { IsSound G.sizes_of plan.now self.old }
        requires goes { GoesOn (setup_by (signs G.EXACT G.holds G.nothing G.with_note) plan.now) (sizes_by plan.now) (state_of self.old) }
        requires enabled { told_in (setup_by (signs G.EXACT G.holds G.nothing G.with_note) plan.now) (state_of self.old) actor ≡ Some (Move.Turn turn) }
        ensures state { machine.step (setup_by (signs G.EXACT G.holds G.nothing G.with_note) plan.now) (state_of self.old) actor ≡ Some (state_of self.new) }
        ensures sound { IsSound G.sizes_of plan.now self.new }
    {
        match turn {
            Turn::Scalar => self.scalar(plan),
            Turn::Drain => self.drain(plan),
            Turn::Open => self.open(plan),
            Turn::Close => self.close(plan),
            Turn::Commit => self.commit(plan),
            Turn::Restore => self.restore(plan),
            Turn::Conclude => self.conclude(plan),
            Turn::Begin => self.begin(plan, actor),
            Turn::Finish => self.finish(plan, actor),
            Turn::LetGo => self.let_go(plan, actor),
            Turn::Stop => self.stop(plan, actor),
            Turn::Check => self.check(plan),
        }
    }
}
