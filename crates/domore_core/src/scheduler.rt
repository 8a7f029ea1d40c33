//! The moves of the scheduler.
ghost use Rattle.std.specs.Prelude.{◌≡◌, ◌<◌, ◌%◌, ℤ, true, false, Option, None, List, length};
ghost use Rattle.nest_syntax.specs.Course.{Purpose};
ghost use Rattle.settle_law.specs.Courses as courses;
ghost use Rattle.sched_cursor.specs.declared.event.Iteration.{Iteration};
ghost use Rattle.sched_cursor.specs.Cursor.{Cursor as Course};
ghost use Rattle.sched_cursor.specs.Events.{is_iterating};
ghost use Rattle.domore_machine.specs.Machine as machine;
ghost use Rattle.domore_machine.specs.Facts.{drained};
ghost use Rattle.domore_core.specs.Tables.{state_of, setup_by, engine_of, IsPlan, IsSound};
ghost use Rattle.domore_core.specs.Ahead.{GoesOn};

use crate::plan::Plan;
use crate::table::Table;

impl Table {
    /// Goes behind an event that computes with scalars and `const` words, or behind the end of an invocation.
    pub(crate) fn scalar(&mut self, plan: &Plan)
        requires plan { IsPlan plan.now }
        requires sound { IsSound plan.now self.old }
        requires goes { GoesOn (engine_of plan.now self.old) }
        requires untrapped { self.old.trap ≡ None }
        requires other { is_iterating self.old.desk.cursor.at ≡ false }
        ensures computes { (purpose : Purpose) (trap : Option courses.Trap) (rest : Course) → (setup_by plan.now).event self.old.desk.cursor ≡ courses.Scalar purpose trap rest
            → state_of self.new ≡ machine.scalar_after (setup_by plan.now) (state_of self.old) purpose trap rest }
        ensures closes { (rest : Course) → (setup_by plan.now).event self.old.desk.cursor ≡ courses.Close rest
            → state_of self.new ≡ record (state_of self.old) { cursor = rest } }
        ensures sound { IsSound plan.now self.new }
    {
        // None is kept yet.
        self.trap = self.desk.pass(plan, &self.words);
    }

    /// Goes behind an event that computes with the present words.
    pub(crate) fn drain(&mut self, plan: &Plan)
        requires plan { IsPlan plan.now }
        requires sound { IsSound plan.now self.old }
        requires goes { GoesOn (engine_of plan.now self.old) }
        requires untrapped { self.old.trap ≡ None }
        requires other { is_iterating self.old.desk.cursor.at ≡ false }
        ensures state { (purpose : Purpose) (traps : List ℤ → Option courses.Trap) (rests : List ℤ → Course) → (setup_by plan.now).event self.old.desk.cursor ≡ courses.Drain purpose traps rests
            → state_of self.new ≡ machine.scalar_after (setup_by plan.now) (record (state_of self.old) { facts = drained self.old.desk.tally.facts }) purpose (traps self.old.words.words) (rests self.old.words.words) }
        ensures sound { IsSound plan.now self.new }
    {
        self.desk.tally.drain();
        // None is kept yet.
        self.trap = self.desk.pass(plan, &self.words);
    }

    /// Hands out the next iteration.
    pub(crate) fn dispatch(&mut self, plan: &Plan)
        requires plan { IsPlan plan.now }
        requires sound { IsSound plan.now self.old }
        requires goes { GoesOn (engine_of plan.now self.old) }
        requires untrapped { self.old.trap ≡ None }
        requires iterates { is_iterating self.old.desk.cursor.at ≡ true }
        requires place { length (machine.seat_at self.old.seats.items (self.old.desk.cursor.next % plan.now.options.workers)).queue < 1024 }
        ensures state { (b : Iteration) (rest : Course) → (setup_by plan.now).event self.old.desk.cursor ≡ courses.Iterate b rest
            → state_of self.new ≡ machine.state_after (setup_by plan.now) (state_of self.old) plan.now.options.workers (machine.DoDispatch b rest) }
        ensures sound { IsSound plan.now self.new }
    {
        let ticket = self.desk.hand_out(plan);
        let own = (ticket.number % plan.options.workers as u64) as usize;
        self.seats[own].put(ticket);
    }

    pub(crate) fn halt(&mut self, plan: &Plan)
        requires { IsSound plan.now self.old }
        ensures state { state_of self.new ≡ record (state_of self.old) { halted = true } }
        ensures sound { IsSound plan.now self.new }
    {
        self.halted = true;
    }
}
