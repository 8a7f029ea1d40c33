//! The moves of a worker.
ghost use Rattle.std.specs.Prelude.{◌≡◌, ◌<◌, ◌^◌, ℕ, ℤ, List, [], ◌∷◌, Some, length};
ghost use Rattle.nest_syntax.specs.declared.names.Line.{Line as At};
ghost use Rattle.nest_syntax.specs.declared.operators.Cause.{Cause as Why};
ghost use Rattle.task_frame.specs.declared.piece.Piece.{Piece as Stood};
ghost use Rattle.task_frame.specs.Pieces.{reached, piece_at};
ghost use Rattle.task_frame.specs.Stops.{IsInside};
ghost use Rattle.sched_cursor.specs.declared.event.Iteration.{Iteration};
ghost use Rattle.domore_machine.specs.Machine as machine;
ghost use Rattle.domore_machine.specs.Waits.{Wait as On};
ghost use Rattle.nest_setup.specs.Pieces.{stop_of};
ghost use Rattle.domore_core.specs.Tables.{state_of, setup_by, sizes_by, IsSame};

use crate::memory::{set_word, word_at};
use crate::plan::Plan;
use crate::table::Table;
use nest_syntax::{Cause, Line, Place};
use task_frame::{Frame, Stop, Worked, piece_at};
use task_hop::Register;

impl Table {
    pub(crate) fn take(&mut self, plan: &Plan, worker: u8)
        requires own { worker < length self.old.seats.items }
        requires body { (t : machine.Ticket Iteration) (queue : List (machine.Ticket Iteration)) → (machine.seat_at self.old.seats.items worker).queue ≡ t ∷ queue → t.body.body < length plan.now.code.entries }
        ensures state { (t : machine.Ticket Iteration) (queue : List (machine.Ticket Iteration)) → (machine.seat_at self.old.seats.items worker).queue ≡ t ∷ queue
            → state_of self.new ≡ machine.worker_after (setup_by plan.now) (state_of self.old) worker (machine.DoTake t queue) }
        ensures same { IsSame self.old self.new }
    {
        self.seats[worker as usize].take(&plan.code);
    }

    pub(crate) fn pass(&mut self, plan: &Plan, worker: u8)
        requires { worker < length self.old.seats.items }
        ensures state { (k : ℕ) (w : On) (left : List On) (p : Stood) → (machine.seat_at self.old.seats.items worker).hand ≡ machine.Holding k (w ∷ left) p
            → state_of self.new ≡ machine.worker_after (setup_by plan.now) (state_of self.old) worker (machine.DoPass k w left p) }
        ensures same { IsSame self.old self.new }
    {
        self.seats[worker as usize].pass();
    }

    pub(crate) fn drop_held(&mut self, plan: &Plan, worker: u8)
        requires { worker < length self.old.seats.items }
        ensures state { (k : ℕ) → state_of self.new ≡ machine.worker_after (setup_by plan.now) (state_of self.old) worker (machine.DoDropHeld k) }
        ensures same { IsSame self.old self.new }
    {
        self.seats[worker as usize].leave();
    }

    pub(crate) fn drop_queued(&mut self, plan: &Plan, worker: u8)
        requires { worker < length self.old.seats.items }
        ensures state { (t : machine.Ticket Iteration) (queue : List (machine.Ticket Iteration)) → (machine.seat_at self.old.seats.items worker).queue ≡ t ∷ queue
            → state_of self.new ≡ machine.worker_after (setup_by plan.now) (state_of self.old) worker (machine.DoDropQueued t queue) }
        ensures same { IsSame self.old self.new }
    {
        self.seats[worker as usize].skip();
    }

    pub(crate) fn end(&mut self, plan: &Plan, worker: u8)
        requires { worker < length self.old.seats.items }
        ensures state { state_of self.new ≡ machine.worker_after (setup_by plan.now) (state_of self.old) worker machine.DoEnd }
        ensures same { IsSame self.old self.new }
    {
        self.seats[worker as usize].end();
    }

    /// Makes the stop of the piece at which the held iteration stands, and which was worked on.
    pub(crate) fn hop(&mut self, plan: &Plan, worker: u8, worked: &Worked)
        requires own { worker < length self.old.seats.items }
        requires sizes { self.old.words.sizes ≡ sizes_by plan.now }
        requires inside { IsInside (sizes_by plan.now) (reached worked.now).stop }
        requires small { (k : ℕ) (left : List On) (p : Stood) → (machine.seat_at self.old.seats.items worker).hand ≡ machine.Holding k left p → k < 2 ^ 63 }
        ensures state { (k : ℕ) → (machine.seat_at self.old.seats.items worker).hand ≡ machine.Holding k [] worked.now
            → state_of self.new ≡ machine.worker_after (setup_by plan.now) (state_of self.old) worker (machine.stop_move (setup_by plan.now) k (stop_of (sizes_by plan.now) plan.now.code worked.now)) }
        ensures same { IsSame self.old self.new }
    {
        match worked.stop() {
            Stop::Load {
                array,
                place,
                into,
                next,
            } => {
                let value = word_at(&self.words, array, place);
                let mut frame = *worked.frame();
                frame.set(Register::Temporary(into), value);
                self.go(plan, worker, next, frame);
            }
            Stop::Store {
                array,
                place,
                value,
                next,
            } => {
                set_word(&mut self.words, array, place, value);
                self.go(plan, worker, next, *worked.frame());
            }
            Stop::Go { next } => self.go(plan, worker, next, *worked.frame()),
            Stop::Finish => self.finish(plan, worker),
            Stop::Trap { cause, line } => self.keep_trap(plan, worker, cause, line),
        }
    }

    // The held iteration goes on at an address.
    fn go(&mut self, plan: &Plan, worker: u8, next: u32, frame: Frame)
        requires { worker < length self.old.seats.items }
        ensures state { (k : ℕ) (p : Stood) → (machine.seat_at self.old.seats.items worker).hand ≡ machine.Holding k [] p
            → state_of self.new ≡ machine.worker_after (setup_by plan.now) (state_of self.old) worker (machine.DoGo k (piece_at plan.now.code next frame)) }
        ensures same { IsSame self.old self.new }
    {
        self.seats[worker as usize].stand(piece_at(&plan.code, next, frame));
    }

    fn finish(&mut self, plan: &Plan, worker: u8)
        requires own { worker < length self.old.seats.items }
        requires small { (k : ℕ) (left : List On) (p : Stood) → (machine.seat_at self.old.seats.items worker).hand ≡ machine.Holding k left p → k < 2 ^ 63 }
        ensures state { (k : ℕ) (p : Stood) → (machine.seat_at self.old.seats.items worker).hand ≡ machine.Holding k [] p
            → state_of self.new ≡ machine.worker_after (setup_by plan.now) (state_of self.old) worker (machine.DoFinish k) }
        ensures same { IsSame self.old self.new }
    {
        self.seats[worker as usize].finish();
    }

    // The trap with the least number of the old and the new one is kept.
    fn keep_trap(&mut self, plan: &Plan, worker: u8, cause: Cause, line: Line)
        requires { worker < length self.old.seats.items }
        ensures state { (k : ℕ) (p : Stood) → (machine.seat_at self.old.seats.items worker).hand ≡ machine.Holding k [] p
            → state_of self.new ≡ machine.worker_after (setup_by plan.now) (state_of self.old) worker (machine.DoTrap k cause line) }
        ensures same { IsSame self.old self.new }
    {
        let place = Place {
            cause,
            line,
            number: self.seats[worker as usize].number(),
            by_scheduler: false,
        };
        self.trap = Some(least_trap(self.trap, place));
        self.seats[worker as usize].leave();
    }
}

// Of two traps the one with the least number, and the old one where they have the same.
fn least_trap(old: Option<Place>, new: Place) -> Place
    ensures { result ≡ machine.least_trap old new }
{
    match old {
        None => new,
        Some(kept) => { if new.number < kept.number { new } else { kept } }
    }
}
