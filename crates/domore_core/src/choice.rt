//! Which move is enabled.
ghost use Rattle.std.specs.Prelude.{◌≡◌, ◌<◌, ◌≤◌, ◌%◌, if◌then◌else◌, nat_lt, ℕ, ◌↔◌, IsTrue, List, length, Some, None};
ghost use Rattle.std.specs.Option.{option_map};
ghost use Rattle.std.specs.List.{list_all};
ghost use Rattle.nest_syntax.specs.Arrays.{arrays_of};
ghost use Rattle.task_frame.specs.declared.piece.Piece.{Piece as Stood};
ghost use Rattle.sched_cursor.specs.declared.event.Iteration.{Iteration};
ghost use Rattle.sched_cursor.specs.Events.{event_at};
ghost use Rattle.domore_machine.specs.Machine as machine;
ghost use Rattle.domore_machine.specs.Waits.{Wait as On};
ghost use Rattle.domore_machine.specs.Invariant.{AllTickets, is_free};
ghost use Rattle.domore_core.specs.Moves.{told};
ghost use Rattle.domore_core.specs.Stages.{stage_of, stage_move, number_at};
ghost use Rattle.domore_core.specs.Tables.{state_of, setup_by, IsPlan, IsSound};

use crate::moves::{Move, Turn};
use crate::plan::Plan;
use crate::stage::Stage;
use crate::table::Table;
use crate::wait::Wait;
use sched_cursor::Event;
use task_frame::Piece;

impl Table {
    /// The enabled move of an actor.
    pub(crate) fn next_move(&self, plan: &Plan, actor: u8) -> Option<Move>
        requires plan { IsPlan plan.now }
        requires sound { IsSound plan.now self.now }
        requires tickets { AllTickets (setup_by plan.now) (state_of self.now) }
        ensures { result ≡ option_map told (machine.move_of (setup_by plan.now) (state_of self.now) actor) }
    {
        if actor < plan.options.workers {
            self.worker_move(actor)
        } else if actor == plan.options.workers {
            self.scheduler_move(plan)
        } else {
            None
        }
    }

    fn worker_move(&self, worker: u8) -> Option<Move>
        requires { worker < length self.now.seats.items }
        ensures { result ≡ stage_move (state_of self.now) (stage_of (machine.seat_at self.now.seats.items worker)) }
    {
        match self.seats[worker as usize].stage() {
            Stage::Ended => None,
            Stage::Free => self.last_move(),
            Stage::Next(number) => Some(self.first_move(number)),
            Stage::Waiting(number, wait) => self.waiting_move(number, wait),
            Stage::Standing(number) => Some(self.standing_move(number)),
        }
    }

    fn last_move(&self) -> Option<Move>
        ensures { result ≡ (if self.now.halted then Some (Move.Turn Turn.End) else None) }
    {
        if self.halted {
            Some(Move::Turn(Turn::End))
        } else {
            None
        }
    }

    fn first_move(&self, number: u64) -> Move
        ensures { result ≡ (if machine.is_above self.now.trap number then Move.Turn Turn.DropQueued else Move.Turn Turn.Take) }
    {
        if self.is_above(number) {
            Move::Turn(Turn::DropQueued)
        } else {
            Move::Turn(Turn::Take)
        }
    }

    fn waiting_move(&self, number: u64, wait: Wait) -> Option<Move>
        ensures { result ≡ (if machine.is_above self.now.trap number then Some (Move.Turn Turn.DropHeld) else (if nat_lt wait.number (machine.done_at self.now.seats.items wait.worker) then Some (Move.Turn Turn.Pass) else None)) }
    {
        if self.is_above(number) {
            Some(Move::Turn(Turn::DropHeld))
        } else if wait.number < self.done_of(wait.worker) {
            Some(Move::Turn(Turn::Pass))
        } else {
            None
        }
    }

    fn standing_move(&self, number: u64) -> Move
        ensures { result ≡ (if machine.is_above self.now.trap number then Move.Turn Turn.DropHeld else Move.Hop) }
    {
        if self.is_above(number) {
            Move::Turn(Turn::DropHeld)
        } else {
            Move::Hop
        }
    }

    fn scheduler_move(&self, plan: &Plan) -> Option<Move>
        requires plan { IsPlan plan.now }
        requires sound { IsSound plan.now self.now }
        requires tickets { AllTickets (setup_by plan.now) (state_of self.now) }
        ensures { result ≡ option_map told (machine.scheduler_move (setup_by plan.now) (state_of self.now)) }
    {
        if self.halted {
            return None;
        }
        match self.trap {
            Some(_) => Some(Move::Turn(Turn::Halt)),
            None => self.event_move(plan),
        }
    }

    fn event_move(&self, plan: &Plan) -> Option<Move>
        requires plan { IsPlan plan.now }
        requires sound { IsSound plan.now self.now }
        requires tickets { AllTickets (setup_by plan.now) (state_of self.now) }
        requires untrapped { self.now.trap ≡ None }
        ensures { result ≡ option_map told (machine.event_move (setup_by plan.now) (state_of self.now) (event_at (arrays_of plan.now.job.program.decls) plan.now.job.opening.words self.now.desk.cursor)) }
    {
        match self.desk.cursor.peek() {
            Event::Scalar => Some(Move::Turn(Turn::Scalar)),
            Event::Drain => self.drain_move(),
            Event::Iterate => self.dispatch_move(plan.options.queue),
            Event::Close => Some(Move::Turn(Turn::Scalar)),
            Event::End => Some(Move::Turn(Turn::Halt)),
        }
    }

    // All iterations before are finished exactly where no worker has a ticket.
    fn drain_move(&self) -> Option<Move>
        ensures { result ≡ (if list_all is_free self.now.seats.items then Some (Move.Turn Turn.Drain) else None) }
    {
        if self.all_are_free() {
            Some(Move::Turn(Turn::Drain))
        } else {
            None
        }
    }

    fn all_are_free(&self) -> bool
        ensures { result ≡ list_all is_free self.now.seats.items }
    {
        self.seats.iter().all(|seat| seat.is_free())
    }

    fn dispatch_move(&self, room: u16) -> Option<Move>
        requires { 0 < length self.now.seats.items }
        ensures { result ≡ (if nat_lt (length (machine.seat_at self.now.seats.items (self.now.desk.cursor.next % length self.now.seats.items)).queue) room then Some (Move.Turn Turn.Dispatch) else None) }
    {
        let own = (self.desk.cursor.next() % self.seats.len() as u64) as usize;
        if self.seats[own].tickets() < room as usize {
            Some(Move::Turn(Turn::Dispatch))
        } else {
            None
        }
    }

    /// The number of the iteration that a worker holds, and else of its first ticket.
    pub(crate) fn number(&self, worker: u8) -> u64
        ensures { worker < length self.now.seats.items → result ≡ number_at (machine.seat_at self.now.seats.items worker) }
    {
        match self.seats.get(worker as usize) {
            Some(seat) => seat.number(),
            None => 0,
        }
    }

    /// The piece at which the iteration of a worker stands.
    pub(crate) fn piece(&self, worker: u8) -> Option<Piece>
        ensures { (k : ℕ) (left : List On) (p : Stood) → (machine.seat_at self.now.seats.items worker).hand ≡ machine.Holding k left p → result ≡ Some p }
    {
        self.seats.get(worker as usize)?.piece()
    }

    /// Whether it stands at this one.
    pub(crate) fn is_at(&self, worker: u8, piece: &Piece) -> bool
        ensures { (k : ℕ) (left : List On) (p : Stood) → (machine.seat_at self.now.seats.items worker).hand ≡ machine.Holding k left p → IsTrue result ↔ (p ≡ piece.now) }
    {
        match self.seats.get(worker as usize) {
            Some(seat) => seat.is_at(piece),
            None => false,
        }
    }

    pub(crate) fn is_ended(&self, worker: u8) -> bool
        ensures { result ≡ machine.is_ended (machine.seat_at self.now.seats.items worker).hand }
    {
        match self.seats.get(worker as usize) {
            Some(seat) => seat.is_ended(),
            None => true,
        }
    }

    pub(crate) fn ended_are_over(&self) -> bool
        ensures { result ≡ list_all (λ (s : machine.Seat Iteration Stood). machine.is_ended s.hand) self.now.seats.items }
    {
        self.seats.iter().all(|seat| seat.is_ended())
    }

    // A number is above the trap where a trap is kept and its number is less.
    fn is_above(&self, number: u64) -> bool
        ensures { result ≡ machine.is_above self.now.trap number }
    {
        match self.trap {
            Some(trap) => trap.number < number,
            None => false,
        }
    }

    fn done_of(&self, worker: u8) -> u64
        ensures { result ≡ machine.done_at self.now.seats.items worker }
    {
        match self.seats.get(worker as usize) {
            Some(seat) => seat.done(),
            None => 0,
        }
    }
}
