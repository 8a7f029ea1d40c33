ghost use Rattle.std.specs.Prelude.{◌≡◌, ◌<◌, ◌+◌, ◌++◌, ◌^◌, ◌↔◌, ◌&&◌, ℕ, suc, true, IsTrue, List, [], ◌∷◌, length, IfOk, IfSome, None, Some};
ghost use Rattle.task_frame.specs.declared.piece.Piece.{Piece as Stood};
ghost use Rattle.sched_cursor.specs.declared.event.Iteration.{Iteration};
ghost use Rattle.domore_machine.specs.Machine as machine;
ghost use Rattle.domore_machine.specs.Waits.{Wait as On};
ghost use Rattle.domore_machine.specs.Invariant.{is_free};
ghost use Rattle.nest_setup.specs.Pieces.{opening_piece};
ghost use Rattle.domore_core.specs.Tickets.{ticket_of};
ghost use Rattle.domore_core.specs.Stages.{stage_of, number_at};

use crate::hand::Held;
use crate::pieces::first_piece;
use crate::stage::Stage;
use crate::wait::listed_waits;
use nest_syntax::NoMemory;
use std::alloc::Global;
use std::marker::Model;
use task_code::TaskCode;
use task_frame::Piece;
use wait_queue::{Ticket, Tickets};

/// The most tickets that a queue may take, as options are in their ranges. There is room for as many.
pub(crate) const MOST_TICKETS: usize = 1024;

/// A worker: what it holds, the queue of its tickets, and one more than the number that it finished last, 0 before.
#[derive(Drop)]
pub struct Seat {
    hand: Held,
    queue: Tickets,
    done: u64,
}

impl Model for Seat {
    ghost use Rattle.std.specs.Prelude.{◌≡◌};
    ghost use Rattle.task_frame.specs.declared.piece.Piece.{Piece as Stood};
    ghost use Rattle.sched_cursor.specs.declared.event.Iteration.{Iteration};
    ghost use Rattle.domore_machine.specs.Machine.{Seat as Place};
    ghost use Rattle.domore_core.specs.Hands.{hand_of};
    ghost use Rattle.domore_core.specs.Tickets.{tickets_of};

    ghost Value = { Place Iteration Stood };

    ghost view = { λ s. record { hand = hand_of s.hand; queue = tickets_of s.queue.items; done = s.done } };

    ghost invariant = { λ s. s.queue.capacity ≡ 1024 };
}

impl Seat {
    /// An idle worker with an empty queue, which takes 1,024 tickets.
    pub(crate) fn open(alloc: Global) -> Result<Seat, NoMemory>
        ensures { IfOk result (λ seat. seat ≡ machine.opening_seat) }
    {
        Ok(Seat {
            hand: Held::Nothing,
            queue: Tickets::with_capacity(alloc, MOST_TICKETS)?,
            done: 0,
        })
    }

    pub(crate) fn done(&self) -> u64
        ensures { result ≡ self.now.done }
    {
        self.done
    }

    #[tactic(auto, using(crate::proofs::Queues::many_queued))]
    pub(crate) fn tickets(&self) -> usize
        ensures { result ≡ length self.now.queue }
    {
        self.queue.len()
    }

    pub(crate) fn is_ended(&self) -> bool
        ensures { result ≡ machine.is_ended self.now.hand }
    {
        matches!(self.hand, Held::Ended)
    }

    /// Whether it has no ticket, held or queued.
    #[tactic(auto, using(crate::proofs::Queues::none_queued))]
    pub(crate) fn is_free(&self) -> bool
        ensures { result ≡ is_free self.now }
    {
        !matches!(self.hand, Held::Task { .. }) && self.queue.len() == 0
    }

    #[tactic(auto, using(crate::proofs::Queues::next_stage, crate::proofs::Queues::free_stage))]
    pub(crate) fn stage(&self) -> Stage
        ensures { result ≡ stage_of self.now }
    {
        match &self.hand {
            Held::Nothing => match self.queue.front() {
                None => Stage::Free,
                Some(ticket) => Stage::Next(ticket.number),
            },
            Held::Task { number, waits, .. } => match waits.as_slice() {
                [] => Stage::Standing(*number),
                [wait, ..] => Stage::Waiting(*number, *wait),
            },
            Held::Ended => Stage::Ended,
        }
    }

    /// The number of the held iteration, and else of the first ticket. 0 where there is none.
    #[tactic(auto, using(crate::proofs::Queues::first_number, crate::proofs::Queues::no_number))]
    pub(crate) fn number(&self) -> u64
        ensures { result ≡ number_at self.now }
    {
        match &self.hand {
            Held::Nothing => match self.queue.front() {
                None => 0,
                Some(ticket) => ticket.number,
            },
            Held::Task { number, .. } => *number,
            Held::Ended => 0,
        }
    }

    /// The piece at which the held iteration stands.
    pub(crate) fn piece(&self) -> Option<Piece>
        ensures held { (k : ℕ) (left : List On) (p : Stood) → self.now.hand ≡ machine.Holding k left p → result ≡ Some p }
    {
        match &self.hand {
            Held::Task { piece, .. } => Some(piece.copy()),
            Held::Nothing | Held::Ended => None,
        }
    }

    /// Whether the held iteration stands at this piece.
    pub(crate) fn is_at(&self, piece: &Piece) -> bool
        ensures { (k : ℕ) (left : List On) (p : Stood) → self.now.hand ≡ machine.Holding k left p → IsTrue result ↔ (p ≡ piece.now) }
    {
        match &self.hand {
            Held::Task { piece: own, .. } => own.is_same(piece),
            Held::Nothing | Held::Ended => false,
        }
    }

    /// A ticket is put at the end of the queue.
    #[tactic(auto, using(crate::proofs::Queues::put_queued, crate::proofs::Queues::many_queued))]
    pub(crate) fn put(&mut self, ticket: Ticket)
        requires { length self.old.queue < 1024 }
        ensures { self.new ≡ machine.seat_with self.old (ticket_of ticket) }
    {
        let Ok(()) = self.queue.put(ticket) else {
            unreachable!()
        };
    }

    /// The first ticket is taken, and its iteration begins.
    #[tactic(auto, using(crate::proofs::Queues::first_is, crate::proofs::Queues::rest_is))]
    pub(crate) fn take(&mut self, code: &TaskCode)
        requires { (t : machine.Ticket Iteration) (queue : List (machine.Ticket Iteration)) → self.old.queue ≡ t ∷ queue → t.body.body < length code.now.entries }
        ensures { (t : machine.Ticket Iteration) (queue : List (machine.Ticket Iteration)) → self.old.queue ≡ t ∷ queue
            → self.new ≡ record self.old { hand = machine.Holding t.number t.waits (opening_piece code.now t.body); queue = queue } }
    {
        if let Some(ticket) = self.queue.take() {
            let Ticket {
                number,
                body,
                value,
                env,
                waits,
            } = ticket;
            self.hand = Held::Task {
                number,
                waits: listed_waits(&waits),
                piece: first_piece(code, body, value, &env),
            };
        }
    }

    /// The first ticket is dropped.
    #[tactic(auto, using(crate::proofs::Queues::rest_is))]
    pub(crate) fn skip(&mut self)
        ensures { (t : machine.Ticket Iteration) (queue : List (machine.Ticket Iteration)) → self.old.queue ≡ t ∷ queue
            → self.new ≡ record self.old { queue = queue } }
    {
        let _ = self.queue.take();
    }

    /// The first wait is passed.
    pub(crate) fn pass(&mut self)
        ensures { (k : ℕ) (w : On) (left : List On) (p : Stood) → self.old.hand ≡ machine.Holding k (w ∷ left) p
            → self.new ≡ record self.old { hand = machine.Holding k left p } }
    {
        if let Held::Task { waits, .. } = &mut self.hand {
            let _ = waits.pop_at(0);
        }
    }

    /// The held iteration stands at another piece.
    pub(crate) fn stand(&mut self, next: Piece)
        ensures { (k : ℕ) (left : List On) (p : Stood) → self.old.hand ≡ machine.Holding k left p
            → self.new ≡ record self.old { hand = machine.Holding k left next } }
    {
        if let Held::Task { piece, .. } = &mut self.hand {
            *piece = next;
        }
    }

    /// The held iteration is finished.
    pub(crate) fn finish(&mut self)
        requires { (k : ℕ) (left : List On) (p : Stood) → self.old.hand ≡ machine.Holding k left p → k < 2 ^ 63 }
        ensures { (k : ℕ) (left : List On) (p : Stood) → self.old.hand ≡ machine.Holding k left p
            → self.new ≡ record self.old { hand = machine.Idle; done = suc k } }
    {
        if let Held::Task { number, .. } = &self.hand {
            self.done = *number + 1;
            self.hand = Held::Nothing;
        }
    }

    /// The held iteration is let go.
    pub(crate) fn leave(&mut self)
        ensures { self.new ≡ record self.old { hand = machine.Idle } }
    {
        self.hand = Held::Nothing;
    }

    pub(crate) fn end(&mut self)
        ensures { self.new ≡ record self.old { hand = machine.Ended } }
    {
        self.hand = Held::Ended;
    }
}
