//! Which move is enabled.
ghost use Rattle.std.specs.Prelude.{◌≡◌, ◌<◌, ◌≤◌, ◌&&◌, ◌==◌, ◌+◌, ◌↔◌, ℕ, Bool, IsTrue, true, false, nat_lt, nat_le, if◌then◌else◌, Option, None, Some, List, length};
ghost use Rattle.std.specs.Option.{option_map};
ghost use Rattle.std.specs.List.{list_all, list_any};
ghost use Rattle.nest_syntax.specs.Among.{Each};
ghost use Rattle.nest_syntax.specs.Arrays.{arrays_of};
ghost use Rattle.task_frame.specs.declared.piece.Piece.{Piece as Stood};
ghost use Rattle.spec_machine.specs.Machine as machine;
ghost use Rattle.spec_core.specs.Signatures.{signs};
ghost use Rattle.spec_setup.specs.Setups.{invocation_at};
ghost use Rattle.spec_core.specs.Moves.{told};
ghost use Rattle.spec_core.specs.Hands.{Bench, bench_at};
ghost use Rattle.spec_core.specs.Stages.{standing_move, empty_move, turn_at_end, drain_turn, early_turn};
ghost use Rattle.spec_core.specs.Blocks.{has_below_in};
ghost use Rattle.spec_core.specs.Engine.{told_in};
ghost use Rattle.spec_core.specs.Tables.{state_of, setup_by, sizes_by, IsPlan, IsSound, IsDeskBy, GoesOn};

use crate::desk::Desk;
use crate::moves::{Move, Turn};
use crate::plan::Plan;
use crate::stage::Stage;
use crate::table::Table;
use range_sign::Signature;
use sched_cursor::Event;
use task_frame::Piece;

impl<G: Signature> Table<G> {
    /// The enabled move of an actor.
    pub(crate) fn next_move(&self, plan: &Plan, actor: u8) -> Option<Move>
        requires plan { IsPlan plan.now }
        requires sound { IsSound G.sizes_of plan.now self.now }
        requires goes { GoesOn (setup_by (signs G.EXACT G.holds G.nothing G.with_note) plan.now) (sizes_by plan.now) (state_of self.now) }
        ensures { result ≡ told_in (setup_by (signs G.EXACT G.holds G.nothing G.with_note) plan.now) (state_of self.now) actor }
    {
        if self.concluded {
            return None;
        }
        let workers = plan.options.workers;
        if actor < workers {
            self.worker_move(plan, actor)
        } else if actor == workers {
            self.scheduler_move(plan)
        } else if actor == workers + 1 {
            self.checker_move(plan)
        } else {
            None
        }
    }

    fn worker_move(&self, plan: &Plan, worker: u8) -> Option<Move>
        requires plan { IsPlan plan.now }
        requires sound { IsSound G.sizes_of plan.now self.now }
        requires own { worker < plan.now.options.workers }
        ensures { result ≡ option_map (told (bench_at self.now.seats.items worker).hand) (machine.worker_move (setup_by (signs G.EXACT G.holds G.nothing G.with_note) plan.now) (state_of self.now) (state_of self.now).abort worker) }
    {
        let seat = &self.seats[worker as usize];
        if self.abort.is_some() {
            return give_up(seat.is_running());
        }
        match seat.stage() {
            Stage::Idle => self.idle_move(plan, worker, seat.done()),
            Stage::Empty => Some(self.empty_move()),
            Stage::Standing(number) => Some(self.standing_move(number)),
            Stage::Stopped => None,
        }
    }

    fn idle_move(&self, plan: &Plan, worker: u8, epoch: u32) -> Option<Move>
        requires plan { IsPlan plan.now }
        requires sound { IsSound G.sizes_of plan.now self.now }
        requires own { worker < plan.now.options.workers }
        ensures { result ≡ option_map (told machine.Idle) (machine.idle_move (setup_by (signs G.EXACT G.holds G.nothing G.with_note) plan.now) (state_of self.now) self.now.trap epoch worker) }
    {
        match self.trap {
            None => self.begin_move(epoch),
            Some(trap) => {
                if self.desk.has_below(plan, epoch, worker, trap.number) {
                    self.begin_move(epoch)
                } else {
                    Some(Move::Turn(Turn::Stop))
                }
            }
        }
    }

    fn begin_move(&self, epoch: u32) -> Option<Move>
        requires near { self.now.distance ≤ 64 }
        requires few { Each (λ (b : Bench G). b.done ≤ 64) self.now.seats.items }
        ensures { result ≡ (if nat_lt epoch (length self.now.desk.epochs) && list_all (λ (b : Bench G). nat_le epoch (b.done + self.now.distance)) self.now.seats.items then Some (Move.Turn Turn.Begin) else None) }
    {
        if (epoch as usize) < self.desk.epochs.len() && self.is_near(epoch) {
            Some(Move::Turn(Turn::Begin))
        } else {
            None
        }
    }

    // Whether no worker is too far behind for a task in an epoch to begin.
    fn is_near(&self, epoch: u32) -> bool
        requires near { self.now.distance ≤ 64 }
        requires few { Each (λ (b : Bench G). b.done ≤ 64) self.now.seats.items }
        ensures { result ≡ list_all (λ (b : Bench G). nat_le epoch (b.done + self.now.distance)) self.now.seats.items }
    {
        self.seats
            .iter()
            .all(|seat| epoch <= seat.done().saturating_add(self.distance))
    }

    fn empty_move(&self) -> Move
        ensures { result ≡ empty_move self.now.trap }
    {
        match self.trap {
            None => Move::Turn(Turn::Finish),
            Some(_) => Move::Turn(Turn::Stop),
        }
    }

    fn standing_move(&self, number: u64) -> Move
        ensures { result ≡ standing_move self.now.trap number }
    {
        match self.trap {
            Some(trap) if trap.number <= number => Move::Turn(Turn::Stop),
            _ => Move::Hop,
        }
    }

    fn scheduler_move(&self, plan: &Plan) -> Option<Move>
        requires plan { IsPlan plan.now }
        requires sound { IsSound G.sizes_of plan.now self.now }
        requires goes { GoesOn (setup_by (signs G.EXACT G.holds G.nothing G.with_note) plan.now) (sizes_by plan.now) (state_of self.now) }
        ensures { result ≡ option_map (told machine.Idle) (machine.scheduler_move (setup_by (signs G.EXACT G.holds G.nothing G.with_note) plan.now) (state_of self.now) (state_of self.now).abort) }
    {
        if self.abort.is_some() {
            turn_where(!self.is_anyone_running(), Turn::Restore)
        } else if self.trap.is_some() {
            turn_where(self.are_all_stopped(), Turn::Conclude)
        } else if self.desk.sealed {
            turn_where(self.is_ready(plan), Turn::Commit)
        } else {
            Some(Move::Turn(self.desk.open_move(plan)))
        }
    }

    fn is_anyone_running(&self) -> bool
        ensures { result ≡ list_any (λ (b : Bench G). machine.is_running b.hand) self.now.seats.items }
    {
        self.seats.iter().any(|seat| seat.is_running())
    }

    fn are_all_stopped(&self) -> bool
        ensures { result ≡ list_all (λ (b : Bench G). machine.is_stopped b.hand) self.now.seats.items }
    {
        self.seats.iter().all(|seat| seat.is_stopped())
    }

    // Whether the sealed segment may be committed.
    fn is_ready(&self, plan: &Plan) -> bool
        requires plan { IsPlan plan.now }
        requires sound { IsSound G.sizes_of plan.now self.now }
        requires goes { GoesOn (setup_by (signs G.EXACT G.holds G.nothing G.with_note) plan.now) (sizes_by plan.now) (state_of self.now) }
        requires calm { self.now.abort ≡ None }
        ensures { result ≡ machine.is_ready (setup_by (signs G.EXACT G.holds G.nothing G.with_note) plan.now) (state_of self.now) }
    {
        let epochs = self.desk.epochs.len() as u32;
        self.have_all_done(epochs) && self.are_all_passed(plan, epochs)
    }

    fn have_all_done(&self, epochs: u32) -> bool
        ensures { result ≡ list_all (λ (b : Bench G). b.done == epochs) self.now.seats.items }
    {
        self.seats.iter().all(|seat| seat.done() == epochs)
    }

    fn checker_move(&self, plan: &Plan) -> Option<Move>
        requires plan { IsPlan plan.now }
        requires sound { IsSound G.sizes_of plan.now self.now }
        requires goes { GoesOn (setup_by (signs G.EXACT G.holds G.nothing G.with_note) plan.now) (sizes_by plan.now) (state_of self.now) }
        ensures { result ≡ option_map (told machine.Idle) (machine.checker_move (setup_by (signs G.EXACT G.holds G.nothing G.with_note) plan.now) (state_of self.now) (state_of self.now).abort self.now.trap) }
    {
        if self.abort.is_some() || self.trap.is_some() {
            return None;
        }
        turn_where(self.due(plan).is_some(), Turn::Check)
    }

    /// How many epochs a worker has finished.
    pub(crate) fn done(&self, worker: u8) -> u32
        ensures { result ≡ (bench_at self.now.seats.items worker).done }
    {
        match self.seats.get(worker as usize) {
            Some(seat) => seat.done(),
            None => 0,
        }
    }

    /// The piece at which the iteration of a worker stands.
    pub(crate) fn piece(&self, worker: u8) -> Option<Piece>
        ensures { (k : ℕ) (p : Stood) → (bench_at self.now.seats.items worker).hand ≡ machine.Running k p → result ≡ Some p }
    {
        self.seats.get(worker as usize)?.piece()
    }

    /// Whether it stands at this one.
    pub(crate) fn is_at(&self, worker: u8, piece: &Piece) -> bool
        ensures { (k : ℕ) (p : Stood) → (bench_at self.now.seats.items worker).hand ≡ machine.Running k p → IsTrue result ↔ (p ≡ piece.now) }
    {
        match self.seats.get(worker as usize) {
            Some(seat) => seat.is_at(piece),
            None => false,
        }
    }
}

fn give_up(running: bool) -> Option<Move>
    ensures { result ≡ (if running then Some (Move.Turn Turn.LetGo) else None) }
{
    turn_where(running, Turn::LetGo)
}

fn turn_where(enabled: bool, turn: Turn) -> Option<Move>
    ensures { result ≡ (if enabled then Some (Move.Turn turn) else None) }
{
    if enabled {
        Some(Move::Turn(turn))
    } else {
        None
    }
}

impl Desk {
    // The scheduler's move while the segment isn't sealed. Where it has a trap or nothing comes, the segment is closed, and
    // the run concluded once no epoch is open.
    fn open_move(&self, plan: &Plan) -> Turn
        requires plan { IsPlan plan.now }
        requires desk { IsDeskBy plan.now self.now }
        ensures { result ≡ early_turn plan.now.options.segment (length self.now.epochs) (invocation_at (arrays_of plan.now.job.program.decls) plan.now.job.opening.words self.now.cursor) self.now.early }
    {
        let open = self.epochs.len();
        if self.early.is_some() {
            return turn_at_end(open);
        }
        match self.cursor.peek() {
            Event::End => turn_at_end(open),
            Event::Drain => drain_turn(open),
            Event::Scalar => turn_with_room(open, plan.options.segment, Turn::Scalar),
            Event::Iterate | Event::Close => {
                turn_with_room(open, plan.options.segment, Turn::Open)
            }
        }
    }
}

fn turn_at_end(count: usize) -> Turn
    ensures { result ≡ turn_at_end count }
{
    if count == 0 {
        Turn::Conclude
    } else {
        Turn::Close
    }
}

fn drain_turn(count: usize) -> Turn
    ensures { result ≡ drain_turn count }
{
    if count == 0 { Turn::Drain } else { Turn::Close }
}

fn turn_with_room(count: usize, room: u8, turn: Turn) -> Turn
    ensures { result ≡ (if nat_lt count room then turn else Turn.Close) }
{
    if count < room as usize {
        turn
    } else {
        Turn::Close
    }
}
