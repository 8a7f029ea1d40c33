//! The moves of a worker.
ghost use Rattle.std.specs.Prelude.{◌≡◌, ◌<◌, ◌≤◌, ℕ, suc, nat_lt, if◌then◌else◌, None, Some, length, slice_index_or};
ghost use Rattle.nest_syntax.specs.Arrays.{word_number};
ghost use Rattle.nest_syntax.specs.declared.names.Line.{Line as At};
ghost use Rattle.nest_syntax.specs.declared.operators.Cause.{Cause as Why};
ghost use Rattle.task_hop.specs.declared.frame.Register.TheVariants.{Temporary};
ghost use Rattle.task_hop.specs.Registers.{with_register};
ghost use Rattle.task_frame.specs.declared.piece.Piece.{Piece as Stood};
ghost use Rattle.task_frame.specs.Pieces.{reached, piece_at};
ghost use Rattle.spec_machine.specs.Machine as machine;
ghost use Rattle.nest_setup.specs.Pieces.{stop_of};
ghost use Rattle.spec_core.specs.Signatures.{signs};
ghost use Rattle.spec_core.specs.Hands.{bench_at};
ghost use Rattle.spec_core.specs.Blocks.{epochs_in};
ghost use Rattle.spec_core.specs.Engine.{row_at};
ghost use Rattle.spec_core.specs.Tables.{state_of, setup_by, sizes_by, IsPlan, IsSound, GoesOn};

use crate::memory::{set_word, word_at};
use crate::pieces::first_piece;
use crate::plan::Plan;
use crate::table::Table;
use epoch_plan::Seen;
use nest_syntax::{Cause, Line, Place, TaskName};
use progress_board::{RollCause, Row};
use range_sign::Signature;
use task_frame::{Frame, Stop, Worked, piece_at};
use task_hop::Register;

impl<G: Signature> Table<G> {
    /// The next task of a worker begins.
    pub(crate) fn begin(&mut self, plan: &Plan, worker: u8)
        requires plan { IsPlan plan.now }
        requires sound { IsSound G.sizes_of plan.now self.old }
        requires goes { GoesOn (setup_by (signs G.EXACT G.holds G.nothing G.with_note) plan.now) (sizes_by plan.now) (state_of self.old) }
        requires calm { self.old.abort ≡ None }
        requires own { worker < plan.now.options.workers }
        requires idle { (bench_at self.old.seats.items worker).hand ≡ machine.Idle }
        requires open { (bench_at self.old.seats.items worker).done < length self.old.desk.epochs }
        ensures state { state_of self.new ≡ machine.worker_after (setup_by (signs G.EXACT G.holds G.nothing G.with_note) plan.now) (state_of self.old) worker (machine.DoBegin (machine.first_hand (setup_by (signs G.EXACT G.holds G.nothing G.with_note) plan.now) (epochs_in self.old.desk.epochs) (bench_at self.old.seats.items worker).done worker)) }
        ensures sound { IsSound G.sizes_of plan.now self.new }
    {
        let epoch = self.seats[worker as usize].done();
        let first = self.desk.first_of(plan, epoch, worker);
        let place = epoch as usize * plan.options.workers as usize + worker as usize;
        self.seen[place] = Seen(self.finished());
        self.seats[worker as usize].begin(first);
    }

    /// A worker finishes a task with no iteration.
    pub(crate) fn finish(&mut self, plan: &Plan, worker: u8)
        requires plan { IsPlan plan.now }
        requires sound { IsSound G.sizes_of plan.now self.old }
        requires own { worker < plan.now.options.workers }
        requires begun { (bench_at self.old.seats.items worker).done < (bench_at self.old.seats.items worker).begun }
        ensures state { state_of self.new ≡ machine.worker_after (setup_by (signs G.EXACT G.holds G.nothing G.with_note) plan.now) (state_of self.old) worker machine.DoFinish }
        ensures sound { IsSound G.sizes_of plan.now self.new }
    {
        let _ = plan;
        self.seats[worker as usize].finish();
    }

    /// A worker lets go of its task, since the segment is given up.
    pub(crate) fn let_go(&mut self, plan: &Plan, worker: u8)
        requires plan { IsPlan plan.now }
        requires sound { IsSound G.sizes_of plan.now self.old }
        requires own { worker < plan.now.options.workers }
        ensures state { state_of self.new ≡ machine.worker_after (setup_by (signs G.EXACT G.holds G.nothing G.with_note) plan.now) (state_of self.old) worker machine.DoLetGo }
        ensures sound { IsSound G.sizes_of plan.now self.new }
    {
        let _ = plan;
        self.seats[worker as usize].leave();
    }

    /// A worker stops since a trap is kept.
    pub(crate) fn stop(&mut self, plan: &Plan, worker: u8)
        requires plan { IsPlan plan.now }
        requires sound { IsSound G.sizes_of plan.now self.old }
        requires own { worker < plan.now.options.workers }
        ensures state { state_of self.new ≡ machine.worker_after (setup_by (signs G.EXACT G.holds G.nothing G.with_note) plan.now) (state_of self.old) worker machine.DoStop }
        ensures sound { IsSound G.sizes_of plan.now self.new }
    {
        let _ = plan;
        self.seats[worker as usize].stop();
    }

    /// Makes the stop of the piece at which a worker's iteration stands, and which was worked on.
    pub(crate) fn hop(&mut self, plan: &Plan, worker: u8, worked: &Worked)
        requires plan { IsPlan plan.now }
        requires sound { IsSound G.sizes_of plan.now self.old }
        requires goes { GoesOn (setup_by (signs G.EXACT G.holds G.nothing G.with_note) plan.now) (sizes_by plan.now) (state_of self.old) }
        requires calm { self.old.abort ≡ None }
        requires own { worker < plan.now.options.workers }
        requires stands { (k : ℕ) × ((bench_at self.old.seats.items worker).hand ≡ machine.Running k worked.now) }
        ensures state { (k : ℕ) → (bench_at self.old.seats.items worker).hand ≡ machine.Running k worked.now
            → state_of self.new ≡ machine.worker_after (setup_by (signs G.EXACT G.holds G.nothing G.with_note) plan.now) (state_of self.old) worker (machine.stop_move (setup_by (signs G.EXACT G.holds G.nothing G.with_note) plan.now) (state_of self.old) (bench_at self.old.seats.items worker).done worker k (stop_of (sizes_by plan.now) plan.now.code worked.now)) }
        ensures sound { IsSound G.sizes_of plan.now self.new }
    {
        match worked.stop() {
            Stop::Load {
                array,
                place,
                into,
                next,
            } => self.load(plan, worker, array, place, into, next, *worked.frame()),
            Stop::Store {
                array,
                place,
                value,
                next,
            } => self.store(plan, worker, array, place, value, next, *worked.frame()),
            Stop::Go { next } => self.go(plan, worker, next, *worked.frame()),
            Stop::Finish => self.end(plan, worker),
            Stop::Trap { cause, line } => self.trap(plan, worker, cause, line),
        }
    }

    /// The row of the stop of a worker's piece.
    pub(crate) fn row_at(&self, plan: &Plan, worker: u8, stop: Stop) -> Row
        requires plan { IsPlan plan.now }
        requires sound { IsSound G.sizes_of plan.now self.now }
        requires goes { GoesOn (setup_by (signs G.EXACT G.holds G.nothing G.with_note) plan.now) (sizes_by plan.now) (state_of self.now) }
        requires calm { self.now.abort ≡ None }
        requires own { worker < plan.now.options.workers }
        requires stands { (k : ℕ) × (p : Stood) × ((bench_at self.now.seats.items worker).hand ≡ machine.Running k p) }
        ensures { (k : ℕ) (p : Stood) → (bench_at self.now.seats.items worker).hand ≡ machine.Running k p
            → result ≡ row_at stop (nat_lt (suc k) (machine.to (setup_by (signs G.EXACT G.holds G.nothing G.with_note) plan.now) (epochs_in self.now.desk.epochs) (bench_at self.now.seats.items worker).done worker)) }
    {
        match stop {
            Stop::Load { .. } | Stop::Store { .. } | Stop::Go { .. } => Row::Hop,
            Stop::Trap { .. } => Row::Trap,
            Stop::Finish => match self.number_behind(plan, worker) {
                Some(_) => Row::Hop,
                None => Row::Finish,
            },
        }
    }

    // The iteration behind the one at which a worker stands, in its task.
    fn number_behind(&self, plan: &Plan, worker: u8) -> Option<u64>
        requires plan { IsPlan plan.now }
        requires sound { IsSound G.sizes_of plan.now self.now }
        requires goes { GoesOn (setup_by (signs G.EXACT G.holds G.nothing G.with_note) plan.now) (sizes_by plan.now) (state_of self.now) }
        requires calm { self.now.abort ≡ None }
        requires own { worker < plan.now.options.workers }
        requires stands { (k : ℕ) × (p : Stood) × ((bench_at self.now.seats.items worker).hand ≡ machine.Running k p) }
        ensures { (k : ℕ) (p : Stood) → (bench_at self.now.seats.items worker).hand ≡ machine.Running k p
            → result ≡ (if nat_lt (suc k) (machine.to (setup_by (signs G.EXACT G.holds G.nothing G.with_note) plan.now) (epochs_in self.now.desk.epochs) (bench_at self.now.seats.items worker).done worker) then Some (suc k) else None) }
    {
        let seat = &self.seats[worker as usize];
        let next = seat.number() + 1;
        let Some((_, to)) = self.desk.task(plan, seat.done(), worker) else {
            return None;
        };
        if next < to { Some(next) } else { None }
    }

    // The iteration of a worker reads a word into a temporary, and goes on at an address.
    fn load(
        &mut self,
        plan: &Plan,
        worker: u8,
        array: u32,
        place: u64,
        into: u8,
        next: u32,
        frame: Frame,
    )
        requires plan { IsPlan plan.now }
        requires sound { IsSound G.sizes_of plan.now self.old }
        requires own { worker < plan.now.options.workers }
        requires begun { (bench_at self.old.seats.items worker).done < (bench_at self.old.seats.items worker).begun }
        requires inside { place < slice_index_or (sizes_by plan.now) array 0 }
        ensures state { (k : ℕ) (p : Stood) → (bench_at self.old.seats.items worker).hand ≡ machine.Running k p
            → state_of self.new ≡ machine.worker_after (setup_by (signs G.EXACT G.holds G.nothing G.with_note) plan.now) (state_of self.old) worker (machine.DoRead k (word_number (sizes_by plan.now) array place) (λ value. piece_at plan.now.code next (with_register frame (Temporary into) value))) }
        ensures sound { IsSound G.sizes_of plan.now self.new }
    {
        let value = word_at(&self.words, array, place);
        let piece = piece_at(&plan.code, next, loaded(frame, into, value));
        let is_fixed = plan.consts[array as usize];
        let seat = &mut self.seats[worker as usize];
        seat.note_read(array, place, is_fixed);
        seat.stand(piece);
    }

    // It writes a word, and goes on at an address.
    fn store(
        &mut self,
        plan: &Plan,
        worker: u8,
        array: u32,
        place: u64,
        value: i64,
        next: u32,
        frame: Frame,
    )
        requires plan { IsPlan plan.now }
        requires sound { IsSound G.sizes_of plan.now self.old }
        requires own { worker < plan.now.options.workers }
        requires begun { (bench_at self.old.seats.items worker).done < (bench_at self.old.seats.items worker).begun }
        requires inside { place < slice_index_or (sizes_by plan.now) array 0 }
        ensures state { (k : ℕ) (p : Stood) → (bench_at self.old.seats.items worker).hand ≡ machine.Running k p
            → state_of self.new ≡ machine.worker_after (setup_by (signs G.EXACT G.holds G.nothing G.with_note) plan.now) (state_of self.old) worker (machine.DoWrite k (word_number (sizes_by plan.now) array place) value (piece_at plan.now.code next frame)) }
        ensures sound { IsSound G.sizes_of plan.now self.new }
    {
        set_word(&mut self.words, array, place, value);
        let piece = piece_at(&plan.code, next, frame);
        let seat = &mut self.seats[worker as usize];
        seat.note(array, place, true);
        seat.stand(piece);
    }

    // The iteration of a worker goes on at an address.
    fn go(&mut self, plan: &Plan, worker: u8, next: u32, frame: Frame)
        requires plan { IsPlan plan.now }
        requires sound { IsSound G.sizes_of plan.now self.old }
        requires own { worker < plan.now.options.workers }
        ensures state { (k : ℕ) (p : Stood) → (bench_at self.old.seats.items worker).hand ≡ machine.Running k p
            → state_of self.new ≡ machine.worker_after (setup_by (signs G.EXACT G.holds G.nothing G.with_note) plan.now) (state_of self.old) worker (machine.DoGo k (piece_at plan.now.code next frame)) }
        ensures sound { IsSound G.sizes_of plan.now self.new }
    {
        self.seats[worker as usize].stand(piece_at(&plan.code, next, frame));
    }

    // The iteration of a worker is over: the next one of its task stands, or the task is finished.
    fn end(&mut self, plan: &Plan, worker: u8)
        requires plan { IsPlan plan.now }
        requires sound { IsSound G.sizes_of plan.now self.old }
        requires goes { GoesOn (setup_by (signs G.EXACT G.holds G.nothing G.with_note) plan.now) (sizes_by plan.now) (state_of self.old) }
        requires calm { self.old.abort ≡ None }
        requires own { worker < plan.now.options.workers }
        requires stands { (k : ℕ) × (p : Stood) × ((bench_at self.old.seats.items worker).hand ≡ machine.Running k p) }
        ensures state { (k : ℕ) (p : Stood) → (bench_at self.old.seats.items worker).hand ≡ machine.Running k p
            → state_of self.new ≡ machine.worker_after (setup_by (signs G.EXACT G.holds G.nothing G.with_note) plan.now) (state_of self.old) worker (machine.end_move (setup_by (signs G.EXACT G.holds G.nothing G.with_note) plan.now) (state_of self.old) (bench_at self.old.seats.items worker).done worker k) }
        ensures sound { IsSound G.sizes_of plan.now self.new }
    {
        match self.number_behind(plan, worker) {
            Some(next) => {
                let epoch = self.seats[worker as usize].done();
                let piece = first_piece(&plan.code, self.desk.epochs.get(epoch), next);
                self.seats[worker as usize].go_on(next, piece);
            }
            None => self.seats[worker as usize].finish(),
        }
    }

    // The iteration of a worker traps. At a distance above 0 the segment is given up, as the iteration may have read
    // stale words; at distance 0 the trap is kept.
    fn trap(&mut self, plan: &Plan, worker: u8, cause: Cause, line: Line)
        requires plan { IsPlan plan.now }
        requires sound { IsSound G.sizes_of plan.now self.old }
        requires own { worker < plan.now.options.workers }
        requires few { (bench_at self.old.seats.items worker).done ≤ 64 }
        ensures state { (k : ℕ) (p : Stood) → (bench_at self.old.seats.items worker).hand ≡ machine.Running k p
            → state_of self.new ≡ machine.worker_after (setup_by (signs G.EXACT G.holds G.nothing G.with_note) plan.now) (state_of self.old) worker (machine.failing_move (setup_by (signs G.EXACT G.holds G.nothing G.with_note) plan.now) self.old.distance k cause line) }
        ensures sound { IsSound G.sizes_of plan.now self.new }
    {
        let _ = plan;
        let seat = &mut self.seats[worker as usize];
        if self.distance > 0 {
            let task = TaskName {
                epoch: seat.done(),
                worker,
            };
            self.abort = Some(RollCause::Trap { task });
            seat.leave();
        } else {
            self.trap = Some(Place {
                cause,
                line,
                number: seat.number(),
                by_scheduler: false,
            });
            seat.stop();
        }
    }
}

// A frame with a value in a temporary.
fn loaded(frame: Frame, into: u8, value: i64) -> Frame
    ensures { result ≡ with_register frame (Temporary into) value }
{
    let mut frame = frame;
    frame.set(Register::Temporary(into), value);
    frame
}
