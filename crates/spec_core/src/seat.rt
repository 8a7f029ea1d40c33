ghost use Rattle.std.specs.Prelude.{◌≡◌, ◌<◌, ◌≤◌, ◌^◌, ◌+◌, ◌↔◌, ℕ, suc, false, if◌then◌else◌, IsTrue, List, [], length, replicate, sum, slice_index, slice_index_or, slice_set, IfOk, Some};
ghost use Rattle.word_store.specs.Memory.{most_words};
ghost use Rattle.task_frame.specs.declared.piece.Piece.{Piece as Stood};
ghost use Rattle.spec_machine.specs.Machine as machine;
ghost use Rattle.spec_core.specs.Hands.{hand_of};
ghost use Rattle.spec_core.specs.Stages.{stage_of};

use crate::hand::Held;
use crate::stage::Stage;
use nest_syntax::NoMemory;
use range_sign::Signature;
use std::alloc::Global;
use std::marker::Model;
use task_frame::Piece;

/// A worker: what it holds, how many tasks of this segment it has finished and how many it has begun, and the signatures of
/// those begun, with room for those of all others.
#[derive(Drop)]
pub struct Seat<G: Signature> {
    hand: Held,
    done: u32,
    begun: u32,
    signs: Vec<G>,
}

impl<G: Signature> Model for Seat<G> {
    ghost use Rattle.spec_core.specs.Hands.{Bench, hand_of};

    ghost Value = { Bench G };

    ghost view = { λ s. record { hand = hand_of s.hand; done = s.done; begun = s.begun; signs = s.signs.items } };
}

impl<G: Signature> Seat<G> {
    /// An idle worker that has begun nothing, with room for the tasks of so many epochs.
    pub(crate) fn open(alloc: Global, lengths: &[u64], epochs: u8) -> Result<Seat<G>, NoMemory>
        requires { sum lengths.now ≤ most_words }
        ensures { IfOk result (λ seat. seat ≡ record { hand = machine.Idle; done = 0; begun = 0; signs = replicate epochs (G.nothing lengths.now) }) }
    {
        let mut signs = Vec::with_capacity(alloc, epochs as usize)?;
        'open: while signs.len() < epochs as usize {
            signs.push(G::make(alloc, lengths)?)?;
        }
        Ok(Seat {
            hand: Held::Nothing,
            done: 0,
            begun: 0,
            signs,
        })
    }

    pub(crate) fn done(&self) -> u32
        ensures { result ≡ self.now.done }
    {
        self.done
    }

    pub(crate) fn is_running(&self) -> bool
        ensures { result ≡ machine.is_running self.now.hand }
    {
        matches!(self.hand, Held::Empty | Held::Task { .. })
    }

    pub(crate) fn is_stopped(&self) -> bool
        ensures { result ≡ machine.is_stopped self.now.hand }
    {
        matches!(self.hand, Held::Stopped)
    }

    pub(crate) fn stage(&self) -> Stage
        ensures { result ≡ stage_of self.now.hand }
    {
        match &self.hand {
            Held::Nothing => Stage::Idle,
            Held::Empty => Stage::Empty,
            Held::Task { number, .. } => Stage::Standing(*number),
            Held::Stopped => Stage::Stopped,
        }
    }

    /// The number of the iteration that stands, 0 where none does.
    pub(crate) fn number(&self) -> u64
        ensures { (k : ℕ) (p : Stood) → self.now.hand ≡ machine.Running k p → result ≡ k }
    {
        match &self.hand {
            Held::Task { number, .. } => *number,
            _ => 0,
        }
    }

    /// The piece at which its iteration stands.
    pub(crate) fn piece(&self) -> Option<Piece>
        ensures { (k : ℕ) (p : Stood) → self.now.hand ≡ machine.Running k p → result ≡ Some p }
    {
        match &self.hand {
            Held::Task { piece, .. } => Some(piece.copy()),
            _ => None,
        }
    }

    /// Whether its iteration stands at this piece.
    pub(crate) fn is_at(&self, piece: &Piece) -> bool
        ensures { (k : ℕ) (p : Stood) → self.now.hand ≡ machine.Running k p → IsTrue result ↔ (p ≡ piece.now) }
    {
        match &self.hand {
            Held::Task { piece: held, .. } => held.is_same(piece),
            _ => false,
        }
    }

    /// The signature of its task in an epoch.
    pub(crate) fn sign(&self, epoch: u32) -> &G
        requires { epoch < length self.now.signs }
        ensures { result.now ≡ slice_index_or self.now.signs epoch (G.nothing []) }
    {
        &self.signs[epoch as usize]
    }

    /// Its next task begins, with nothing noted.
    pub(crate) fn begin(&mut self, first: Held)
        requires room { self.old.begun < length self.old.signs }
        requires few { length self.old.signs ≤ 64 }
        ensures { self.new ≡ record self.old { hand = hand_of first; begun = suc self.old.begun; signs = slice_set self.old.signs self.old.begun (G.nothing (G.sizes_of (slice_index_or self.old.signs self.old.begun (G.nothing [])))) } }
    {
        self.signs[self.begun as usize].clear();
        self.begun += 1;
        self.hand = first;
    }

    /// An access of its present task is noted.
    pub(crate) fn note(&mut self, array: u32, place: u64, write: bool)
        requires task { self.old.done < length self.old.signs }
        requires array { array < length (G.sizes_of (slice_index_or self.old.signs self.old.done (G.nothing []))) }
        requires place { place < slice_index (G.sizes_of (slice_index_or self.old.signs self.old.done (G.nothing []))) array }
        ensures { self.new ≡ record self.old { signs = slice_set self.old.signs self.old.done (G.with_note (slice_index_or self.old.signs self.old.done (G.nothing [])) array place write) } }
    {
        self.signs[self.done as usize].note(array, place, write);
    }

    /// A word that its present task read is noted, where its array isn't `const`.
    pub(crate) fn note_read(&mut self, array: u32, place: u64, is_fixed: bool)
        requires task { self.old.done < length self.old.signs }
        requires array { array < length (G.sizes_of (slice_index_or self.old.signs self.old.done (G.nothing []))) }
        requires place { place < slice_index (G.sizes_of (slice_index_or self.old.signs self.old.done (G.nothing []))) array }
        ensures { self.new ≡ (if is_fixed then self.old else record self.old { signs = slice_set self.old.signs self.old.done (G.with_note (slice_index_or self.old.signs self.old.done (G.nothing [])) array place false) }) }
    {
        if !is_fixed {
            self.note(array, place, false);
        }
    }

    /// Its iteration stands at another piece.
    pub(crate) fn stand(&mut self, next: Piece)
        ensures stands { (k : ℕ) (p : Stood) → self.old.hand ≡ machine.Running k p → self.new ≡ record self.old { hand = machine.Running k next } }
        ensures kept { self.new ≡ record self.old { hand = self.new.hand } }
    {
        if let Held::Task { piece, .. } = &mut self.hand {
            *piece = next;
        }
    }

    /// Another iteration stands.
    pub(crate) fn go_on(&mut self, number: u64, piece: Piece)
        ensures { self.new ≡ record self.old { hand = machine.Running number piece } }
    {
        self.hand = Held::Task { number, piece };
    }

    /// Its task is finished.
    pub(crate) fn finish(&mut self)
        requires { self.old.done < 64 }
        ensures { self.new ≡ record self.old { hand = machine.Idle; done = suc self.old.done } }
    {
        self.done += 1;
        self.hand = Held::Nothing;
    }

    /// Its task is let go.
    pub(crate) fn leave(&mut self)
        ensures { self.new ≡ record self.old { hand = machine.Idle } }
    {
        self.hand = Held::Nothing;
    }

    pub(crate) fn stop(&mut self)
        ensures { self.new ≡ record self.old { hand = machine.Stopped } }
    {
        self.hand = Held::Stopped;
    }

    /// It has begun nothing.
    pub(crate) fn clear(&mut self)
        ensures { self.new ≡ record self.old { hand = machine.Idle; done = 0; begun = 0 } }
    {
        self.hand = Held::Nothing;
        self.done = 0;
        self.begun = 0;
    }
}
