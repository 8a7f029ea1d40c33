ghost use Rattle.std.specs.Prelude.{◌≡◌, ◌≢◌, ◌↔◌, ◌⊎◌, MatchOption, IfOk, IfErr, IsTrue, Some, true, false};
ghost use Rattle.progress_board.specs.Options.{IsInRange};
ghost use Rattle.progress_board.specs.Runs.{IsLegal};
ghost use Rattle.progress_board.specs.declared.actors.Ask.TheVariants.{Ready};
ghost use Rattle.progress_board.specs.declared.actors.Work.TheVariants as work;
ghost use Rattle.task_frame.specs.declared.piece.Piece.{Piece as Stood};
ghost use Rattle.spec_core.specs.Moves.{row_of_turn};
ghost use Rattle.spec_core.specs.Signatures.{signs};
ghost use Rattle.spec_core.specs.Engine.{Opens, step, asked, made_by, number_by, told_of, has_ended, is_finished, words_of, facts_of, ending_of};

use crate::moves::{Move, Turn};
use crate::opening::{open_plan, open_table};
use crate::plan::Plan;
use crate::table::Table;
use nest_mean::Job;
use nest_syntax::NoMemory;
use progress_board::{Ask, Ending, Engine, Facts, Made, Options, Row, Sign, Work};
use range_sign::Signature;
use std::alloc::Global;
use std::marker::Model;
use task_frame::{Piece, Worked};
use word_store::Words;

/// The engine that passes barriers speculatively. A scheduler opens whole invocations as epochs, workers carry out
/// their tasks of them, ahead of one another by the distance at most, and a checker compares what unordered tasks
/// noted. A segment is committed once all its pairs are passed; where a pair overlaps, or a task traps while the
/// distance is above 0, it is run again from its checkpoint with a barrier behind each epoch. With the engine `Barrier`
/// it is so from the start.
///
/// A step costs a constant, but for an event of the scheduler, which costs the expressions that it evaluates, for a
/// step of the checker, which costs the pairs that it looks at and two signatures, for beginning a task, which costs
/// what was noted in its place before, and for a commit or a restore, which cost the words of the program.
#[derive(Drop)]
pub struct Spec<G: Signature> {
    plan: Plan,
    table: Table<G>,
}

impl<G: Signature> Model for Spec<G> {
    ghost use Rattle.nest_mean.specs.contracts.jobs.Job as held;
    ghost use Rattle.nest_syntax.specs.contracts.tree.Expr as expr;
    ghost use Rattle.std.specs.Coded.{codes};
    ghost use Rattle.spec_core.specs.Engine.{Engine};
    ghost use Rattle.spec_core.specs.Signatures.{signs};
    ghost use Rattle.spec_core.specs.Kept.{IsKept, engine_of};

    ghost Value = { Engine G };

    ghost coded = { Prim.hlevel (codes, held.the_row.coded, expr.the_row.coded) };

    ghost view = { λ s. engine_of s.plan s.table };

    ghost invariant = { λ s. IsKept (signs G.EXACT G.holds G.nothing G.with_note) G.sizes_of s.plan s.table };
}

impl<G: Signature> Spec<G> {
    /// The opening state, with no epoch open. All its memory is taken here.
    pub fn open(alloc: Global, job: Job, options: Options) -> Result<Spec<G>, NoMemory>
        requires allowed { IsInRange options }
        requires engine { (options.engine ≡ Engine.Speccross) ⊎ (options.engine ≡ Engine.Barrier) }
        requires sign { (G.EXACT ≡ true) ↔ (options.sign ≡ Sign.Exact) }
        ensures { IfOk result (λ made. Opens (signs G.EXACT G.holds G.nothing G.with_note) job options made) }
    {
        let plan = open_plan(alloc, job, options)?;
        let table = open_table(alloc, &plan)?;
        Ok(Spec { plan, table })
    }

    // The enabled move of an actor. A worker that hops has a piece.
    pub(crate) fn next_move(&self, actor: u8) -> Option<Move>
        ensures is { result ≡ told_of (signs G.EXACT G.holds G.nothing G.with_note) self.now actor }
        ensures holds { result ≡ Some Move.Hop → (piece : Stood) × (asked (signs G.EXACT G.holds G.nothing G.with_note) self.now actor ≡ Ready (work.Hop piece)) }
    {
        self.table.next_move(&self.plan, actor)
    }

    // Makes a move that needs no work.
    fn apply(&mut self, actor: u8, turn: Turn)
        requires { told_of (signs G.EXACT G.holds G.nothing G.with_note) self.old actor ≡ Some (Move.Turn turn) }
        ensures { step (signs G.EXACT G.holds G.nothing G.with_note) self.old actor ≡ Some self.new }
    {
        self.table.apply(&self.plan, actor, turn);
    }

    // Makes the move of a worker whose piece was worked on.
    fn hop(&mut self, actor: u8, worked: &Worked)
        requires { asked (signs G.EXACT G.holds G.nothing G.with_note) self.old actor ≡ Ready (work.Hop worked.now) }
        ensures { step (signs G.EXACT G.holds G.nothing G.with_note) self.old actor ≡ Some self.new }
    {
        self.table.hop(&self.plan, actor, worked);
    }

    // Whether the actor is asked to work on this piece.
    fn is_asked_for(&self, actor: u8, piece: &Piece) -> bool
        ensures { IsTrue result ↔ (asked (signs G.EXACT G.holds G.nothing G.with_note) self.now actor ≡ Ready (work.Hop piece.now)) }
    {
        match self.next_move(actor) {
            Some(Move::Hop) => self.table.is_at(actor, piece),
            Some(Move::Turn(_)) => false,
            None => false,
        }
    }

    pub(crate) fn own_ask(&self, actor: u8) -> Ask
        ensures { result ≡ asked (signs G.EXACT G.holds G.nothing G.with_note) self.now actor }
    {
        match self.next_move(actor) {
            Some(Move::Turn(turn)) => Ask::Ready(Work::Turn(turn.row())),
            Some(Move::Hop) => Ask::Ready(self.held_work(actor)),
            None if self.has_ended(actor) => Ask::Ended,
            None => Ask::NotYet,
        }
    }

    // The piece that a worker is asked to work on.
    fn held_work(&self, actor: u8) -> Work
        requires { told_of (signs G.EXACT G.holds G.nothing G.with_note) self.now actor ≡ Some Move.Hop }
        ensures { Ready result ≡ asked (signs G.EXACT G.holds G.nothing G.with_note) self.now actor }
    {
        match self.table.piece(actor) {
            Some(piece) => Work::Hop(piece),
            None => Work::Turn(Row::Hop),
        }
    }

    // The move that is asked for by this row, where it is.
    fn turn_asked(&self, actor: u8, row: Row) -> Option<Turn>
        ensures { MatchOption result (asked (signs G.EXACT G.holds G.nothing G.with_note) self.now actor ≢ Ready (work.Turn row)) (λ turn. (told_of (signs G.EXACT G.holds G.nothing G.with_note) self.now actor ≡ Some (Move.Turn turn)) × (row_of_turn turn ≡ row)) }
    {
        match self.next_move(actor) {
            Some(Move::Turn(turn)) => { if turn.row() == row { Some(turn) } else { None } }
            Some(Move::Hop) => None,
            None => None,
        }
    }

    // Makes a row that the machine makes by itself, where it is asked for.
    pub(crate) fn give_turn(&mut self, actor: u8, row: Row) -> Result<Made, Ask>
        ensures made { IfOk result (λ made. (asked (signs G.EXACT G.holds G.nothing G.with_note) self.old actor ≡ Ready (work.Turn row)) × (step (signs G.EXACT G.holds G.nothing G.with_note) self.old actor ≡ Some self.new) × (made ≡ made_by (signs G.EXACT G.holds G.nothing G.with_note) self.old actor)) }
        ensures stale { IfErr result (λ answer. (answer ≡ asked (signs G.EXACT G.holds G.nothing G.with_note) self.old actor) × (answer ≢ Ready (work.Turn row)) × (self.new ≡ self.old)) }
    {
        match self.turn_asked(actor, row) {
            Some(turn) => {
                let made = self.made_by_turn(actor, turn);
                self.apply(actor, turn);
                Ok(made)
            }
            None => Err(self.own_ask(actor)),
        }
    }

    // Goes on with a piece that was worked on, where it is asked for.
    pub(crate) fn give_hop(&mut self, actor: u8, worked: Worked) -> Result<Made, Ask>
        ensures made { IfOk result (λ made. (asked (signs G.EXACT G.holds G.nothing G.with_note) self.old actor ≡ Ready (work.Hop worked)) × (step (signs G.EXACT G.holds G.nothing G.with_note) self.old actor ≡ Some self.new) × (made ≡ made_by (signs G.EXACT G.holds G.nothing G.with_note) self.old actor)) }
        ensures stale { IfErr result (λ answer. (answer ≡ asked (signs G.EXACT G.holds G.nothing G.with_note) self.old actor) × (answer ≢ Ready (work.Hop worked)) × (self.new ≡ self.old)) }
    {
        if self.is_asked_for(actor, worked.piece()) {
            let made = self.made_by_hop(actor, &worked);
            self.hop(actor, &worked);
            Ok(made)
        } else {
            Err(self.own_ask(actor))
        }
    }

    // What a move that needs no work makes.
    fn made_by_turn(&self, actor: u8, turn: Turn) -> Made
        requires { told_of (signs G.EXACT G.holds G.nothing G.with_note) self.now actor ≡ Some (Move.Turn turn) }
        ensures { result ≡ made_by (signs G.EXACT G.holds G.nothing G.with_note) self.now actor }
    {
        if turn == Turn::Check {
            return self.table.made_by_check(&self.plan);
        }
        Made {
            row: turn.row(),
            number: self.number(actor),
        }
    }

    // The number that a step is reported with that isn't the checker's.
    fn number(&self, actor: u8) -> u64
        ensures { result ≡ number_by self.now.state self.now.options.workers actor }
    {
        if actor < self.plan.options.workers {
            u64::from(self.table.done(actor))
        } else {
            self.table.desk.epochs.len() as u64
        }
    }

    // What a worker makes with the piece that it was asked to work on.
    fn made_by_hop(&self, actor: u8, worked: &Worked) -> Made
        requires { asked (signs G.EXACT G.holds G.nothing G.with_note) self.now actor ≡ Ready (work.Hop worked.now) }
        ensures { result ≡ made_by (signs G.EXACT G.holds G.nothing G.with_note) self.now actor }
    {
        Made {
            row: self.table.row_at(&self.plan, actor, worked.stop()),
            number: self.number(actor),
        }
    }

    pub(crate) fn own_job(&self) -> &Job
        ensures { result.now ≡ self.now.job }
    {
        &self.plan.job
    }

    pub(crate) fn own_options(&self) -> &Options
        ensures is { result.now ≡ self.now.options }
        ensures legal { IsLegal (λ m. m.job) (λ m. m.options) (Opens (signs G.EXACT G.holds G.nothing G.with_note)) (step (signs G.EXACT G.holds G.nothing G.with_note)) self.now }
    {
        &self.plan.options
    }

    pub(crate) fn own_words(&self) -> &Words
        ensures { result.now ≡ words_of self.now }
    {
        &self.table.words
    }

    pub(crate) fn own_facts(&self) -> &Facts
        ensures { result.now ≡ facts_of self.now }
    {
        self.table.desk.tally.report()
    }

    pub(crate) fn own_ending(&self) -> Ending
        ensures is { result ≡ ending_of self.now }
        ensures unfinished { (result ≡ Ending.Unfinished) ↔ (is_finished self.now ≡ false) }
    {
        if !self.table.concluded {
            return Ending::Unfinished;
        }
        match self.table.trap.or(self.table.desk.early) {
            None => Ending::Done,
            Some(place) => Ending::Trapped(place),
        }
    }

    // Whether an actor's part is ended.
    pub(crate) fn has_ended(&self, actor: u8) -> bool
        ensures { result ≡ has_ended (signs G.EXACT G.holds G.nothing G.with_note) self.now actor }
    {
        actor > self.plan.options.workers + 1 || self.table.concluded
    }

    pub(crate) fn is_over(&self) -> bool
        ensures over { result ≡ is_finished self.now }
        ensures legal { IsLegal (λ m. m.job) (λ m. m.options) (Opens (signs G.EXACT G.holds G.nothing G.with_note)) (step (signs G.EXACT G.holds G.nothing G.with_note)) self.now }
    {
        self.table.concluded
    }
}
