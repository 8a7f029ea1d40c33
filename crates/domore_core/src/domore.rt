ghost use Rattle.std.specs.Prelude.{◌≡◌, ◌≢◌, ◌↔◌, MatchOption, IfOk, IfErr, IsTrue, Some, IsSome, false};
ghost use Rattle.std.specs.Option.{option_map};
ghost use Rattle.progress_board.specs.Options.{IsInRange};
ghost use Rattle.progress_board.specs.Runs.{IsLegal};
ghost use Rattle.progress_board.specs.declared.actors.Ask.TheVariants.{Ready};
ghost use Rattle.progress_board.specs.declared.actors.Work.TheVariants as work;
ghost use Rattle.domore_core.specs.Moves.{told, row_of_turn};
ghost use Rattle.domore_core.specs.Engine.{Opens, step, asked, made_by, move_of, has_ended, is_finished, words_of, facts_of, ending_of};

use crate::moves::{Move, Turn, row_at};
use crate::opening::{open_plan, open_table};
use crate::plan::Plan;
use crate::table::Table;
use nest_mean::Job;
use nest_syntax::NoMemory;
use progress_board::{Ask, Ending, Engine, Facts, Made, Options, Row, Work};
use std::alloc::Global;
use std::marker::Model;
use task_frame::{Piece, Worked};
use word_store::Words;

/// The engine without barriers. Its scheduler hands iterations out, each to the worker that its number gives, with what it
/// waits for on each other worker; the workers carry out their own in their order. Each step costs a constant, but for
/// handing an iteration out, which costs the words that it claims, and for an event of the scheduler, which costs the
/// expressions that it evaluates.
#[derive(Drop)]
pub struct Domore {
    plan: Plan,
    table: Table,
}

impl Model for Domore {
    ghost use Rattle.nest_mean.specs.contracts.jobs.Job as held;
    ghost use Rattle.nest_syntax.specs.contracts.tree.Expr as expr;
    ghost use Rattle.std.specs.Coded.{codes};
    ghost use Rattle.domore_core.specs.Engine.{Engine};

    ghost Value = { Engine };

    ghost coded = { Prim.hlevel (codes, held.the_row.coded, expr.the_row.coded) };

    ghost use Rattle.domore_core.specs.Tables.{engine_of};
    ghost use Rattle.domore_core.specs.Kept.{IsKept};

    ghost view = { λ d. engine_of d.plan d.table };

    ghost invariant = { λ d. IsKept d.plan d.table };
}

impl Domore {
    // The enabled move of an actor.
    pub(crate) fn next_move(&self, actor: u8) -> Option<Move>
        ensures { result ≡ option_map told (move_of self.now actor) }
    {
        self.table.next_move(&self.plan, actor)
    }

    // Makes a move that needs no work.
    fn apply(&mut self, actor: u8, turn: Turn)
        requires { option_map told (move_of self.old actor) ≡ Some (Move.Turn turn) }
        ensures { step self.old actor ≡ Some self.new }
    {
        self.table.apply(&self.plan, actor, turn);
    }

    // Makes the move of a worker whose piece was worked on.
    fn hop(&mut self, actor: u8, worked: &Worked)
        requires { asked self.old actor ≡ Ready (work.Hop worked.now) }
        ensures { step self.old actor ≡ Some self.new }
    {
        self.table.hop(&self.plan, actor, worked);
    }

    // Whether the actor is asked to work on this piece.
    fn is_asked_for(&self, actor: u8, piece: &Piece) -> bool
        ensures { IsTrue result ↔ (asked self.now actor ≡ Ready (work.Hop piece.now)) }
    {
        match self.next_move(actor) {
            Some(Move::Hop) => self.table.is_at(actor, piece),
            Some(Move::Turn(_)) => false,
            None => false,
        }
    }

    pub(crate) fn own_ask(&self, actor: u8) -> Ask
        ensures { result ≡ asked self.now actor }
    {
        match self.next_move(actor) {
            Some(Move::Turn(turn)) => Ask::Ready(Work::Turn(turn.row())),
            Some(Move::Hop) => Ask::Ready(self.held_work(actor)),
            None if self.has_ended(actor) => Ask::Ended,
            None => Ask::NotYet,
        }
    }

    // The piece that a worker is asked to work on.
    fn held_work(&self, actor: u8) -> Work
        requires { option_map told (move_of self.now actor) ≡ Some Move.Hop }
        ensures { Ready result ≡ asked self.now actor }
    {
        match self.table.piece(actor) {
            Some(piece) => Work::Hop(piece),
            None => Work::Turn(Row::Hop),
        }
    }

    // The move that is asked for by this row, where it is.
    fn turn_asked(&self, actor: u8, row: Row) -> Option<Turn>
        ensures { MatchOption result (asked self.now actor ≢ Ready (work.Turn row)) (λ turn. (option_map told (move_of self.now actor) ≡ Some (Move.Turn turn)) × (row_of_turn turn ≡ row)) }
    {
        match self.next_move(actor) {
            Some(Move::Turn(turn)) => { if turn.row() == row { Some(turn) } else { None } }
            Some(Move::Hop) => None,
            None => None,
        }
    }

    // Makes a row that the machine makes by itself, where it is asked for.
    pub(crate) fn give_turn(&mut self, actor: u8, row: Row) -> Result<Made, Ask>
        ensures made { IfOk result (λ made. (asked self.old actor ≡ Ready (work.Turn row)) × (step self.old actor ≡ Some self.new) × (made ≡ made_by self.old actor)) }
        ensures stale { IfErr result (λ answer. (answer ≡ asked self.old actor) × (answer ≢ Ready (work.Turn row)) × (self.new ≡ self.old)) }
    {
        match self.turn_asked(actor, row) {
            Some(turn) => {
                let number = self.number(actor);
                self.apply(actor, turn);
                Ok(Made { row, number })
            }
            None => Err(self.own_ask(actor)),
        }
    }

    // Goes on with a piece that was worked on, where it is asked for.
    pub(crate) fn give_hop(&mut self, actor: u8, worked: Worked) -> Result<Made, Ask>
        ensures made { IfOk result (λ made. (asked self.old actor ≡ Ready (work.Hop worked)) × (step self.old actor ≡ Some self.new) × (made ≡ made_by self.old actor)) }
        ensures stale { IfErr result (λ answer. (answer ≡ asked self.old actor) × (answer ≢ Ready (work.Hop worked)) × (self.new ≡ self.old)) }
    {
        if !self.is_asked_for(actor, worked.piece()) {
            return Err(self.own_ask(actor));
        }
        let row = row_at(worked.stop());
        let number = self.number(actor);
        self.hop(actor, &worked);
        Ok(Made { row, number })
    }

    // The number that the step is reported with.
    fn number(&self, actor: u8) -> u64
        requires { IsSome (move_of self.now actor) }
        ensures { (made_by self.now actor).number ≡ result }
    {
        if actor < self.plan.options.workers {
            self.table.number(actor)
        } else {
            self.table.desk.cursor.next()
        }
    }

    pub(crate) fn own_job(&self) -> &Job
        ensures { result.now ≡ self.now.job }
    {
        &self.plan.job
    }

    pub(crate) fn own_options(&self) -> &Options
        ensures is { result.now ≡ self.now.options }
        ensures legal { IsLegal (λ m. m.job) (λ m. m.options) Opens step self.now }
    {
        &self.plan.options
    }

    pub(crate) fn own_words(&self) -> &Words
        ensures { result.now ≡ words_of self.now }
    {
        &self.table.words
    }

    pub(crate) fn own_facts(&self) -> &Facts
        ensures { result.now ≡ facts_of self.now }
    {
        self.table.desk.tally.report()
    }

    pub(crate) fn own_ending(&self) -> Ending
        ensures is { result ≡ ending_of self.now }
        ensures unfinished { (result ≡ Ending.Unfinished) ↔ (is_finished self.now ≡ false) }
    {
        if !self.is_over() {
            return Ending::Unfinished;
        }
        match self.table.trap {
            None => Ending::Done,
            Some(place) => Ending::Trapped(place),
        }
    }

    // Whether an actor's part is ended.
    pub(crate) fn has_ended(&self, actor: u8) -> bool
        ensures { result ≡ has_ended self.now actor }
    {
        if actor < self.plan.options.workers {
            self.table.is_ended(actor)
        } else {
            actor != self.plan.options.workers || self.table.halted
        }
    }

    pub(crate) fn is_over(&self) -> bool
        ensures over { result ≡ is_finished self.now }
        ensures legal { IsLegal (λ m. m.job) (λ m. m.options) Opens step self.now }
    {
        self.table.halted && self.table.ended_are_over()
    }

    /// The opening state, with no iteration handed out. All its memory is taken here.
    pub fn open(alloc: Global, job: Job, options: Options) -> Result<Domore, NoMemory>
        requires allowed { IsInRange options }
        requires engine { options.engine ≡ Engine.Domore }
        ensures { IfOk result (λ made. Opens job options made) }
    {
        let plan = open_plan(alloc, job, options)?;
        let table = open_table(alloc, &plan)?;
        Ok(Domore { plan, table })
    }
}
