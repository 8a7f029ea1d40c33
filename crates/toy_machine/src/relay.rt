ghost use Rattle.std.specs.Prelude.{◌≡◌, ◌<◌, ◌≤◌, ◌+◌, IsTrue, Option, Some, None};
ghost use Rattle.std.specs.Option.{option_map};
ghost use Rattle.nest_mean.specs.Nest.{CanRun};
ghost use Rattle.progress_board.specs.Options.{IsInRange};
ghost use Rattle.progress_board.specs.Actors.{actors_of};
ghost use Rattle.progress_board.specs.Runs.{IsReached};
ghost use Rattle.toy_machine.specs.Tokens.{opening, step, asked, made_by, is_finished, ending_of, no_facts, measure, move_of, row_of, has_ended, Move, number_of};

use nest_mean::Job;
use progress_board::{Ask, Ending, Facts, Given, Machine, Made, Options, Row, Work};
use std::marker::Model;
use word_store::Words;

/// The scheduler hands out as many tokens as a queue holds, one at a time, and then halts. The workers take them in
/// turn: token k is for worker `k mod W`.
#[derive(Drop)]
pub struct Relay {
    job: Job,
    options: Options,
    facts: Facts,
    handed: u16,
    taken: u16,
    halted: bool,
}

impl Model for Relay {
    ghost use Rattle.nest_mean.specs.contracts.jobs.Job as held;
    ghost use Rattle.std.specs.Coded.{codes};
    ghost use Rattle.toy_machine.specs.State.{State};
    ghost use Rattle.toy_machine.specs.Kept.{IsKept};

    ghost Value = { State };

    ghost coded = { Prim.hlevel (codes, held.the_row.coded) };

    ghost view = { λ r. record { job = r.job; options = r.options; handed = r.handed; taken = r.taken; halted = r.halted } };

    ghost invariant = { λ r. IsKept (record { job = r.job; options = r.options; handed = r.handed; taken = r.taken; halted = r.halted }) r.facts };
}

impl Relay {
    /// The opening state, with no token handed out.
    pub fn open(job: Job, options: Options) -> Relay
        requires { IsInRange options }
        ensures { result ≡ opening job options }
    {
        // It tells what the invariant needs: that the job can be run.
        let _program = job.checked();
        Relay {
            job,
            options,
            facts: facts_of_none(options),
            handed: 0,
            taken: 0,
            halted: false,
        }
    }

    // The actor's enabled row.
    fn row(&self, actor: u8) -> Option<Row>
        ensures { result ≡ option_map row_of (move_of self.now actor) }
    {
        if actor < self.options.workers {
            if self.taken < self.handed
                && self.taken % self.options.workers as u16 == actor as u16
            {
                return Some(Row::Take);
            }
            return None;
        }
        if actor > self.options.workers || self.halted {
            return None;
        }
        if self.handed < self.options.queue {
            Some(Row::Dispatch)
        } else {
            Some(Row::Halt)
        }
    }

    // Makes that row.
    fn make(&mut self, actor: u8, row: Row) -> Made
        requires { option_map row_of (move_of self.old actor) ≡ Some row }
        ensures after { step self.old actor ≡ Some self.new }
        ensures made { result ≡ made_by self.old actor }
    {
        let made = self.made(actor, row);
        match row {
            Row::Dispatch => self.handed += 1,
            Row::Halt => self.halted = true,
            Row::Take => self.taken += 1,
            _ => unreachable!(),
        }
        made
    }

    // What that row is reported as: by the token that is handed out or taken.
    fn made(&self, actor: u8, row: Row) -> Made
        requires { option_map row_of (move_of self.now actor) ≡ Some row }
        ensures { result ≡ made_by self.now actor }
    {
        Made {
            row,
            number: self.number(row),
        }
    }

    fn number(&self, row: Row) -> u64
        ensures { result ≡ number_of self.now row }
    {
        match row {
            Row::Take => self.taken as u64,
            _ => self.handed as u64,
        }
    }

    fn is_over(&self) -> bool
        ensures over { result ≡ is_finished self.now }
        ensures runs { CanRun self.now.job }
        ensures allowed { IsInRange self.now.options }
        ensures reached { IsReached step (opening self.now.job self.now.options) self.now }
    {
        self.halted && self.taken == self.handed
    }

    fn has_ended(&self, actor: u8) -> bool
        ensures { result ≡ has_ended self.now actor }
    {
        if actor < self.options.workers {
            self.is_over()
        } else {
            actor > self.options.workers || self.halted
        }
    }
}

// The facts of a run without steps.
fn facts_of_none(options: Options) -> Facts
    ensures { result ≡ no_facts options }
{
    Facts {
        options,
        invocations: 0,
        iterations: 0,
        drains: 0,
        waits: 0,
        crossing: 0,
        first_waits: [None; 64],
        segments: 0,
        checks: 0,
        rollbacks: 0,
        first_rollbacks: [None; 64],
    }
}

impl Machine for Relay {
    ghost use Rattle.progress_board.specs.Runs.{IsLegal};
    ghost use Rattle.toy_machine.specs.State.{State};
    ghost use Rattle.toy_machine.specs.Laws.{opened_reached, keeps_job, keeps_options, readies, actors, stays, finishes, progress, falls, names};
    ghost use Rattle.std.proofs.Common.{ap};

    ghost job_of = { λ s. s.job };

    ghost options_of = { λ s. s.options };

    ghost opens = { λ job options s. s ≡ opening job options };

    ghost step = { step };

    ghost asked = { asked };

    ghost made_by = { made_by };

    ghost is_finished = { is_finished };

    ghost ending_of = { ending_of };

    ghost words_of = { λ s. s.job.opening };

    ghost facts_of = { λ s. no_facts s.options };

    ghost measure = { measure };

    fn job(&self) -> &Job {
        &self.job
    }

    fn options(&self) -> &Options {
        &self.options
    }

    fn ask(&self, actor: u8) -> Ask {
        match self.row(actor) {
            Some(row) => Ask::Ready(Work::Turn(row)),
            None if self.has_ended(actor) => Ask::Ended,
            None => Ask::NotYet,
        }
    }

    fn give(&mut self, actor: u8, given: Given) -> Result<Made, Ask> {
        let answer = self.ask(actor);
        if !answer.is_met_by(&given) {
            return Err(answer);
        }
        let Given::Turn(row) = given else {
            unreachable!();
        };
        Ok(self.make(actor, row))
    }

    fn finished(&self) -> bool {
        self.is_over()
    }

    fn ending(&self) -> Ending {
        if self.is_over() {
            Ending::Done
        } else {
            Ending::Unfinished
        }
    }

    fn words(&self) -> &Words {
        self.job.words()
    }

    fn facts(&self) -> &Facts {
        &self.facts
    }

    ghost opens_job = { λ job options m opened. ap (λ (s : State). s.job) opened };

    ghost opens_options = { λ job options m opened. ap (λ (s : State). s.options) opened };

    ghost keeps_job = { λ m n actor e. keeps_job m n actor e };

    ghost keeps_options = { λ m n actor e. keeps_options m n actor e };

    ghost readies = { readies };

    ghost actors = { λ m actor legal past. actors m actor past };

    ghost stays = { λ m n actor other legal ended e. stays m n actor other ended e };

    ghost finishes = { λ m legal. finishes m legal.allowed.some_worker };

    ghost progress = { λ m legal unfinished. progress m legal.allowed.some_worker (opened_reached m legal) unfinished };

    ghost falls = { λ m n actor legal e. falls m n actor e };

    ghost names = { names };
}
