ghost use Rattle.domore_core.specs.Engine.{Opens, step, asked, made_by, is_finished, ending_of, words_of, facts_of, measure};

use crate::domore::Domore;
use nest_mean::Job;
use progress_board::{Ask, Ending, Facts, Given, Machine, Made, Options};
use word_store::Words;

impl Machine for Domore {
    ghost use Rattle.domore_core.specs.Laws.{keeps_job, keeps_options, readies, actors, names, stays, finishes, progress, falls};

    ghost job_of = { λ m. m.job };

    ghost options_of = { λ m. m.options };

    ghost opens = { Opens };

    ghost step = { step };

    ghost asked = { asked };

    ghost made_by = { made_by };

    ghost is_finished = { is_finished };

    ghost ending_of = { ending_of };

    ghost words_of = { words_of };

    ghost facts_of = { facts_of };

    ghost measure = { measure };

    fn job(&self) -> &Job {
        self.own_job()
    }

    fn options(&self) -> &Options {
        self.own_options()
    }

    fn ask(&self, actor: u8) -> Ask {
        self.own_ask(actor)
    }

    fn give(&mut self, actor: u8, given: Given) -> Result<Made, Ask> {
        match given {
            Given::Turn(row) => self.give_turn(actor, row),
            Given::Hop(worked) => self.give_hop(actor, worked),
        }
    }

    fn finished(&self) -> bool {
        self.is_over()
    }

    fn ending(&self) -> Ending {
        self.own_ending()
    }

    fn words(&self) -> &Words {
        self.own_words()
    }

    fn facts(&self) -> &Facts {
        self.own_facts()
    }

    ghost opens_job = { λ job options e opened. opened.same_job };

    ghost opens_options = { λ job options e opened. opened.same_options };

    ghost keeps_job = { λ m n actor e. keeps_job m n actor e };

    ghost keeps_options = { λ m n actor e. keeps_options m n actor e };

    ghost readies = { readies };

    ghost actors = { λ m actor legal past. actors m actor past };

    ghost stays = { stays };

    ghost finishes = { finishes };

    ghost progress = { progress };

    ghost falls = { falls };

    ghost names = { names };
}
