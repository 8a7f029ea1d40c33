ghost use Rattle.spec_core.specs.Signatures.{signs};
ghost use Rattle.spec_core.specs.Engine.{Opens, step, asked, made_by, is_finished, ending_of, words_of, facts_of};

use crate::spec::Spec;
use nest_mean::Job;
use progress_board::{Ask, Ending, Facts, Given, Machine, Made, Options};
use range_sign::Signature;
use word_store::Words;

impl<G: Signature + Send> Machine for Spec<G> {
    ghost use Rattle.spec_core.specs.Laws.{keeps_job, keeps_options, readies, actors, names, stays, finishes, progress, falls, measure};

    ghost job_of = { λ m. m.job };

    ghost options_of = { λ m. m.options };

    ghost opens = { Opens (signs G.EXACT G.holds G.nothing G.with_note) };

    ghost step = { step (signs G.EXACT G.holds G.nothing G.with_note) };

    ghost asked = { asked (signs G.EXACT G.holds G.nothing G.with_note) };

    ghost made_by = { made_by (signs G.EXACT G.holds G.nothing G.with_note) };

    ghost is_finished = { is_finished };

    ghost ending_of = { ending_of };

    ghost words_of = { words_of };

    ghost facts_of = { facts_of };

    ghost measure = { measure (signs G.EXACT G.holds G.nothing G.with_note) };

    fn job(&self) -> &Job {
        self.own_job()
    }

    fn options(&self) -> &Options {
        self.own_options()
    }

    fn ask(&self, actor: u8) -> Ask {
        self.own_ask(actor)
    }

    fn give(&mut self, actor: u8, given: Given) -> Result<Made, Ask> {
        match given {
            Given::Turn(row) => self.give_turn(actor, row),
            Given::Hop(worked) => self.give_hop(actor, worked),
        }
    }

    fn finished(&self) -> bool {
        self.is_over()
    }

    fn ending(&self) -> Ending {
        self.own_ending()
    }

    fn words(&self) -> &Words {
        self.own_words()
    }

    fn facts(&self) -> &Facts {
        self.own_facts()
    }

    ghost opens_job = { λ job options e opened. opened.same_job };

    ghost opens_options = { λ job options e opened. opened.same_options };

    ghost keeps_job = { λ m n actor e. keeps_job (signs G.EXACT G.holds G.nothing G.with_note) m n actor e };

    ghost keeps_options = { λ m n actor e. keeps_options (signs G.EXACT G.holds G.nothing G.with_note) m n actor e };

    ghost readies = { readies (signs G.EXACT G.holds G.nothing G.with_note) };

    ghost actors = { λ m actor legal past. actors (signs G.EXACT G.holds G.nothing G.with_note) m actor past };

    ghost stays = { λ m n actor other legal. stays (signs G.EXACT G.holds G.nothing G.with_note) m n actor other };

    ghost finishes = { λ m legal. finishes (signs G.EXACT G.holds G.nothing G.with_note) m };

    ghost progress = { progress (signs G.EXACT G.holds G.nothing G.with_note) G.holds_what_is_noted };

    ghost falls = { falls (signs G.EXACT G.holds G.nothing G.with_note) G.holds_what_is_noted };

    ghost names = { names (signs G.EXACT G.holds G.nothing G.with_note) };
}
