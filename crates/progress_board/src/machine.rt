ghost use Rattle.std.specs.Prelude.{◌≡◌, ◌≢◌, ◌↔◌, ℕ, ◌+◌, ◌<◌, ◌≤◌, Bool, true, false, Option, Some, None, is_some, IfOk, IfErr};
ghost use Rattle.nest_mean.specs.declared.jobs.Job.{Job};
ghost use Rattle.word_store.specs.declared.memory.Words.{Words};
ghost use Rattle.progress_board.specs.declared.options.Options.{Options};
ghost use Rattle.progress_board.specs.declared.actors.Ask.{Ask};
ghost use Rattle.progress_board.specs.declared.actors.Made.{Made};
ghost use Rattle.progress_board.specs.declared.actors.Work.{Work};
ghost use Rattle.progress_board.specs.declared.facts.Ending.{Ending};
ghost use Rattle.progress_board.specs.declared.facts.Facts.{Facts};
ghost use Rattle.progress_board.specs.declared.actors.Ask.TheVariants.{Ready, Ended};
ghost use Rattle.progress_board.specs.Actors.{actors_of, work_of, is_ready, IsRowOf, SomeEnabled, AllEnded};
ghost use Rattle.progress_board.specs.Runs.{IsLegal};

use crate::actors::{Ask, Given, Made};
use crate::facts::{Ending, Facts};
use crate::options::Options;
use nest_mean::Job;
use word_store::Words;

/// A state that actors change, one step at a time. An actor asks what it has to do, does it, and gives it back.
///
/// The actors of a machine with W workers are the workers 0 to W - 1, the scheduler W and the checker W + 1. What a
/// step does is `step` of its contract, a function of the state and the actor. So no state enables two rows of one
/// actor.
pub trait Machine: Send + Drop {
    ghost job_of: { Self → Job };

    ghost options_of: { Self → Options };

    // The states in which a machine opens on a job and options. They differ in what is made of the job once, as its code.
    ghost opens: { Job → Options → Self → Type 0 };

    ghost step: { Self → ℕ → Option Self };

    ghost asked: { Self → ℕ → Ask };

    ghost made_by: { Self → ℕ → Made };

    ghost is_finished: { Self → Bool };

    ghost ending_of: { Self → Ending };

    ghost words_of: { Self → Words };

    ghost facts_of: { Self → Facts };

    ghost measure: { Self → ℕ };

    /// The job that the machine was opened with.
    fn job(&self) -> &Job
        ensures { result.now ≡ job_of self.now };

    /// The options that the machine was opened with.
    fn options(&self) -> &Options
        ensures is { result.now ≡ options_of self.now }
        ensures legal { IsLegal job_of options_of opens step self.now };

    /// What the actor has to do. `Ready` comes exactly where one of its rows is enabled, `Ended` exactly where its part
    /// is ended, and `NotYet` in every other state.
    fn ask(&self, actor: u8) -> Ask
        requires { actor < actors_of (options_of self.now) }
        ensures { result ≡ asked self.now actor };

    /// Makes the actor's row, where what is given is the work that `ask` answers, and says which row it was. Otherwise
    /// the error is the answer of `ask`, and nothing has changed.
    fn give(&mut self, actor: u8, given: Given) -> Result<Made, Ask>
        requires { actor < actors_of (options_of self.old) }
        ensures made { IfOk result (λ made. (asked self.old actor ≡ Ready (work_of given)) × (step self.old actor ≡ Some self.new) × (made ≡ made_by self.old actor)) }
        ensures stale { IfErr result (λ answer. (answer ≡ asked self.old actor) × (answer ≢ Ready (work_of given)) × (self.new ≡ self.old)) };

    /// Whether all actors have ended their parts.
    fn finished(&self) -> bool
        ensures says { result ≡ is_finished self.now }
        ensures legal { IsLegal job_of options_of opens step self.now };

    /// How the machine ended. `Unfinished` comes exactly where it isn't finished.
    fn ending(&self) -> Ending
        ensures is { result ≡ ending_of self.now }
        ensures unfinished { (result ≡ Ending.Unfinished) ↔ (is_finished self.now ≡ false) };

    /// The words as the steps so far have left them.
    fn words(&self) -> &Words
        ensures { result.now ≡ words_of self.now };

    /// The counts and lists of the steps so far.
    fn facts(&self) -> &Facts
        ensures { result.now ≡ facts_of self.now };

    // An opening state is of its job and options, and each step keeps them.
    ghost opens_job: { (job : Job) (options : Options) (m : Self) → opens job options m → job_of m ≡ job };

    ghost opens_options: { (job : Job) (options : Options) (m : Self) → opens job options m → options_of m ≡ options };

    ghost keeps_job: { (m n : Self) (actor : ℕ) → step m actor ≡ Some n → job_of n ≡ job_of m };

    ghost keeps_options: { (m n : Self) (actor : ℕ) → step m actor ≡ Some n → options_of n ≡ options_of m };

    // An actor is asked to work exactly where it has a step. Numbers that are no actor's have none.
    ghost readies: { (m : Self) (actor : ℕ) → is_ready (asked m actor) ≡ is_some (step m actor) };

    ghost actors: { (m : Self) (actor : ℕ) → IsLegal job_of options_of opens step m → actors_of (options_of m) ≤ actor → step m actor ≡ None };

    // An actor that has ended its part stays so, and the machine is finished exactly where all have.
    ghost stays: { (m n : Self) (actor other : ℕ) → IsLegal job_of options_of opens step m → asked m actor ≡ Ended → step m other ≡ Some n → asked n actor ≡ Ended };

    ghost finishes: { (m : Self) → IsLegal job_of options_of opens step m → (is_finished m ≡ true) ↔ AllEnded asked m (actors_of (options_of m)) };

    // What is made is a row of the work that was asked for.
    ghost names: { (m : Self) (actor : ℕ) (work : Work) → asked m actor ≡ Ready work → IsRowOf work (made_by m actor).row };

    // In a machine that isn't finished some actor has a step.
    ghost progress: { (m : Self) → IsLegal job_of options_of opens step m → is_finished m ≡ false → SomeEnabled step m (actors_of (options_of m)) };

    // Each step makes the measure smaller.
    ghost falls: { (m n : Self) (actor : ℕ) → IsLegal job_of options_of opens step m → step m actor ≡ Some n → measure n + 1 ≤ measure m };
}
