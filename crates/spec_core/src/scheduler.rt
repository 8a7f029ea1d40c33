//! The moves of the scheduler.
ghost use Rattle.std.specs.Prelude.{◌≡◌, ◌<◌, ◌≤◌, ◌^◌, ◌+◌, ◌-◌, ℕ, ℤ, true, false, Option, None, Ok, Err, Some, List, [], length, map, replicate};
ghost use Rattle.nest_syntax.specs.Course.{Purpose};
ghost use Rattle.nest_syntax.specs.Among.{Each};
ghost use Rattle.nest_syntax.specs.Arrays.{arrays_of};
ghost use Rattle.nest_syntax.specs.Outcome.{place_of_trap};
ghost use Rattle.word_store.specs.Memory.{HasLayout};
ghost use Rattle.settle_law.specs.Courses.{Trap};
ghost use Rattle.sched_cursor.specs.Cursor.{Cursor as Course};
ghost use Rattle.sched_cursor.specs.Events.{is_inside, after_event, purpose_at};
ghost use Rattle.spec_machine.specs.Invocations as events;
ghost use Rattle.spec_machine.specs.Facts.{Abort, computed, committed};
ghost use Rattle.spec_machine.specs.Machine as machine;
ghost use Rattle.spec_core.specs.declared.plan.Plan.{Plan as Planned};
ghost use Rattle.spec_core.specs.Signatures.{signs};
ghost use Rattle.spec_core.specs.Hands.{seats_of, cleared};
ghost use Rattle.spec_setup.specs.Setups.{Invoked, invocation_at};
ghost use Rattle.spec_core.specs.Engine.{far_of};
ghost use Rattle.spec_core.specs.Tables.{state_of, setup_by, sizes_by, IsPlan, IsSound, IsDeskBy, IsBenchBy, IsOpenedBy, GoesOn, HasFew};

use crate::desk::Desk;
use crate::plan::Plan;
use crate::seat::Seat;
use crate::table::Table;
use epoch_plan::Epoch;
use progress_board::Engine;
use range_sign::Signature;
use sched_cursor::Event;
use word_store::Words;

impl Plan {
    /// The set distance: with a barrier no worker is ahead.
    pub(crate) fn far(&self) -> u8
        ensures { result ≡ far_of self.now.options }
    {
        match self.options.engine {
            Engine::Speccross => self.options.distance,
            Engine::Domore | Engine::Barrier => 0,
        }
    }
}

impl<G: Signature> Table<G> {
    /// Goes behind an event that computes with scalars and `const` words, which are those of the opening.
    pub(crate) fn scalar(&mut self, plan: &Plan)
        requires plan { IsPlan plan.now }
        requires sound { IsSound G.sizes_of plan.now self.old }
        requires outside { is_inside self.old.desk.cursor.at ≡ false }
        requires few { HasFew self.old.desk.tally.facts }
        ensures state { (purpose : Purpose) (trap : Option Trap) (rest : Course) → (setup_by (signs G.EXACT G.holds G.nothing G.with_note) plan.now).event self.old.desk.cursor ≡ events.Scalar purpose trap rest
            → state_of self.new ≡ machine.scalar_after (setup_by (signs G.EXACT G.holds G.nothing G.with_note) plan.now) (state_of self.old) purpose trap rest }
        ensures sound { IsSound G.sizes_of plan.now self.new }
    {
        self.desk.pass(plan, plan.job.words());
    }

    /// Goes behind an event that computes with the present words.
    pub(crate) fn drain(&mut self, plan: &Plan)
        requires plan { IsPlan plan.now }
        requires sound { IsSound G.sizes_of plan.now self.old }
        requires outside { is_inside self.old.desk.cursor.at ≡ false }
        requires few { HasFew self.old.desk.tally.facts }
        ensures state { (purpose : Purpose) (traps : List ℤ → Option Trap) (rests : List ℤ → Course) → (setup_by (signs G.EXACT G.holds G.nothing G.with_note) plan.now).event self.old.desk.cursor ≡ events.Drain purpose traps rests
            → state_of self.new ≡ machine.state_after (setup_by (signs G.EXACT G.holds G.nothing G.with_note) plan.now) (state_of self.old) plan.now.options.workers (machine.DoDrain purpose (traps self.old.words.words) (rests self.old.words.words)) }
        ensures sound { IsSound G.sizes_of plan.now self.new }
    {
        self.desk.tally.drain();
        self.desk.pass(plan, &self.words);
    }

    /// Opens the invocation that was entered as an epoch.
    pub(crate) fn open(&mut self, plan: &Plan)
        requires plan { IsPlan plan.now }
        requires sound { IsSound G.sizes_of plan.now self.old }
        requires few { HasFew self.old.desk.tally.facts }
        requires goes { GoesOn (setup_by (signs G.EXACT G.holds G.nothing G.with_note) plan.now) (sizes_by plan.now) (state_of self.old) }
        requires calm { self.old.abort ≡ None }
        requires inside { is_inside self.old.desk.cursor.at ≡ true }
        requires room { length self.old.desk.epochs < plan.now.options.segment }
        ensures state { (b : Invoked) (n : ℕ) (rest : Course) → (setup_by (signs G.EXACT G.holds G.nothing G.with_note) plan.now).event self.old.desk.cursor ≡ events.Invoke b n rest
            → state_of self.new ≡ machine.state_after (setup_by (signs G.EXACT G.holds G.nothing G.with_note) plan.now) (state_of self.old) plan.now.options.workers (machine.DoOpen b n rest) }
        ensures sound { IsSound G.sizes_of plan.now self.new }
    {
        self.desk.open(plan);
    }

    /// Seals the segment.
    pub(crate) fn close(&mut self, plan: &Plan)
        requires plan { IsPlan plan.now }
        requires sound { IsSound G.sizes_of plan.now self.old }
        ensures state { state_of self.new ≡ machine.state_after (setup_by (signs G.EXACT G.holds G.nothing G.with_note) plan.now) (state_of self.old) plan.now.options.workers machine.DoClose }
        ensures sound { IsSound G.sizes_of plan.now self.new }
    {
        let _ = plan;
        self.desk.sealed = true;
    }

    /// Ends the run.
    pub(crate) fn conclude(&mut self, plan: &Plan)
        requires plan { IsPlan plan.now }
        requires sound { IsSound G.sizes_of plan.now self.old }
        ensures state { state_of self.new ≡ machine.state_after (setup_by (signs G.EXACT G.holds G.nothing G.with_note) plan.now) (state_of self.old) plan.now.options.workers machine.DoConclude }
        ensures sound { IsSound G.sizes_of plan.now self.new }
    {
        let _ = plan;
        self.concluded = true;
    }

    /// Marks the words of a segment that is over, and begins the next one.
    pub(crate) fn commit(&mut self, plan: &Plan)
        requires plan { IsPlan plan.now }
        requires sound { IsSound G.sizes_of plan.now self.old }
        requires few { HasFew self.old.desk.tally.facts }
        ensures state { self.old.abort ≡ None → state_of self.new ≡ machine.state_after (setup_by (signs G.EXACT G.holds G.nothing G.with_note) plan.now) (state_of self.old) plan.now.options.workers machine.DoCommit }
        ensures sound { IsSound G.sizes_of plan.now self.new }
    {
        self.mark.commit(&self.words);
        self.begin_anew();
        self.desk.commit();
        self.distance = u32::from(plan.far());
    }

    /// Goes back to the marked words, and starts the segment again at distance 0.
    pub(crate) fn restore(&mut self, plan: &Plan)
        requires plan { IsPlan plan.now }
        requires sound { IsSound G.sizes_of plan.now self.old }
        requires few { HasFew self.old.desk.tally.facts }
        ensures state { (cause : Abort) → (state_of self.old).abort ≡ Some cause → state_of self.new ≡ machine.state_after (setup_by (signs G.EXACT G.holds G.nothing G.with_note) plan.now) (state_of self.old) plan.now.options.workers (machine.DoRestore cause) }
        ensures sound { IsSound G.sizes_of plan.now self.new }
    {
        let _ = plan;
        let Some(cause) = self.abort else {
            return;
        };
        self.mark.restore(&mut self.words);
        self.begin_anew();
        self.desk.tally.restore(cause);
        self.abort = None;
        self.distance = 0;
    }

    // No task of the segment is begun, and no pair passed.
    fn begin_anew(&mut self)
        ensures seats { seats_of self.new.seen.items self.new.seats.items ≡ replicate (length self.old.seats.items) machine.fresh_seat }
        ensures kept { self.new ≡ record self.old { seats = self.new.seats; checker = None } }
        ensures benches { (plan : Planned) → Each (IsBenchBy G.sizes_of plan) self.old.seats.items → Each (IsBenchBy G.sizes_of plan) self.new.seats.items }
    {
        clear_all(&mut self.seats);
        self.checker.clear();
    }
}

// None has begun a task.
fn clear_all<G: Signature>(seats: &mut Vec<Seat<G>>)
    ensures { seats.new.items ≡ map cleared seats.old.items }
{
    'seats: for worker in 0..seats.len() {
        seats[worker].clear();
    }
}

impl Desk {
    // Goes behind an event that is carried out on these words, and counts it, or keeps its trap.
    fn pass(&mut self, plan: &Plan, words: &Words)
        requires plan { IsPlan plan.now }
        requires desk { IsDeskBy plan.now self.old }
        requires sizes { HasLayout words.now plan.now.job.program.decls }
        requires outside { is_inside self.old.cursor.at ≡ false }
        requires few { self.old.tally.facts.invocations < 2 ^ 63 }
        ensures goes { (rest : Course) → after_event (arrays_of plan.now.job.program.decls) self.old.cursor words.now.words ≡ Ok rest
            → self.new ≡ record self.old { cursor = rest; tally = record self.old.tally { facts = computed (purpose_at self.old.cursor self.old.cursor.at) self.old.tally.facts } } }
        ensures traps { (trap : Trap) → after_event (arrays_of plan.now.job.program.decls) self.old.cursor words.now.words ≡ Err trap
            → self.new ≡ record self.old { early = Some (place_of_trap trap.cause trap.line self.old.cursor.next true) } }
        ensures desk { IsDeskBy plan.now self.new }
    {
        match self.cursor.advance(plan.job.checked(), words) {
            Some(place) => self.early = Some(place),
            None => {
                if self.is_inside() {
                    self.tally.enter();
                }
            }
        }
    }

    // Whether the cursor stands in an invocation.
    fn is_inside(&self) -> bool
        ensures { result ≡ is_inside self.now.cursor.at }
    {
        matches!(self.cursor.peek(), Event::Iterate | Event::Close)
    }

    fn open(&mut self, plan: &Plan)
        requires plan { IsPlan plan.now }
        requires desk { IsDeskBy plan.now self.old }
        requires inside { is_inside self.old.cursor.at ≡ true }
        requires room { length self.old.epochs < plan.now.options.segment }
        requires few { self.old.tally.facts.iterations ≤ 2 ^ 60 }
        ensures opens { (b : Invoked) (n : ℕ) (rest : Course) → invocation_at (arrays_of plan.now.job.program.decls) plan.now.job.opening.words self.old.cursor ≡ events.Invoke b n rest
            → IsOpenedBy plan.now self.old self.new b n rest }
        ensures desk { IsDeskBy plan.now self.new }
    {
        let here = self.cursor.here();
        self.epochs.push(Epoch {
            body: here.body,
            first: self.cursor.next(),
            low: here.low,
            step: here.step,
            trips: here.trips,
            all: plan.shared[here.body as usize],
            env: self.cursor.env(),
        });
        self.cursor.pass_all(plan.job.checked());
        self.tally.open_epoch(here.trips);
    }

    // The segment is committed: no epoch is open.
    fn commit(&mut self)
        requires { self.old.tally.facts.segments < 2 ^ 63 }
        ensures { self.new ≡ record self.old { epochs = []; sealed = false; tally = record self.old.tally { facts = committed self.old.tally.facts } } }
    {
        self.epochs.clear();
        self.sealed = false;
        self.tally.commit();
    }
}
