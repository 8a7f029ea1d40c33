//! Where a walk stands in the course of a job, in textual order.
ghost use Rattle.std.specs.Prelude.{◌≡◌, ◌<◌, ◌≤◌, ◌^◌, ℕ, suc, true, false, Ok, Err, Some, IfOk, length, slice_index_or, sum};
ghost use Rattle.nest_syntax.specs.Arrays.{arrays_of};
ghost use Rattle.nest_mean.specs.Nest.{Nest};
ghost use Rattle.settle_law.specs.Courses.{Trap, reached, iteration_at};
ghost use Rattle.addr_slice.specs.Claims.{words_of};
ghost use Rattle.addr_slice.specs.Slice.{claims_of};
ghost use Rattle.epoch_plan.specs.Blocks.{most_trips};
ghost use Rattle.sched_cursor.specs.Cursor.{Cursor as Scheduled};
ghost use Rattle.sched_cursor.specs.declared.event.Event.TheVariants as event;
ghost use Rattle.sched_cursor.specs.Events.{kind_of, after_event, is_inside, is_iterating, handed_at, behind_invocation};
ghost use Rattle.sched_cursor.specs.Handed.{what_of};
ghost use Rattle.sched_cursor.specs.Laws.{IsCursorOf, restarted};
ghost use Rattle.spec_machine.specs.Segments.{with_claims, with_iterations};
ghost use Rattle.spec_setup.specs.Signs.{kind_of as sign_kind};
ghost use Rattle.spec_setup.specs.Setups.{is_do_all};
ghost use Rattle.spec_setup.proofs.Follows.{Fresh};
ghost use Rattle.spec_core.specs.Signatures.{signs};
ghost use Rattle.spec_core.specs.Engine.{nest_in};
ghost use Rattle.spec_core.specs.Theorems.{claims_due, words_due};
ghost use Rattle.nest_profile.specs.Hulls.{IsEven, hull_in};
ghost use Rattle.nest_profile.specs.Iterations.{turned, turned_at, left_at, AreNext, AreGiven, AreTakenOver, words_told, IsCourse};
ghost use Rattle.nest_profile.specs.Walked.{IsPlan, machine, entered_at, sizes_in};

use crate::noting::note_claims;
use crate::plan::Plan;
use crate::row::Row;
use addr_slice::{Claims, claims};
use epoch_plan::{Epoch, block_of};
use nest_mean::{Job, Scalars, run_turn};
use nest_syntax::NoMemory;
use range_sign::Signature;
use sched_cursor::Cursor;
use std::alloc::Global;
use word_store::Words;

/// The cursor, with the words that textual order has there.
#[derive(Drop)]
pub(crate) struct Course {
    pub(crate) cursor: Cursor,
    words: Words,
    /// Whether textual order gets there. Where it doesn't, the words mean nothing.
    pub(crate) is_reached: bool,
    // The scalars and the claims of the last iteration are kept for the room that they take.
    scalars: Scalars,
    claims: Claims,
}

impl Course {
    /// Before the first event.
    pub(crate) fn open(alloc: Global, job: &Job) -> Result<Course, NoMemory>
        ensures cursor { IfOk result (λ course. course.cursor ≡ restarted job.now.program course.cursor) }
        ensures is_reached { IfOk result (λ course. course.is_reached ≡ true) }
        ensures course { IfOk result (λ course. IsCourse job.now course) }
    {
        let checked = job.checked();
        Ok(Course {
            cursor: Cursor::start(alloc, checked)?,
            words: job.words().copy(alloc)?,
            is_reached: true,
            scalars: Scalars::zeros(alloc, checked.program().names.len())?,
            claims: Claims::with_room(alloc, checked.lengths())?,
        })
    }

    /// Goes behind an event that computes with scalars and `const` words, which are those of the opening. False comes where
    /// it traps.
    pub(crate) fn scalar(&mut self, job: &Job) -> bool
        requires course { IsCourse job.now self.old }
        requires kind { kind_of (arrays_of job.now.program.decls) self.old.cursor ≡ event.Scalar }
        ensures goes { result ≡ true → (rest : Scheduled) × (after_event (arrays_of job.now.program.decls) self.old.cursor job.now.opening.words ≡ Ok rest) × (self.new.cursor ≡ rest) × IsCourse job.now self.new }
        ensures traps { result ≡ false → (trap : Trap) × (after_event (arrays_of job.now.program.decls) self.old.cursor job.now.opening.words ≡ Err trap) }
    {
        self.cursor.advance(job.checked(), job.words()).is_none()
    }

    /// Goes behind an event that computes with the present words. False comes where it traps, and where textual order
    /// doesn't get there.
    pub(crate) fn drain(&mut self, job: &Job) -> bool
        requires course { IsCourse job.now self.old }
        requires kind { kind_of (arrays_of job.now.program.decls) self.old.cursor ≡ event.Drain }
        ensures goes { result ≡ true → (rest : Scheduled) × (self.old.is_reached ≡ true) × (after_event (arrays_of job.now.program.decls) self.old.cursor self.old.words.words ≡ Ok rest) × (self.new.cursor ≡ rest) × IsCourse job.now self.new }
        ensures traps { result ≡ false → self.old.is_reached ≡ true → (trap : Trap) × (after_event (arrays_of job.now.program.decls) self.old.cursor self.old.words.words ≡ Err trap) }
    {
        self.is_reached && self.cursor.advance(job.checked(), &self.words).is_none()
    }

    /// Goes through the invocation that was entered, the epoch with this index: the hulls of its tasks are put into a
    /// row of signatures with nothing noted.
    pub(crate) fn cross<G: Signature>(
        &mut self,
        job: &Job,
        plan: &Plan,
        index: u32,
        row: &mut Row<G>,
    )
        requires plan { IsPlan job.now plan.now }
        requires course { IsCourse job.now self.old }
        requires inside { is_inside self.old.cursor.at ≡ true }
        requires fresh { Fresh self.old.cursor.at }
        requires next { AreNext job.now self.old.cursor (left_at self.old.cursor.at) }
        requires wide { length row.old.signs.items ≡ plan.now.options.workers }
        requires even { IsEven G.sizes_of (sizes_in job.now) row.old }
        requires blank { (u : ℕ) → u < plan.now.options.workers → slice_index_or row.old.signs.items u (G.nothing (sizes_in job.now)) ≡ G.nothing (sizes_in job.now) }
        ensures wide { length row.new.signs.items ≡ plan.now.options.workers }
        ensures even { IsEven G.sizes_of (sizes_in job.now) row.new }
        ensures hulls { (u : ℕ) → u < plan.now.options.workers → slice_index_or row.new.signs.items u (G.nothing (sizes_in job.now))
            ≡ hull_in (machine (signs G.EXACT G.holds G.nothing G.with_note) job.now plan.now.options) (claims_due job.now) (words_due job.now) (entered_at self.old.cursor self.old.cursor.at) index u }
        ensures cursor { self.new.cursor ≡ behind_invocation self.old.cursor self.old.cursor.at }
        ensures course { IsCourse job.now self.new }
    {
        let names = job.checked().program().names.len();
        take_over(self.cursor.scalars(), names, &mut self.scalars);
        let epoch = epoch_of(plan, &self.cursor);
        let workers = plan.options.workers;
        for worker in 0..workers {
            let (from, to) = block_of(&epoch, index, worker, workers);
            let sign = &mut row.signs[usize::from(worker)];
            self.note_task(job, plan, to.saturating_sub(from), sign);
        }
        self.cursor.pass_all(job.checked());
    }

    // The iterations of a task: their claims are noted in its hull, and they are carried out.
    fn note_task<G: Signature>(&mut self, job: &Job, plan: &Plan, count: u64, sign: &mut G)
        requires plan { IsPlan job.now plan.now }
        requires course { IsCourse job.now self.old }
        requires scalars { AreTakenOver job.now.program self.old.cursor self.old.scalars }
        requires left { count ≤ left_at self.old.cursor.at }
        requires next { AreNext job.now self.old.cursor count }
        requires blank { sign.old ≡ G.nothing (sizes_in job.now) }
        requires sizes { G.sizes_of sign.old ≡ sizes_in job.now }
        ensures sign { sign.new ≡ with_iterations (sign_kind (sizes_in job.now) (signs G.EXACT G.holds G.nothing G.with_note)) (claims_due job.now) (words_due job.now) self.old.cursor.next count }
        ensures sizes { G.sizes_of sign.new ≡ sizes_in job.now }
        ensures cursor { self.new.cursor ≡ turned count self.old.cursor }
        ensures course { IsCourse job.now self.new }
        ensures scalars { AreTakenOver job.now.program self.new.cursor self.new.scalars }
    {
        for _ in 0..count {
            self.iterate(job, plan, sign);
        }
    }

    // The next iteration: its claims are noted, it is carried out, and the cursor goes behind it.
    fn iterate<G: Signature>(&mut self, job: &Job, plan: &Plan, sign: &mut G)
        requires plan { IsPlan job.now plan.now }
        requires course { IsCourse job.now self.old }
        requires scalars { AreTakenOver job.now.program self.old.cursor self.old.scalars }
        requires iterates { is_iterating self.old.cursor.at ≡ true }
        requires next { iteration_at (nest_in job.now) self.old.cursor.next ≡ Some (what_of job.now.program (handed_at self.old.cursor self.old.cursor.at)) }
        requires sizes { G.sizes_of sign.old ≡ sizes_in job.now }
        ensures sign { sign.new ≡ with_claims (sign_kind (sizes_in job.now) (signs G.EXACT G.holds G.nothing G.with_note)) (claims_due job.now self.old.cursor.next) (words_due job.now) sign.old }
        ensures sizes { G.sizes_of sign.new ≡ sizes_in job.now }
        ensures cursor { self.new.cursor ≡ turned_at self.old.cursor self.old.cursor.at }
        ensures course { IsCourse job.now self.new }
        ensures scalars { AreTakenOver job.now.program self.new.cursor self.new.scalars }
    {
        let body = self.cursor.iteration().body;
        claim(
            job,
            plan,
            &self.cursor,
            body,
            &mut self.scalars,
            &mut self.claims,
        );
        note_claims(&self.claims, job.checked().lengths(), sign);
        self.run(job, body);
        let _ = self.cursor.advance(job.checked(), job.words());
    }

    // Carries an iteration out on the words, where textual order gets there.
    fn run(&mut self, job: &Job, body: u32)
        requires course { IsCourse job.now self.old }
        requires given { AreGiven job.now.program self.old.cursor self.old.scalars }
        requires iterates { is_iterating self.old.cursor.at ≡ true }
        requires body { body ≡ (handed_at self.old.cursor self.old.cursor.at).body }
        requires next { iteration_at (nest_in job.now) self.old.cursor.next ≡ Some (what_of job.now.program (handed_at self.old.cursor self.old.cursor.at)) }
        ensures kept { self.new ≡ record self.old { words = self.new.words; is_reached = self.new.is_reached; scalars = self.new.scalars } }
        ensures layout { self.new.words.sizes ≡ self.old.words.sizes }
        ensures reached { reached (nest_in job.now) (suc self.old.cursor.next) ≡ words_told self.new }
        ensures given { AreGiven job.now.program self.new.cursor self.new.scalars }
    {
        if self.is_reached {
            self.is_reached = run_turn(
                job.checked(),
                body,
                &mut self.scalars,
                &mut self.words,
            ).is_ok();
        }
    }
}

// The invocation that was entered, as an epoch.
fn epoch_of(plan: &Plan, cursor: &Cursor) -> Epoch
    requires stands { (job : Nest) × IsPlan job plan.now × IsCursorOf job.program cursor.now }
    requires inside { is_inside cursor.now.at ≡ true }
    ensures trips { result.trips ≡ (entered_at cursor.now cursor.now.at).count }
    ensures few { result.trips ≤ most_trips }
    ensures all { (job : Nest) → IsPlan job plan.now → result.all ≡ is_do_all job.program (entered_at cursor.now cursor.now.at).body }
{
    let here = cursor.here();
    Epoch {
        body: here.body,
        first: cursor.next(),
        low: here.low,
        step: here.step,
        trips: here.trips,
        all: plan.shared[here.body as usize],
        env: cursor.env(),
    }
}

// Takes over the value of each scalar.
fn take_over(source: &Scalars, names: usize, target: &mut Scalars)
    requires few { names < 2 ^ 32 }
    requires source { length source.now ≡ names }
    requires target { length target.old ≡ names }
    ensures { target.new ≡ source.now }
{
    for name in 0..names as u32 {
        target.set(name, source.get(name));
    }
}

// The claims of the iteration that the cursor hands out, in place of those of the one before.
fn claim(
    job: &Job,
    plan: &Plan,
    cursor: &Cursor,
    body: u32,
    scalars: &mut Scalars,
    into: &mut Claims,
)
    requires plan { IsPlan job.now plan.now }
    requires cursor { IsCursorOf job.now.program cursor.now }
    requires iterates { is_iterating cursor.now.at ≡ true }
    requires body { body ≡ (handed_at cursor.now cursor.now.at).body }
    requires scalars { AreTakenOver job.now.program cursor.now scalars.old }
    requires names { length scalars.old ≡ length job.now.program.names }
    requires room { words_of into.old ≡ sum (sizes_in job.now) }
    ensures claims { into.new ≡ claims_of job.now.program job.now.opening.words (what_of job.now.program (handed_at cursor.now cursor.now.at)) }
    ensures room { words_of into.new ≡ sum (sizes_in job.now) }
    ensures given { AreGiven job.now.program cursor.now scalars.new }
{
    cursor.put_scalars(scalars);
    claims(&plan.split, job.checked(), body, scalars, job.words(), into);
}
