//! The walk through the course of a job, segment by segment.
ghost use Rattle.std.specs.Prelude.{◌≡◌, ◌<◌, ◌≤◌, ◌++◌, ℕ, [], true, false, Option, Some, None, List, IfOk, IsSome, length, replicate, if◌then◌else◌, nat_lt};
ghost use Rattle.nest_syntax.specs.Among.{Each};
ghost use Rattle.nest_mean.specs.Nest.{Nest};
ghost use Rattle.settle_law.specs.Courses.{reached};
ghost use Rattle.sched_cursor.specs.Cursor.{Cursor as Scheduled};
ghost use Rattle.sched_cursor.specs.Events.{is_inside};
ghost use Rattle.sched_cursor.specs.Laws.{restarted};
ghost use Rattle.progress_board.specs.declared.options.Options.{Options};
ghost use Rattle.spec_machine.specs.Machine.{Epoch};
ghost use Rattle.spec_machine.specs.Segments.{cut_off, opens_at};
ghost use Rattle.spec_setup.specs.Setups.{Invoked};
ghost use Rattle.spec_core.specs.Signatures.{signs};
ghost use Rattle.spec_core.specs.Engine.{nest_in};
ghost use Rattle.nest_profile.specs.declared.row.Row.{Row as Held};
ghost use Rattle.nest_profile.specs.Hulls.{IsEven, IsTable, sign_in};
ghost use Rattle.nest_profile.specs.Nearest.{bound_by};
ghost use Rattle.nest_profile.specs.Walked.{IsPlan, HasLooked, StandsAt, HasEnded, comes, sizes_in};

use crate::course::Course;
use crate::nearest::nearest;
use crate::plan::Plan;
use crate::row::Row;
use nest_mean::Job;
use nest_syntax::NoMemory;
use range_sign::Signature;
use sched_cursor::Event;
use std::alloc::Global;

/// A walk: where it stands, the hulls of the tasks of the present segment, and the least distance that was found.
#[derive(Drop)]
pub(crate) struct Walk<G: Signature> {
    course: Course,
    /// A row for each epoch of a segment.
    rows: Vec<Row<G>>,
    /// How many epochs are gathered. The rows behind them have nothing noted.
    count: usize,
    best: Option<usize>,
}

impl<G: Signature> Walk<G> {
    /// Before the first event. All memory is taken here.
    pub(crate) fn open(alloc: Global, job: &Job, plan: &Plan) -> Result<Walk<G>, NoMemory>
        requires { IsPlan job.now plan.now }
        ensures { IfOk result (λ walk. StandsAt (signs G.EXACT G.holds G.nothing G.with_note) job.now plan.now.options (restarted job.now.program walk.course.cursor) G.sizes_of walk) }
    {
        Ok(Walk {
            course: Course::open(alloc, job)?,
            rows: open_rows(alloc, job, plan)?,
            count: 0,
            best: None,
        })
    }

    /// Goes on by one event. False comes where the walk ends.
    pub(crate) fn step(&mut self, job: &Job, plan: &Plan) -> bool
        requires plan { IsPlan job.now plan.now }
        requires stands { (start : Scheduled) × StandsAt (signs G.EXACT G.holds G.nothing G.with_note) job.now plan.now.options start G.sizes_of self.old }
        ensures goes { result ≡ true → (start : Scheduled) → StandsAt (signs G.EXACT G.holds G.nothing G.with_note) job.now plan.now.options start G.sizes_of self.old → StandsAt (signs G.EXACT G.holds G.nothing G.with_note) job.now plan.now.options start G.sizes_of self.new }
        ensures falls { result ≡ true → length (comes (signs G.EXACT G.holds G.nothing G.with_note) job.now plan.now.options self.new.course.cursor) < length (comes (signs G.EXACT G.holds G.nothing G.with_note) job.now plan.now.options self.old.course.cursor) }
        ensures ends { result ≡ false → (start : Scheduled) → StandsAt (signs G.EXACT G.holds G.nothing G.with_note) job.now plan.now.options start G.sizes_of self.old → HasEnded (signs G.EXACT G.holds G.nothing G.with_note) job.now plan.now.options start G.sizes_of self.new }
    {
        match self.course.cursor.peek() {
            Event::Scalar => self.course.scalar(job),
            Event::Drain => {
                self.cut();
                self.course.drain(job)
            }
            Event::Iterate | Event::Close => self.invoke(job, plan),
            Event::End => false,
        }
    }

    // Gathers the invocation that was entered. False comes where it is the first of a segment that textual order doesn't
    // reach.
    fn invoke(&mut self, job: &Job, plan: &Plan) -> bool
        requires plan { IsPlan job.now plan.now }
        requires stands { (start : Scheduled) × StandsAt (signs G.EXACT G.holds G.nothing G.with_note) job.now plan.now.options start G.sizes_of self.old }
        requires inside { is_inside self.old.course.cursor.at ≡ true }
        ensures goes { result ≡ true → (start : Scheduled) → StandsAt (signs G.EXACT G.holds G.nothing G.with_note) job.now plan.now.options start G.sizes_of self.old → StandsAt (signs G.EXACT G.holds G.nothing G.with_note) job.now plan.now.options start G.sizes_of self.new }
        ensures falls { result ≡ true → length (comes (signs G.EXACT G.holds G.nothing G.with_note) job.now plan.now.options self.new.course.cursor) < length (comes (signs G.EXACT G.holds G.nothing G.with_note) job.now plan.now.options self.old.course.cursor) }
        ensures ends { result ≡ false → (start : Scheduled) → StandsAt (signs G.EXACT G.holds G.nothing G.with_note) job.now plan.now.options start G.sizes_of self.old → HasEnded (signs G.EXACT G.holds G.nothing G.with_note) job.now plan.now.options start G.sizes_of self.new }
    {
        let has_room = self.make_room(plan);
        if has_room {
            self.gather(job, plan);
        }
        has_room
    }

    // Looks at the segment where it is full, and begins another one. False comes where textual order doesn't get there.
    fn make_room(&mut self, plan: &Plan) -> bool
        requires some { 0 < plan.now.options.segment }
        requires even { (sizes : List ℕ) × Each (IsEven G.sizes_of sizes) self.old.rows.items }
        requires inside { self.old.count ≤ length self.old.rows.items }
        ensures course { self.new.course ≡ self.old.course }
        ensures goes { result ≡ true → (job : Nest) (start : Scheduled) → StandsAt (signs G.EXACT G.holds G.nothing G.with_note) job plan.now.options start G.sizes_of self.old → StandsAt (signs G.EXACT G.holds G.nothing G.with_note) job plan.now.options start G.sizes_of self.new × (self.new.count < plan.now.options.segment) }
        ensures ends { result ≡ false → (job : Nest) (start : Scheduled) → StandsAt (signs G.EXACT G.holds G.nothing G.with_note) job plan.now.options start G.sizes_of self.old → HasEnded (signs G.EXACT G.holds G.nothing G.with_note) job plan.now.options start G.sizes_of self.new }
    {
        if self.count < usize::from(plan.options.segment) {
            return true;
        }
        self.cut();
        self.course.is_reached
    }

    // Puts the hulls of the invocation that was entered into a row, and goes behind it.
    fn gather(&mut self, job: &Job, plan: &Plan)
        requires plan { IsPlan job.now plan.now }
        requires stands { (start : Scheduled) × StandsAt (signs G.EXACT G.holds G.nothing G.with_note) job.now plan.now.options start G.sizes_of self.old }
        requires inside { is_inside self.old.course.cursor.at ≡ true }
        requires room { self.old.count < plan.now.options.segment }
        ensures goes { (start : Scheduled) → StandsAt (signs G.EXACT G.holds G.nothing G.with_note) job.now plan.now.options start G.sizes_of self.old → StandsAt (signs G.EXACT G.holds G.nothing G.with_note) job.now plan.now.options start G.sizes_of self.new }
        ensures falls { length (comes (signs G.EXACT G.holds G.nothing G.with_note) job.now plan.now.options self.new.course.cursor) < length (comes (signs G.EXACT G.holds G.nothing G.with_note) job.now plan.now.options self.old.course.cursor) }
    {
        let index = self.count;
        self.course
            .cross(job, plan, index as u32, &mut self.rows[index]);
        self.count = index + 1;
    }

    /// Looks at the segment that is gathered, and begins another one.
    pub(crate) fn cut(&mut self)
        requires even { (sizes : List ℕ) × Each (IsEven G.sizes_of sizes) self.old.rows.items }
        requires inside { self.old.count ≤ length self.old.rows.items }
        ensures course { self.new.course ≡ self.old.course }
        ensures looked { (job : Nest) (options : Options) (start : Scheduled) (looked : List (List (Epoch Invoked))) (gathered : List (Epoch Invoked)) → (0 < length gathered → IsSome (reached (nest_in job) (opens_at gathered 0)))
            → HasLooked (signs G.EXACT G.holds G.nothing G.with_note) job options start G.sizes_of self.old.rows.items self.old.count self.old.best looked gathered
            → HasLooked (signs G.EXACT G.holds G.nothing G.with_note) job options start G.sizes_of self.new.rows.items self.new.count self.new.best (looked ++ cut_off gathered) [] }
    {
        let bound = bound_by(self.best, self.count);
        let found = nearest(self.rows.as_slice(), self.count, bound);
        self.best = found.or(self.best);
        clear_first(&mut self.rows, self.count);
        self.count = 0;
    }

    /// The least distance in the segments that were looked at.
    pub(crate) fn least(&self) -> Option<u64>
        ensures { result ≡ self.now.best }
    {
        self.best.map(|least| least as u64)
    }
}

// The bound below which a distance is looked for: the least one so far, or the number of epochs where that is less. Two
// epochs are always nearer than there are epochs.
fn bound_by(best: Option<usize>, count: usize) -> usize
    ensures { result ≡ bound_by best count }
{
    match best {
        None => count,
        Some(best) => best.min(count),
    }
}

// A row for each epoch of a segment.
fn open_rows<G: Signature>(alloc: Global, job: &Job, plan: &Plan) -> Result<Vec<Row<G>>, NoMemory>
    requires { IsPlan job.now plan.now }
    ensures many { IfOk result (λ rows. length rows.items ≡ plan.now.options.segment) }
    ensures blank { IfOk result (λ rows. Each (λ (row : Held G). row.signs.items ≡ replicate plan.now.options.workers (G.nothing (sizes_in job.now))) rows.items) }
{
    let epochs = usize::from(plan.options.segment);
    let mut rows = Vec::with_capacity(alloc, epochs)?;
    'epochs: while rows.len() < epochs {
        rows.push(Row::open(alloc, job.checked().lengths(), plan.options.workers)?)?;
    }
    Ok(rows)
}

// Forgets the hulls of the first rows.
fn clear_first<G: Signature>(rows: &mut Vec<Row<G>>, count: usize)
    requires inside { count ≤ length rows.old.items }
    ensures table { (sizes : List ℕ) (room width : ℕ) → IsTable G.sizes_of sizes room width rows.old.items → IsTable G.sizes_of sizes room width rows.new.items }
    ensures cleared { (sizes : List ℕ) (room width : ℕ) → IsTable G.sizes_of sizes room width rows.old.items → (e u : ℕ) → sign_in (G.nothing sizes) rows.new.items e u ≡ (if nat_lt e count then G.nothing sizes else sign_in (G.nothing sizes) rows.old.items e u) }
{
    'epochs: for epoch in 0..count {
        rows[epoch].clear();
    }
}
