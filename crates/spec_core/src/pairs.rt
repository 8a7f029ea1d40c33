//! The pairs of tasks that the checker compares.
ghost use Rattle.std.specs.Prelude.{◌≡◌, ◌<◌, ◌≤◌, ◌*◌, suc, not, None, Some, List, ℕ, map, take, length};
ghost use Rattle.std.specs.Option.{option_map};
ghost use Rattle.std.specs.List.{list_any};
ghost use Rattle.nest_syntax.specs.Among.{Each};
ghost use Rattle.spec_machine.specs.Facts.{Pair};
ghost use Rattle.spec_machine.specs.Machine as machine;
ghost use Rattle.spec_core.specs.Signatures.{signs};
ghost use Rattle.spec_core.specs.Hands.{Bench, bench_at};
ghost use Rattle.spec_core.specs.Passed.{pair_in};
ghost use Rattle.spec_core.specs.Engine.{check_made};
ghost use Rattle.spec_core.specs.Tables.{state_of, setup_by, sizes_by, IsPlan, IsSound, GoesOn};

use crate::plan::Plan;
use crate::table::Table;
use nest_syntax::TaskName;
use progress_board::{Made, RollCause, Row};
use range_sign::Signature;

impl<G: Signature> Table<G> {
    /// How many tasks each worker has finished, in 8 places.
    pub(crate) fn finished(&self) -> [u32; 8]
        requires { length self.now.seats.items ≤ 8 }
        ensures { take (length self.now.seats.items) result ≡ map (λ (b : Bench G). b.done) self.now.seats.items }
    {
        let mut finished = [0; 8];
        'workers: for worker in 0..self.seats.len() {
            finished[worker] = self.seats[worker].done();
        }
        finished
    }

    /// The pair due, the early task first.
    pub(crate) fn due(&self, plan: &Plan) -> Option<(TaskName, TaskName)>
        requires plan { IsPlan plan.now }
        requires sound { IsSound G.sizes_of plan.now self.now }
        requires goes { GoesOn (setup_by (signs G.EXACT G.holds G.nothing G.with_note) plan.now) (sizes_by plan.now) (state_of self.now) }
        requires calm { self.now.abort ≡ None }
        ensures { option_map pair_in result ≡ machine.due plan.now.options.workers (state_of self.now) }
    {
        self.checker.next(&self.finished(), plan.options.workers, self.seen.as_slice())
    }

    /// Whether each unordered pair of so many epochs is passed, where all tasks of these are finished.
    pub(crate) fn are_all_passed(&self, plan: &Plan, epochs: u32) -> bool
        requires plan { IsPlan plan.now }
        requires sound { IsSound G.sizes_of plan.now self.now }
        requires goes { GoesOn (setup_by (signs G.EXACT G.holds G.nothing G.with_note) plan.now) (sizes_by plan.now) (state_of self.now) }
        requires calm { self.now.abort ≡ None }
        requires open { epochs ≡ length self.now.desk.epochs }
        requires finished { Each (λ (b : Bench G). b.done ≡ epochs) self.now.seats.items }
        ensures { result ≡ not (list_any (machine.is_open (state_of self.now).seats (state_of self.now).passed) (machine.pairs plan.now.options.workers (length self.now.desk.epochs))) }
    {
        self.checker
            .all_passed(epochs, plan.options.workers, self.seen.as_slice())
    }

    /// The first array in which the signatures of a pair overlap.
    fn overlap(&self, plan: &Plan, early: TaskName, late: TaskName) -> Option<u32>
        requires sound { IsSound G.sizes_of plan.now self.now }
        requires early { early.worker < length self.now.seats.items }
        requires late { late.worker < length self.now.seats.items }
        requires begun { early.epoch < (bench_at self.now.seats.items early.worker).begun }
        requires begun_too { late.epoch < (bench_at self.now.seats.items late.worker).begun }
        ensures { result ≡ machine.overlap_of (setup_by (signs G.EXACT G.holds G.nothing G.with_note) plan.now) (state_of self.now).seats (pair_in (early, late)) }
    {
        let _ = plan;
        self.seats[early.worker as usize]
            .sign(early.epoch)
            .overlap(self.seats[late.worker as usize].sign(late.epoch))
    }

    /// What the checker's step makes.
    pub(crate) fn made_by_check(&self, plan: &Plan) -> Made
        requires plan { IsPlan plan.now }
        requires sound { IsSound G.sizes_of plan.now self.now }
        requires goes { GoesOn (setup_by (signs G.EXACT G.holds G.nothing G.with_note) plan.now) (sizes_by plan.now) (state_of self.now) }
        requires calm { self.now.abort ≡ None }
        ensures { (p : Pair) → machine.due plan.now.options.workers (state_of self.now) ≡ Some p → result ≡ check_made p (machine.overlap_of (setup_by (signs G.EXACT G.holds G.nothing G.with_note) plan.now) (state_of self.now).seats p) }
    {
        let Some((early, late)) = self.due(plan) else {
            return Made {
                row: Row::Check,
                number: 0,
            };
        };
        let row = match self.overlap(plan, early, late) {
            None => Row::Check,
            Some(_) => Row::Abort,
        };
        Made {
            row,
            number: u64::from(late.epoch),
        }
    }

    /// Compares the signatures of the pair due: it is passed, or the segment is given up.
    pub(crate) fn check(&mut self, plan: &Plan)
        requires plan { IsPlan plan.now }
        requires sound { IsSound G.sizes_of plan.now self.old }
        requires goes { GoesOn (setup_by (signs G.EXACT G.holds G.nothing G.with_note) plan.now) (sizes_by plan.now) (state_of self.old) }
        requires calm { self.old.abort ≡ None }
        ensures passes { (p : Pair) → machine.due plan.now.options.workers (state_of self.old) ≡ Some p → machine.overlap_of (setup_by (signs G.EXACT G.holds G.nothing G.with_note) plan.now) (state_of self.old).seats p ≡ None
            → state_of self.new ≡ machine.state_after (setup_by (signs G.EXACT G.holds G.nothing G.with_note) plan.now) (state_of self.old) (suc plan.now.options.workers) (machine.DoCheck p) }
        ensures gives_up { (p : Pair) (array : ℕ) → machine.due plan.now.options.workers (state_of self.old) ≡ Some p → machine.overlap_of (setup_by (signs G.EXACT G.holds G.nothing G.with_note) plan.now) (state_of self.old).seats p ≡ Some array
            → state_of self.new ≡ machine.state_after (setup_by (signs G.EXACT G.holds G.nothing G.with_note) plan.now) (state_of self.old) (suc plan.now.options.workers) (machine.DoAbort p array) }
        ensures sound { IsSound G.sizes_of plan.now self.new }
    {
        let Some((early, late)) = self.due(plan) else {
            return;
        };
        self.desk.tally.check();
        match self.overlap(plan, early, late) {
            None => self.checker.pass(early, late),
            Some(array) => self.abort = Some(RollCause::Overlap { early, late, array }),
        }
    }
}
