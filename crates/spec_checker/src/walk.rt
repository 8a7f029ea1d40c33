ghost use Rattle.std.specs.Prelude.{◌≡◌, ◌≤◌, ◌<◌, ◌+◌, ◌*◌, ◌↔◌, ℕ, true, false, None, Some, IsTrue, MatchOption, IfNone, length, slice_index};
ghost use Rattle.nest_syntax.specs.declared.names.TaskName.{TaskName};
ghost use Rattle.epoch_plan.specs.Blocks.{most_workers};
ghost use Rattle.epoch_plan.specs.Tasks.{is_unordered, saw};
ghost use Rattle.spec_checker.specs.Order.{Pair, is_before, is_passed};
ghost use Rattle.spec_checker.specs.Due.{HasEntries, seen_by, is_open_with, NoneOpenWith, IsFirstOpenWith, IsDue, NoneIsOpen, AllPassed};

use crate::order::{is_before, is_reached};
use epoch_plan::{Seen, unordered};
use nest_syntax::TaskName;
use std::marker::Model;

/// Goes over the pairs of an early and a late task, in order of the late task and then the early one. A pair counts as
/// passed where it stands at or before the last one that was handed to `pass`. No call takes memory.
#[derive(Debug, Drop)]
pub struct Checker {
    last: Option<(TaskName, TaskName)>,
}

impl Model for Checker {
    ghost use Rattle.std.specs.Prelude.{Option};
    ghost use Rattle.spec_checker.specs.Order.{Pair};

    ghost Value = { Option Pair };

    ghost view = { λ c. c.last };
}

impl Checker {
    /// No pair is passed.
    pub fn new() -> Checker
        ensures { result ≡ None }
    {
        Checker { last: None }
    }

    /// Forgets all pairs that were passed.
    pub fn clear(&mut self)
        ensures { self.new ≡ None }
    {
        self.last = None;
    }

    /// Takes the pair due as passed, and so all before it.
    pub fn pass(&mut self, early: TaskName, late: TaskName)
        requires { is_passed self.old (early, late) ≡ false }
        ensures { self.new ≡ Some (early, late) }
    {
        self.last = Some((early, late));
    }

    fn is_passed(&self, early: TaskName, late: TaskName) -> bool
        ensures { result ≡ is_passed self.now (early, late) }
    {
        match self.last {
            None => false,
            Some((last_early, last_late)) => {
                !is_before(last_late, late) && (late != last_late || !is_before(last_early, early))
            }
        }
    }

    /// An epoch before which each late task has only pairs that are passed.
    fn first_late_epoch(&self) -> u32
        ensures { (pair : Pair) → pair.1.epoch < result → is_passed self.now pair ≡ true }
    {
        match self.last {
            None => 0,
            Some((_, late)) => late.epoch,
        }
    }

    /// An epoch before which each early task's pair with `late` is passed.
    fn first_early_epoch(&self, late: TaskName) -> u32
        ensures { (early : TaskName) → early.epoch < late.epoch → early.epoch < result → is_passed self.now (early, late) ≡ true }
    {
        match self.last {
            Some((_, last_late)) if is_before(late, last_late) => late.epoch,
            Some((last_early, last_late)) if late == last_late => last_early.epoch,
            _ => 0,
        }
    }

    /// Whether a pair is unordered and isn't passed, where its late task saw `seen`.
    fn is_open(&self, seen: &Seen, early: TaskName, late: TaskName) -> bool
        requires { early.worker < most_workers }
        ensures { result ≡ is_open_with self.now seen.now late early }
    {
        unordered(seen, early, late) && !self.is_passed(early, late)
    }

    /// The first early task whose pair with `late` is unordered and isn't passed.
    fn first_open(&self, seen: &Seen, late: TaskName, workers: u8) -> Option<TaskName>
        requires { workers ≤ most_workers }
        ensures { MatchOption result (NoneOpenWith self.now seen.now workers late) (λ early. IsFirstOpenWith self.now seen.now workers late early) }
    {
        let start = self.first_early_epoch(late).max(least_seen(seen, workers));
        for epoch in start..late.epoch {
            for worker in 0..workers {
                let early = TaskName { epoch, worker };
                if self.is_open(seen, early, late) {
                    return Some(early);
                }
            }
        }
        None
    }

    /// The pair due, the early task first: the first unordered pair that isn't passed, where its late task and every
    /// task before that one are finished. None comes exactly where there is no such pair. `finished` has for each of 1
    /// to 8 workers how many epochs of the segment it has finished. `seen` has what a task saw as it began, at
    /// `epoch * workers + worker`, for each finished task. Costs the pairs that it looks at: those from the
    /// last one passed on, but none whose early epoch all workers had finished when the late task began.
    pub fn next(
        &self,
        finished: &[u32; 8],
        workers: u8,
        seen: &[Seen],
    ) -> Option<(TaskName, TaskName)>
        requires some { 0 < workers }
        requires workers { workers ≤ most_workers }
        requires entries { HasEntries finished.now workers seen.now }
        ensures { MatchOption result (NoneIsOpen self.now finished.now workers seen.now) (λ pair. IsDue self.now finished.now workers seen.now pair) }
    {
        for epoch in self.first_late_epoch()..finished[0] {
            for worker in 0..workers {
                let late = TaskName { epoch, worker };
                if !is_reached(finished, workers, late) {
                    return None;
                }
                if let Some(early) = self.first_open(seen_by(seen, workers, late), late, workers) {
                    return Some((early, late));
                }
            }
        }
        None
    }

    /// Whether each unordered pair of tasks of the first `epochs` epochs is passed, where all of these are finished.
    pub fn all_passed(&self, epochs: u32, workers: u8, seen: &[Seen]) -> bool
        requires some { 0 < workers }
        requires workers { workers ≤ most_workers }
        requires entries { epochs * workers ≤ length seen.now }
        ensures { IsTrue result ↔ AllPassed self.now epochs workers seen.now }
    {
        self.next(&[epochs; 8], workers, seen).is_none()
    }
}

/// The least number that a task saw of a worker: its pairs with tasks of lower epochs are ordered.
fn least_seen(seen: &Seen, workers: u8) -> u32
    requires { workers ≤ most_workers }
    ensures { (worker : ℕ) → worker < workers → result ≤ saw seen.now worker }
{
    let mut least = u32::MAX;
    for worker in 0..workers {
        least = least.min(seen.0[worker as usize]);
    }
    least
}

/// What a task saw.
fn seen_by(seen: &[Seen], workers: u8, task: TaskName) -> &Seen
    requires { task.epoch * workers + task.worker < length seen.now }
    ensures { result.now ≡ seen_by seen.now workers task }
{
    &seen[task.epoch as usize * workers as usize + task.worker as usize]
}
