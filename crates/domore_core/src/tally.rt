ghost use Rattle.std.specs.Prelude.{◌≡◌, ◌&&◌, ◌<◌, ◌+◌, ◌≤◌, ◌^◌, suc, length, slice_set, Some, if◌then◌else◌};
ghost use Rattle.nest_syntax.specs.Course.{Header};
ghost use Rattle.domore_machine.specs.Facts.{no_facts, computed, drained, iterated};
ghost use Rattle.domore_core.specs.Reports.{report_of};
ghost use Rattle.domore_core.specs.Tallies.{with_wait};

use crate::wait::Wait;
use progress_board::{Facts, Options};
use std::marker::Model;

/// The counts of a run: its report, and the number of the first iteration of the present invocation.
#[derive(Drop)]
pub(crate) struct Tally {
    report: Facts,
    first: u64,
}

impl Model for Tally {
    ghost use Rattle.domore_core.specs.Tallies.{Tallied, tallied, IsTallied};

    ghost Value = { Tallied };

    ghost view = { λ t. tallied t.report t.first };

    ghost invariant = { λ t. IsTallied t.report (tallied t.report t.first) };
}

impl Tally {
    pub(crate) fn open(options: Options) -> Tally
        ensures { result ≡ record { options = options; facts = no_facts } }
    {
        Tally {
            report: Facts {
                options,
                invocations: 0,
                iterations: 0,
                drains: 0,
                waits: 0,
                crossing: 0,
                first_waits: [None; 64],
                segments: 0,
                checks: 0,
                rollbacks: 0,
                first_rollbacks: [None; 64],
            },
            first: 0,
        }
    }

    pub(crate) fn report(&self) -> &Facts
        ensures { result.now ≡ report_of self.now.options self.now.facts }
    {
        &self.report
    }

    /// An invocation begins, with iteration `next`.
    pub(crate) fn begin(&mut self, next: u64)
        requires { self.old.facts.invocations < 2 ^ 63 }
        ensures { self.new ≡ record self.old { facts = computed next Header self.old.facts } }
    {
        self.report.invocations += 1;
        self.first = next;
    }

    /// An invocation begins where an event was carried out, and behind it the scheduler stands in one.
    pub(crate) fn begin_if(&mut self, is_carried_out: bool, stands_inside: bool, next: u64)
        requires { self.old.facts.invocations < 2 ^ 63 }
        ensures { self.new ≡ (if is_carried_out && stands_inside then record self.old { facts = computed next Header self.old.facts } else self.old) }
    {
        if is_carried_out && stands_inside {
            self.begin(next);
        }
    }

    /// A drain is carried out. The count stays at 2^64 - 1 once it is there.
    pub(crate) fn drain(&mut self)
        ensures { self.new ≡ record self.old { facts = drained self.old.facts } }
    {
        self.report.drains = self.report.drains.saturating_add(1);
    }

    /// The iteration with this number is handed out with these waits.
    pub(crate) fn hand_out(&mut self, number: u64, waits: &[Wait])
        requires few { length waits.now ≤ 8 }
        requires iterations { self.old.facts.iterations < 2 ^ 63 }
        requires waits { self.old.facts.waits < 2 ^ 63 }
        requires crossing { self.old.facts.crossing < 2 ^ 63 }
        ensures { self.new ≡ record self.old { facts = iterated number waits.now self.old.facts } }
    {
        for wait in waits {
            self.note(number, *wait);
        }
        self.report.iterations += 1;
    }

    // One wait more of an iteration.
    fn note(&mut self, number: u64, wait: Wait)
        requires waits { self.old.facts.waits < 2 ^ 63 + 8 }
        requires crossing { self.old.facts.crossing < 2 ^ 63 + 8 }
        ensures { self.new ≡ record self.old { facts = with_wait number self.old.facts wait } }
    {
        let crossing = wait.number < self.first;
        list_at(
            &mut self.report.first_waits,
            self.report.waits,
            progress_board::Wait {
                number,
                on: wait.number,
                crossing,
            },
        );
        self.report.waits += 1;
        self.report.crossing += count_if(crossing);
    }
}

// Puts a wait into its place, where it has one.
fn list_at(places: &mut [Option<progress_board::Wait>], at: u64, wait: progress_board::Wait)
    requires { length places.old ≤ 64 }
    ensures { places.new ≡ slice_set places.old at (Some wait) }
{
    if at < places.len() as u64 {
        places[at as usize] = Some(wait);
    }
}

fn count_if(counts: bool) -> u64
    ensures { result ≡ (if counts then 1 else 0) }
{
    if counts { 1 } else { 0 }
}
