ghost use Rattle.std.specs.Prelude.{◌≡◌, ◌<◌, ◌+◌, ◌≤◌, ◌^◌, suc, length, slice_set, Some};
ghost use Rattle.nest_syntax.specs.Course.{Header};
ghost use Rattle.spec_machine.specs.Facts.{no_facts, computed, drained, opened, committed, checked, restored};
ghost use Rattle.spec_core.specs.Reports.{report_of, abort_in};

use progress_board::{Facts, Options, RollCause, Rollback};
use std::marker::Model;

/// The counts of a run, as its report.
#[derive(Drop)]
pub(crate) struct Tally {
    report: Facts,
}

impl Model for Tally {
    ghost use Rattle.spec_core.specs.Tallies.{Tallied, tallied, IsTallied};

    ghost Value = { Tallied };

    ghost view = { λ t. tallied t.report };

    ghost invariant = { λ t. IsTallied t.report (tallied t.report) };
}

impl Tally {
    pub(crate) fn open(options: Options) -> Tally
        ensures { result ≡ record { options = options; facts = no_facts } }
    {
        Tally {
            report: Facts {
                options,
                invocations: 0,
                iterations: 0,
                drains: 0,
                waits: 0,
                crossing: 0,
                first_waits: [None; 64],
                segments: 0,
                checks: 0,
                rollbacks: 0,
                first_rollbacks: [None; 64],
            },
        }
    }

    pub(crate) fn report(&self) -> &Facts
        ensures { result.now ≡ report_of self.now.options self.now.facts }
    {
        &self.report
    }

    /// An invocation is entered.
    pub(crate) fn enter(&mut self)
        requires { self.old.facts.invocations < 2 ^ 63 }
        ensures { self.new ≡ record self.old { facts = computed Header self.old.facts } }
    {
        self.report.invocations += 1;
    }

    /// A drain is carried out. The count stays at 2^64 - 1 once it is there.
    pub(crate) fn drain(&mut self)
        ensures { self.new ≡ record self.old { facts = drained self.old.facts } }
    {
        self.report.drains = self.report.drains.saturating_add(1);
    }

    /// An epoch with so many iterations is opened.
    pub(crate) fn open_epoch(&mut self, iterations: u64)
        requires { self.old.facts.iterations + iterations < 2 ^ 63 }
        ensures { self.new ≡ record self.old { facts = opened iterations self.old.facts } }
    {
        self.report.iterations += iterations;
    }

    /// A segment is committed.
    pub(crate) fn commit(&mut self)
        requires { self.old.facts.segments < 2 ^ 63 }
        ensures { self.new ≡ record self.old { facts = committed self.old.facts } }
    {
        self.report.segments += 1;
    }

    /// A pair is compared.
    pub(crate) fn check(&mut self)
        requires { self.old.facts.checks < 2 ^ 63 }
        ensures { self.new ≡ record self.old { facts = checked self.old.facts } }
    {
        self.report.checks += 1;
    }

    /// A segment is restored, for this cause.
    pub(crate) fn restore(&mut self, cause: RollCause)
        requires { self.old.facts.rollbacks < 2 ^ 63 }
        ensures { self.new ≡ record self.old { facts = restored (abort_in cause) self.old.facts } }
    {
        let rollback = Rollback {
            segment: self.report.segments,
            cause,
        };
        list_at(
            &mut self.report.first_rollbacks,
            self.report.rollbacks,
            rollback,
        );
        self.report.rollbacks += 1;
    }
}

// Puts a rollback into its place, where it has one.
fn list_at(places: &mut [Option<Rollback>], at: u64, rollback: Rollback)
    requires { length places.old ≤ 64 }
    ensures { places.new ≡ slice_set places.old at (Some rollback) }
{
    if at < places.len() as u64 {
        places[at as usize] = Some(rollback);
    }
}
