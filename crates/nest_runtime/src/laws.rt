ghost use Rattle.spec_core.specs.Signatures.{signs};
ghost use Rattle.nest_runtime.specs.Opened.{RunsEndAsJob};
ghost use Rattle.nest_runtime.specs.Jobs.{FactsAreDue};
ghost use Rattle.nest_runtime.specs.Speculation.{HistoriesSpeculate, RunsCommitTruly};

use range_sign::{ExactSign, RangeSign, Signature};

/// A law: the facts of a run by `domore` of a job that doesn't trap are those that are due, whatever its history: counts of
/// its events in textual order, and the waits of all its iterations.
pub fn facts_are_due()
    ensures { FactsAreDue }
{
    domore_core::histories_end_as_job();
}

/// A law: in a run by an engine that passes barriers speculatively each commit is true, segments are given up only for a
/// cause in the nest, and once at most, and the counts are those of the steps.
pub fn runs_commit_truly()
    ensures { RunsCommitTruly }
{
    histories_speculate::<ExactSign>();
    histories_speculate::<RangeSign>();
}

/// A run of a machine that was opened on a job comes to the outcome of textual order.
pub(crate) fn runs_end_as_job()
    ensures { RunsEndAsJob }
{
    domore_core::histories_end_as_job();
    histories_speculate::<ExactSign>();
    histories_speculate::<RangeSign>();
}

/// What is claimed of the engine that passes barriers speculatively, with a kind of signature.
fn histories_speculate<G: Signature>()
    ensures { HistoriesSpeculate (signs G.EXACT G.holds G.nothing G.with_note) }
{
    spec_core::histories_commit_truly::<G>();
    spec_core::histories_give_up_for_cause::<G>();
    spec_core::histories_give_up_once::<G>();
    spec_core::histories_give_up_for_trap::<G>();
    spec_core::histories_count_steps::<G>();
    spec_core::histories_end_as_job::<G>();
}
