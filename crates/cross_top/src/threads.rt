ghost use Rattle.std.specs.Prelude.{◌≡◌, ◌≢◌, ◌≤◌, true, false, ℕ, Some, Err, IsErrOf, IfOk, length, map, string_bytes};
ghost use Rattle.nest_io.specs.declared.transfer.TheConstants.{MOST_BYTES};
ghost use Rattle.nest_io.specs.Count.{HasRisen};
ghost use Rattle.cross_words.specs.declared.call.Call.{Call as Asked};
ghost use Rattle.cross_top.specs.Answers.{AnswersInput, AnswersProgram, AnswersData, AnswersThreads};
ghost use Rattle.cross_top.specs.Words.{AskToRead};
ghost use Rattle.cross_top.specs.Ends.{IsAnsweredFrom, EndsWith};
ghost use Rattle.cross_top.specs.Threads.{AskToRun, IsThreaded, MainEnds};

use crate::alone::told;
use crate::answers::{Reply, refusal, refused};
use crate::status::{Ended, Status};
use crate::top::{Unanswered, cross_quiet, ended_early, or_no_memory, write};
use crate::words::asked_to_run;
use cross_crew::Gate;
use cross_words::Call;
use nest_check::Checked;
use nest_input::{InputRefused, read_nest, read_words};
use nest_io::{Sink, Source, TakeFault, take_all};
use nest_mean::Job;
use nest_runtime::run_job;
use nest_syntax::NoMemory;
use std::alloc::Global;
use std::sync::Wait;
use std::thread::Threads;

/// The top call of a program that may wait: it has `run`, whose actors have a thread each, and does all else as
/// `cross_quiet` does. The gate is called behind each step of a thread. Nothing says that the call returns.
pub fn cross_main<R: Threads + Wait + Sync, S: Source, K: Sink, G: Gate>(
    rt: &R,
    alloc: Global,
    words: &[String],
    source: &mut S,
    sink: &mut K,
    gate: &G,
) -> Ended
    requires { S.is_ended source.old ≡ false }

    ensures ends { MainEnds (map string_bytes words.now) (record { old = S.left source.old; new = S.left source.new; ended = S.is_ended source.new }) (K.written sink.old) (K.written sink.new) (K.has_room sink.old) result.status result.history.items }

    // Where the words ask for nothing that reads, the source is as it was, however the call ends.
    ensures untouched { (AskToRead (map string_bytes words.now) → ⊥) → ((call : Asked) → AskToRun (map string_bytes words.now) (Some call) → ⊥) → source.new ≡ source.old }

    // A fault is told only where a count rose, and where none is told the counts are as they were.
    ensures read_fault { result.status ≡ Status.ReadFault → HasRisen (S.faults source.old) (S.faults source.new) }
    ensures write_fault { result.status ≡ Status.WriteFault → HasRisen (K.faults sink.old) (K.faults sink.new) }
    ensures no_read_fault { result.status ≢ Status.ReadFault → S.faults source.new ≡ S.faults source.old }
    ensures no_write_fault { result.status ≢ Status.WriteFault → K.faults sink.new ≡ K.faults sink.old }
    ensures sure { S.never_fails source.old → result.status ≢ Status.ReadFault }
{
    match asked_to_run(alloc, words) {
        Ok(Some(call)) => cross_threads(rt, alloc, &call, source, sink, gate),
        Ok(None) => cross_quiet(alloc, words, source, sink),
        Err(NoMemory) => ended_early(alloc, Status::NoMemory),
    }
}

/// Does what a call asks for that is run by threads.
fn cross_threads<R: Threads + Wait + Sync, S: Source, K: Sink, G: Gate>(
    rt: &R,
    alloc: Global,
    call: &Call,
    source: &mut S,
    sink: &mut K,
    gate: &G,
) -> Ended
    requires going { S.is_ended source.old ≡ false }
    requires threaded { IsThreaded call.now }

    ensures ends { EndsWith (IsAnsweredFrom call.now (record { old = S.left source.old; new = S.left source.new; ended = S.is_ended source.new })) (Unit {0}) (K.written sink.old) (K.written sink.new) (K.has_room sink.old) result.status result.history.items }
    ensures read_fault { result.status ≡ Status.ReadFault → HasRisen (S.faults source.old) (S.faults source.new) }
    ensures write_fault { result.status ≡ Status.WriteFault → HasRisen (K.faults sink.old) (K.faults sink.new) }
    ensures no_read_fault { result.status ≢ Status.ReadFault → S.faults source.new ≡ S.faults source.old }
    ensures no_write_fault { result.status ≢ Status.WriteFault → K.faults sink.new ≡ K.faults sink.old }
    ensures sure { S.never_fails source.old → result.status ≢ Status.ReadFault }
{
    match run_source(rt, alloc, call, source, gate) {
        Ok(reply) => {
            let status = write(&reply, sink);
            let Reply { history, .. } = reply;
            Ended { status, history }
        }
        Err(Unanswered::Read) => ended_early(alloc, Status::ReadFault),
        Err(Unanswered::NoMemory) => ended_early(alloc, Status::NoMemory),
    }
}

/// What is due to the call from the bytes of the source.
fn run_source<R: Threads + Wait + Sync, S: Source, G: Gate>(
    rt: &R,
    alloc: Global,
    call: &Call,
    source: &mut S,
    gate: &G,
) -> Result<Reply, Unanswered>
    requires going { S.is_ended source.old ≡ false }
    requires threaded { IsThreaded call.now }

    ensures due { IfOk result (λ reply. IsAnsweredFrom call.now (record { old = S.left source.old; new = S.left source.new; ended = S.is_ended source.new }) reply) }
    ensures read_fault { IsErrOf result Unanswered.Read → HasRisen (S.faults source.old) (S.faults source.new) }
    ensures no_read_fault { result ≢ Err Unanswered.Read → S.faults source.new ≡ S.faults source.old }
    ensures sure { S.never_fails source.old → result ≢ Err Unanswered.Read }
{
    match take_all(alloc, source) {
        Ok(input) => or_no_memory(run_input(rt, alloc, call, input.as_slice(), gate)),
        Err(TakeFault::TooLong) => or_no_memory(refusal(alloc, Status::TextRefused, b"too long")),
        Err(TakeFault::Read) => Err(Unanswered::Read),
        Err(TakeFault::NoMemory) => Err(Unanswered::NoMemory),
    }
}

/// What it answers to an input.
fn run_input<R: Threads + Wait + Sync, G: Gate>(
    rt: &R,
    alloc: Global,
    call: &Call,
    input: &[u8],
    gate: &G,
) -> Result<Reply, NoMemory>
    requires few { length input.now ≤ MOST_BYTES }
    requires threaded { IsThreaded call.now }
    ensures { IfOk result (λ reply. AnswersInput call.now input.now reply) }
{
    match read_nest(alloc, input) {
        Ok(checked) => run_program(rt, alloc, call, input, checked, gate),
        Err(InputRefused::Refused(why)) => refused(alloc, why),
        Err(InputRefused::NoMemory) => Err(NoMemory),
    }
}

/// What it answers to an input with this program.
fn run_program<R: Threads + Wait + Sync, G: Gate>(
    rt: &R,
    alloc: Global,
    call: &Call,
    input: &[u8],
    checked: Checked,
    gate: &G,
) -> Result<Reply, NoMemory>
    requires few { length input.now ≤ MOST_BYTES }
    requires threaded { IsThreaded call.now }
    ensures { IfOk result (λ reply. AnswersData (AnswersThreads call.now checked) input.now checked reply) }
{
    match read_words(alloc, input, &checked) {
        Ok(words) => run_threads(rt, alloc, call, Job::new(checked, words), gate),
        Err(InputRefused::Refused(why)) => refused(alloc, why),
        Err(InputRefused::NoMemory) => Err(NoMemory),
    }
}

/// The outcome of a job by its engine, told as the call asks.
fn run_threads<R: Threads + Wait + Sync, G: Gate>(
    rt: &R,
    alloc: Global,
    call: &Call,
    job: Job,
    gate: &G,
) -> Result<Reply, NoMemory>
    requires { IsThreaded call.now }
    ensures { IfOk result (λ reply. AnswersThreads call.now job.program job.opening.words reply) }
{
    // The engine takes the job, and what is told goes by the copy.
    let copy = job.copy(alloc)?;
    let ran = run_job(rt, alloc, job, call.options, gate)?;
    told(alloc, call, &copy, ran)
}
