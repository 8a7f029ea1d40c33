ghost use Rattle.std.specs.Prelude.{◌≡◌, ◌≢◌, ◌<◌, true, false, [], ℕ, List, Some, IsErrOf, IfOk, MatchResult, length, map, string_bytes};
ghost use Rattle.std.specs.Io.KnownBytes.{Appends};
ghost use Rattle.nest_io.specs.Count.{HasRisen};
ghost use Rattle.nest_io.specs.Stream.{AppendsPart};
ghost use Rattle.cross_top.specs.Answers.{AnswersInput, is_gen};
ghost use Rattle.cross_top.specs.Words.{AskToRead, IsAnswerable, reads_input};
ghost use Rattle.cross_top.specs.Ends.{Ends, IsDue, IsDueTo, TakesInput};

use crate::answers::{Reply, answer_generated, answer_input, refusal};
use crate::status::{Ended, Status};
use crate::words::{asked, reads_input};
use cross_words::Call;
use nest_io::{Sink, Source, TakeFault, WriteFailed, put_all, take_all};
use nest_syntax::NoMemory;
use std::alloc::Global;

/// Why there is no answer.
#[derive(Clone, Copy, Debug, PartialEq, Eq)]
pub enum Unanswered {
    Read,
    NoMemory,
}

/// The top call: does what the command words ask for with the bytes of the source, and writes the answer to the sink.
/// Nothing is written before the whole answer is ready, and nothing is read before the words are accepted.
/// `docs/OUTPUT.md` says what is due for which words and bytes.
pub fn cross_quiet<S: Source, K: Sink>(
    alloc: Global,
    words: &[String],
    source: &mut S,
    sink: &mut K,
) -> Ended
    requires { S.is_ended source.old ≡ false }

    ensures ends { Ends (map string_bytes words.now) (record { old = S.left source.old; new = S.left source.new; ended = S.is_ended source.new }) (K.written sink.old) (K.written sink.new) (K.has_room sink.old) result.status result.history.items }

    // Where the words ask for nothing that reads, the source is as it was, however the call ends.
    ensures untouched { (AskToRead (map string_bytes words.now) → ⊥) → source.new ≡ source.old }

    // A fault is told only where a count rose, and where none is told the counts are as they were.
    ensures read_fault { result.status ≡ Status.ReadFault → HasRisen (S.faults source.old) (S.faults source.new) }
    ensures write_fault { result.status ≡ Status.WriteFault → HasRisen (K.faults sink.old) (K.faults sink.new) }
    ensures no_read_fault { result.status ≢ Status.ReadFault → S.faults source.new ≡ S.faults source.old }
    ensures no_write_fault { result.status ≢ Status.WriteFault → K.faults sink.new ≡ K.faults sink.old }
    ensures sure { S.never_fails source.old → result.status ≢ Status.ReadFault }
{
    match answer(alloc, words, source) {
        Ok(reply) => {
            let status = write(&reply, sink);
            let Reply { history, .. } = reply;
            Ended { status, history }
        }
        Err(Unanswered::Read) => ended_early(alloc, Status::ReadFault),
        Err(Unanswered::NoMemory) => ended_early(alloc, Status::NoMemory),
    }
}

pub fn ended_early(alloc: Global, status: Status) -> Ended
    ensures status { result.status ≡ status }
    ensures history { result.history.items ≡ [] }
{
    Ended {
        status,
        history: Vec::new(alloc),
    }
}

/// Writes an answer whole, or as much of it as the sink takes before a fault.
pub fn write<K: Sink>(reply: &Reply, sink: &mut K) -> Status
    ensures written { result ≢ Status.WriteFault → (result ≡ reply.now.status) × Appends (K.written sink.old) (K.written sink.new) reply.now.bytes }
    ensures cut { result ≡ Status.WriteFault → reply.now.status ≢ Status.WriteFault → AppendsPart (K.written sink.old) (K.written sink.new) reply.now.bytes
        × ((room : ℕ) → K.has_room sink.old room → room < length reply.now.bytes) }
    ensures write_fault { result ≡ Status.WriteFault → reply.now.status ≢ Status.WriteFault → HasRisen (K.faults sink.old) (K.faults sink.new) }
    ensures no_write_fault { result ≢ Status.WriteFault → K.faults sink.new ≡ K.faults sink.old }
{
    match put_all(sink, reply.text.as_slice()) {
        Ok(()) => reply.status,
        Err(WriteFailed) => Status::WriteFault,
    }
}

/// What is due to the words, from the bytes of the source where they ask for an action that reads.
fn answer<S: Source>(alloc: Global, words: &[String], source: &mut S) -> Result<Reply, Unanswered>
    requires { S.is_ended source.old ≡ false }

    ensures due { IfOk result (λ reply. IsDue (map string_bytes words.now) (record { old = S.left source.old; new = S.left source.new; ended = S.is_ended source.new }) reply) }
    ensures untouched { (AskToRead (map string_bytes words.now) → ⊥) → source.new ≡ source.old }
    ensures reads { IsErrOf result Unanswered.Read → AskToRead (map string_bytes words.now) }
    ensures read_fault { IsErrOf result Unanswered.Read → HasRisen (S.faults source.old) (S.faults source.new) }
    ensures no_read_fault { result ≢ Err Unanswered.Read → S.faults source.new ≡ S.faults source.old }
    ensures sure { S.never_fails source.old → result ≢ Err Unanswered.Read }
{
    match asked(alloc, words) {
        Ok(Some(call)) => answer_call(alloc, &call, source),
        Ok(None) => or_no_memory(refusal(alloc, Status::WordsRefused, b"words")),
        Err(NoMemory) => Err(Unanswered::NoMemory),
    }
}

/// What is due to a call.
fn answer_call<S: Source>(alloc: Global, call: &Call, source: &mut S) -> Result<Reply, Unanswered>
    requires going { S.is_ended source.old ≡ false }
    requires answerable { IsAnswerable call.now }

    ensures due { IfOk result (λ reply. IsDueTo (Some call.now) (record { old = S.left source.old; new = S.left source.new; ended = S.is_ended source.new }) reply) }
    ensures untouched { reads_input call.now.action ≡ false → source.new ≡ source.old }
    ensures reads { IsErrOf result Unanswered.Read → reads_input call.now.action ≡ true }
    ensures read_fault { IsErrOf result Unanswered.Read → HasRisen (S.faults source.old) (S.faults source.new) }
    ensures no_read_fault { result ≢ Err Unanswered.Read → S.faults source.new ≡ S.faults source.old }
    ensures sure { S.never_fails source.old → result ≢ Err Unanswered.Read }
{
    if reads_input(call.action) {
        answer_source(alloc, call, source)
    } else {
        or_no_memory(answer_generated(alloc, call))
    }
}

/// What is due to a call from the bytes of the source.
fn answer_source<S: Source>(alloc: Global, call: &Call, source: &mut S) -> Result<Reply, Unanswered>
    requires going { S.is_ended source.old ≡ false }
    requires answerable { IsAnswerable call.now }
    requires no_gen { is_gen call.now.action ≡ false }

    ensures due { IfOk result (λ reply. (input : List ℕ) × TakesInput (record { old = S.left source.old; new = S.left source.new; ended = S.is_ended source.new }) input × AnswersInput call.now input reply) }
    ensures read_fault { IsErrOf result Unanswered.Read → HasRisen (S.faults source.old) (S.faults source.new) }
    ensures no_read_fault { result ≢ Err Unanswered.Read → S.faults source.new ≡ S.faults source.old }
    ensures sure { S.never_fails source.old → result ≢ Err Unanswered.Read }
{
    match take_all(alloc, source) {
        Ok(input) => or_no_memory(answer_input(alloc, call, input.as_slice())),
        Err(TakeFault::TooLong) => or_no_memory(refusal(alloc, Status::TextRefused, b"too long")),
        Err(TakeFault::Read) => Err(Unanswered::Read),
        Err(TakeFault::NoMemory) => Err(Unanswered::NoMemory),
    }
}

pub fn or_no_memory(reply: Result<Reply, NoMemory>) -> Result<Reply, Unanswered>
    ensures { MatchResult reply (λ r. result ≡ Ok r) (λ _. result ≡ Err Unanswered.NoMemory) }
{
    match reply {
        Ok(reply) => Ok(reply),
        Err(NoMemory) => Err(Unanswered::NoMemory),
    }
}
