ghost use Rattle.std.specs.Prelude.{◌≡◌, ◌≢◌, ◌+◌, ◌-◌, ◌<◌, ◌≤◌, false, [], ℕ, List, length, is_ok, IsOk, IsErrOf, IfOk, IfSome, OnOk, OnErr, MatchResult};
ghost use Rattle.std.specs.Io.KnownBytes.{Consumes, IsAtEnd, Appends};
ghost use Rattle.nest_io.specs.Count.{HasRisen};
ghost use Rattle.nest_io.specs.Stream.{LosesPrefix, AppendsPart};

use crate::fault::{TakeFault, WriteFailed};
use crate::stream::{Sink, Source};
use std::alloc::Global;

/// How many bytes `take_all` gives at most.
pub const MOST_BYTES: usize = 33_554_432;

// How many bytes `take_all` asks for in one read, except shortly before the bound.
const PIECE_BYTES: usize = 16_384;

/// Takes all bytes of a source, to its end.
///
/// `Read` comes only where the source's count of faults rose. `TooLong` comes only where the source
/// has more than `MOST_BYTES` bytes; `MOST_BYTES` and one more are gone from it then. On the other
/// refusals the bytes that were read are gone from the source. Memory is taken as bytes come.
pub fn take_all<S: Source>(alloc: Global, source: &mut S) -> Result<Vec<u8>, TakeFault>
    requires { S.is_ended source.old ≡ false }

    // Where the source tells its bytes, they are the answer, unless they are too many.
    ensures exact { IfSome (S.left source.old) (λ all. MatchResult result
        (λ bytes. (bytes.items ≡ all) × (length all ≤ MOST_BYTES))
        (λ fault. fault ≡ TakeFault.TooLong → MOST_BYTES < length all)) }
    ensures within { IfOk result (λ bytes. length bytes.items ≤ MOST_BYTES) }

    // What was read is gone, and no more.
    ensures all { IfOk result (λ bytes. Consumes (S.left source.old) (S.left source.new) bytes.items) }
    ensures end { OnOk result (IsAtEnd (S.left source.new)) }

    // The source answered its end exactly where the result is `Ok`.
    ensures ended { S.is_ended source.new ≡ is_ok result }

    ensures part { OnErr result (LosesPrefix (S.left source.old) (S.left source.new)) }
    ensures long { IsErrOf result TakeFault.TooLong → (more : List ℕ) × (length more ≡ MOST_BYTES + 1)
        × Consumes (S.left source.old) (S.left source.new) more }

    // The count rises where a read fails, and stays where none does.
    ensures cause { IsErrOf result TakeFault.Read → HasRisen (S.faults source.old) (S.faults source.new) }
    ensures quiet { result ≢ Err TakeFault.Read → S.faults source.new ≡ S.faults source.old }
    ensures never_falls { S.faults source.old ≤ S.faults source.new }

    // Where no later call of the source fails, `Read` doesn't come.
    ensures sure { S.never_fails source.old → result ≢ Err TakeFault.Read }
    ensures stays_sure { S.never_fails source.old → S.never_fails source.new }
{
    let mut bytes = Vec::new(alloc);
    let mut piece = [0; PIECE_BYTES];
    'pieces: loop {
        let room = PIECE_BYTES.min(MOST_BYTES + 1 - bytes.len());
        let Ok(count) = source.read(&mut piece[..room]) else {
            return Err(TakeFault::Read);
        };
        if count == 0 {
            return Ok(bytes);
        }
        let taken = bytes.len() + count;
        if taken > MOST_BYTES {
            return Err(TakeFault::TooLong);
        }
        let Ok(()) = bytes.extend_from_slice(&piece[..count]) else {
            return Err(TakeFault::NoMemory);
        };
    }
}

/// Writes all of `bytes` to a sink.
///
/// On `WriteFailed` the sink's count of faults rose, and a proper prefix of `bytes` was written,
/// which may be empty. Where `bytes` is empty, no call is made. It takes no memory.
pub fn put_all<K: Sink>(sink: &mut K, bytes: &[u8]) -> Result<(), WriteFailed>
    ensures all { OnOk result (Appends (K.written sink.old) (K.written sink.new) bytes.now) }
    ensures part { OnErr result (AppendsPart (K.written sink.old) (K.written sink.new) bytes.now) }
    ensures empty { bytes.now ≡ [] → IsOk result × (sink.new ≡ sink.old) }

    // The count rises where a write fails, and stays where none does.
    ensures cause { OnErr result (HasRisen (K.faults sink.old) (K.faults sink.new)) }
    ensures quiet { OnOk result (K.faults sink.new ≡ K.faults sink.old) }
    ensures never_falls { K.faults sink.old ≤ K.faults sink.new }

    // A sink that has room for all bytes takes them all.
    ensures sure { (room : ℕ) → length bytes.now ≤ room → K.has_room sink.old room
        → IsOk result × K.has_room sink.new (room - length bytes.now) }
{
    let mut done = 0;
    'pieces: while done < bytes.len() {
        done += sink.write(&bytes[done..])?;
    }
    Ok(())
}
