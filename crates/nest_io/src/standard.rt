ghost use Rattle.std.specs.Prelude.{◌≡◌, ◌==◌, ◌^◌, ◌<◌, ◌≤◌, false, length, IfOk, OnOk, OnErr, None};
ghost use Rattle.std.specs.Io.{ReadsAtMost};
ghost use Rattle.std.specs.Io.KnownBytes.{ReadConsumes};
ghost use Rattle.nest_io.specs.Count.{one_more};

use crate::fault::{ReadFailed, WriteFailed};
use crate::stream::{Sink, Source};
use std::io::{Input, Print, Read};
use std::marker::Model;

/// Standard input. Contracts see it as an `InputState`, whose `left` is what the runtime's reader says of the bytes to
/// come. Its count of faults goes up by one at each error, and stays at 2^64 - 1 once it is there.
#[derive(Drop)]
pub struct StdSource<R: Input> {
    reader: R::Reader,
    faults: u64,
    ended: bool,
}

impl<R: Input> Model for StdSource<R> {
    ghost use Rattle.std.specs.Prelude.{◌^◌, ◌<◌};
    ghost use Rattle.nest_io.specs.Standard.{InputState};

    ghost Value = { InputState };

    ghost view = { λ s. record { left = R.Reader.Read.remaining s.reader; faults = s.faults; ended = s.ended } };

    ghost invariant = { λ s. s.faults < 2 ^ 64 };
}

impl<R: Input> StdSource<R> {
    /// The standard input of `rt`, with no fault counted and no end answered.
    pub fn new(rt: &R) -> StdSource<R>
        ensures faults { result.faults ≡ 0 }
        ensures going { result.ended ≡ false }
    {
        StdSource {
            reader: rt.reader(),
            faults: 0,
            ended: false,
        }
    }
}

impl<R: Input> Source for StdSource<R> {
    ghost left = { λ s. s.left };

    ghost faults = { λ s. s.faults };

    ghost is_ended = { λ s. s.ended };

    fn read(&mut self, buf: &mut [u8]) -> Result<usize, ReadFailed>
        ensures within { ReadsAtMost result buf.new }
        ensures bytes { ReadConsumes self.old.left self.new.left result buf.new }
        ensures given { OnOk result (self.new.faults ≡ self.old.faults) }
        ensures failed { OnErr result (self.new.faults ≡ one_more self.old.faults) }
        ensures end { IfOk result (λ count. self.new.ended ≡ (count == 0)) }
        ensures goes_on { OnErr result (self.new.ended ≡ self.old.ended) }

        // It counts in 64 bits.
        ensures fits { self.old.faults < 2 ^ 64 }
    {
        match self.reader.read(buf) {
            Ok(count) => {
                self.ended = count == 0;
                Ok(count)
            }
            Err(_) => {
                self.faults = self.faults.saturating_add(1);
                Err(ReadFailed)
            }
        }
    }
}

/// Standard output. It doesn't tell what it took, so contracts see it as its count of faults alone.
/// The count goes up by one at each error and at each write that takes nothing, and stays at
/// 2^64 - 1 once it is there. Nothing is kept back in a buffer.
#[derive(Drop)]
pub struct StdSink<'a, R: Print> {
    rt: &'a R,
    faults: u64,
}

impl<'a, R: Print> Model for StdSink<'a, R> {
    ghost use Rattle.std.specs.Prelude.{ℕ, ◌^◌, ◌<◌};

    ghost Value = { ℕ };

    ghost view = { λ s. s.faults };

    ghost invariant = { λ s. s.faults < 2 ^ 64 };
}

impl<'a, R: Print> StdSink<'a, R> {
    /// The standard output of `rt`, with no fault counted.
    pub fn new(rt: &'a R) -> StdSink<'a, R>
        ensures { result ≡ 0 }
    {
        StdSink { rt, faults: 0 }
    }
}

impl<R: Print> Sink for StdSink<'_, R> {
    ghost written = { λ _. None };

    ghost faults = { λ faults. faults };

    fn write(&mut self, bytes: &[u8]) -> Result<usize, WriteFailed>
        ensures some { IfOk result (λ count. 0 < count) }
        ensures within { IfOk result (λ count. count ≤ length bytes.now) }
        ensures taken { OnOk result (self.new ≡ self.old) }
        ensures failed { OnErr result (self.new ≡ one_more self.old) }

        // It counts in 64 bits.
        ensures fits { self.old < 2 ^ 64 }
    {
        match self.rt.write_some(bytes) {
            Ok(count) if count > 0 => Ok(count),
            _ => {
                self.faults = self.faults.saturating_add(1);
                Err(WriteFailed)
            }
        }
    }
}
