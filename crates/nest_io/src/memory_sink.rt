ghost use Rattle.std.specs.Prelude.{◌≡◌, ◌+◌, ◌-◌, ◌<◌, ◌≤◌, ◌++◌, ◌↔◌, ◌⊎◌, [], ℕ, List, length, take, drop, Contains, IsErr, IfOk, OnOk, OnErr, Some};
ghost use Rattle.nest_io.specs.Count.{one_more, NoneFails};
ghost use Rattle.nest_io.specs.MemorySink.{IsSink, next_count};

use crate::fault::WriteFailed;
use crate::stream::Sink;
use nest_syntax::NoMemory;
use std::alloc::Global;
use std::marker::Model;

/// A sink into memory, which fails where it is told to. Contracts see it as a `SinkState`.
/// Its counts, of calls and of faults, stay at 2^64 - 1 once they are there.
#[derive(Debug, Drop)]
pub struct MemorySink {
    written: Vec<u8>,
    room: usize,
    most: usize,
    fails: Vec<u64>,
    calls: u64,
    faults: u64,
}

impl Model for MemorySink {
    ghost use Rattle.std.specs.Prelude.{◌+◌, ◌<◌, ◌≤◌, vec_len, vec_capacity};
    ghost use Rattle.nest_io.specs.MemorySink.{SinkState};

    ghost Value = { SinkState };

    ghost view = { λ s. record {
      written = s.written.items;
      room = s.room;
      most = s.most;
      fails = s.fails.items;
      calls = s.calls;
      faults = s.faults;
    } };

    // The room was taken when the sink was made, so a write takes no memory.
    ghost invariant = { λ s. (vec_len s.written + s.room ≤ vec_capacity s.written) × (0 < s.most) };
}

impl MemorySink {
    /// A sink with room for `room` bytes, which takes at most `most` of them in one call. The calls
    /// whose numbers stand in `fails` fail and take nothing, and so does each call with no room
    /// left; calls are numbered from 0. All memory is taken here.
    pub fn new(
        alloc: Global,
        room: usize,
        most: usize,
        fails: Vec<u64>,
    ) -> Result<MemorySink, NoMemory>
        requires { 0 < most }
        ensures { IfOk result (λ sink. sink ≡ record {
          written = [];
          room = room;
          most = most;
          fails = fails.items;
          calls = 0;
          faults = 0;
        }) }
    {
        Ok(MemorySink {
            written: Vec::with_capacity(alloc, room)?,
            room,
            most,
            fails,
            calls: 0,
            faults: 0,
        })
    }

    /// The bytes that were taken.
    pub fn bytes(&self) -> &[u8]
        ensures { result.now ≡ self.now.written }
    {
        &self.written
    }
}

impl Sink for MemorySink {
    ghost written = { λ s. Some s.written };

    ghost faults = { λ s. s.faults };

    ghost has_room = { λ s room. NoneFails s.fails s.calls × (room ≤ s.room) };

    /// Takes as many bytes as `most`, the room left and the length of `bytes` allow.
    fn write(&mut self, bytes: &[u8]) -> Result<usize, WriteFailed>
        requires { 0 < length bytes.now }

        ensures is_sink { IsSink self.old }

        ensures fails { IsErr result ↔ (Contains self.old.fails self.old.calls ⊎ (self.old.room ≡ 0)) }
        ensures failed { OnErr result (self.new ≡ record self.old {
          calls = one_more self.old.calls;
          faults = one_more self.old.faults;
        }) }

        ensures count { IfOk result (λ count. count ≡ next_count self.old (length bytes.now)) }
        ensures taken { IfOk result (λ count. self.new ≡ record self.old {
          written = self.old.written ++ take count bytes.now;
          room = self.old.room - count;
          calls = one_more self.old.calls;
        }) }
    {
        let number = self.calls;
        self.calls = number.saturating_add(1);
        if self.room == 0 || self.fails.contains(&number) {
            self.faults = self.faults.saturating_add(1);
            return Err(WriteFailed);
        }
        let count = self.most.min(self.room).min(bytes.len());
        self.written.extend_from_slice(&bytes[..count]).unwrap();
        self.room -= count;
        Ok(count)
    }
}
