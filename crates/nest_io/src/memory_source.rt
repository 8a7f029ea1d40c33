ghost use Rattle.std.specs.Prelude.{◌≡◌, ◌<◌, ◌≤◌, ◌++◌, ◌↔◌, ◌==◌, false, ℕ, List, length, take, drop, Contains, IsErr, IfOk, OnOk, OnErr, Some};
ghost use Rattle.nest_io.specs.Count.{one_more, NoneFails};
ghost use Rattle.nest_io.specs.MemorySource.{IsSource, next_count};

use crate::fault::ReadFailed;
use crate::stream::Source;
use std::marker::Model;

/// A source over bytes in memory, which fails where it is told to. Contracts see it as a
/// `SourceState`. Its counts, of calls and of faults, stay at 2^64 - 1 once they are there.
#[derive(Debug, Drop)]
pub struct MemorySource {
    bytes: Vec<u8>,
    given: usize,
    most: usize,
    fails: Vec<u64>,
    calls: u64,
    faults: u64,
    ended: bool,
}

impl Model for MemorySource {
    ghost use Rattle.std.specs.Prelude.{◌<◌, ◌≤◌, drop, length};
    ghost use Rattle.nest_io.specs.MemorySource.{SourceState};

    ghost Value = { SourceState };

    ghost view = { λ s. record {
      left = drop s.given s.bytes.items;
      most = s.most;
      fails = s.fails.items;
      calls = s.calls;
      faults = s.faults;
      ended = s.ended;
    } };

    ghost invariant = { λ s. (s.given ≤ length s.bytes.items) × (0 < s.most) };
}

impl MemorySource {
    /// A source that gives `bytes`, at most `most` of them in one call. The calls whose numbers
    /// stand in `fails` fail and give nothing; calls are numbered from 0.
    pub fn new(bytes: Vec<u8>, most: usize, fails: Vec<u64>) -> MemorySource
        requires { 0 < most }
        ensures { result ≡ record {
          left = bytes.items;
          most = most;
          fails = fails.items;
          calls = 0;
          faults = 0;
          ended = false;
        } }
    {
        MemorySource {
            bytes,
            given: 0,
            most,
            fails,
            calls: 0,
            faults: 0,
            ended: false,
        }
    }
}

impl Source for MemorySource {
    ghost left = { λ s. Some s.left };

    ghost faults = { λ s. s.faults };

    ghost is_ended = { λ s. s.ended };

    ghost never_fails = { λ s. NoneFails s.fails s.calls };

    /// Gives as many bytes as `most`, the length of `buf` and what is left allow.
    fn read(&mut self, buf: &mut [u8]) -> Result<usize, ReadFailed>
        requires { 0 < length buf.old }

        ensures is_source { IsSource self.old }

        ensures fails { IsErr result ↔ Contains self.old.fails self.old.calls }
        ensures failed { OnErr result (self.new ≡ record self.old {
          calls = one_more self.old.calls;
          faults = one_more self.old.faults;
        }) }

        ensures count { IfOk result (λ count. count ≡ next_count self.old (length buf.new)) }
        ensures bytes { IfOk result (λ count. take count buf.new ≡ take count self.old.left) }
        ensures given { IfOk result (λ count. self.new ≡ record self.old {
          left = drop count self.old.left;
          calls = one_more self.old.calls;
          ended = count == 0;
        }) }
    {
        let number = self.calls;
        self.calls = number.saturating_add(1);
        if self.fails.contains(&number) {
            self.faults = self.faults.saturating_add(1);
            return Err(ReadFailed);
        }
        let left = &self.bytes[self.given..];
        let count = self.most.min(buf.len()).min(left.len());
        copy_front(buf, left, count);
        self.given += count;
        self.ended = count == 0;
        Ok(count)
    }
}

// Copies the first `count` bytes of `from` to the front of `to`.
fn copy_front(to: &mut [u8], from: &[u8], count: usize)
    requires to { count ≤ length to.old }
    requires from { count ≤ length from.now }
    ensures { take count to.new ≡ take count from.now }
{
    to[..count].copy_from_slice(&from[..count]);
}
