ghost use Rattle.std.specs.Prelude.{◌≡◌, ◌-◌, ◌<◌, ◌≤◌, ℕ, List, Bool, false, Option, length, IsOk, IsOkAnd, IfOk, OnOk, OnErr};
ghost use Rattle.std.specs.Io.{ReadsAtMost};
ghost use Rattle.std.specs.Io.KnownBytes.{ReadConsumes, WriteAppends};
ghost use Rattle.nest_io.specs.Count.{HasRisen};
ghost use Rattle.nest_io.specs.Stream.{answers_end};

use crate::fault::{ReadFailed, WriteFailed};

/// What gives bytes.
pub trait Source {
    /// The bytes still to come, or `None` where the source doesn't tell.
    ghost left: { Self → Option (List ℕ) };

    /// How many calls have failed. The count stays at 2^64 - 1 once it is there.
    ghost faults: { Self → ℕ };

    /// Whether the end was answered. Behind it nothing is read.
    ghost is_ended: { Self → Bool };

    /// No later call fails. A source that can't know this never says so.
    ghost never_fails: { Self → Type 0 } = { λ _. ⊥ };

    /// Puts the next bytes at the front of `buf` and answers how many: at least one before the end,
    /// and 0 at the end. On `ReadFailed` nothing was given, and what `buf` holds isn't specified.
    fn read(&mut self, buf: &mut [u8]) -> Result<usize, ReadFailed>
        requires room { 0 < length buf.old }
        requires going { is_ended self.old ≡ false }

        ensures within { ReadsAtMost result buf.new }
        ensures bytes { ReadConsumes (left self.old) (left self.new) result buf.new }
        ensures ended { is_ended self.new ≡ answers_end result }

        // The count rises where the call fails, and stays where it doesn't.
        ensures cause { OnErr result (HasRisen (faults self.old) (faults self.new)) }
        ensures quiet { OnOk result (faults self.new ≡ faults self.old) }
        ensures never_falls { faults self.old ≤ faults self.new }

        ensures sure { never_fails self.old → IsOk result }
        ensures stays_sure { never_fails self.old → never_fails self.new };
}

/// What takes bytes.
pub trait Sink {
    /// The bytes that were taken, or `None` where the sink doesn't tell.
    ghost written: { Self → Option (List ℕ) };

    /// How many calls have failed. The count stays at 2^64 - 1 once it is there.
    ghost faults: { Self → ℕ };

    /// No call fails until that many more bytes are written. A sink that can't know this never says so.
    ghost has_room: { Self → ℕ → Type 0 } = { λ _ _. ⊥ };

    /// Takes bytes from the front of `bytes` and answers how many, at least one.
    /// On `WriteFailed` nothing was taken.
    fn write(&mut self, bytes: &[u8]) -> Result<usize, WriteFailed>
        requires { 0 < length bytes.now }

        ensures some { IfOk result (λ count. 0 < count) }
        ensures within { IfOk result (λ count. count ≤ length bytes.now) }
        ensures bytes { WriteAppends (written self.old) (written self.new) result bytes.now }

        // The count rises where the call fails, and stays where it doesn't.
        ensures cause { OnErr result (HasRisen (faults self.old) (faults self.new)) }
        ensures quiet { OnOk result (faults self.new ≡ faults self.old) }
        ensures never_falls { faults self.old ≤ faults self.new }

        ensures sure { (room : ℕ) → length bytes.now ≤ room → has_room self.old room
            → IsOkAnd result (λ count. has_room self.new (room - count)) };
}
