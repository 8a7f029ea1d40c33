use crate::options::Options;
use nest_syntax::{Place, TaskName};

/// How a machine ended: without a trap, or at the trap that it keeps.
#[derive(Clone, Copy, Debug, PartialEq, Eq)]
pub enum Ending {
    Unfinished,
    Done,
    Trapped(Place),
}

/// Why a segment was rolled back.
#[derive(Clone, Copy, Debug, PartialEq, Eq)]
pub enum RollCause {
    /// The signatures of two tasks overlap; `array` is the first in which they do, by its number in the order of
    /// declaration.
    Overlap {
        early: TaskName,
        late: TaskName,
        array: u32,
    },
    /// A task trapped while the distance was above 0.
    Trap {
        task: TaskName,
    },
}

/// A rollback: the segment, by the number of commits before, and its cause.
#[derive(Clone, Copy, Debug, PartialEq, Eq)]
pub struct Rollback {
    pub segment: u64,
    pub cause: RollCause,
}

/// A wait of iteration `number` for iteration `on`. It is `crossing` where they belong to different invocations.
#[derive(Clone, Copy, Debug, PartialEq, Eq)]
pub struct Wait {
    pub number: u64,
    pub on: u64,
    pub crossing: bool,
}

/// The counts and lists of a run, from its steps. What the engine of `options` doesn't have is 0 and empty.
#[derive(Clone, Copy, Debug, PartialEq, Eq)]
pub struct Facts {
    pub options: Options,
    /// Headers of invocations that were carried out without a trap.
    pub invocations: u64,
    /// Iterations that the scheduler passed.
    pub iterations: u64,
    /// Drain events that were carried out, also one that trapped. The count stays at 2^64 - 1 once it is there.
    pub drains: u64,
    /// Waits of all tickets that were put.
    pub waits: u64,
    /// Those among them that cross invocations.
    pub crossing: u64,
    /// The first 64 waits, by iteration and then by worker.
    pub first_waits: [Option<Wait>; 64],
    /// Commit steps.
    pub segments: u64,
    /// The checker's steps.
    pub checks: u64,
    /// Restore steps.
    pub rollbacks: u64,
    /// The first 64 rollbacks, in the order of the steps.
    pub first_rollbacks: [Option<Rollback>; 64],
}
