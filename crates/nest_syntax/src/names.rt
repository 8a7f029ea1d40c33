use sqlite_items::Items;
use std::alloc::{AllocError, AllocFailed};

/// Memory ran out. No clause says when this answer comes.
#[derive(Clone, Copy, Debug, PartialEq, Eq)]
pub struct NoMemory;

impl From<AllocError> for NoMemory {
    fn from(_error: AllocError) -> NoMemory {
        NoMemory
    }
}

impl<T: Drop> From<AllocFailed<T>> for NoMemory {
    fn from(_error: AllocFailed<T>) -> NoMemory {
        NoMemory
    }
}

/// A line of the input, counted from 1.
#[derive(Clone, Copy, Debug, PartialEq, Eq, PartialOrd, Ord)]
pub struct Line(pub u32);

/// The bytes of a name. Elsewhere a name is its number in the `names` of its program, from 0.
pub type Name = Items<u8>;

/// The name of a task: its epoch within the segment, and its worker, both from 0.
#[derive(Clone, Copy, Debug, PartialEq, Eq)]
pub struct TaskName {
    pub epoch: u32,
    pub worker: u8,
}
