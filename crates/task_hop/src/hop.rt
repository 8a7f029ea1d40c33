ghost use Rattle.std.specs.Prelude.{◌≡◌, ◌≤◌};
ghost use Rattle.task_hop.specs.Meaning.{meaning};

use crate::end::End;
use crate::frame::Frame;
use crate::operation::Operation;
use crate::stop::Stop;
use arrayvec::ArrayVec;

/// The most pure operations of a hop.
pub const MOST_OPERATIONS: usize = 32;

/// Pure operations, and then an end.
#[derive(Debug, Drop, PartialEq, Eq)]
pub struct Hop {
    pub operations: ArrayVec<Operation, 32>,
    pub end: End,
}

impl Hop {
    /// Where the hop comes to from a frame: its stop, with the frame there. It takes no memory and a constant time for
    /// each operation.
    pub fn run(&self, frame: &mut Frame) -> Stop
        ensures { meaning self.now frame.old ≡ record { stop = result; frame = frame.new } }
    {
        for operation in self.operations.as_slice() {
            if let Err(stop) = operation.carry_out(frame) {
                return stop;
            }
        }
        self.end.stop(frame)
    }
}
