use crate::names::Line;
use crate::operators::Cause;

/// Where a run trapped: why, the line on which the statement, arm or loop begins, and the number of the iteration,
/// from 0 over the whole run in textual order. Where the scheduler trapped it is the number of iterations that textual
/// order runs before it.
#[derive(Clone, Copy, Debug, PartialEq, Eq)]
pub struct Place {
    pub cause: Cause,
    pub line: Line,
    pub number: u64,
    pub by_scheduler: bool,
}
