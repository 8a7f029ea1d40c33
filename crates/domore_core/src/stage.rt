use crate::wait::Wait;

/// What a worker has to look at.
#[derive(Clone, Copy)]
pub enum Stage {
    /// Its part is ended.
    Ended,
    /// It holds no iteration, and no ticket is in its queue.
    Free,
    /// It holds no iteration, and its next ticket has this number.
    Next(u64),
    /// The iteration that it holds waits.
    Waiting(u64, Wait),
    /// The iteration that it holds stands at a piece.
    Standing(u64),
}
