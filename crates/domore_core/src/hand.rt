use crate::wait::Wait;
use arrayvec::ArrayVec;
use task_frame::Piece;

/// What a worker holds: nothing, or an iteration with the waits that it hasn't passed yet; or its part is ended.
#[derive(Drop)]
pub enum Held {
    Nothing,
    Task {
        number: u64,
        waits: ArrayVec<Wait, 8>,
        piece: Piece,
    },
    Ended,
}
