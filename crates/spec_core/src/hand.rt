use task_frame::Piece;

/// What a worker holds: nothing, a task with no iteration, or an iteration of a task; or it is stopped by a trap.
#[derive(Drop)]
pub enum Held {
    Nothing,
    Empty,
    Task { number: u64, piece: Piece },
    Stopped,
}
