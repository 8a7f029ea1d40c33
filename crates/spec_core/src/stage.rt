/// What a worker has to look at.
#[derive(Clone, Copy)]
pub enum Stage {
    Idle,
    /// Its task has no iteration.
    Empty,
    /// The iteration with this number stands.
    Standing(u64),
    Stopped,
}
