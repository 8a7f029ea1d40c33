use progress_board::Made;

/// What is called between the steps of a crew.
///
/// Each actor calls it after each of its steps, outside the lock, with what the step was. A gate that holds one actor up
/// lets the others go on; one that never returns keeps its actor for ever.
pub trait Gate: Sync {
    fn between(&self, actor: u8, made: Made);
}

/// The gate that does nothing.
#[derive(Drop)]
pub struct OpenGate;

impl Gate for OpenGate {
    fn between(&self, _actor: u8, _made: Made) {}
}
