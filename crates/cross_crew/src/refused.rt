use progress_board::Ask;
use thiserror::Error;

/// Why a board took no step.
#[derive(Debug, Drop, Error)]
pub enum GiveRefused {
    /// What was given isn't the work that the actor is asked for. This is what it is asked for now.
    #[error("work that isn't asked for")]
    Stale(Ask),
    /// There is no room for the step in the history.
    #[error("out of memory")]
    NoMemory,
}
