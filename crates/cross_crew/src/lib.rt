//! Threads round one board: each actor of a machine has a thread of its own, and makes its steps under one lock.
//!
//! In come a machine and a gate. Out go a machine, and the history that leads to it from the one that came in. The
//! history has the steps in the order in which the lock was taken. It need not be complete, as nothing is said of how
//! the threads got on. Where memory runs out, neither machine nor history comes out.
#![tactic(auto)]

mod board;
mod crew;
mod gate;
mod refused;

pub use board::{Board, Origin};
pub use crew::crew_run;
pub use gate::{Gate, OpenGate};
pub use refused::GiveRefused;
