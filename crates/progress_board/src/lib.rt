//! What a machine is: a state that actors change, one step at a time, under a law of progress.
//!
//! `Machine` is the trait that each engine meets and each driver is written over. `specs/` holds what is said of any
//! machine: legal states, the rotation. `is_bounded`, `is_over` and `rotation_completes` are laws on its histories.
#![tactic(auto)]

mod actors;
mod facts;
mod laws;
mod machine;
mod options;

pub use actors::{Ask, Given, Made, Row, Work};
pub use facts::{Ending, Facts, RollCause, Rollback, Wait};
pub use laws::{is_bounded, is_over, rotation_completes};
pub use machine::Machine;
pub use options::{Engine, Options, Sign};
