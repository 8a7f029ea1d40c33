//! The engine that keeps textual order without a barrier, for every job and 1 to 8 workers.
//!
//! In come a job and options, out comes a machine: a scheduler hands iterations out with what they wait for, and each
//! worker carries out its own. It is the abstract machine of `domore_machine` on the setup of `nest_setup`: each method
//! makes one of its moves.
#![tactic(auto)]

mod choice;
mod desk;
mod domore;
mod hand;
mod handing;
mod laws;
mod machine;
mod memory;
mod moves;
mod opening;
mod passing;
mod pieces;
mod plan;
mod rows;
mod scheduler;
mod seat;
mod stage;
mod table;
mod tally;
mod wait;
mod worker;

pub use domore::Domore;
pub use laws::{histories_end_as_job, histories_keep_order};
