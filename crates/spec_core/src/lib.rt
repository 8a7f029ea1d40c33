//! The engine that passes barriers speculatively, for every job and 1 to 8 workers, with any kind of signature; with
//! distance 0 it is the engine with a barrier behind each invocation.
//!
//! In come a job and options, out comes a machine: a scheduler opens whole invocations as epochs, each worker carries
//! out its own tasks of them, and a checker compares what the tasks noted. It is the abstract machine of `spec_machine`
//! on the setup of `spec_setup`: each method makes one of its moves.
#![tactic(auto)]

mod choice;
mod desk;
mod epochs;
mod hand;
mod laws;
mod machine;
mod memory;
mod moves;
mod opening;
mod pairs;
mod pieces;
mod plan;
mod rows;
mod scheduler;
mod seat;
mod shared;
mod spec;
mod stage;
mod table;
mod tally;
mod tasks;
mod worker;

pub use laws::{
    histories_commit_truly, histories_count_steps, histories_end_as_job,
    histories_give_up_for_cause, histories_give_up_for_trap, histories_give_up_once,
};
pub use shared::shared_bodies;
pub use spec::Spec;
