//! Whole runs of a machine: on the caller's thread, by given steps, or by a thread for each actor.
//!
//! In come a machine and what decides the order of its actors, or a job with options that name its engine. Out go the
//! outcome and the facts that the finished machine tells, with the history that led to it from the machine that came in.
//! `runs_commit_truly` says what holds of that history where the engine passes barriers speculatively.
#![tactic(auto)]

mod jobs;
mod laws;
mod opened;
mod ran;
mod runs;
mod threads;

pub use jobs::{run_alone, run_strict};
pub use laws::{facts_are_due, runs_commit_truly};
pub use opened::Opened;
pub use ran::Ran;
pub use runs::{drive_alone, drive_crew, drive_strict};
pub use threads::run_job;
