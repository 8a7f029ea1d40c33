//! The least distance of a job: the least difference of the epoch numbers of two tasks whose hulls overlap.
//!
//! In come a job and options, out comes the least distance, or none. It is found from the claims of the iterations, so
//! it doesn't depend on the schedule. Where the set distance is below it, no history of the speculative engine has a
//! rollback for an overlap. `specs/Least.antt` has the definition.
#![tactic(auto)]

mod course;
mod laws;
mod least;
mod nearest;
mod noting;
mod plan;
mod row;
mod walk;

pub use laws::{below_least_are_traps, one_least};
pub use least::least_distance;
