//! The texts that `cross` prints: the place of a trap, the report of a run and its steps, the lines of `deps`, and the
//! least distance.
//!
//! Each call answers a whole text, or that there was no memory for it.
#![tactic(auto)]

mod deps;
mod least;
mod report;
mod steps;
mod trap;

pub use deps::print_deps;
pub use least::print_least;
pub use report::{print_report, print_summary};
pub use steps::print_steps;
pub use trap::print_place;
