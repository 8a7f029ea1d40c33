//! The dependence tests: which invocations have iterations that never meet in a word.
//!
//! In comes a loop that invokes a body, out goes its `LoopKind`: `DoAll` where each pair of accesses is parted by a
//! test, or the first pair that isn't.
#![tactic(auto)]

mod accesses;
mod around;
mod forms;
mod free;
mod given;
mod kinds;
mod law;
mod seen;
mod spans;
mod tests;
mod walk;

pub use accesses::AccessAt;
pub use kinds::{LoopKind, classify};
pub use law::do_all_is_apart;
