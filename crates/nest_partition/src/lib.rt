//! Which parts of a program depend on written arrays.
//!
//! In comes a checked program, out goes its `Split`: the data locals of each body, which expressions of a body are
//! slice expressions, and which expressions of the scheduler are drain points.
#![tactic(auto)]

mod split;

pub use split::{Split, partition};
