//! The address slice: which words an iteration may read and write, found without running it.
//!
//! In come a program and the values of its loop variables, out comes a set of claims. The claims of an iteration hold
//! every access that it can make, whatever words it reads.
#![tactic(auto)]

mod accesses;
mod bits;
mod claim_set;
mod deep_set;
mod expressions;
mod law;
mod slices;
mod statements;
mod stretch_set;
mod word_set;

pub use claim_set::Claims;
pub use deep_set::DeepSet;
pub use law::{claims_are_of_scope, claims_hold, test_tells_clash};
pub use slices::{claims, claims_and_cost};
