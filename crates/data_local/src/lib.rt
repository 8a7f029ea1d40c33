//! The data locals of a body, and the rule on the bounds of the loops inside it.
//!
//! In comes a program, out go the data locals of each body, which are the names whose values may depend on written
//! arrays, and the lowest line that breaks the rule on bounds: no loop inside a body has a data expression as a bound.
#![tactic(auto)]

mod bodies;
mod bounds;
mod locals;
mod loops;
mod names;
mod reach;
mod rows;
mod written;

pub use bodies::data_locals_by_body;
pub use bounds::lowest_data_bound;
pub use locals::DataLocals;
pub use loops::loops_of;
pub use written::WrittenArrays;
