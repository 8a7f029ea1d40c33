//! The checker's pairs: which two tasks are to be compared next.
//!
//! In come, for each worker, how many epochs it has finished, and what each task saw as it began; out comes the pair due,
//! until all unordered pairs have passed. The law: the pairs are numbered without a gap, in their order.
#![tactic(auto)]

mod laws;
mod order;
mod walk;

pub use laws::pairs_are_numbered;
pub use walk::Checker;
