//! Signatures: what a task read and wrote, kept so that two tasks can be compared.
//!
//! In come accesses, one by one; out comes whether two signatures overlap, and in which array. The law: what a signature
//! holds is what it noted, as it is or widened to ranges, and two signatures overlap where they hold a common word and one
//! of them as written.
#![tactic(auto)]

mod exact;
mod laws;
mod range;
mod signature;
mod spans;

pub use exact::ExactSign;
pub use laws::overlaps_are_kept;
pub use range::RangeSign;
pub use signature::Signature;
