//! The checkpoint of a segment: the words as they stood when the segment began.
//!
//! In come words, out go the words last marked, whatever became of the others in between.
#![tactic(auto)]

mod marked;

pub use marked::Checkpoint;
