//! Epochs and their tasks: which turns of an invocation each worker runs, and which tasks of different epochs may have
//! run at the same time.
//!
//! In come an epoch, the number of workers, and what a task saw finished when it began; out come blocks of turns and the
//! names of tasks. The law: the blocks of an epoch are disjoint, in order, and together all its turns.
#![tactic(auto)]

mod blocks;
mod laws;
mod tasks;

pub use blocks::{Epoch, block_of};
pub use laws::blocks_part_turns;
pub use tasks::{Seen, unordered, unordered_pairs};
