//! Tables of the parts of speculation: blocks of turns, unordered tasks, pairs due, signatures and the checkpoint.
//!
//! Here are tests alone, over crates that are proved without them. What is wanted was found by hand.
#![tactic(auto)]

#[cfg(test)]
mod epochs;
#[cfg(test)]
mod marks;
#[cfg(test)]
mod pairs;
#[cfg(test)]
mod signs;
