//! Tables of runs by threads, over a small machine.
//!
//! Here are tests alone, over crates that are proved without them.
#![tactic(auto)]

#[cfg(test)]
mod threads;
