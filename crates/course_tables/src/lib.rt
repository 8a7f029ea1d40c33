//! Tables of the events of the scheduler: what a cursor goes through in small nests, with the scalars at each event.
//!
//! Here are tests alone, over crates that are proved without them. What is wanted was found by hand.
#![tactic(auto)]

#[cfg(test)]
mod courses;
