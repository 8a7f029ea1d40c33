//! What `partition` tells of a body, found by hand.
//!
//! Here is a test alone, over crates that are proved without it.
#![tactic(auto)]

#[cfg(test)]
mod locals;
