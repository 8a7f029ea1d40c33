//! Tables of what iterations wait for, and of queues of tickets.
//!
//! Here are tests alone, over crates that are proved without them.
#![tactic(auto)]

#[cfg(test)]
mod tickets;
#[cfg(test)]
mod waits;
