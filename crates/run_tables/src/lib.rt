//! Tables of runs: of the streams, of the driver, and of the claims of iterations.
//!
//! Here are tests alone, over crates that are proved without them. Each job is read from a text.
#![tactic(auto)]

#[cfg(test)]
mod claims;
#[cfg(test)]
mod jobs;
#[cfg(test)]
mod nests;
#[cfg(test)]
mod relay;
#[cfg(test)]
mod streams;
#[cfg(test)]
mod turns;
