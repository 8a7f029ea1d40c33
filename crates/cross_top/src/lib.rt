//! What the program `cross` does with its command words and an input.
//!
//! In come words, a source and a sink, out come the bytes that are due and a status. `cross_quiet` is the top call, and
//! `Ends` of specs/Ends says what it does. `one_answer` says when two answers to one call and input are the same, but
//! for what a speculative engine counts: where they have the same steps, and refuse the same step of `replay` or none.
#![tactic(auto)]

mod alone;
mod answers;
mod laws;
mod profile;
mod refusals;
mod replay;
mod status;
mod threads;
mod top;
mod words;

pub use laws::one_answer;
pub use status::{Ended, Status, exit_code};
pub use threads::cross_main;
pub use top::cross_quiet;
