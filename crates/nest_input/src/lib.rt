//! An input: the program that its nest spells and that keeps the rules, the words that its data lines give, and the actors
//! that its step words name, or the first thing that is wrong with it, with its place.
#![tactic(auto)]

mod nest;
mod refused;
mod steps;
mod words;

pub use nest::{one_saying, read_nest};
pub use refused::{InputRefused, Refusal};
pub use steps::read_steps;
pub use words::read_words;
