//! Step words: the steps of an input that `replay` runs first.
//!
//! `read_steps` gives the actors that the words behind the line `steps` name, or the first word that names none.
//! `specs/Steps.antt` says what the words are and whom they name.
#![tactic(auto)]

mod read;
mod refused;
mod words;

pub use read::read_steps;
pub use refused::StepsRefused;
