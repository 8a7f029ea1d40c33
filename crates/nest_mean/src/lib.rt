//! The meaning of a nest, run in textual order.
//!
//! In come a checked program and its opening words, out goes the outcome that the definitions of `nest_syntax` give
//! them: the final words, or the place of the first trap. Memory is taken before the first region, and none behind it.
#![tactic(auto)]

mod bodies;
mod courses;
mod events;
mod expressions;
mod few;
mod iterations;
mod jobs;
mod laws;
mod numbered;
mod outcomes;
mod plain;
mod run;
mod saved;
mod values;

pub use bodies::{TurnTrap, body_of, has_body, run_turn, turns_of};
pub use expressions::eval;
pub use jobs::Job;
pub use laws::few_iterations;
pub use nest_syntax::Place;
pub use outcomes::Outcome;
pub use plain::run_plain;
pub use saved::clear_locals;
pub use values::Scalars;
