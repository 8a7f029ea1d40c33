//! The code of a program's bodies, cut into hops.
//!
//! In comes a checked program, out goes code with an address for each point where a hop may begin. The hops from a body's
//! entry do what an iteration of the body does, cut where the definition of its turn says.
#![tactic(auto)]

mod bodies;
mod changes;
mod code;
mod compiler;
mod expressions;
mod laws;
mod layout;
mod locals;
mod statements;

pub use bodies::{Body, bodies_of};
pub use code::{Entry, Instruction, TaskCode};
pub use compiler::compile;
pub use laws::{entries_are_of_bodies, entries_count, turns_are_of_bodies, variables_are_locals};
