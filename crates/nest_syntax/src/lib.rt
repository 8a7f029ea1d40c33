//! The tree of a nest: what a parser gives, and what everything above reads.
//!
//! The functions here only make, copy or convert values, or state a law; `Lowest` keeps the lowest of the lines that
//! break a rule. `specs/` holds the meaning of a tree: words, values, the turn of an iteration, the course of a program
//! and its outcome.
#![tactic(auto)]

mod copy;
mod laws;
mod lowest;
mod names;
mod operators;
mod place;
mod tree;

pub use laws::reckonings_are_values;
pub use lowest::Lowest;
pub use names::{Line, Name, NoMemory, TaskName};
pub use operators::{Bin, Cause, Op, Un};
pub use place::Place;
pub use tree::{Arm, Decl, Expr, Loop, Program, Stmt};
