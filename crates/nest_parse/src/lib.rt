//! The parser: tokens come in, the program that they spell goes out.
//!
//! `parse` gives the one program that the grammar derives from the tokens. Where there is none, it gives the first
//! token that can't follow those before it in any program. The grammar is `specs/Grammar`; what a program means, and
//! which programs keep the rules, is for other crates.
#![tactic(auto)]

mod cursor;
mod declaration;
mod header;
mod kinds;
mod parser;
mod refused;
mod statement;
mod tables;
mod token_steps;
mod value;

pub use parser::{one_program, parse};
pub use refused::ParseRefused;
