//! The canonical text of a program: a tree comes in, its canonical text goes out.
//!
//! The text is that of `specs/Canonical`. It comes back (`specs/Same`): where some text spells the program and the
//! canonical text has tokens, these derive the same program but for its lines, with the same numbers of names.
#![tactic(auto)]

mod print;

pub use print::print_program;
