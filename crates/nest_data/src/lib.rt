//! Data lines: the opening words of a program's arrays, read from text and printed as text.
//!
//! In come the bytes of the data lines and a checked program, out go the words of its arrays, or the first faulty line
//! with its first fault. Lines are read in one pass, and values are written in their places.
#![tactic(auto)]

mod arrays;
mod lines;
mod print;
mod progress;
mod read;
mod refused;
mod sum;
mod values;

pub use print::{add_line, print_words};
pub use read::{faults_are_of_lines, read_data, words_are_of_lines};
pub use refused::{DataKind, DataRefused};
pub use sum::sum_words;
