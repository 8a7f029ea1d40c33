//! The generator of inputs: a nest of a given size with its data lines, the same text for the same seed and size.
//!
//! `specs/Generated.antt` holds the draws as a list, and the text. Nothing here depends on anything but the two numbers.
#![tactic(auto)]

mod draws;
mod text;

pub use text::generate;
