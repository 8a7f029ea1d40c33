//! Tokens and parts of the input.
//!
//! `parts` divides an input into the nest, its data lines and its step words. `lex` gives the tokens of a nest with
//! their spots, or its first fault. `specs/Text.antt` says what both are (`AreTokens`, `IsFault`), `specs/Parts.antt`
//! what the parts are. `number_within` reads decimal digits, for numbers here and for values elsewhere.
#![tactic(auto)]

mod divide;
mod found;
mod input;
mod lexer;
mod load;
mod names;
mod number;
mod piece;
mod reader;
mod refused;
mod scan;
mod spelling;
mod spot;
mod token;

pub use divide::{one_division, parts};
pub use input::Parts;
pub use lexer::{lex, one_answer};
pub use number::number_within;
pub use refused::{LexKind, LexRefused};
pub use token::{Keyword, Kind, Mark, Spot, Token, Tokens};
