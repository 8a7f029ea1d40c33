//! Command words, parted by clap: which text they give to which name.
//!
//! `specs/Spelling.antt` says how words give texts to names. `texts_of` answers exactly by it, both ways, and nothing
//! here knows what a text says: an action, a kind or a number. The words give one list of pairs, `one_list`.
#![tactic(auto)]

mod command;
mod law;
mod parse;
mod refused;

pub use law::one_list;
pub use parse::texts_of;
pub use refused::WordsRefused;
