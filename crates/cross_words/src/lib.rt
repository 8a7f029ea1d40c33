//! The words behind the program's name, and the call that they say.
//!
//! `word_texts` parts the words; here the action, the kinds and the numbers are read. `specs/Table.antt` says which words
//! say which call (`Say`), one at most (`one_call`), and `read_words` answers exactly by it.
#![tactic(auto)]

mod call;
mod law;
mod read;
mod table;

pub use call::{Action, Call};
pub use law::{calls_are_in_range, one_call};
pub use read::read_words;
pub use word_texts::WordsRefused;
