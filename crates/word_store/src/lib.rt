//! Words: the operations on them, the turns of a loop, and the words of a program's arrays.
//!
//! In come values of 64 bits with their sign, out go what the definitions of `nest_syntax` say: each operation wraps
//! or traps, each count of turns is counted or traps, and each array is read and written within its size.
#![tactic(auto)]

mod memory;
mod operations;
mod turns;

pub use memory::Words;
pub use nest_syntax::Cause;
pub use operations::{apply, apply_un, assign};
pub use turns::{count_turns, value_in_turn};
