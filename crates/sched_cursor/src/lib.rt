//! The scheduler's course, one event at a time.
//!
//! In comes a checked program, out goes a cursor that walks its course: at each event it tells what kind it is, and goes
//! behind it. A cursor takes its memory at the start, and each event costs a constant, apart from the expressions that it
//! evaluates.
#![tactic(auto)]

mod advance;
mod cursor;
mod drains;
mod event;
mod laws;
mod node;
mod script;
mod start;
mod step;
mod turning;

pub use cursor::Cursor;
pub use event::{Event, Here, Iteration};
pub use laws::{
    bodies_inside, const_words_suffice, cursors_follow, cursors_stay, events_count,
    fixed_words_are_const, given_agree, whole_invocations_follow,
};
