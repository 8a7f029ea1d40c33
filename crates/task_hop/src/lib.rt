//! The machine of hops: what a worker computes between two steps on the board.
//!
//! A hop is at most 32 pure operations on the registers of a frame, and an end: a word of an array is read or written, the
//! worker may be interrupted, or the iteration is over. `specs/Meaning.antt` says where a hop comes to from a frame, as a
//! fold over its operations, and `Hop::run` does that.
#![tactic(auto)]

mod end;
mod frame;
mod hop;
mod operation;
mod rounds;
mod stop;

pub use end::{End, Jump, Round, Subscript, Way};
pub use frame::{Frame, LOCALS, Operand, Register, SCALARS, TEMPORARIES};
pub use hop::{Hop, MOST_OPERATIONS};
pub use operation::Operation;
pub use stop::Stop;
