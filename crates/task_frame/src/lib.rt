//! Pieces of work: a hop with the frame that it begins on, and what working on it gives.
//!
//! In comes the code of a program, out go pieces. A piece is plain data; `work` carries its hop out, outside any lock, and
//! what it gives keeps the piece with it. The pieces of a code are a task system of `settle_law`.
#![tactic(auto)]

mod laws;
mod piece;
mod same;
mod worked;

pub use laws::{
    bodies_are_realised, bodies_stop_at_most, stops_are_inside, turns_are_realised, turns_may_pause,
};
pub use piece::{Piece, opening, piece_at};
pub use task_hop::{Frame, Stop};
pub use worked::{Worked, work};
