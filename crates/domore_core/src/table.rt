use crate::desk::Desk;
use crate::seat::Seat;
use nest_syntax::Place;
use word_store::Words;

/// The state of a run, and what is kept to find the waits.
#[derive(Drop)]
pub(crate) struct Table {
    pub(crate) words: Words,
    pub(crate) seats: Vec<Seat>,
    pub(crate) trap: Option<Place>,
    pub(crate) halted: bool,
    pub(crate) desk: Desk,
}
