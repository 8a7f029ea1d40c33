use crate::epochs::Epochs;
use crate::tally::Tally;
use nest_syntax::Place;
use sched_cursor::Cursor;

/// What the scheduler has: where it stands, its trap, the open epochs of the segment and whether they are sealed, and what
/// it counted so far.
#[derive(Drop)]
pub(crate) struct Desk {
    pub(crate) cursor: Cursor,
    pub(crate) early: Option<Place>,
    pub(crate) epochs: Epochs,
    pub(crate) sealed: bool,
    pub(crate) tally: Tally,
}
