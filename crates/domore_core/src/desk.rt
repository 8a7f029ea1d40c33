use crate::tally::Tally;
use addr_slice::Claims;
use nest_mean::Scalars;
use sched_cursor::Cursor;
use shadow_memory::Shadow;

/// What the scheduler has: where it stands, what it counted so far, and the iterations that it handed out, by their
/// claims. The claims and the scalars of the last one are kept for the room that they take.
#[derive(Drop)]
pub(crate) struct Desk {
    pub(crate) cursor: Cursor,
    pub(crate) tally: Tally,
    pub(crate) shadow: Shadow,
    pub(crate) claims: Claims,
    pub(crate) scalars: Scalars,
}
