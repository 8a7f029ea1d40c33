use crate::desk::Desk;
use crate::seat::Seat;
use checkpoint::Checkpoint;
use epoch_plan::Seen;
use nest_syntax::Place;
use progress_board::RollCause;
use range_sign::Signature;
use spec_checker::Checker;
use word_store::Words;

/// The state of a run. What task (e, u) saw stands at `e * workers + u`.
#[derive(Drop)]
pub(crate) struct Table<G: Signature> {
    pub(crate) words: Words,
    pub(crate) mark: Checkpoint,
    pub(crate) desk: Desk,
    pub(crate) distance: u32,
    pub(crate) seats: Vec<Seat<G>>,
    pub(crate) seen: Vec<Seen>,
    pub(crate) checker: Checker,
    pub(crate) abort: Option<RollCause>,
    pub(crate) trap: Option<Place>,
    pub(crate) concluded: bool,
}
