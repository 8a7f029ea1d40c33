ghost use Rattle.std.specs.Prelude.{◌≡◌};
ghost use Rattle.domore_core.specs.Moves.{row_of_turn, row_of_stop};

use progress_board::Row;
use task_frame::Stop;

/// The one enabled move of an actor.
#[derive(Clone, Copy, Debug, PartialEq, Eq)]
pub enum Move {
    /// The machine makes it by itself.
    Turn(Turn),
    /// The piece at which a worker's iteration stands is to be worked on. Its stop says what is done.
    Hop,
}

/// A move that the machine makes by itself.
#[derive(Clone, Copy, Debug, PartialEq, Eq)]
pub enum Turn {
    /// The scheduler computes, or an invocation ends.
    Scalar,
    /// The scheduler computes with the present words.
    Drain,
    Dispatch,
    Halt,
    Take,
    Pass,
    /// The held iteration is dropped.
    DropHeld,
    /// The first ticket is dropped.
    DropQueued,
    End,
}

impl Turn {
    /// The row that it is.
    pub(crate) fn row(self) -> Row
        ensures { result ≡ row_of_turn self }
    {
        match self {
            Turn::Scalar => Row::Scalar,
            Turn::Drain => Row::Drain,
            Turn::Dispatch => Row::Dispatch,
            Turn::Halt => Row::Halt,
            Turn::Take => Row::Take,
            Turn::Pass => Row::Pass,
            Turn::DropHeld | Turn::DropQueued => Row::Drop,
            Turn::End => Row::End,
        }
    }
}

/// The row of a stop.
pub(crate) fn row_at(stop: Stop) -> Row
    ensures { result ≡ row_of_stop stop }
{
    match stop {
        Stop::Load { .. } | Stop::Store { .. } | Stop::Go { .. } => Row::Hop,
        Stop::Finish => Row::Finish,
        Stop::Trap { .. } => Row::Trap,
    }
}
