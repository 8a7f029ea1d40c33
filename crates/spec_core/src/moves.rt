ghost use Rattle.std.specs.Prelude.{◌≡◌};
ghost use Rattle.spec_core.specs.Moves.{row_of_turn};

use progress_board::Row;

/// The one enabled move of an actor.
#[derive(Clone, Copy, Debug, PartialEq, Eq)]
pub enum Move {
    /// The machine makes it by itself.
    Turn(Turn),
    /// The piece at which a worker's iteration stands is to be worked on. Its stop says what is done.
    Hop,
}

/// A move that the machine makes by itself.
#[derive(Clone, Copy, Debug, PartialEq, Eq)]
pub enum Turn {
    /// The scheduler computes.
    Scalar,
    /// The scheduler computes with the present words.
    Drain,
    Open,
    Close,
    Commit,
    Restore,
    Conclude,
    Begin,
    /// A task with no iteration is finished.
    Finish,
    /// A worker lets go of its task, since the segment is given up.
    LetGo,
    /// A worker stops since a trap is kept.
    Stop,
    Check,
}

impl Turn {
    /// The row under which it is asked for.
    pub(crate) fn row(self) -> Row
        ensures { result ≡ row_of_turn self }
    {
        match self {
            Turn::Scalar | Turn::Drain => Row::Scalar,
            Turn::Open => Row::Open,
            Turn::Close => Row::Close,
            Turn::Commit => Row::Commit,
            Turn::Restore => Row::Restore,
            Turn::Conclude => Row::Conclude,
            Turn::Begin => Row::Begin,
            Turn::Finish => Row::Finish,
            Turn::LetGo | Turn::Stop => Row::Stop,
            Turn::Check => Row::Check,
        }
    }
}
