ghost use Rattle.std.specs.Prelude.{◌≡◌, ◌↔◌, IsTrue};
ghost use Rattle.progress_board.specs.declared.actors.Ask.TheVariants.{Ready};
ghost use Rattle.progress_board.specs.Actors.{work_of};

use task_frame::{Piece, Worked, work};

/// A row of an engine's step table: what one step does.
#[derive(Clone, Copy, Debug, PartialEq, Eq)]
pub enum Row {
    Scalar,
    Dispatch,
    Drain,
    Halt,
    Take,
    Pass,
    Hop,
    Finish,
    Trap,
    Drop,
    End,
    Open,
    Close,
    Commit,
    Restore,
    Conclude,
    Begin,
    Stop,
    Check,
    Abort,
}

/// What is to be done for a step.
#[derive(Debug, Drop, PartialEq, Eq)]
pub enum Work {
    /// The machine makes this row by itself. Both rows of the checker are asked for as `Check`.
    Turn(Row),
    /// The piece with which an iteration goes on is to be worked on. By the stop that it comes to, the row is a hop, or
    /// the finish or the trap of the iteration.
    Hop(Piece),
}

/// What a machine answers an actor that asks for its work.
#[derive(Debug, Drop, PartialEq, Eq)]
pub enum Ask {
    /// The work of the one enabled row.
    Ready(Work),
    /// The actor's part isn't ended, and no row of it is enabled.
    NotYet,
    /// The actor's part is ended, and stays so.
    Ended,
}

/// The work that an actor gives back, done.
#[derive(Debug, Drop)]
pub enum Given {
    Turn(Row),
    Hop(Worked),
}

impl Work {
    /// Does the work. It takes no memory, and a constant time for each operation of a piece.
    pub fn done(self) -> Given
        ensures { work_of result ≡ self }
    {
        match self {
            Work::Turn(row) => Given::Turn(row),
            Work::Hop(piece) => Given::Hop(work(piece)),
        }
    }
}

impl Ask {
    /// Whether what is given is the work that is asked for.
    pub fn is_met_by(&self, given: &Given) -> bool
        ensures { IsTrue result ↔ (self.now ≡ Ready (work_of given.now)) }
    {
        match (self, given) {
            (Ask::Ready(Work::Turn(asked)), Given::Turn(row)) => asked == row,
            (Ask::Ready(Work::Hop(asked)), Given::Hop(worked)) => asked.is_same(worked.piece()),
            _ => false,
        }
    }
}

/// A step that was made: its row, and the number that tells of what, as the machine defines it.
#[derive(Clone, Copy, Debug, PartialEq, Eq)]
pub struct Made {
    pub row: Row,
    pub number: u64,
}
