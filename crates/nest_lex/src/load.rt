//! The two bounds on what stands together: open brackets, and tokens in a run.
ghost use Rattle.std.specs.Prelude.{◌≡◌, ◌≤◌, ◌↔◌, IsTrue};

use crate::piece::Piece;
use crate::token::Mark;

/// The most brackets that are open at once.
const MOST_OPENED: u32 = 64;

/// The most tokens of a run.
const MOST_RUN: u32 = 128;

/// How many brackets are open, and how many tokens stand since the last of `;`, `{`, `}` or the start.
#[derive(Clone, Copy, Debug, PartialEq, Eq)]
pub struct Load {
    pub opened: u32,
    pub run: u32,
}

impl Load {
    ghost use Rattle.nest_lex.specs.Load.{no_load, opened_by, run_by, load_after, IsAllowed};

    pub fn none() -> Load
        ensures { result ≡ no_load }
    {
        Load { opened: 0, run: 0 }
    }

    fn opened_by(self, mark: Mark) -> u32
        requires { IsAllowed self }
        ensures { result ≡ opened_by self.opened mark }
    {
        match mark {
            Mark::OpenRound | Mark::OpenSquare | Mark::OpenCurly => self.opened + 1,
            Mark::CloseRound | Mark::CloseSquare | Mark::CloseCurly => self
                .opened
                .saturating_sub(1),
            _ => self.opened,
        }
    }

    fn run_by(self, mark: Mark) -> u32
        requires { IsAllowed self }
        ensures { result ≡ run_by self.run mark }
    {
        match mark {
            Mark::Semicolon | Mark::OpenCurly | Mark::CloseCurly => 0,
            _ => self.run + 1,
        }
    }

    /// The load behind a piece.
    pub fn after(self, piece: Piece) -> Load
        requires { IsAllowed self }
        ensures { result ≡ load_after self piece }
    {
        match piece {
            Piece::Mark(mark) => Load {
                opened: self.opened_by(mark),
                run: self.run_by(mark),
            },
            _ => Load {
                opened: self.opened,
                run: self.run + 1,
            },
        }
    }

    pub fn is_allowed(self) -> bool
        ensures { IsTrue result ↔ IsAllowed self }
    {
        self.opened <= MOST_OPENED && self.run <= MOST_RUN
    }
}
