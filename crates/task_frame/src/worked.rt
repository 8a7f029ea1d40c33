ghost use Rattle.std.specs.Prelude.{◌≡◌};
ghost use Rattle.task_frame.specs.Pieces.{reached};

use crate::piece::Piece;
use std::marker::Model;
use task_hop::{Frame, Stop};

/// A piece that was worked on, with its stop and the frame there. They are the meaning of the piece's hop on its frame.
#[derive(Debug, Drop)]
pub struct Worked {
    piece: Piece,
    stop: Stop,
    frame: Frame,
}

impl Model for Worked {
    ghost use Rattle.std.specs.Prelude.{◌≡◌};
    ghost use Rattle.task_frame.specs.declared.piece.Piece.{Piece};
    ghost use Rattle.task_frame.specs.Pieces.{reached};

    ghost Value = { Piece };

    ghost view = { λ w. w.piece };

    ghost invariant = { λ w. reached w.piece ≡ record { stop = w.stop; frame = w.frame } };
}

/// Works on a piece. It takes no memory, and a constant time for each of the hop's operations, at most 32.
pub fn work(piece: Piece) -> Worked
    ensures { result ≡ piece }
{
    let mut frame = piece.frame;
    let stop = piece.hop.run(&mut frame);
    Worked { piece, stop, frame }
}

impl Worked {
    /// The piece.
    pub fn piece(&self) -> &Piece
        ensures { result.now ≡ self.now }
    {
        &self.piece
    }

    /// The stop of the piece's hop on its frame. `Trap` comes exactly where the hop's meaning traps.
    pub fn stop(&self) -> Stop
        ensures { result ≡ (reached self.now).stop }
    {
        self.stop
    }

    /// The frame at that stop.
    pub fn frame(&self) -> &Frame
        ensures { result.now ≡ (reached self.now).frame }
    {
        &self.frame
    }
}
