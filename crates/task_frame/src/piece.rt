ghost use Rattle.std.specs.Prelude.{◌≡◌, ◌<◌, length};
ghost use Rattle.task_frame.specs.Pieces.{piece_at, opening_of};

use arrayvec::ArrayVec;
use task_code::TaskCode;
use task_hop::{Frame, Hop, Register};

/// A hop, with the frame that it begins on.
#[derive(Debug, Drop, PartialEq, Eq)]
pub struct Piece {
    pub hop: Hop,
    pub frame: Frame,
}

impl Piece {
    /// The same piece again.
    pub fn copy(&self) -> Piece
        ensures { result ≡ self.now }
    {
        Piece {
            hop: copy_of(&self.hop),
            frame: self.frame,
        }
    }
}

fn copy_of(hop: &Hop) -> Hop
    ensures { result ≡ hop.now }
{
    let mut operations = ArrayVec::new();
    for operation in hop.operations.as_slice() {
        operations.push(*operation);
    }
    Hop {
        operations,
        end: hop.end,
    }
}

/// The piece at an address, with the frame that it begins on.
pub fn piece_at(code: &TaskCode, at: u32, frame: Frame) -> Piece
    ensures { result ≡ piece_at code.now at frame }
{
    Piece {
        hop: code.hop(at),
        frame,
    }
}

/// The piece with which an iteration of a body begins: the hop at the body's entry, with the scheduler scalars `env`, the
/// invocation's variable `value`, and 0 in every other register.
pub fn opening(code: &TaskCode, body: u32, value: i64, env: &[i64; 32]) -> Piece
    requires { body < length code.now.entries }
    ensures { result ≡ opening_of code.now body value env.now }
{
    let mut frame = Frame {
        env: *env,
        locals: [0; 16],
        temps: [0; 32],
    };
    if let Some(slot) = code.slot(body) {
        frame.set(Register::Local(slot), value);
    }
    piece_at(code, code.entry(body), frame)
}
