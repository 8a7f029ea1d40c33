ghost use Rattle.std.specs.Prelude.{◌≡◌, ◌<◌, length};
ghost use Rattle.nest_setup.specs.Pieces.{opening_piece};

use task_code::TaskCode;
use task_frame::{Piece, opening};

/// The piece with which an iteration begins that is handed out with these scalars.
pub(crate) fn first_piece(code: &TaskCode, body: u32, value: i64, env: &[i64; 32]) -> Piece
    requires { body < length code.now.entries }
    ensures { result ≡ opening_piece code.now (record { body = body; value = value; env = env.now }) }
{
    opening(code, body, value, env)
}
