ghost use Rattle.std.specs.Prelude.{◌≡◌, ◌<◌, ◌-◌, ◌≤◌, ◌+◌, length};
ghost use Rattle.nest_setup.specs.Pieces.{opening_piece};
ghost use Rattle.sched_cursor.specs.Turning.{Reaches};
ghost use Rattle.spec_setup.specs.Setups.{handed};
ghost use Rattle.spec_core.specs.Blocks.{invocation_in};

use epoch_plan::Epoch;
use task_code::TaskCode;
use task_frame::{Piece, opening};
use word_store::value_in_turn;

/// The piece with which an iteration of an epoch begins.
pub(crate) fn first_piece(code: &TaskCode, epoch: &Epoch, number: u64) -> Piece
    requires body { epoch.now.body < length code.now.entries }
    requires reach { Reaches epoch.now.low epoch.now.step epoch.now.trips }
    requires from { epoch.now.first ≤ number }
    requires to { number < epoch.now.first + epoch.now.trips }
    ensures { result ≡ opening_piece code.now (handed (invocation_in epoch.now) (number - epoch.now.first)) }
{
    let value = value_in_turn(epoch.low, epoch.step, number - epoch.first);
    opening(code, epoch.body, value, &epoch.env)
}
