//! Spots of a text: lines and columns.
ghost use Rattle.std.specs.Prelude.{◌≡◌, ◌≤◌, ◌<◌, ◌^◌, length};
ghost use Rattle.nest_lex.specs.Spots.{spot_of};

use crate::token::Spot;

/// The spot of the first byte of a text.
pub const START: Spot = Spot { line: 1, column: 1 };

/// The spot of the byte `to` of a text, from that of the byte `from` before it.
#[tactic(auto, using(crate::proofs::Spots::line_small, crate::proofs::Spots::column_small))]
pub fn spot_after(bytes: &[u8], from: usize, to: usize, spot: Spot) -> Spot
    requires small { length bytes.now ≤ 33554432 }
    requires ordered { from ≤ to }
    requires within { to ≤ length bytes.now }
    requires spot { spot ≡ spot_of bytes.now from }
    ensures { result ≡ spot_of bytes.now to }
{
    let mut line = spot.line;
    let mut column = spot.column;
    for at in from..to {
        if bytes[at] == b'\n' {
            line += 1;
            column = 1;
        } else {
            column += 1;
        }
    }
    Spot { line, column }
}
