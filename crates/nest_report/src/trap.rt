ghost use Rattle.std.specs.Prelude.{◌≡◌, IfOk};
ghost use Rattle.nest_report.specs.Text.{trap_line, cause_text, moment_text};

use itoa::Buffer;
use nest_syntax::{Cause, NoMemory, Place};
use std::alloc::Global;

/// The line of a trap: `trap CAUSE line L iteration N`, or `.. before iteration N` where the scheduler trapped.
pub fn print_place(alloc: Global, place: &Place) -> Result<Vec<u8>, NoMemory>
    ensures { IfOk result (λ text. text.items ≡ trap_line place.now) }
{
    let mut number = Buffer::new();
    let mut text = Vec::from_slice(alloc, b"trap ")?;
    text.extend_from_slice(cause_text(place.cause))?;
    text.extend_from_slice(b" line ")?;
    text.extend_from_slice(number.format(place.line.0).as_bytes())?;
    text.extend_from_slice(moment_text(place.by_scheduler))?;
    text.extend_from_slice(number.format(place.number).as_bytes())?;
    text.extend_from_slice(b"\n")?;
    Ok(text)
}

fn cause_text(cause: Cause) -> &'static [u8]
    ensures { result.now ≡ cause_text cause }
{
    match cause {
        Cause::Divide => b"divide",
        Cause::Index => b"index",
        Cause::Loop => b"loop",
    }
}

fn moment_text(by_scheduler: bool) -> &'static [u8]
    ensures { result.now ≡ moment_text by_scheduler }
{
    if by_scheduler {
        b" before iteration "
    } else {
        b" iteration "
    }
}
