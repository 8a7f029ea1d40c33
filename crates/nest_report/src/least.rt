//! The least distance, as text.
ghost use Rattle.std.specs.Prelude.{◌≡◌, IfOk};
ghost use Rattle.nest_report.specs.Text.{distance_text, least_line};

use itoa::Buffer;
use nest_syntax::NoMemory;
use std::alloc::Global;

/// The line `least distance N`, or `least distance none` where there is none.
pub fn print_least(alloc: Global, least: Option<u64>) -> Result<Vec<u8>, NoMemory>
    ensures { IfOk result (λ text. text.items ≡ least_line least) }
{
    let mut number = Buffer::new();
    let mut text = Vec::from_slice(alloc, b"least distance ")?;
    text.extend_from_slice(distance(least, &mut number))?;
    text.push(b'\n')?;
    Ok(text)
}

fn distance(least: Option<u64>, number: &mut Buffer) -> &[u8]
    ensures { result.now ≡ distance_text least }
{
    match least {
        Some(least) => number.format(least).as_bytes(),
        None => b"none",
    }
}
