//! The steps of a run, as text.
ghost use Rattle.std.specs.Prelude.{◌≡◌, IfOk};
ghost use Rattle.nest_report.specs.Steps as step;

use itoa::Buffer;
use nest_syntax::NoMemory;
use std::alloc::Global;

/// The line `steps`, and then the steps as numbers with single spaces between them, 32 on a line and the rest on the last
/// one.
pub fn print_steps(alloc: Global, history: &[u8]) -> Result<Vec<u8>, NoMemory>
    ensures { IfOk result (λ text. text.items ≡ step.steps_text history.now) }
{
    let mut number = Buffer::new();
    let mut text = Vec::from_slice(alloc, b"steps")?;
    for index in 0..history.len() {
        text.push(before(index))?;
        text.extend_from_slice(number.format(history[index]).as_bytes())?;
    }
    text.push(b'\n')?;
    Ok(text)
}

// What stands before the step with this number, from 0.
fn before(number: usize) -> u8
    ensures { result ≡ step.before number }
{
    if number % 32 == 0 { b'\n' } else { b' ' }
}
