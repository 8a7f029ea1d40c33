//! The words of an input.
ghost use Rattle.std.specs.Prelude.{◌≤◌, IfOk, length};
ghost use Rattle.word_store.specs.Memory.{HasLayout};
ghost use Rattle.nest_input.specs.Input.{SaysWords, Tells};

use crate::refused::{InputRefused, Refusal};
use nest_check::Checked;
use nest_data::{DataRefused, read_data};
use nest_lex::parts;
use std::alloc::Global;
use word_store::Words;

/// The words that the data lines of an input give the arrays of a program, or the first faulty line with the first of
/// its faults. An array without a line is all zeros.
pub fn read_words(alloc: Global, input: &[u8], checked: &Checked) -> Result<Words, InputRefused>
    requires { length input.now ≤ 33554432 }
    ensures said { Tells (SaysWords input.now checked.now) result }
    ensures sizes { IfOk result (λ words. HasLayout words checked.now.decls) }
{
    let parts = parts(input);
    let lines = match parts.values {
        Some((start, end)) => &input[start..end],
        None => &[],
    };
    match read_data(alloc, lines, parts.data_line, checked) {
        Ok(words) => Ok(words),
        Err(DataRefused::Line { kind, line }) => {
            Err(InputRefused::Refused(Refusal::Data { kind, line }))
        }
        Err(DataRefused::NoMemory) => Err(InputRefused::NoMemory),
    }
}
