//! Prints what comes of rows of command words, of step words and of accesses, which standard input has.
//!
//! An empty line stands between two rows. What the first word of a row says, comes of it:
//! - `cross WORDS`: the call that the words say. A space parts two words, so two spaces have an empty word between them.
//! - `text NAME WORDS`: the text that the words give to a name.
//! - `steps WORKERS`, and then lines of step words: the actors that they name, or the number of the first that names none.
//! - `accesses LIST`: the first pair out of order, and the three words, of two arrays, that the accesses settle to where
//!   each was 9. `w1.2=5` is a write of task 1, which leaves 5 in word 2, and `r1.2=5` a read of the same.
//!
//! `stdout` has what is wanted, worked out by hand.
#![tactic(auto)]

mod accesses;
mod words;

use crate::accesses::add_order;
use crate::words::{add_call, add_steps, add_text};
use nest_io::{StdSink, StdSource, put_all, take_all};
use std::alloc::{AllocError, Global};
use std::process::ExitCode;

fn main(rt: HostRuntime) -> ExitCode {
    match answers(&rt) {
        Some(text) if put_all(&mut StdSink::new(&rt), text.as_bytes()).is_ok() => ExitCode::SUCCESS,
        _ => ExitCode::FAILURE,
    }
}

/// The rows, each with what comes of it; nothing where one can't be read.
fn answers(rt: &HostRuntime) -> Option<String> {
    let bytes = take_all(rt.alloc(), &mut StdSource::new(rt)).ok()?;
    let rows = str::from_utf8(bytes.as_slice()).ok()?.strip_suffix('\n')?;
    let mut text = String::new(rt.alloc());
    for row in rows.split("\n\n") {
        text.push_str(row).ok()?;
        text.push('\n').ok()?;
        add_answer(rt.alloc(), row, &mut text)?;
        text.push_str("\n\n").ok()?;
    }
    Some(text)
}

/// Appends what comes of a row.
fn add_answer(alloc: Global, row: &str, text: &mut String) -> Option<()> {
    let (line, behind) = row.split_once('\n').unwrap_or((row, ""));
    let parts = parts_of(alloc, line).ok()?;
    let (kind, parts) = parts.as_slice().split_first()?;
    match kind.as_str() {
        "cross" => add_call(alloc, parts, text),
        "text" => add_text(alloc, parts, text),
        "steps" => add_steps(alloc, parts, behind.as_bytes(), text),
        "accesses" => add_order(alloc, parts, text),
        _ => None,
    }
}

/// What the spaces of a line part.
fn parts_of(alloc: Global, line: &str) -> Result<Vec<String>, AllocError> {
    let mut parts = Vec::new(alloc);
    for part in line.split(' ') {
        parts.push(String::from_str(alloc, part)?)?;
    }
    Ok(parts)
}
