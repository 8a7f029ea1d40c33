//! Runs calls of `cross_quiet` over streams in memory, as the rows of standard input ask, and prints how each ends and
//! what it wrote.
//!
//! A row is a line `call READ WRITE LENGTH WORDS`, and then its input. An empty line stands between two rows. READ
//! and WRITE are the numbers, from 0, of the read and of the write that fail. The input is filled up with white space
//! to LENGTH bytes.
//! The source gives 7 bytes a read, the sink takes 4 a write. `stdout` has what is wanted, worked out by hand.
#![tactic(auto)]

use cross_top::cross_quiet;
use nest_io::{MemorySink, MemorySource, StdSink, StdSource, put_all, take_all};
use std::alloc::{AllocError, Global};
use std::fmt::Write;
use std::process::ExitCode;

const HEAD: &str = "call ";

fn main(rt: HostRuntime) -> ExitCode {
    match answers(&rt) {
        Some(text) if put_all(&mut StdSink::new(&rt), text.as_bytes()).is_ok() => ExitCode::SUCCESS,
        _ => ExitCode::FAILURE,
    }
}

/// What comes of the rows; nothing where they can't be read or one is no row.
fn answers(rt: &HostRuntime) -> Option<String> {
    let bytes = take_all(rt.alloc(), &mut StdSource::new(rt)).ok()?;
    let rows = str::from_utf8(bytes.as_slice()).ok()?.strip_prefix(HEAD)?;
    let mut text = String::new(rt.alloc());
    for row in rows.split("\ncall ") {
        answer(rt.alloc(), row, &mut text)?;
    }
    Some(text)
}

/// Appends what comes of a row: its head, the status, and what was written, on lines of their own.
fn answer(alloc: Global, row: &str, text: &mut String) -> Option<()> {
    let (head, input) = row.split_once('\n')?;
    let (read, rest) = head.split_once(' ')?;
    let (write, rest) = rest.split_once(' ')?;
    let (length, words) = rest.split_once(' ')?;
    let words = words_of(alloc, words).ok()?;
    let bytes = filled(alloc, input, length.parse().ok()?).ok()?;
    let mut source = MemorySource::new(bytes, 7, vec![in alloc; read.parse().ok()?].ok()?);
    let mut sink = MemorySink::new(alloc, 1000, 4, vec![in alloc; write.parse().ok()?].ok()?).ok()?;
    let ended = cross_quiet(alloc, words.as_slice(), &mut source, &mut sink);
    let written = str::from_utf8(sink.bytes()).ok()?;
    writeln!(text, "{HEAD}{head}\n{:?}\n{written}", ended.status).ok()
}

/// The words of a line.
fn words_of(alloc: Global, line: &str) -> Result<Vec<String>, AllocError> {
    let mut words = Vec::new(alloc);
    for word in line.split_whitespace() {
        words.push(String::from_str(alloc, word)?)?;
    }
    Ok(words)
}

/// An input, with white space behind it up to so many bytes.
fn filled(alloc: Global, input: &str, length: usize) -> Result<Vec<u8>, AllocError> {
    let mut bytes = Vec::from_slice(alloc, input.as_bytes())?;
    for number in bytes.len()..length {
        bytes.push(if number % 64 == 0 { b'\n' } else { b' ' })?;
    }
    Ok(bytes)
}
