//! Runs calls of `cross_main` whose actors have threads, with a gate that holds worker 0 up, and prints how each ends and
//! what it wrote.
//!
//! A row of standard input is a line `call HELD NUMBER AWAITED NUMBER WORDS`, and then an input. Worker 0 is held after its
//! step HELD until worker 1 has made its step AWAITED, each with its number. `stdout` has what is wanted, worked out by
//! hand: that this came about, so that the two have threads of their own, and that the gate was called as often for each
//! actor as it stands in the history, so that no step was made by another thread.
#![tactic(auto)]

mod holding;

use cross_top::cross_main;
use holding::Holding;
use nest_io::{MemorySink, MemorySource, StdSink, StdSource, put_all, take_all};
use progress_board::{Made, Row};
use std::alloc::{AllocError, Global};
use std::fmt::Write;
use std::io::Input;
use std::process::ExitCode;
use std::sync::Wait;
use std::thread::Threads;

const HEAD: &str = "call ";

fn main(rt: HostRuntime) -> ExitCode {
    match answers(&rt) {
        Some(text) if put_all(&mut StdSink::new(&rt), text.as_bytes()).is_ok() => ExitCode::SUCCESS,
        _ => ExitCode::FAILURE,
    }
}

/// What comes of the rows; nothing where they can't be read or one is no row.
fn answers<R: Input + AllocGlobal + Threads + Wait + Sync>(rt: &R) -> Option<String> {
    let bytes = take_all(rt.alloc(), &mut StdSource::new(rt)).ok()?;
    let rows = str::from_utf8(bytes.as_slice()).ok()?.strip_prefix(HEAD)?;
    let mut text = String::new(rt.alloc());
    for row in rows.split("\ncall ") {
        answer(rt, rt.alloc(), row, &mut text)?;
    }
    Some(text)
}

/// Appends what comes of a row: its head, the status, what the gate saw, and what was written.
fn answer<R: Threads + Wait + Sync>(
    rt: &R,
    alloc: Global,
    row: &str,
    text: &mut String,
) -> Option<()> {
    let (head, input) = row.split_once('\n')?;
    let (held, rest) = step_of(head)?;
    let (awaited, words) = step_of(rest)?;
    let gate = Holding::new(held, awaited);
    let words = words_of(alloc, words).ok()?;
    let bytes = Vec::from_slice(alloc, input.as_bytes()).ok()?;
    let mut source = MemorySource::new(bytes, 7, Vec::new(alloc));
    let mut sink = MemorySink::new(alloc, 1000, 4, Vec::new(alloc)).ok()?;
    let ended = cross_main(rt, alloc, words.as_slice(), &mut source, &mut sink, &gate);
    let (was_held, saw_all) = (gate.has_held(), gate.saw_all(ended.history.as_slice()));
    let written = str::from_utf8(sink.bytes()).ok()?;
    writeln!(
        text,
        "{HEAD}{head}\n{:?}\nheld until then: {was_held}\neach step was told: {saw_all}\n{written}",
        ended.status
    )
    .ok()
}

/// A step by its row and its number, and what stands behind them.
fn step_of(text: &str) -> Option<(Made, &str)> {
    let (name, rest) = text.split_once(' ')?;
    let (number, rest) = rest.split_once(' ')?;
    let row = row_of(name)?;
    let number = number.parse().ok()?;
    Some((Made { row, number }, rest))
}

/// The row of a name.
fn row_of(name: &str) -> Option<Row> {
    match name {
        "Take" => Some(Row::Take),
        "Begin" => Some(Row::Begin),
        "Finish" => Some(Row::Finish),
        _ => None,
    }
}

/// The words of a line.
fn words_of(alloc: Global, line: &str) -> Result<Vec<String>, AllocError> {
    let mut words = Vec::new(alloc);
    for word in line.split_whitespace() {
        words.push(String::from_str(alloc, word)?)?;
    }
    Ok(words)
}
