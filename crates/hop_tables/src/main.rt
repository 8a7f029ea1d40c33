//! Tells where bodies are cut into hops: runs an iteration of each body that the rows of standard input have, and prints
//! its stops, each with the number of pure operations before it.
//!
//! A row is some lines `TIMES TEXT`, whose texts are the body, each so often. An empty line stands between two rows. All
//! scalars are 0, and the words are those of `TAIL`. A stop is a read (L) or a write (S) of a word, a point where the
//! worker may be interrupted (G), the end (F), or a trap by a divisor (D), by a subscript (I) or by the turns of a
//! loop (T). `stdout` has what is wanted, worked out by hand.
#![tactic(auto)]

use nest_input::{read_nest, read_words};
use nest_io::{StdSink, StdSource, put_all, take_all};
use nest_syntax::Cause;
use std::alloc::Global;
use std::fmt::Write;
use std::process::ExitCode;
use task_code::compile;
use task_frame::{Frame, Piece, Stop, Worked, opening, work};
use task_hop::Register;
use word_store::Words;

const HEAD: &str = "long a[4];
const long ix[4];
for (long t = 0; t < 1; t++) {
  for (long i = 0; i < 1; i++) {
";

const TAIL: &str = "  }
}
data
a 3 5 0 0
ix 2 0 1 3
";

fn main(rt: HostRuntime) -> ExitCode {
    match answers(&rt) {
        Some(text) if put_all(&mut StdSink::new(&rt), text.as_bytes()).is_ok() => ExitCode::SUCCESS,
        _ => ExitCode::FAILURE,
    }
}

/// The rows, each with its stops behind it; nothing where one can't be read.
fn answers(rt: &HostRuntime) -> Option<String> {
    let bytes = take_all(rt.alloc(), &mut StdSource::new(rt)).ok()?;
    let rows = str::from_utf8(bytes.as_slice()).ok()?;
    let mut text = String::new(rt.alloc());
    for row in rows.split("\n\n") {
        let nest = nest_of(rt.alloc(), row, &mut text)?;
        add_stops(rt.alloc(), nest.as_bytes(), &mut text)?;
    }
    Some(text)
}

/// The nest with a row's body. The row goes into the text.
fn nest_of(alloc: Global, row: &str, text: &mut String) -> Option<String> {
    let mut nest = String::from_str(alloc, HEAD).ok()?;
    for line in row.lines() {
        writeln!(text, "{line}").ok()?;
        let (times, part) = line.split_once(' ')?;
        let times: u8 = times.parse().ok()?;
        for _time in 0..times {
            writeln!(nest, "{part}").ok()?;
        }
    }
    nest.push_str(TAIL).ok()?;
    Some(nest)
}

/// Appends the stops of an iteration of the nest's body.
fn add_stops(alloc: Global, nest: &[u8], text: &mut String) -> Option<()> {
    if nest.len() > 1000 {
        return None;
    }
    let checked = read_nest(alloc, nest).ok()?;
    let mut words = read_words(alloc, nest, &checked).ok()?;
    let code = compile(alloc, &checked).ok()?;
    if code.bodies() == 0 {
        return None;
    }
    let mut piece = opening(&code, 0, 0, &[0; 32]);
    for _stop in 0..100 {
        let worked = work(piece);
        write!(text, "{}{} ", operations(&worked), letter(worked.stop())).ok()?;
        let mut frame = *worked.frame();
        let Some(next) = behind(worked.stop(), &mut frame, &mut words) else {
            break;
        };
        piece = Piece {
            hop: code.hop(next),
            frame,
        };
    }
    writeln!(text, "\n").ok()
}

/// The pure operations that a piece carries out before its stop.
fn operations(worked: &Worked) -> usize {
    let mut frame = worked.piece().frame;
    let operations = worked.piece().hop.operations.as_slice();
    for (index, operation) in operations.iter().enumerate() {
        if operation.carry_out(&mut frame).is_err() {
            return index;
        }
    }
    operations.len()
}

fn letter(stop: Stop) -> char {
    match stop {
        Stop::Load { .. } => 'L',
        Stop::Store { .. } => 'S',
        Stop::Go { .. } => 'G',
        Stop::Finish => 'F',
        Stop::Trap { cause, .. } => match cause {
            Cause::Divide => 'D',
            Cause::Index => 'I',
            Cause::Loop => 'T',
        },
    }
}

/// Does what a stop asks for, and answers the address of the hop behind it, where there is one.
fn behind(stop: Stop, frame: &mut Frame, words: &mut Words) -> Option<u32> {
    match stop {
        Stop::Load {
            array,
            place,
            into,
            next,
        } => {
            if array as usize >= words.arrays() {
                return None;
            }
            let word = words.load(array, i64::try_from(place).ok()?)?;
            frame.set(Register::Temporary(into), word);
            Some(next)
        }
        Stop::Store {
            array,
            place,
            value,
            next,
        } => {
            if array as usize >= words.arrays() {
                return None;
            }
            words
                .store(array, i64::try_from(place).ok()?, value)
                .then_some(next)
        }
        Stop::Go { next } => Some(next),
        Stop::Finish => None,
        Stop::Trap { .. } => None,
    }
}
