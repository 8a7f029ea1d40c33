//! Tells what a machine of `domore` answers where it is given work: a stale one is told, and changes nothing.
//!
//! Standard input has parts with an empty line between them: a nest, a line `steps`, and rows `ACTOR WORK`. The machine has
//! two workers with queues for one iteration. A row gives the machine what the actor is said to have done: the row of the
//! step table that is named, or `piece`, the piece that the actor is asked to work on; `keep` gives nothing and keeps
//! that piece, `kept` gives it. Behind each row stands what comes of it: the row that was made with its number, or `stale`
//! with what the actor is asked for; and then what each actor is asked for, `-` where it has to wait and `.` where its part
//! is ended. `stdout` has what is wanted, worked out by hand.
#![tactic(auto)]

mod rows;

ghost use Rattle.std.specs.Prelude.{◌≡◌};
ghost use Rattle.progress_board.specs.Options.{IsInRange};

use domore_core::Domore;
use nest_input::{read_nest, read_words};
use nest_io::{StdSink, StdSource, put_all, take_all};
use nest_mean::Job;
use progress_board::{Engine, Options, Sign};
use rows::add_rows;
use std::alloc::Global;
use std::fmt::Write;
use std::process::ExitCode;

fn main(rt: HostRuntime) -> ExitCode {
    match answers(&rt) {
        Some(text) if put_all(&mut StdSink::new(&rt), text.as_bytes()).is_ok() => ExitCode::SUCCESS,
        _ => ExitCode::FAILURE,
    }
}

/// The rows, each with what comes of it; nothing where one can't be read.
fn answers(rt: &HostRuntime) -> Option<String> {
    let bytes = take_all(rt.alloc(), &mut StdSource::new(rt)).ok()?;
    let parts = str::from_utf8(bytes.as_slice()).ok()?;
    let mut text = String::new(rt.alloc());
    for part in parts.split("\n\n") {
        add_part(rt.alloc(), part, &mut text)?;
    }
    Some(text)
}

/// Appends a nest and its rows, each with what comes of it.
fn add_part(alloc: Global, part: &str, text: &mut String) -> Option<()> {
    let (nest, rows) = part.split_once("steps\n")?;
    writeln!(text, "{nest}steps").ok()?;
    let mut machine = open(alloc, nest.as_bytes())?;
    add_rows(&mut machine, rows, text)?;
    writeln!(text).ok()
}

/// A machine on a nest.
fn open(alloc: Global, nest: &[u8]) -> Option<Domore> {
    if nest.len() > 1000 {
        return None;
    }
    let checked = read_nest(alloc, nest).ok()?;
    let words = read_words(alloc, nest, &checked).ok()?;
    Domore::open(alloc, Job::new(checked, words), options()).ok()
}

fn options() -> Options
    ensures allowed { IsInRange result }
    ensures engine { result.engine ≡ Engine.Domore }
    ensures workers { result.workers ≡ 2 }
{
    Options {
        engine: Engine::Domore,
        workers: 2,
        queue: 1,
        sign: Sign::Range,
        segment: 16,
        distance: 4,
    }
}
