//! The program `cross`: `cross_main` of `cross_top` over the command words and the standard streams.
#![tactic(auto)]

use cross_crew::OpenGate;
use cross_top::{Status, cross_main, exit_code};
use nest_io::{StdSink, StdSource};
use nest_syntax::NoMemory;
use std::env;
use std::io::{ErrorKind, Input, Print};
use std::process::ExitCode;
use std::rt::Env;
use std::sync::Wait;
use std::thread::Threads;

fn main(rt: HostRuntime) -> ExitCode {
    exit_code(cross(&rt))
}

/// A call with the words and the streams of the process.
fn cross<R: Env + Input + Print + AllocGlobal + Threads + Wait + Sync>(rt: &R) -> Status {
    let Ok(words) = command_words(rt) else {
        return Status::NoMemory;
    };
    let mut source = StdSource::new(rt);
    let mut sink = StdSink::new(rt);
    let alloc = rt.alloc();
    let ended = cross_main(
        rt,
        alloc,
        words.as_slice(),
        &mut source,
        &mut sink,
        &OpenGate,
    );
    ended.status
}

/// The words after the program's name. Where one isn't UTF-8 there are none, which the table refuses.
fn command_words<R: Env + AllocGlobal>(rt: &R) -> Result<Vec<String>, NoMemory> {
    let mut words = Vec::new(rt.alloc());
    match env::args(rt) {
        Ok(arguments) => {
            for word in arguments.skip(1) {
                words.push(word)?;
            }
            Ok(words)
        }
        Err(error) if error.kind() == ErrorKind::OutOfMemory => Err(NoMemory),
        Err(_) => Ok(words),
    }
}
