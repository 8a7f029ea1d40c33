ghost use Rattle.std.specs.Prelude.{◌≡◌};
ghost use Rattle.std.specs.Process.{exit_status};
ghost use Rattle.cross_top.specs.Exit.{exit_number};

use std::process::ExitCode;

/// How a call of the program ends.
#[derive(Clone, Copy, Debug, PartialEq, Eq)]
pub enum Status {
    /// The action's text was written.
    Done,
    /// The nest trapped, and the line of the trap was written.
    Trapped,
    /// The command words aren't in the table; the refusal was written.
    WordsRefused,
    /// The input is none that the action takes; the refusal was written.
    TextRefused,
    /// A read failed, and nothing was written.
    ReadFault,
    /// A write failed: what was due was written only in part, from its front, perhaps nothing of it.
    WriteFault,
    /// There was no memory left, and nothing was written.
    NoMemory,
}

/// The end of a call: its status, and the steps of its engine that are handed back. There are none for `big`, for an
/// action without an engine, for a refusal, and where a read failed or memory ran out.
#[derive(Debug, Drop)]
pub struct Ended {
    pub status: Status,
    pub history: Vec<u8>,
}

/// What a process ends with for a status.
pub fn exit_code(status: Status) -> ExitCode
    ensures { exit_status result ≡ exit_number status }
{
    ExitCode::from(exit_number(status))
}

/// The exit number of a status.
fn exit_number(status: Status) -> u8
    ensures { result ≡ exit_number status }
{
    match status {
        Status::Done => 0,
        Status::Trapped => 1,
        Status::WordsRefused => 2,
        Status::TextRefused => 3,
        Status::ReadFault => 4,
        Status::WriteFault => 5,
        Status::NoMemory => 6,
    }
}
