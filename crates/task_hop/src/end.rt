ghost use Rattle.std.specs.Prelude.{◌≡◌, ◌<◌, ℕ, FitsSigned};
ghost use Rattle.std.specs.Int.{w64};
ghost use Rattle.nest_syntax.specs.Arrays.{place_in};
ghost use Rattle.nest_syntax.specs.Words.{variable};
ghost use Rattle.task_hop.specs.Registers.{value_of};
ghost use Rattle.task_hop.specs.Meaning.{ended, jumped, gone, turned, entered, went_again};

use crate::frame::{Frame, Operand, Register};
use crate::rounds::{next_value, turns_of};
use crate::stop::Stop;
use nest_syntax::{Cause, Line};
use word_store::value_in_turn;

/// How a hop ends.
#[derive(Clone, Copy, Debug, PartialEq, Eq)]
pub enum End {
    Load {
        from: Subscript,
        into: u8,
        next: u32,
    },
    Store {
        to: Subscript,
        value: Operand,
        next: u32,
    },
    Go(Jump),
    Finish,
}

/// A subscript of an array of this size. Outside the array it traps on `line`.
#[derive(Clone, Copy, Debug, PartialEq, Eq)]
pub struct Subscript {
    pub array: u32,
    pub size: u64,
    pub at: Operand,
    pub line: Line,
}

/// How a hop leads on where the worker may be interrupted. What it sets there is no operation.
#[derive(Clone, Copy, Debug, PartialEq, Eq)]
pub enum Jump {
    To(u32),
    /// By a test: the way `zero` where it is 0, else the way `other`.
    Branch {
        test: Operand,
        zero: Way,
        other: Way,
    },
    /// The header of a loop, which traps on `line` where the loop has too many turns.
    Enter {
        low: Operand,
        high: Operand,
        through: bool,
        line: Line,
        round: Round,
    },
    /// Behind a turn of a loop.
    Again(Round),
}

/// A way on, which may put a value into a register.
#[derive(Clone, Copy, Debug, PartialEq, Eq)]
pub struct Way {
    pub set: Option<(Register, Operand)>,
    pub next: u32,
}

/// A loop's registers, its step, and the addresses of its body and of what stands behind it. Beside the variable one
/// register holds its value in the present turn, another its value in the last one.
#[derive(Clone, Copy, Debug, PartialEq, Eq)]
pub struct Round {
    pub variable: Register,
    pub value: Register,
    pub last: Register,
    pub step: u64,
    pub body: u32,
    pub behind: u32,
}

impl End {
    /// The stop of this end, and what it sets on the way.
    pub fn stop(&self, frame: &mut Frame) -> Stop
        ensures { ended self.now frame.old ≡ record { stop = result; frame = frame.new } }
    {
        match *self {
            End::Load { from, into, next } => match from.place(frame) {
                Some(place) => Stop::Load {
                    array: from.array,
                    place,
                    into,
                    next,
                },
                None => from.trap(),
            },
            End::Store { to, value, next } => match to.place(frame) {
                Some(place) => Stop::Store {
                    array: to.array,
                    place,
                    value: frame.value(value),
                    next,
                },
                None => to.trap(),
            },
            End::Go(jump) => jump.stop(frame),
            End::Finish => Stop::Finish,
        }
    }
}

impl Subscript {
    // The place inside the array, if it is.
    fn place(&self, frame: &Frame) -> Option<u64>
        ensures { result ≡ place_in self.now.size (value_of frame.now self.now.at) }
    {
        let at = frame.value(self.at);
        if at >= 0 && (at as u64) < self.size {
            Some(at as u64)
        } else {
            None
        }
    }

    fn trap(&self) -> Stop
        ensures { result ≡ Stop.Trap Cause.Index self.now.line }
    {
        Stop::Trap {
            cause: Cause::Index,
            line: self.line,
        }
    }
}

impl Jump {
    fn stop(&self, frame: &mut Frame) -> Stop
        ensures { jumped self.now frame.old ≡ record { stop = result; frame = frame.new } }
    {
        match *self {
            Jump::To(next) => Stop::Go { next },
            Jump::Branch { test, zero, other } => {
                if frame.value(test) == 0 {
                    zero.stop(frame)
                } else {
                    other.stop(frame)
                }
            }
            Jump::Enter {
                low,
                high,
                through,
                line,
                round,
            } => match turns_of(frame.value(low), frame.value(high), round.step, through) {
                Ok(turns) => round.enter(frame.value(low), turns, frame),
                Err(cause) => Stop::Trap { cause, line },
            },
            Jump::Again(round) => round.again(frame),
        }
    }
}

impl Way {
    fn stop(&self, frame: &mut Frame) -> Stop
        ensures { gone self.now frame.old ≡ record { stop = result; frame = frame.new } }
    {
        if let Some((into, from)) = self.set {
            let value = frame.value(from);
            frame.set(into, value);
        }
        Stop::Go { next: self.next }
    }
}

impl Round {
    // The loop is entered, or left where it has no turn.
    fn enter(&self, low: i64, turns: u64, frame: &mut Frame) -> Stop
        requires { (k : ℕ) → k < turns → FitsSigned w64 (variable low self.now.step k) }
        ensures { entered self.now low turns frame.old ≡ record { stop = result; frame = frame.new } }
    {
        if turns == 0 {
            return Stop::Go { next: self.behind };
        }
        let last = value_in_turn(low, self.step, turns - 1);
        frame.set(self.last, last);
        self.turn(low, frame)
    }

    // A further turn, or the loop is left behind the last one.
    fn again(&self, frame: &mut Frame) -> Stop
        ensures { went_again self.now frame.old ≡ record { stop = result; frame = frame.new } }
    {
        let value = frame.get(self.value);
        let last = frame.get(self.last);
        if value < last {
            self.turn(next_value(value, self.step, last), frame)
        } else {
            Stop::Go { next: self.behind }
        }
    }

    // A turn begins in which the variable has this value.
    fn turn(&self, value: i64, frame: &mut Frame) -> Stop
        ensures { turned self.now value frame.old ≡ record { stop = result; frame = frame.new } }
    {
        frame.set(self.value, value);
        frame.set(self.variable, value);
        Stop::Go { next: self.body }
    }
}
