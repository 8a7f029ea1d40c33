ghost use Rattle.std.specs.Prelude.{◌≡◌, IfErr};
ghost use Rattle.nest_syntax.specs.Words as word;
ghost use Rattle.task_hop.specs.Meaning.{behind, moved};

use crate::frame::{Frame, Operand, Register};
use crate::stop::Stop;
use nest_syntax::{Bin, Cause, Line, Un};
use word_store::{apply, apply_un};

/// A pure operation: a register is computed, or is given a value.
#[derive(Clone, Copy, Debug, PartialEq, Eq)]
pub enum Operation {
    Unary {
        op: Un,
        from: Operand,
        into: Register,
    },
    /// It traps on `line` where a divisor is 0.
    Binary {
        op: Bin,
        left: Operand,
        right: Operand,
        into: Register,
        line: Line,
    },
    Give {
        into: Register,
        value: Operand,
    },
}

impl Default for Operation {
    fn default() -> Operation {
        Operation::Give {
            into: Register::Local(0),
            value: Operand::Held(Register::Local(0)),
        }
    }
}

impl Operation {
    /// Carries the operation out. A trap leaves the frame as it was.
    pub fn carry_out(&self, frame: &mut Frame) -> Result<(), Stop>
        ensures moved { behind self.now frame.old ≡ moved result frame.new }
        ensures kept { IfErr result (λ stop. frame.new ≡ frame.old) }
    {
        match *self {
            Operation::Unary { op, from, into } => {
                let value = apply_un(op, frame.value(from));
                frame.set(into, value);
                Ok(())
            }
            Operation::Binary {
                op,
                left,
                right,
                into,
                line,
            } => match operate(op, frame.value(left), frame.value(right)) {
                Ok(value) => {
                    frame.set(into, value);
                    Ok(())
                }
                Err(cause) => Err(Stop::Trap { cause, line }),
            },
            Operation::Give { into, value } => {
                let value = frame.value(value);
                frame.set(into, value);
                Ok(())
            }
        }
    }
}

// Any binary operation of two words, `&&` and `||` of two that are both known among them.
fn operate(op: Bin, left: i64, right: i64) -> Result<i64, Cause>
    ensures { result ≡ word.apply op left right }
{
    match op {
        Bin::Both => Ok(flag(left != 0 && right != 0)),
        Bin::Either => Ok(flag(left != 0 || right != 0)),
        other => apply(other, left, right),
    }
}

fn flag(holds: bool) -> i64
    ensures { result ≡ word.flag holds }
{
    if holds { 1 } else { 0 }
}
