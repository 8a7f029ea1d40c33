ghost use Rattle.std.specs.Prelude.{◌≡◌, ℕ, List, IfOk, OnOk};
ghost use Rattle.nest_syntax.specs.Words as word;
ghost use Rattle.task_code.specs.Compiled.{Emits, GivesBy, WritesBy};
ghost use Rattle.task_code.specs.Sized.{IsOfArray, StaysSized};

use crate::code::Instruction;
use crate::expressions::emit;
use nest_syntax::{Bin, Line, NoMemory, Op};
use task_hop::{End, Operand, Operation, Register, Subscript};

/// Adds what gives a register the value of an operand, by `=` or by `op=`, which reads the register then.
#[tactic(auto, using(crate::proofs::Sized::sized_made, crate::proofs::Sized::sized_then, crate::proofs::Sized::sized_after))]
pub(crate) fn give(
    register: Register,
    op: Op,
    value: Operand,
    into: u8,
    line: Line,
    next: u32,
    code: &mut Vec<Instruction>,
) -> Result<u32, NoMemory>
    ensures code { IfOk result (λ entry. Emits code.old.items code.new.items (λ c. GivesBy (word.operation_of op) register value into line next c entry)) }
    ensures sized { (sizes : List ℕ) → OnOk result (StaysSized sizes code.old.items code.new.items) }
{
    match operation(op) {
        None => emit(code, giving(register, value, next)),
        Some(op) => {
            let new = Operand::Held(Register::Temporary(into));
            let give = emit(code, giving(register, new, next))?;
            emit(
                code,
                computing(op, Operand::Held(register), value, into, line, give),
            )
        }
    }
}

/// Adds what writes the value of an operand to a word, by `=` or by `op=`, which reads the word into a temporary first.
#[tactic(auto, using(crate::proofs::Sized::sized_made, crate::proofs::Sized::sized_then, crate::proofs::Sized::sized_after))]
pub(crate) fn write(
    to: Subscript,
    op: Op,
    value: Operand,
    into: u8,
    line: Line,
    next: u32,
    code: &mut Vec<Instruction>,
) -> Result<u32, NoMemory>
    ensures code { IfOk result (λ entry. Emits code.old.items code.new.items (λ c. WritesBy (word.operation_of op) to value into line next c entry)) }
    ensures sized { (sizes : List ℕ) → IsOfArray sizes to → OnOk result (StaysSized sizes code.old.items code.new.items) }
{
    match operation(op) {
        None => emit(code, storing(to, value, next)),
        Some(op) => {
            let word = Operand::Held(Register::Temporary(into));
            let store = emit(code, storing(to, word, next))?;
            let calculate = emit(code, computing(op, word, value, into, line, store))?;
            emit(
                code,
                Instruction::End(End::Load {
                    from: to,
                    into,
                    next: calculate,
                }),
            )
        }
    }
}

fn giving(into: Register, value: Operand, next: u32) -> Instruction
    ensures { result ≡ Instruction.Then (Operation.Give into value) next }
{
    Instruction::Then(Operation::Give { into, value }, next)
}

fn storing(to: Subscript, value: Operand, next: u32) -> Instruction
    ensures { result ≡ Instruction.End (End.Store to value next) }
{
    Instruction::End(End::Store { to, value, next })
}

fn computing(op: Bin, left: Operand, right: Operand, into: u8, line: Line, next: u32) -> Instruction
    ensures { result ≡ Instruction.Then (Operation.Binary op left right (Register.Temporary into) line) next }
{
    Instruction::Then(
        Operation::Binary {
            op,
            left,
            right,
            into: Register::Temporary(into),
            line,
        },
        next,
    )
}

// The operation of an `op=`, none for `=`.
fn operation(op: Op) -> Option<Bin>
    ensures { result ≡ word.operation_of op }
{
    match op {
        Op::Set => None,
        Op::Add => Some(Bin::Add),
        Op::Sub => Some(Bin::Sub),
        Op::Mul => Some(Bin::Mul),
        Op::Div => Some(Bin::Div),
        Op::Rem => Some(Bin::Rem),
        Op::Shl => Some(Bin::Shl),
        Op::Shr => Some(Bin::Shr),
        Op::And => Some(Bin::And),
        Op::Xor => Some(Bin::Xor),
        Op::Or => Some(Bin::Or),
    }
}
