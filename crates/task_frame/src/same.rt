//! Whether two pieces are the same, part by part.
ghost use Rattle.std.specs.Prelude.{◌≡◌, ◌↔◌, IsTrue};

use crate::piece::Piece;
use task_hop::{End, Frame, Hop, Jump, Operand, Operation, Register, Round, Subscript, Way};

impl Piece {
    /// Whether the two are the same piece.
    pub fn is_same(&self, other: &Piece) -> bool
        ensures { IsTrue result ↔ (self.now ≡ other.now) }
    {
        same_frames(&self.frame, &other.frame) && same_hops(&self.hop, &other.hop)
    }
}

fn same_frames(one: &Frame, other: &Frame) -> bool
    ensures { IsTrue result ↔ (one.now ≡ other.now) }
{
    same_values(&one.env, &other.env)
        && same_values(&one.locals, &other.locals)
        && same_values(&one.temps, &other.temps)
}

fn same_values(some: &[i64], others: &[i64]) -> bool
    ensures { IsTrue result ↔ (some.now ≡ others.now) }
{
    some == others
}

fn same_hops(one: &Hop, other: &Hop) -> bool
    ensures { IsTrue result ↔ (one.now ≡ other.now) }
{
    same_end(one.end, other.end)
        && same_operations(one.operations.as_slice(), other.operations.as_slice())
}

fn same_operations(some: &[Operation], others: &[Operation]) -> bool
    ensures { IsTrue result ↔ (some.now ≡ others.now) }
{
    if some.len() != others.len() {
        return false;
    }
    for k in 0..some.len() {
        if !same_operation(some[k], others[k]) {
            return false;
        }
    }
    true
}

fn same_operation(one: Operation, other: Operation) -> bool
    ensures { IsTrue result ↔ (one ≡ other) }
{
    match (one, other) {
        (
            Operation::Unary { op, from, into },
            Operation::Unary {
                op: op_too,
                from: from_too,
                into: into_too,
            },
        ) => op == op_too && same_operand(from, from_too) && same_register(into, into_too),
        (
            Operation::Binary {
                op,
                left,
                right,
                into,
                line,
            },
            Operation::Binary {
                op: op_too,
                left: left_too,
                right: right_too,
                into: into_too,
                line: line_too,
            },
        ) => {
            op == op_too
                && same_operand(left, left_too)
                && same_operand(right, right_too)
                && same_register(into, into_too)
                && line == line_too
        }
        (
            Operation::Give { into, value },
            Operation::Give {
                into: into_too,
                value: value_too,
            },
        ) => same_register(into, into_too) && same_operand(value, value_too),
        _ => false,
    }
}

fn same_end(one: End, other: End) -> bool
    ensures { IsTrue result ↔ (one ≡ other) }
{
    match (one, other) {
        (
            End::Load { from, into, next },
            End::Load {
                from: from_too,
                into: into_too,
                next: next_too,
            },
        ) => same_subscript(from, from_too) && into == into_too && next == next_too,
        (
            End::Store { to, value, next },
            End::Store {
                to: to_too,
                value: value_too,
                next: next_too,
            },
        ) => same_subscript(to, to_too) && same_operand(value, value_too) && next == next_too,
        (End::Go(jump), End::Go(jump_too)) => same_jump(jump, jump_too),
        (End::Finish, End::Finish) => true,
        _ => false,
    }
}

fn same_jump(one: Jump, other: Jump) -> bool
    ensures { IsTrue result ↔ (one ≡ other) }
{
    match (one, other) {
        (Jump::To(next), Jump::To(next_too)) => next == next_too,
        (
            Jump::Branch { test, zero, other },
            Jump::Branch {
                test: test_too,
                zero: zero_too,
                other: other_too,
            },
        ) => same_operand(test, test_too) && same_way(zero, zero_too) && same_way(other, other_too),
        (
            Jump::Enter {
                low,
                high,
                through,
                line,
                round,
            },
            Jump::Enter {
                low: low_too,
                high: high_too,
                through: through_too,
                line: line_too,
                round: round_too,
            },
        ) => {
            same_operand(low, low_too)
                && same_operand(high, high_too)
                && through == through_too
                && line == line_too
                && same_round(round, round_too)
        }
        (Jump::Again(round), Jump::Again(round_too)) => same_round(round, round_too),
        _ => false,
    }
}

fn same_subscript(one: Subscript, other: Subscript) -> bool
    ensures { IsTrue result ↔ (one ≡ other) }
{
    one.array == other.array
        && one.size == other.size
        && same_operand(one.at, other.at)
        && one.line == other.line
}

fn same_round(one: Round, other: Round) -> bool
    ensures { IsTrue result ↔ (one ≡ other) }
{
    same_register(one.variable, other.variable)
        && same_register(one.value, other.value)
        && same_register(one.last, other.last)
        && one.step == other.step
        && one.body == other.body
        && one.behind == other.behind
}

fn same_way(one: Way, other: Way) -> bool
    ensures { IsTrue result ↔ (one ≡ other) }
{
    same_setting(one.set, other.set) && one.next == other.next
}

fn same_setting(one: Option<(Register, Operand)>, other: Option<(Register, Operand)>) -> bool
    ensures { IsTrue result ↔ (one ≡ other) }
{
    match (one, other) {
        (Some((into, from)), Some((into_too, from_too))) => {
            same_register(into, into_too) && same_operand(from, from_too)
        }
        (None, None) => true,
        _ => false,
    }
}

fn same_operand(one: Operand, other: Operand) -> bool
    ensures { IsTrue result ↔ (one ≡ other) }
{
    match (one, other) {
        (Operand::Number(number), Operand::Number(number_too)) => number == number_too,
        (Operand::Held(register), Operand::Held(register_too)) => {
            same_register(register, register_too)
        }
        _ => false,
    }
}

fn same_register(one: Register, other: Register) -> bool
    ensures { IsTrue result ↔ (one ≡ other) }
{
    match (one, other) {
        (Register::Scalar(number), Register::Scalar(number_too)) => number == number_too,
        (Register::Local(number), Register::Local(number_too)) => number == number_too,
        (Register::Temporary(number), Register::Temporary(number_too)) => number == number_too,
        _ => false,
    }
}
