ghost use Rattle.std.specs.Prelude.{◌≡◌, ◌≤◌, ℕ, List, [], ◌∷◌, ◌++◌, length, true, IsTrue, IfOk, OnOk};
ghost use Rattle.nest_syntax.specs.Arrays.{arrays_of, sizes_of};
ghost use Rattle.task_code.specs.Code.{instruction_at};
ghost use Rattle.task_code.specs.Sized.{IsSized, StaysSized};
ghost use Rattle.task_code.specs.Ready.{expr_ready, is_leaf};
ghost use Rattle.task_code.specs.Compiled.{Emits, Reckons, Opens, closing, setting, straight};

use crate::code::Instruction;
use crate::layout::Layout;
use nest_syntax::{Bin, Expr, Line, NoMemory};
use task_hop::{End, Jump, Operand, Operation, Register, Way};

/// Adds an instruction, and answers its address. Addresses are below 2^32: longer code is refused with `NoMemory`.
#[tactic(auto, using(crate::proofs::Sized::sized_one))]
pub(crate) fn emit(code: &mut Vec<Instruction>, instruction: Instruction) -> Result<u32, NoMemory>
    ensures code { IfOk result (λ at. Emits code.old.items code.new.items (λ c. instruction_at c at ≡ instruction)) }
    ensures sized { (sizes : List ℕ) → IsSized sizes instruction → OnOk result (StaysSized sizes code.old.items code.new.items) }
{
    let Ok(at) = u32::try_from(code.len()) else {
        return Err(NoMemory);
    };
    code.push(instruction)?;
    Ok(at)
}

/// Adds a place for an instruction that isn't known yet, and answers its address.
#[tactic(auto, using(crate::proofs::Sized::sized_one))]
pub(crate) fn reserve(code: &mut Vec<Instruction>) -> Result<u32, NoMemory>
    ensures place { IfOk result (λ at. at ≡ length code.old.items) }
    ensures code { OnOk result (code.new.items ≡ code.old.items ++ Instruction.End End.Finish ∷ []) }
    ensures sized { (sizes : List ℕ) → OnOk result (StaysSized sizes code.old.items code.new.items) }
{
    let Ok(at) = u32::try_from(code.len()) else {
        return Err(NoMemory);
    };
    code.push(Instruction::End(End::Finish))?;
    Ok(at)
}

/// Adds the code that reckons an expression and then goes on at `next`, and answers the address at which it begins. The
/// value is then in the expression's operand; temporaries from `into` on are used. Code is added back to front.
pub(crate) fn reckon(
    expr: &Expr,
    line: Line,
    into: u8,
    next: u32,
    layout: &Layout<'_>,
    code: &mut Vec<Instruction>,
) -> Result<u32, NoMemory>
    requires few { length layout.now.locals.now ≤ 16 }
    requires ready { IsTrue (expr_ready layout.now.checked.now layout.now.locals.now expr.now into) }
    ensures code { IfOk result (λ entry. Emits code.old.items code.new.items (λ c. Reckons layout.now.checked.now layout.now.locals.now line expr.now into next c entry)) }
    ensures sized { OnOk result (StaysSized (sizes_of (arrays_of layout.now.checked.now.decls)) code.old.items code.new.items) }
    ensures leaf { IfOk result (λ entry. is_leaf expr.now ≡ true → entry ≡ next) }
{
    match expr {
        Expr::Number(_) => Ok(next),
        Expr::Scalar(_) => Ok(next),
        Expr::Word(array, place) => {
            let from = layout.subscript(*array, layout.operand(place.get(), into), line);
            let load = emit(code, Instruction::End(End::Load { from, into, next }))?;
            reckon(place.get(), line, into, load, layout, code)
        }
        Expr::Unary(op, part) => {
            let operation = Operation::Unary {
                op: *op,
                from: layout.operand(part.get(), into),
                into: Register::Temporary(into),
            };
            let node = emit(code, Instruction::Then(operation, next))?;
            reckon(part.get(), line, into, node, layout, code)
        }
        Expr::Binary(op, left, right) => {
            let first = layout.operand(left.get(), into);
            let second = layout.operand(right.get(), into + 1);
            let close = emit(code, closing(*op, first, second, into, line, next))?;
            let other = reckon(right.get(), line, into + 1, close, layout, code)?;
            let decision = decide(*op, first, into, other, next, code)?;
            reckon(left.get(), line, into, decision, layout, code)
        }
        Expr::Choice(test, first, second) => {
            let on_zero = reckon(second.get(), line, into, next, layout, code)?;
            let on_other = reckon(first.get(), line, into, next, layout, code)?;
            let branch = Jump::Branch {
                test: layout.operand(test.get(), into),
                zero: layout.way(second.get(), into, on_zero),
                other: layout.way(first.get(), into, on_other),
            };
            let node = emit(code, Instruction::End(End::Go(branch)))?;
            reckon(test.get(), line, into, node, layout, code)
        }
    }
}

// What ends a binary operation behind its right operand.
fn closing(op: Bin, left: Operand, right: Operand, into: u8, line: Line, next: u32) -> Instruction
    ensures { result ≡ closing op left right into line next }
{
    match op {
        Bin::Both | Bin::Either => branch(right, setting(into, 0, next), setting(into, 1, next)),
        op => Instruction::Then(
            Operation::Binary {
                op,
                left,
                right,
                into: Register::Temporary(into),
                line,
            },
            next,
        ),
    }
}

// What stands behind the left operand of a binary operation, whose right one begins at `right`: `&&` and `||` are decided
// there, or go on.
#[tactic(auto, using(crate::proofs::Sized::sized_made, crate::proofs::Sized::sized_same))]
fn decide(
    op: Bin,
    left: Operand,
    into: u8,
    right: u32,
    next: u32,
    code: &mut Vec<Instruction>,
) -> Result<u32, NoMemory>
    ensures code { IfOk result (λ at. Emits code.old.items code.new.items (λ c. Opens op left into right next c at)) }
    ensures sized { (sizes : List ℕ) → OnOk result (StaysSized sizes code.old.items code.new.items) }
{
    match op {
        Bin::Both => emit(code, branch(left, setting(into, 0, next), straight(right))),
        Bin::Either => emit(code, branch(left, straight(right), setting(into, 1, next))),
        _ => Ok(right),
    }
}

pub(crate) fn branch(test: Operand, zero: Way, other: Way) -> Instruction
    ensures { result ≡ Instruction.End (End.Go (Jump.Branch test zero other)) }
{
    Instruction::End(End::Go(Jump::Branch { test, zero, other }))
}

fn setting(into: u8, value: i64, next: u32) -> Way
    ensures { result ≡ setting into value next }
{
    Way {
        set: Some((Register::Temporary(into), Operand::Number(value))),
        next,
    }
}

/// A way on that sets nothing.
pub(crate) fn straight(next: u32) -> Way
    ensures { result ≡ straight next }
{
    Way { set: None, next }
}
