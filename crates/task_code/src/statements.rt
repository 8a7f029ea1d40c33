ghost use Rattle.std.specs.Prelude.{◌≤◌, length, map, IsTrue, IfOk, OnOk};
ghost use Rattle.std.specs.List.{list_all};
ghost use Rattle.nest_syntax.specs.Arrays.{arrays_of, sizes_of};
ghost use Rattle.nest_syntax.specs.Turn.{Effect, sequence, effect, loop_effect, choose};
ghost use Rattle.nest_syntax.proofs.Equations.{arm_effect};
ghost use Rattle.task_code.specs.Ready.{block_ready, stmt_ready, arm_ready, loop_ready};
ghost use Rattle.task_code.specs.Compiled.{Emits, Carries};
ghost use Rattle.task_code.specs.Sized.{StaysSized};

use crate::changes::{give, write};
use crate::code::Instruction;
use crate::expressions::{branch, emit, reckon, reserve, straight};
use crate::layout::Layout;
use nest_syntax::{Arm, Loop, NoMemory, Op, Stmt};
use task_hop::{End, Jump, Register, Round};

/// Adds the code of statements, one after the other, which then goes on at `next`, and answers the address at which it
/// begins. It uses the temporaries from `into` on. Code is added back to front.
#[cycle(compile)]
pub(crate) fn compile_block(
    stmts: &[Stmt],
    into: u8,
    next: u32,
    layout: &Layout<'_>,
    code: &mut Vec<Instruction>,
) -> Result<u32, NoMemory>
    requires few { length layout.now.locals.now ≤ 16 }
    requires ready { IsTrue (block_ready layout.now.checked.now layout.now.locals.now stmts.now into) }
    ensures code { IfOk result (λ entry. Emits code.old.items code.new.items (λ c. Carries layout.now.checked.now layout.now.locals.now (sequence (map (effect (arrays_of layout.now.checked.now.decls)) stmts.now)) into next c entry)) }
    ensures sized { OnOk result (StaysSized (sizes_of (arrays_of layout.now.checked.now.decls)) code.old.items code.new.items) }
{
    let mut entry = next;
    for i in (0..stmts.len()).rev() {
        entry = compile_stmt(&stmts[i], into, entry, layout, code)?;
    }
    Ok(entry)
}

#[cycle(compile)]
fn compile_stmt(
    stmt: &Stmt,
    into: u8,
    next: u32,
    layout: &Layout<'_>,
    code: &mut Vec<Instruction>,
) -> Result<u32, NoMemory>
    requires few { length layout.now.locals.now ≤ 16 }
    requires ready { IsTrue (stmt_ready layout.now.checked.now layout.now.locals.now stmt.now into) }
    ensures code { IfOk result (λ entry. Emits code.old.items code.new.items (λ c. Carries layout.now.checked.now layout.now.locals.now (effect (arrays_of layout.now.checked.now.decls) stmt.now) into next c entry)) }
    ensures sized { OnOk result (StaysSized (sizes_of (arrays_of layout.now.checked.now.decls)) code.old.items code.new.items) }
{
    match stmt {
        Stmt::Declare { line, name, value } => {
            let from = layout.operand(value, into);
            let given = give(
                Register::Local(layout.local(*name)),
                Op::Set,
                from,
                into,
                *line,
                next,
                code,
            )?;
            reckon(value, *line, into, given, layout, code)
        }
        Stmt::Assign {
            line,
            name,
            op,
            value,
        } => {
            let from = layout.operand(value, into);
            let given = give(
                Register::Local(layout.local(*name)),
                *op,
                from,
                into,
                *line,
                next,
                code,
            )?;
            reckon(value, *line, into, given, layout, code)
        }
        Stmt::Write {
            line,
            array,
            place,
            op,
            value,
        } => {
            let to = layout.subscript(*array, layout.operand(place, into), *line);
            let from = layout.operand(value, into + 1);
            let written = write(to, *op, from, into + 2, *line, next, code)?;
            let right = reckon(value, *line, into + 1, written, layout, code)?;
            reckon(place, *line, into, right, layout, code)
        }
        Stmt::If { arms, other } => {
            let otherwise = compile_block(other.as_slice(), into, next, layout, code)?;
            compile_arms(arms.as_slice(), otherwise, into, next, layout, code)
        }
        Stmt::Loop(inner) => compile_loop(inner, into, next, layout, code),
    }
}

// The code of arms, where what the `if` does otherwise begins at `otherwise`.
#[cycle(compile)]
fn compile_arms(
    arms: &[Arm],
    otherwise: u32,
    into: u8,
    next: u32,
    layout: &Layout<'_>,
    code: &mut Vec<Instruction>,
) -> Result<u32, NoMemory>
    requires few { length layout.now.locals.now ≤ 16 }
    requires ready { IsTrue (list_all (λ a. arm_ready layout.now.checked.now layout.now.locals.now a into) arms.now) }
    ensures code { IfOk result (λ entry. Emits code.old.items code.new.items (λ c. (other : Effect) → Carries layout.now.checked.now layout.now.locals.now other into next c otherwise
        → Carries layout.now.checked.now layout.now.locals.now (choose (map (arm_effect (arrays_of layout.now.checked.now.decls)) arms.now) other) into next c entry)) }
    ensures sized { OnOk result (StaysSized (sizes_of (arrays_of layout.now.checked.now.decls)) code.old.items code.new.items) }
{
    let mut entry = otherwise;
    for i in (0..arms.len()).rev() {
        entry = compile_arm(&arms[i], entry, into, next, layout, code)?;
    }
    Ok(entry)
}

#[cycle(compile)]
fn compile_arm(
    arm: &Arm,
    otherwise: u32,
    into: u8,
    next: u32,
    layout: &Layout<'_>,
    code: &mut Vec<Instruction>,
) -> Result<u32, NoMemory>
    requires few { length layout.now.locals.now ≤ 16 }
    requires ready { IsTrue (arm_ready layout.now.checked.now layout.now.locals.now arm.now into) }
    ensures code { IfOk result (λ entry. Emits code.old.items code.new.items (λ c. (other : Effect) → Carries layout.now.checked.now layout.now.locals.now other into next c otherwise
        → Carries layout.now.checked.now layout.now.locals.now (λ scalars go. arm_effect (arrays_of layout.now.checked.now.decls) arm.now scalars (other scalars go) go) into next c entry)) }
    ensures sized { OnOk result (StaysSized (sizes_of (arrays_of layout.now.checked.now.decls)) code.old.items code.new.items) }
{
    let block = compile_block(arm.body.as_slice(), into, next, layout, code)?;
    let value = layout.operand(&arm.test, into);
    let test = emit(code, branch(value, straight(otherwise), straight(block)))?;
    reckon(&arm.test, arm.line, into, test, layout, code)
}

#[cycle(compile)]
fn compile_loop(
    inner: &Loop,
    into: u8,
    next: u32,
    layout: &Layout<'_>,
    code: &mut Vec<Instruction>,
) -> Result<u32, NoMemory>
    requires few { length layout.now.locals.now ≤ 16 }
    requires ready { IsTrue (loop_ready layout.now.checked.now layout.now.locals.now inner.now into) }
    ensures code { IfOk result (λ entry. Emits code.old.items code.new.items (λ c. Carries layout.now.checked.now layout.now.locals.now (loop_effect (arrays_of layout.now.checked.now.decls) inner.now) into next c entry)) }
    ensures sized { OnOk result (StaysSized (sizes_of (arrays_of layout.now.checked.now.decls)) code.old.items code.new.items) }
{
    // What comes behind a turn leads back to the body, whose address isn't known yet: its place is kept.
    let again = reserve(code)?;
    let body = compile_block(inner.body.as_slice(), into + 2, again, layout, code)?;
    let round = Round {
        variable: Register::Local(layout.local(inner.name)),
        value: Register::Temporary(into),
        last: Register::Temporary(into + 1),
        step: inner.step,
        body,
        behind: next,
    };
    code[again as usize] = Instruction::End(End::Go(Jump::Again(round)));
    let enter = Jump::Enter {
        low: layout.operand(&inner.low, into),
        high: layout.operand(&inner.high, into + 1),
        through: inner.through,
        line: inner.line,
        round,
    };
    let header = emit(code, Instruction::End(End::Go(enter)))?;
    let high = reckon(&inner.high, inner.line, into + 1, header, layout, code)?;
    reckon(&inner.low, inner.line, into, high, layout, code)
}
