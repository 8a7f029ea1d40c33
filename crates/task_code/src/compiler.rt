ghost use Rattle.std.specs.Prelude.{◌≡◌, IfOk, OnOk};
ghost use Rattle.nest_syntax.specs.Arrays.{arrays_of, sizes_of};
ghost use Rattle.task_code.specs.Bodies.{told, slot_of};
ghost use Rattle.task_code.specs.Compiled.{Emits};
ghost use Rattle.task_code.specs.Sized.{StaysSized};
ghost use Rattle.task_code.specs.CodeOf.{IsReady, IsStart, IsCodeOf};

use crate::bodies::{Body, bodies_of};
use crate::code::{Entry, Instruction, TaskCode};
use crate::expressions::emit;
use crate::layout::Layout;
use crate::locals::locals_of;
use crate::statements::compile_block;
use nest_check::Checked;
use nest_syntax::NoMemory;
use std::alloc::Global;
use task_hop::End;

/// The code of a program's bodies. Its time and memory grow with the text of the program.
pub fn compile(alloc: Global, checked: &Checked) -> Result<TaskCode, NoMemory>
    ensures { IfOk result (λ code. IsCodeOf checked.now code) }
{
    let bodies = bodies_of(alloc, checked.program())?;
    let mut instructions = Vec::new(alloc);
    let mut entries = Vec::new(alloc);
    for body in bodies.as_slice() {
        let entry = compile_body(alloc, body, checked, &mut instructions)?;
        entries.push(entry)?;
    }
    Ok(TaskCode::made_of(instructions, entries))
}

// Adds the code of a body, which ends the iteration.
fn compile_body(
    alloc: Global,
    body: &Body<'_>,
    checked: &Checked,
    code: &mut Vec<Instruction>,
) -> Result<Entry, NoMemory>
    requires { IsReady checked.now (told body.now) }
    ensures code { IfOk result (λ entry. Emits code.old.items code.new.items (λ c. IsStart checked.now c (told body.now) entry)) }
    ensures sized { OnOk result (StaysSized (sizes_of (arrays_of checked.now.decls)) code.old.items code.new.items) }
{
    let locals = locals_of(alloc, body)?;
    let finish = emit(code, Instruction::End(End::Finish))?;
    let layout = Layout {
        checked,
        locals: locals.as_slice(),
    };
    let at = compile_block(body.stmts, 0, finish, &layout, code)?;
    Ok(Entry {
        at,
        slot: slot_of(body),
    })
}

// The local that is the variable of a body's invocation: the first one, where there is an invocation.
fn slot_of(body: &Body<'_>) -> Option<u8>
    ensures { result ≡ slot_of (told body.now).header }
{
    match body.header {
        Some(_) => Some(0),
        None => None,
    }
}
