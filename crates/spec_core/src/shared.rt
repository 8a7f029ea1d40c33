ghost use Rattle.std.specs.Prelude.{◌≡◌, IfOk, map};
ghost use Rattle.nest_syntax.specs.Shape.{invoked_by};
ghost use Rattle.task_code.specs.Bodies.{told};
ghost use Rattle.spec_setup.specs.Setups.{is_all};
ghost use Rattle.spec_core.specs.Shared.{is_shared, shared_in};

use dep_graph::{LoopKind, classify};
use nest_check::Checked;
use nest_syntax::NoMemory;
use std::alloc::Global;
use task_code::{Body, bodies_of};

/// Of each body whether the turns of its invocations are shared out: those of a loop that is DoAll, and the one turn of an
/// array statement.
pub fn shared_bodies(alloc: Global, checked: &Checked) -> Result<Vec<bool>, NoMemory>
    ensures { IfOk result (λ shared. shared.items ≡ shared_in checked.now) }
{
    let found = bodies_of(alloc, checked.program())?;
    let mut shared = Vec::new(alloc);
    for body in &found {
        shared.push(is_shared(alloc, body, checked)?)?;
    }
    Ok(shared)
}

fn is_shared(alloc: Global, body: &Body<'_>, checked: &Checked) -> Result<bool, NoMemory>
    ensures { IfOk result (λ shared. shared ≡ is_shared checked.now (told body.now)) }
{
    match body.header {
        None => Ok(true),
        Some(nest) => Ok(is_do_all(classify(alloc, nest, checked)?)),
    }
}

fn is_do_all(kind: LoopKind) -> bool
    ensures { result ≡ is_all kind }
{
    match kind {
        LoopKind::DoAll => true,
        LoopKind::Plain { .. } => false,
    }
}
