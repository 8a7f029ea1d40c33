ghost use Rattle.std.specs.Prelude.{◌≡◌, ◌↔◌, IsTrue, IfOk, [], slice_index_or, not, ◌||◌};
ghost use Rattle.std.specs.List.{list_any};
ghost use Rattle.nest_syntax.specs.declared.tree.Program.{Program};
ghost use Rattle.nest_syntax.specs.Arrays.{arrays_of};
ghost use Rattle.nest_syntax.specs.Shape.{bodies_of};
ghost use Rattle.nest_syntax.specs.Value.{names_written, is_written};
ghost use Rattle.nest_syntax.specs.Among.{is_among};
ghost use Rattle.data_local.specs.Names.{scalars_in};
ghost use Rattle.data_local.specs.DataLocals.{IsDataLocal};
ghost use Rattle.data_local.specs.Bodies.{body_numbered};
ghost use Rattle.nest_partition.specs.Split.{IsSplitOf, IsSlice};

use data_local::{DataLocals, WrittenArrays};
use nest_check::Checked;
use nest_syntax::{Expr, NoMemory};
use std::alloc::Global;
use std::marker::Model;

/// What of a program depends on its written arrays, those that aren't `const`. A body is named by its number, from 0 in
/// the order of the text; a number that no body has counts as that of a body without statements.
#[derive(Debug, Drop)]
pub struct Split {
    written: WrittenArrays,
    /// By the number of a body, its data locals.
    locals: Vec<DataLocals>,
}

impl Model for Split {
    ghost use Rattle.nest_partition.specs.Split.{Parts};

    ghost Value = { Parts };

    ghost view = { λ s. record { written = s.written; locals = s.locals.items } };
}

/// The split of a program.
pub fn partition(alloc: Global, checked: &Checked) -> Result<Split, NoMemory>
    ensures { IfOk result (λ split. IsSplitOf checked.now split) }
{
    let written = WrittenArrays::new(alloc, checked.program().decls.as_slice())?;
    let locals = copies(alloc, checked.data_locals())?;
    Ok(Split { written, locals })
}

fn copies(alloc: Global, lists: &[DataLocals]) -> Result<Vec<DataLocals>, NoMemory>
    ensures { IfOk result (λ copied. copied.items ≡ lists.now) }
{
    let mut copied = Vec::new(alloc);
    for list in lists {
        copied.push(list.copy(alloc)?)?;
    }
    Ok(copied)
}

impl Split {
    /// Whether a name is a data local of the body: one whose values may depend on written arrays.
    pub fn is_data(&self, body: u32, name: u32) -> bool
        ensures among { result ≡ is_among (slice_index_or self.now.locals body []) name }
        ensures local { (program : Program) → IsSplitOf program self.now → IsTrue result ↔ IsDataLocal (arrays_of program.decls) (body_numbered (bodies_of program) body) name }
    {
        match self.locals.get(body as usize) {
            Some(found) => found.has(name),
            None => false,
        }
    }

    /// Whether an expression of the body is a slice expression: it names no written array and no data local.
    pub fn is_slice(&self, body: u32, expr: &Expr) -> bool
        ensures slice { (program : Program) → IsSplitOf program self.now → IsTrue result ↔ IsSlice (arrays_of program.decls) (body_numbered (bodies_of program) body) expr.now }
        ensures named { (program : Program) → IsSplitOf program self.now → result ≡ not (names_written (arrays_of program.decls) expr.now || list_any (is_among (slice_index_or self.now.locals body [])) (scalars_in expr.now)) }
    {
        !self.drains(expr) && !self.names_local(body, expr)
    }

    // Whether an expression names a data local of the body.
    fn names_local(&self, body: u32, expr: &Expr) -> bool
        ensures { result ≡ list_any (is_among (slice_index_or self.now.locals body [])) (scalars_in expr.now) }
    {
        match self.locals.get(body as usize) {
            Some(found) => found.are_named_in(expr),
            None => false,
        }
    }

    /// Whether a name is that of a written array.
    pub fn is_written(&self, name: u32) -> bool
        ensures { (program : Program) → IsSplitOf program self.now → result ≡ is_written (arrays_of program.decls) name }
    {
        self.written.has(name)
    }

    /// Whether an expression of the scheduler is a drain point: it names a written array.
    pub fn drains(&self, expr: &Expr) -> bool
        ensures { (program : Program) → IsSplitOf program self.now → result ≡ names_written (arrays_of program.decls) expr.now }
    {
        self.written.are_named_in(expr)
    }
}
