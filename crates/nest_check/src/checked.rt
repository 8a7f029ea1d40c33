ghost use Rattle.std.specs.Prelude.{◌≡◌, ◌<◌, ◌≤◌, ◌^◌, ◌↔◌, length, sum, IsTrue, IfOk, IfSome};
ghost use Rattle.nest_syntax.specs.Named.{IsWellNamed};
ghost use Rattle.nest_syntax.specs.Arrays.{arrays_of, sizes_of, array_names, array_of};
ghost use Rattle.nest_check.specs.Declarations.{first_of_each};
ghost use Rattle.nest_check.specs.Entries.{scheduler_scalars};
ghost use Rattle.nest_syntax.specs.Shape.{bodies_of};
ghost use Rattle.data_local.specs.DataLocals.{IsDataLocal};
ghost use Rattle.data_local.specs.Bodies.{AreLocalsByBody, body_numbered};
ghost use Rattle.nest_check.specs.Kept.{KeepsRules};
ghost use Rattle.nest_check.specs.Tables.{scalar_of};

use crate::copies::copy_program;
use crate::tables::{array_names, declared_names, index_table, lengths_of};
use data_local::{DataLocals, data_locals_by_body};
use nest_syntax::{Line, NoMemory, Program};
use std::alloc::Global;
use std::marker::Model;

/// A program that keeps the rules. Names are looked up in constant time.
#[derive(Debug, Drop)]
pub struct Checked {
    program: Program,
    /// How many words each array has, in the order of declaration.
    lengths: Vec<u64>,
    /// By the number of a name, the number of its array.
    arrays: Vec<Option<u32>>,
    /// By the number of a name, the number of its scheduler scalar.
    scalars: Vec<Option<u32>>,
    /// By the number of a body, its data locals.
    locals: Vec<DataLocals>,
}

impl Model for Checked {
    ghost use Rattle.nest_syntax.specs.declared.tree.Program.{Program};
    ghost use Rattle.nest_syntax.specs.contracts.tree.Expr as expr;
    ghost use Rattle.nest_syntax.specs.contracts.tree.Loop as loop;
    ghost use Rattle.nest_check.specs.Tables.{IsChecked};
    ghost use Rattle.std.specs.Coded.{codes};

    ghost Value = { Program };

    ghost coded = { Prim.hlevel (codes, expr.the_row.coded, loop.the_row.coded) };

    ghost view = { λ c. c.program };

    ghost invariant = { λ c. IsChecked c.program c.lengths.items c.arrays.items c.scalars.items c.locals.items };
}

impl Checked {
    /// A program that keeps the rules, with its tables. The scheduler scalars are the first declarations of each.
    pub(crate) fn tabled(
        alloc: Global,
        program: Program,
        scalars: &[(u32, Line)],
    ) -> Result<Checked, NoMemory>
        requires named { IsWellNamed program }
        requires keeps { KeepsRules program }
        requires scalars { scalars.now ≡ first_of_each (scheduler_scalars program) }
        ensures { IfOk result (λ checked. checked ≡ program) }
    {
        let lengths = lengths_of(alloc, program.decls.as_slice())?;
        let array_names = array_names(alloc, program.decls.as_slice())?;
        let arrays = index_table(alloc, array_names.as_slice())?;
        let scalar_names = declared_names(alloc, scalars)?;
        let scalars = index_table(alloc, scalar_names.as_slice())?;
        let locals = data_locals_by_body(alloc, &program)?;
        Ok(Checked {
            program,
            lengths,
            arrays,
            scalars,
            locals,
        })
    }

    /// An equal value. Its data locals are computed again.
    pub fn copy(&self, alloc: Global) -> Result<Checked, NoMemory>
        ensures { IfOk result (λ copied. copied ≡ self.now) }
    {
        Ok(Checked {
            program: copy_program(alloc, &self.program)?,
            lengths: Vec::from_slice(alloc, self.lengths.as_slice())?,
            arrays: Vec::from_slice(alloc, self.arrays.as_slice())?,
            scalars: Vec::from_slice(alloc, self.scalars.as_slice())?,
            locals: data_locals_by_body(alloc, &self.program)?,
        })
    }

    /// The program, as it was handed in.
    pub fn program(&self) -> &Program
        ensures same { result.now ≡ self.now }
        ensures named { IsWellNamed self.now }
        ensures keeps { KeepsRules self.now }
        ensures few_decls { length self.now.decls < 2 ^ 32 }
        ensures few_bodies { length (bodies_of self.now) ≤ 4096 }
        ensures few_words { sum (sizes_of (arrays_of self.now.decls)) ≤ 1048576 }
    {
        &self.program
    }

    /// How many words each array has, in the order of declaration.
    pub fn lengths(&self) -> &[u64]
        ensures { result.now ≡ sizes_of (arrays_of self.now.decls) }
    {
        self.lengths.as_slice()
    }

    /// The names of the arrays, in the order of declaration.
    pub fn array_names(&self, alloc: Global) -> Result<Vec<u32>, NoMemory>
        ensures { IfOk result (λ names. names.items ≡ array_names (arrays_of self.now.decls)) }
    {
        array_names(alloc, self.program.decls.as_slice())
    }

    /// The number of the array with this name, in the order of declaration. None comes exactly where no array has it.
    pub fn array_of(&self, name: u32) -> Option<u32>
        ensures { result ≡ array_of (arrays_of self.now.decls) name }
    {
        self.arrays.get(name as usize).copied().unwrap_or(None)
    }

    /// The number of the scheduler scalar with this name, in the order in which names are first declared. None comes
    /// exactly where no scheduler scalar has it. There are at most 32.
    pub fn scalar_of(&self, name: u32) -> Option<u32>
        ensures number { result ≡ scalar_of self.now name }
        ensures few { IfSome result (λ scalar. scalar < 32) }
    {
        self.scalars.get(name as usize).copied().unwrap_or(None)
    }

    /// The data locals of each body, by the body's number. An array statement has none.
    pub fn data_locals(&self) -> &[DataLocals]
        ensures { AreLocalsByBody (arrays_of self.now.decls) (bodies_of self.now) result.now }
    {
        self.locals.as_slice()
    }

    /// Whether a name is a data local of the body with this number. It is false for an array statement, and for a
    /// number that no body has.
    pub fn is_data(&self, body: u32, name: u32) -> bool
        ensures { IsTrue result ↔ IsDataLocal (arrays_of self.now.decls) (body_numbered (bodies_of self.now) body) name }
    {
        match self.locals.get(body as usize) {
            Some(found) => found.has(name),
            None => false,
        }
    }
}
