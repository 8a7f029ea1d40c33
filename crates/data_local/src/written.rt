ghost use Rattle.std.specs.Prelude.{◌≡◌, ◌==◌, ◌||◌, ◌&&◌, ℕ, not, List, IfOk, OnOk};
ghost use Rattle.nest_syntax.specs.Arrays.{Array, arrays_of};
ghost use Rattle.nest_syntax.specs.Value.{names_written, is_written};
ghost use Rattle.nest_syntax.specs.Among.{is_among};
ghost use Rattle.data_local.specs.Written.{TellsWritten};

use indexmap::IndexSet;
use nest_syntax::{Decl, Expr, NoMemory};
use std::alloc::Global;
use std::marker::Model;

/// The names of the written arrays of a program, those that aren't `const`.
#[derive(Debug, Drop)]
pub struct WrittenArrays {
    names: IndexSet<u32>,
}

impl Model for WrittenArrays {
    ghost use Rattle.std.specs.Prelude.{ℕ, List};

    ghost Value = { List ℕ };

    ghost view = { λ w. w.names.keys };
}

impl WrittenArrays {
    /// The written arrays among these declarations. Where a name is declared twice its first declaration counts.
    pub fn new(alloc: Global, decls: &[Decl]) -> Result<WrittenArrays, NoMemory>
        ensures { IfOk result (λ written. TellsWritten (arrays_of decls.now) written) }
    {
        let mut seen: IndexSet<u32> = IndexSet::new(alloc);
        let mut names = IndexSet::new(alloc);
        for decl in decls {
            if let Decl::Array { name, fixed, .. } = decl {
                note_array(*name, *fixed, &mut seen, &mut names)?;
            }
        }
        Ok(WrittenArrays { names })
    }

    /// Whether the array of this name is there and isn't `const`.
    pub fn has(&self, name: u32) -> bool
        ensures { result ≡ is_among self.now name }
    {
        self.names.contains(&name)
    }

    /// Whether an expression names a written array.
    pub fn are_named_in(&self, expr: &Expr) -> bool
        ensures { (arrays : List Array) → TellsWritten arrays self.now → result ≡ names_written arrays expr.now }
    {
        match expr {
            Expr::Number(_) | Expr::Scalar(_) => false,
            Expr::Word(name, place) => self.has(*name) || self.are_named_in(place.get()),
            Expr::Unary(_, part) => self.are_named_in(part.get()),
            Expr::Binary(_, left, right) => {
                self.are_named_in(left.get()) || self.are_named_in(right.get())
            }
            Expr::Choice(test, first, second) => {
                self.are_named_in(test.get())
                    || self.are_named_in(first.get())
                    || self.are_named_in(second.get())
            }
        }
    }
}

// Notes one more array, unless its name was seen before.
fn note_array(
    name: u32,
    fixed: bool,
    seen: &mut IndexSet<u32>,
    names: &mut IndexSet<u32>,
) -> Result<(), NoMemory>
    ensures seen { OnOk result ((other : ℕ) → is_among seen.new.keys other ≡ (is_among seen.old.keys other || (other == name))) }
    ensures names { OnOk result ((other : ℕ) → is_among names.new.keys other ≡ (is_among names.old.keys other || ((other == name) && not fixed && not (is_among seen.old.keys other)))) }
{
    let is_new = seen.insert(name)?;
    if is_new && !fixed {
        names.insert(name)?;
    }
    Ok(())
}
