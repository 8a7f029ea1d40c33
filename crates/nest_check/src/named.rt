ghost use Rattle.std.specs.Prelude.{◌≡◌, ◌==◌, ◌||◌, ℕ, OnOk, IfOk};
ghost use Rattle.nest_syntax.specs.Among.{is_among};
ghost use Rattle.data_local.specs.Names.{scalars_in};
ghost use Rattle.nest_check.specs.ChangedBounds.{arrays_in};

use indexmap::IndexSet;
use nest_syntax::{Expr, NoMemory};
use std::alloc::Global;
use std::marker::Model;

/// The names in an expression, without a subscript and with one.
#[derive(Drop)]
pub(crate) struct NamedIn {
    scalars: IndexSet<u32>,
    arrays: IndexSet<u32>,
}

impl Model for NamedIn {
    ghost use Rattle.nest_check.specs.NamedIn.{Named};

    ghost Value = { Named };

    ghost view = { λ n. record { scalars = n.scalars.keys; arrays = n.arrays.keys } };
}

impl NamedIn {
    pub(crate) fn new(alloc: Global, expr: &Expr) -> Result<NamedIn, NoMemory>
        ensures scalars { IfOk result (λ named. (name : ℕ) → is_among named.scalars name ≡ is_among (scalars_in expr.now) name) }
        ensures arrays { IfOk result (λ named. (name : ℕ) → is_among named.arrays name ≡ is_among (arrays_in expr.now) name) }
    {
        let mut scalars = IndexSet::new(alloc);
        add_scalars(expr, &mut scalars)?;
        let mut arrays = IndexSet::new(alloc);
        add_arrays(expr, &mut arrays)?;
        Ok(NamedIn { scalars, arrays })
    }

    pub(crate) fn has_scalar(&self, name: u32) -> bool
        ensures { result ≡ is_among self.now.scalars name }
    {
        self.scalars.contains(&name)
    }

    pub(crate) fn has_array(&self, name: u32) -> bool
        ensures { result ≡ is_among self.now.arrays name }
    {
        self.arrays.contains(&name)
    }
}

fn add_scalars(expr: &Expr, names: &mut IndexSet<u32>) -> Result<(), NoMemory>
    ensures { OnOk result ((name : ℕ) → is_among names.new.keys name ≡ (is_among names.old.keys name || is_among (scalars_in expr.now) name)) }
{
    match expr {
        Expr::Number(_) => Ok(()),
        Expr::Scalar(name) => add_name(*name, names),
        Expr::Word(_, place) => add_scalars(place.get(), names),
        Expr::Unary(_, part) => add_scalars(part.get(), names),
        Expr::Binary(_, left, right) => {
            add_scalars(left.get(), names)?;
            add_scalars(right.get(), names)
        }
        Expr::Choice(test, first, second) => {
            add_scalars(test.get(), names)?;
            add_scalars(first.get(), names)?;
            add_scalars(second.get(), names)
        }
    }
}

fn add_arrays(expr: &Expr, names: &mut IndexSet<u32>) -> Result<(), NoMemory>
    ensures { OnOk result ((name : ℕ) → is_among names.new.keys name ≡ (is_among names.old.keys name || is_among (arrays_in expr.now) name)) }
{
    match expr {
        Expr::Number(_) | Expr::Scalar(_) => Ok(()),
        Expr::Word(name, place) => {
            add_name(*name, names)?;
            add_arrays(place.get(), names)
        }
        Expr::Unary(_, part) => add_arrays(part.get(), names),
        Expr::Binary(_, left, right) => {
            add_arrays(left.get(), names)?;
            add_arrays(right.get(), names)
        }
        Expr::Choice(test, first, second) => {
            add_arrays(test.get(), names)?;
            add_arrays(first.get(), names)?;
            add_arrays(second.get(), names)
        }
    }
}

fn add_name(name: u32, names: &mut IndexSet<u32>) -> Result<(), NoMemory>
    ensures { OnOk result ((other : ℕ) → is_among names.new.keys other ≡ (is_among names.old.keys other || (other == name))) }
{
    names.insert(name)?;
    Ok(())
}
