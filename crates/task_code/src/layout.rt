ghost use Rattle.std.specs.Prelude.{◌≡◌, ◌<◌, ◌≤◌, ◌==◌, length, slice_index_or, is_some, Some, IsTrue, IfSome};
ghost use Rattle.std.specs.List.{position};
ghost use Rattle.nest_check.specs.Declarations.{index_of_name};
ghost use Rattle.nest_syntax.specs.Arrays.{arrays_of, sizes_of};
ghost use Rattle.task_code.specs.Ready.{register_of, operand_of, is_leaf, subscript_of};
ghost use Rattle.task_code.specs.Compiled.{way_by};

use nest_check::Checked;
use nest_syntax::{Expr, Line};
use task_hop::{Operand, Register, Subscript, Way};

/// Where the names of a body stand: its locals in order, and the scalars and arrays of the program.
#[derive(Drop)]
pub(crate) struct Layout<'a> {
    pub checked: &'a Checked,
    pub locals: &'a [u32],
}

impl Layout<'_> {
    /// The register of a name: a local's or else a scheduler scalar's. None comes exactly where it has neither.
    pub fn register(&self, name: u32) -> Option<Register>
        requires { length self.now.locals.now ≤ 16 }
        ensures { result ≡ register_of self.now.checked.now self.now.locals.now name }
    {
        if let Some(slot) = place_of(self.locals, name) {
            return Some(Register::Local(slot as u8));
        }
        match self.checked.scalar_of(name) {
            Some(number) => Some(Register::Scalar(number as u8)),
            None => None,
        }
    }

    /// The register of a local.
    pub fn local(&self, name: u32) -> u8
        requires few { length self.now.locals.now ≤ 16 }
        requires local { IsTrue (is_some (index_of_name self.now.locals.now name)) }
        ensures { register_of self.now.checked.now self.now.locals.now name ≡ Some (Register.Local result) }
    {
        let Some(slot) = place_of(self.locals, name) else {
            unreachable!()
        };
        slot as u8
    }

    /// Where the value of an expression is: in the temporary `into`, unless the expression is a number or a name.
    pub fn operand(&self, expr: &Expr, into: u8) -> Operand
        requires { length self.now.locals.now ≤ 16 }
        ensures { result ≡ operand_of self.now.checked.now self.now.locals.now into expr.now }
    {
        match expr {
            Expr::Number(number) => Operand::Number(*number),
            Expr::Scalar(name) => match self.register(*name) {
                Some(register) => Operand::Held(register),
                None => Operand::Number(0),
            },
            Expr::Word(..) | Expr::Unary(..) | Expr::Binary(..) | Expr::Choice(..) => {
                Operand::Held(Register::Temporary(into))
            }
        }
    }

    /// The way to an expression's value in a temporary, where its code begins at `entry`.
    pub fn way(&self, expr: &Expr, into: u8, entry: u32) -> Way
        requires { length self.now.locals.now ≤ 16 }
        ensures { result ≡ way_by (is_leaf expr.now) (operand_of self.now.checked.now self.now.locals.now into expr.now) into entry }
    {
        let set = if is_leaf(expr) {
            Some((Register::Temporary(into), self.operand(expr, into)))
        } else {
            None
        };
        Way { set, next: entry }
    }

    /// An array as code names it. Where the name is no array's, every subscript is outside.
    pub fn subscript(&self, name: u32, at: Operand, line: Line) -> Subscript
        ensures { result ≡ subscript_of self.now.checked.now name at line }
    {
        match self.checked.array_of(name) {
            Some(array) => Subscript {
                array,
                size: size_of(self.checked.lengths(), array),
                at,
                line,
            },
            None => Subscript {
                array: 0,
                size: 0,
                at,
                line,
            },
        }
    }
}

fn size_of(lengths: &[u64], array: u32) -> u64
    ensures { result ≡ slice_index_or lengths.now array 0 }
{
    match lengths.get(array as usize) {
        Some(length) => *length,
        None => 0,
    }
}

fn is_leaf(expr: &Expr) -> bool
    ensures { result ≡ is_leaf expr.now }
{
    match expr {
        Expr::Number(_) | Expr::Scalar(_) => true,
        Expr::Word(..) | Expr::Unary(..) | Expr::Binary(..) | Expr::Choice(..) => false,
    }
}

/// The place at which a name stands first.
pub(crate) fn place_of(names: &[u32], name: u32) -> Option<usize>
    ensures place { result ≡ index_of_name names.now name }
    ensures inside { IfSome result (λ place. place < length names.now) }
{
    position_of(names, name)
}

fn position_of(names: &[u32], name: u32) -> Option<usize>
    ensures { result ≡ position (λ other. other == name) names.now }
{
    names.iter().position(|other| *other == name)
}
