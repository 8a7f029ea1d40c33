ghost use Rattle.std.specs.Prelude.{◌≡◌, IfOk};
ghost use Rattle.std.specs.Option.{option_map};
ghost use Rattle.dep_graph.specs.Forms.{symbol_of, symbol_outside, symbol_form, form_of};
ghost use Rattle.dep_graph.specs.Accesses.{subscript_of, subscript_with, Knows};

use crate::around::Around;
use crate::forms::{Form, Symbol, binary_form, unary_form};
use crate::spans::{Span, span_of};
use data_local::WrittenArrays;
use indexmap::IndexSet;
use nest_check::Checked;
use nest_syntax::{Expr, Line, Loop, NoMemory};
use std::alloc::Global;

/// An access of a body: the name of its array, whether it writes, and the line of its statement, arm or loop.
#[derive(Clone, Copy, Debug, PartialEq, Eq)]
pub struct AccessAt {
    pub array: u32,
    pub write: bool,
    pub line: Line,
}

/// A subscript that has an affine form, with the span of the part over the loops around.
#[derive(Debug, Drop)]
pub(crate) struct Subscript {
    pub form: Form,
    pub span: Span,
}

/// An access, and its subscript where that has a form.
#[derive(Debug, Drop)]
pub(crate) struct Access {
    pub at: AccessAt,
    pub subscript: Option<Subscript>,
}

/// An invocation of a program, with what is looked up often.
#[derive(Drop)]
pub(crate) struct Invocation<'a> {
    pub alloc: Global,
    pub checked: &'a Checked,
    pub nest: &'a Loop,
    pub written: WrittenArrays,
    /// The names that the body gives.
    pub given: IndexSet<u32>,
}

impl Invocation<'_> {
    fn symbol_of(&self, around: Around, name: u32) -> Option<Symbol>
        requires { Knows self.now.checked.now self.now.nest.now self.now.written self.now.given.keys }
        ensures { result ≡ symbol_of self.now.checked.now self.now.nest.now around name }
    {
        match around.symbol_of(name) {
            Some(symbol) => Some(symbol),
            None => self.symbol_outside(name),
        }
    }

    fn symbol_outside(&self, name: u32) -> Option<Symbol>
        requires { Knows self.now.checked.now self.now.nest.now self.now.written self.now.given.keys }
        ensures { result ≡ symbol_outside self.now.checked.now self.now.nest.now name }
    {
        if self.nest.name == name {
            Some(Symbol::Variable)
        } else if self.given.contains(&name) {
            None
        } else {
            match self.checked.scalar_of(name) {
                Some(number) => Some(Symbol::Scalar(number)),
                None => None,
            }
        }
    }

    fn form_of(&self, around: Around, expr: &Expr) -> Result<Option<Form>, NoMemory>
        requires { Knows self.now.checked.now self.now.nest.now self.now.written self.now.given.keys }
        ensures { IfOk result (λ form. form ≡ form_of (symbol_of self.now.checked.now self.now.nest.now around) expr.now) }
    {
        match expr {
            Expr::Number(n) => Ok(Some(Form::of_literal(self.alloc, *n)?)),
            Expr::Scalar(name) => self.form_of_name(around, *name),
            Expr::Word(..) | Expr::Choice(..) => Ok(None),
            Expr::Unary(operation, part) => {
                let part = self.form_of(around, part.get())?;
                unary_form(self.alloc, *operation, part)
            }
            Expr::Binary(operation, left, right) => {
                let left = self.form_of(around, left.get())?;
                let right = self.form_of(around, right.get())?;
                binary_form(self.alloc, *operation, left, right)
            }
        }
    }

    fn form_of_name(&self, around: Around, name: u32) -> Result<Option<Form>, NoMemory>
        requires { Knows self.now.checked.now self.now.nest.now self.now.written self.now.given.keys }
        ensures { IfOk result (λ form. form ≡ option_map symbol_form (symbol_of self.now.checked.now self.now.nest.now around name)) }
    {
        match self.symbol_of(around, name) {
            Some(symbol) => Ok(Some(Form::of_symbol(self.alloc, symbol)?)),
            None => Ok(None),
        }
    }

    pub(crate) fn subscript_of(
        &self,
        around: Around,
        place: &Expr,
    ) -> Result<Option<Subscript>, NoMemory>
        requires { Knows self.now.checked.now self.now.nest.now self.now.written self.now.given.keys }
        ensures { IfOk result (λ subscript. subscript ≡ subscript_of self.now.checked.now self.now.nest.now around place.now) }
    {
        match self.form_of(around, place)? {
            Some(form) => Ok(subscript_with(around, form)),
            None => Ok(None),
        }
    }
}

fn subscript_with(around: Around, form: Form) -> Option<Subscript>
    ensures { result ≡ subscript_with around form }
{
    match span_of(around, &form) {
        Some(span) => Some(Subscript { form, span }),
        None => None,
    }
}
