ghost use Rattle.std.specs.Prelude.{◌≡◌, ◌<◌, ℤ, pos, ◌+ℤ◌, ◌*ℤ◌, IfOk, map, slice_set, Some};
ghost use Rattle.std.specs.List.{list_all};
ghost use Rattle.std.specs.Option.{option_and_then};
ghost use Rattle.nest_syntax.specs.Words.{wrap, is_zero};
ghost use Rattle.dep_graph.specs.Forms.{no_scalars, literal_form, symbol_form, sums, plus, times, negated, is_literal, product, with_both, unary_form, binary_form};

use nest_syntax::{Bin, NoMemory, Un};
use sqlite_items::Items;
use std::alloc::Global;

/// What a name in a subscript is: the variable of the invocation, that of the outer or the inner loop of the body around
/// the subscript, or a scalar of the scheduler, by its number.
#[derive(Clone, Copy)]
pub(crate) enum Symbol {
    Variable,
    Outer,
    Inner,
    Scalar(u32),
}

/// An affine form: a literal, and the factor of each symbol.
#[derive(Debug, Drop)]
pub(crate) struct Form {
    pub literal: i64,
    pub variable: i64,
    pub outer: i64,
    pub inner: i64,
    /// By the number of a scheduler scalar.
    pub scalars: Items<i64>,
}

const MOST_SCALARS: usize = 32;

impl Form {
    pub(crate) fn of_literal(alloc: Global, n: i64) -> Result<Form, NoMemory>
        ensures { IfOk result (λ form. form ≡ literal_form n) }
    {
        Ok(Form {
            literal: n,
            variable: 0,
            outer: 0,
            inner: 0,
            scalars: no_scalars(alloc)?,
        })
    }

    pub(crate) fn of_symbol(alloc: Global, symbol: Symbol) -> Result<Form, NoMemory>
        ensures { IfOk result (λ form. form ≡ symbol_form symbol) }
    {
        let mut form = Form::of_literal(alloc, 0)?;
        match symbol {
            Symbol::Variable => form.variable = 1,
            Symbol::Outer => form.outer = 1,
            Symbol::Inner => form.inner = 1,
            Symbol::Scalar(number) => set_one(&mut form.scalars, number),
        }
        Ok(form)
    }

    fn plus(&self, alloc: Global, other: &Form) -> Result<Form, NoMemory>
        ensures { IfOk result (λ form. form ≡ plus self.now other.now) }
    {
        Ok(Form {
            literal: added(self.literal, other.literal),
            variable: added(self.variable, other.variable),
            outer: added(self.outer, other.outer),
            inner: added(self.inner, other.inner),
            scalars: sums(alloc, self.scalars.as_slice(), other.scalars.as_slice())?,
        })
    }

    fn times(&self, alloc: Global, factor: i64) -> Result<Form, NoMemory>
        ensures { IfOk result (λ form. form ≡ times factor self.now) }
    {
        Ok(Form {
            literal: multiplied(factor, self.literal),
            variable: multiplied(factor, self.variable),
            outer: multiplied(factor, self.outer),
            inner: multiplied(factor, self.inner),
            scalars: products(alloc, factor, self.scalars.as_slice())?,
        })
    }

    fn negated(&self, alloc: Global) -> Result<Form, NoMemory>
        ensures { IfOk result (λ form. form ≡ negated self.now) }
    {
        self.times(alloc, -1)
    }

    // Whether the form is a literal, and no more.
    fn is_literal(&self) -> bool
        ensures { result ≡ is_literal self.now }
    {
        self.variable == 0
            && self.outer == 0
            && self.inner == 0
            && are_zero(self.scalars.as_slice())
    }

    // A product has a form where one of the two is a literal.
    fn product(&self, alloc: Global, other: &Form) -> Result<Option<Form>, NoMemory>
        ensures { IfOk result (λ form. form ≡ product self.now other.now) }
    {
        if self.is_literal() {
            Ok(Some(other.times(alloc, self.literal)?))
        } else if other.is_literal() {
            Ok(Some(self.times(alloc, other.literal)?))
        } else {
            Ok(None)
        }
    }
}

/// What a unary operation makes of a form.
pub(crate) fn unary_form(
    alloc: Global,
    operation: Un,
    part: Option<Form>,
) -> Result<Option<Form>, NoMemory>
    ensures { IfOk result (λ form. form ≡ option_and_then (unary_form operation) part) }
{
    let Some(part) = part else {
        return Ok(None);
    };
    match operation {
        Un::Neg => Ok(Some(part.negated(alloc)?)),
        Un::Not | Un::Flip => Ok(None),
    }
}

/// What a binary operation makes of two forms.
pub(crate) fn binary_form(
    alloc: Global,
    operation: Bin,
    left: Option<Form>,
    right: Option<Form>,
) -> Result<Option<Form>, NoMemory>
    ensures { IfOk result (λ form. form ≡ with_both (binary_form operation) left right) }
{
    let Some(left) = left else {
        return Ok(None);
    };
    let Some(right) = right else {
        return Ok(None);
    };
    match operation {
        Bin::Add => Ok(Some(left.plus(alloc, &right)?)),
        Bin::Sub => Ok(Some(left.plus(alloc, &right.negated(alloc)?)?)),
        Bin::Mul => left.product(alloc, &right),
        _ => Ok(None),
    }
}

fn no_scalars(alloc: Global) -> Result<Items<i64>, NoMemory>
    ensures { IfOk result (λ scalars. scalars ≡ no_scalars) }
{
    let mut scalars = Items::new(alloc);
    for _number in 0..MOST_SCALARS {
        scalars.push(0)?;
    }
    Ok(scalars)
}

fn set_one(scalars: &mut Items<i64>, number: u32)
    ensures { scalars.new ≡ slice_set scalars.old number (pos 1) }
{
    if (number as usize) < scalars.len() {
        scalars.set(number as usize, 1);
    }
}

fn sums(alloc: Global, factors: &[i64], others: &[i64]) -> Result<Items<i64>, NoMemory>
    ensures { IfOk result (λ added. added ≡ sums factors.now others.now) }
{
    let mut sums = Items::new(alloc);
    for k in 0..factors.len().min(others.len()) {
        sums.push(added(factors[k], others[k]))?;
    }
    Ok(sums)
}

fn products(alloc: Global, by: i64, factors: &[i64]) -> Result<Items<i64>, NoMemory>
    ensures { IfOk result (λ scaled. scaled ≡ map (λ c. wrap (by *ℤ c)) factors.now) }
{
    let mut scaled = Items::new(alloc);
    for factor in factors {
        scaled.push(multiplied(by, *factor))?;
    }
    Ok(scaled)
}

fn are_zero(factors: &[i64]) -> bool
    ensures { result ≡ list_all is_zero factors.now }
{
    for factor in factors {
        if *factor != 0 {
            return false;
        }
    }
    true
}

#[tactic(auto, using(std::proofs::lemmas::Int::wraps))]
fn added(a: i64, b: i64) -> i64
    ensures { result ≡ wrap (a +ℤ b) }
{
    a.wrapping_add(b)
}

#[tactic(auto, using(std::proofs::lemmas::Int::wraps))]
fn multiplied(a: i64, b: i64) -> i64
    ensures { result ≡ wrap (a *ℤ b) }
{
    a.wrapping_mul(b)
}
