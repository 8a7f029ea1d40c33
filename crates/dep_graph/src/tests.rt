ghost use Rattle.std.specs.Prelude.{◌≡◌, ◌≤◌, ◌*◌, ◌+ℤ◌, ◌-ℤ◌, unsigned_abs};
ghost use Rattle.dep_graph.specs.Kinds.{same_factors, do_match, is_moderate, is_flat, is_multiple, distance, stride, stands_apart, is_skipped, is_elsewhere, passes_test, is_parted};

use crate::accesses::Subscript;
use crate::forms::Form;

const MOST_FACTOR: u64 = 65_536;

const MOST_DISTANCE: u128 = 1 << 62;

const WRAP: u128 = 1 << 64;

/// Whether a test parts two subscripts of one array, in the turns of an invocation with this step.
pub(crate) fn is_parted(step: u64, p: &Option<Subscript>, q: &Option<Subscript>) -> bool
    ensures { result ≡ is_parted step p.now q.now }
{
    match p {
        None => false,
        Some(p) => match q {
            None => false,
            Some(q) => passes_test(step, p, q),
        },
    }
}

fn passes_test(step: u64, p: &Subscript, q: &Subscript) -> bool
    ensures { result ≡ passes_test step p.now q.now }
{
    p.form.matches(&q.form)
        && ((p.form.is_moderate() && (stands_apart(step, p, q) || is_skipped(step, p, q)))
            || (p.form.variable == 0 && is_elsewhere(p, q)))
}

impl Form {
    pub(crate) fn matches(&self, other: &Form) -> bool
        ensures { result ≡ do_match self.now other.now }
    {
        self.variable == other.variable
            && same_factors(self.scalars.as_slice(), other.scalars.as_slice())
    }

    pub(crate) fn is_moderate(&self) -> bool
        ensures { result ≡ is_moderate self.now }
    {
        let size = self.variable.unsigned_abs();
        1 <= size && size <= MOST_FACTOR
    }

    fn is_flat(&self) -> bool
        ensures { result ≡ is_flat self.now }
    {
        self.outer == 0 && self.inner == 0
    }

    // How far the subscripts of two neighbouring turns stand apart.
    pub(crate) fn stride(&self, step: u64) -> u128
        ensures { result ≡ stride step self.now }
    {
        u128::from(self.variable.unsigned_abs()) * u128::from(step)
    }
}

fn distance(f: &Form, g: &Form) -> i128
    ensures { result ≡ distance f.now g.now }
{
    i128::from(f.literal) - i128::from(g.literal)
}

// In any two turns the subscripts differ by more than the loops of the body can make up.
fn stands_apart(step: u64, p: &Subscript, q: &Subscript) -> bool
    ensures { result ≡ stands_apart step p.now q.now }
{
    let stride = p.form.stride(step);
    let low = gap(&p.form, p.span.least, &q.form, q.span.greatest);
    let high = gap(&p.form, p.span.greatest, &q.form, q.span.least);
    low.unsigned_abs() < stride && high.unsigned_abs() < stride
}

// How far apart two forms are, with these parts over the loops of the body.
fn gap(f: &Form, part: i64, g: &Form, other: i64) -> i128
    ensures { result ≡ (distance f.now g.now +ℤ part) -ℤ other }
{
    i128::from(f.literal) - i128::from(g.literal) + i128::from(part) - i128::from(other)
}

// No number of turns makes up the distance.
fn is_skipped(step: u64, p: &Subscript, q: &Subscript) -> bool
    ensures { result ≡ is_skipped step p.now q.now }
{
    let distance = distance(&p.form, &q.form).unsigned_abs();
    p.form.is_flat()
        && q.form.is_flat()
        && distance <= MOST_DISTANCE
        && !is_multiple(distance, p.form.stride(step))
}

// Two different words in each turn.
fn is_elsewhere(p: &Subscript, q: &Subscript) -> bool
    ensures { result ≡ is_elsewhere p.now q.now }
{
    let distance = distance(&p.form, &q.form).unsigned_abs();
    p.form.is_flat() && q.form.is_flat() && !is_multiple(distance, WRAP)
}

fn is_multiple(size: u128, of: u128) -> bool
    ensures { result ≡ is_multiple size of }
{
    if of == 0 { size == 0 } else { size % of == 0 }
}

fn same_factors(factors: &[i64], others: &[i64]) -> bool
    ensures { result ≡ same_factors factors.now others.now }
{
    factors == others
}
