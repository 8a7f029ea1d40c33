//! What is kept of accesses to one array, by which a further one is often known to be parted from all of them.
ghost use Rattle.std.specs.Prelude.{◌≡◌, ◌^◌, ◌<◌, ◌+ℤ◌, pos, true, false, IsTrue, Option, Some};
ghost use Rattle.dep_graph.specs.declared.accesses.Access.{Access as AccessValue};
ghost use Rattle.dep_graph.specs.declared.accesses.Subscript.{Subscript as SubscriptValue};
ghost use Rattle.dep_graph.specs.declared.seen.Ends.{Ends as EndsValue};
ghost use Rattle.dep_graph.specs.Kinds.{is_parted, may_depend};
ghost use Rattle.dep_graph.specs.Seen.{AreEnds, AreNear, Holds, IsSeen, IsSeenIn, IsKnown};

use crate::accesses::{Access, Subscript};
use crate::forms::Form;

const RAISE: i128 = 1 << 63;

/// Both ends of the span of a subscript, with its literal, and raised by 2^64 so that neither is negative.
#[derive(Clone, Copy)]
pub(crate) struct Ends {
    pub first: u128,
    pub last: u128,
}

impl Ends {
    fn of(subscript: &Subscript) -> Ends
        ensures { AreEnds subscript.now result }
    {
        let literal = raised(subscript.form.literal);
        Ends {
            first: literal + raised(subscript.span.least),
            last: literal + raised(subscript.span.greatest),
        }
    }
}

fn raised(n: i64) -> u128
    ensures value { pos result ≡ n +ℤ pos (2 ^ 63) }
    ensures few { result < 2 ^ 64 }
{
    (i128::from(n) + RAISE) as u128
}

/// From where to where the ends of subscripts go.
#[derive(Clone, Copy)]
pub(crate) struct Hull {
    pub least: u128,
    pub greatest: u128,
}

impl Hull {
    fn of(ends: Ends) -> Hull
        ensures { Holds result ends }
    {
        Hull {
            least: ends.first.min(ends.last),
            greatest: ends.first.max(ends.last),
        }
    }

    fn with(self, ends: Ends) -> Hull
        ensures is { Holds result ends }
        ensures kept { (other : EndsValue) → Holds self other → Holds result other }
    {
        Hull {
            least: self.least.min(ends.first).min(ends.last),
            greatest: self.greatest.max(ends.first).max(ends.last),
        }
    }

    // Whether these ends are nearer than a stride to all that are held.
    fn is_near(self, ends: Ends, stride: u128) -> bool
        ensures { IsTrue result → (other : EndsValue) → Holds self other → AreNear other ends stride }
    {
        self.greatest.saturating_sub(ends.first.min(ends.last)) < stride
            && ends.first.max(ends.last).saturating_sub(self.least) < stride
    }
}

/// What is kept of some subscripts: that there is none; that all have forms that match this one, and ends that the hull
/// holds; or nothing.
#[derive(Clone, Copy)]
pub(crate) enum Seen<'a> {
    Nothing,
    Alike { form: &'a Form, hull: Hull },
    Anything,
}

impl<'a> Seen<'a> {
    fn with(self, subscript: &'a Option<Subscript>) -> Seen<'a>
        ensures is { IsSeen result subscript.now }
        ensures kept { (other : Option SubscriptValue) → IsSeen self.entry other → IsSeen result other }
    {
        match subscript {
            None => Seen::Anything,
            Some(subscript) => self.with_form(subscript),
        }
    }

    fn with_form(self, subscript: &'a Subscript) -> Seen<'a>
        ensures is { IsSeen result (Some subscript.now) }
        ensures kept { (other : Option SubscriptValue) → IsSeen self.entry other → IsSeen result other }
    {
        match self {
            Seen::Nothing => Seen::Alike {
                form: &subscript.form,
                hull: Hull::of(Ends::of(subscript)),
            },
            Seen::Alike { form, hull } => alike(form, hull, subscript),
            Seen::Anything => Seen::Anything,
        }
    }

    // Whether a subscript is known to be parted from all these.
    fn parts(self, step: u64, subscript: &Option<Subscript>) -> bool
        ensures { IsTrue result → (other : Option SubscriptValue) → IsSeen self.entry other → is_parted step other subscript.now ≡ true }
    {
        match self {
            Seen::Nothing => true,
            Seen::Alike { form, hull } => is_near(step, form, hull, subscript),
            Seen::Anything => false,
        }
    }
}

#[tactic(auto, using(crate::proofs::Near::alike_kept))]
fn alike<'a>(form: &'a Form, hull: Hull, subscript: &Subscript) -> Seen<'a>
    ensures is { IsSeen result (Some subscript.now) }
    ensures kept { (other : Option SubscriptValue) → IsSeen (Seen.Alike form.entry hull) other → IsSeen result other }
{
    if subscript.form.matches(form) {
        Seen::Alike {
            form,
            hull: hull.with(Ends::of(subscript)),
        }
    } else {
        Seen::Anything
    }
}

fn is_near(step: u64, form: &Form, hull: Hull, subscript: &Option<Subscript>) -> bool
    ensures { IsTrue result → (other : Option SubscriptValue) → IsSeen (Seen.Alike form.entry hull) other → is_parted step other subscript.now ≡ true }
{
    match subscript {
        None => false,
        Some(subscript) => is_near_to(step, form, hull, subscript),
    }
}

fn is_near_to(step: u64, form: &Form, hull: Hull, subscript: &Subscript) -> bool
    ensures { IsTrue result → (other : Option SubscriptValue) → IsSeen (Seen.Alike form.entry hull) other → is_parted step other (Some subscript.now) ≡ true }
{
    if !subscript.form.matches(form) {
        return false;
    }
    if !form.is_moderate() {
        return false;
    }
    hull.is_near(Ends::of(subscript), form.stride(step))
}

/// What is kept of the accesses to an array: of all of them, and of the writes among them.
#[derive(Clone, Copy)]
pub(crate) struct Known<'a> {
    pub all: Seen<'a>,
    pub writes: Seen<'a>,
}

impl<'a> Known<'a> {
    /// Before the first access.
    pub(crate) fn nothing() -> Known<'a> {
        Known {
            all: Seen::Nothing,
            writes: Seen::Nothing,
        }
    }

    /// Notes one access more, where it is to this array.
    pub(crate) fn note(&mut self, array: u32, access: &'a Access)
        ensures is { IsKnown array self.new access.now }
        ensures kept { (other : AccessValue) → IsKnown array self.old other → IsKnown array self.new other }
    {
        if access.at.array == array {
            *self = self.with(access);
        }
    }

    fn with(&self, access: &'a Access) -> Known<'a>
        ensures is { IsSeenIn result access.now }
        ensures kept { (other : AccessValue) → IsSeenIn self.now other → IsSeenIn result other }
    {
        Known {
            all: self.all.with(&access.subscript),
            writes: self.writes_with(access),
        }
    }

    fn writes_with(&self, access: &'a Access) -> Seen<'a>
        ensures is { access.now.at.write ≡ true → IsSeen result access.now.subscript }
        ensures kept { (other : Option SubscriptValue) → IsSeen self.now.writes other → IsSeen result other }
    {
        if access.at.write {
            self.writes.with(&access.subscript)
        } else {
            self.writes
        }
    }

    /// Whether an access is known to depend on none of these. For a read the writes among them are looked at.
    pub(crate) fn frees(&self, array: u32, step: u64, access: &Access) -> bool
        ensures { IsTrue result → (other : AccessValue) → IsKnown array self.now other → may_depend step access.now other ≡ false }
    {
        access.at.array == array && self.parts(step, access)
    }

    #[tactic(auto, using(crate::proofs::Near::parted_free, crate::proofs::Near::read_free))]
    fn parts(&self, step: u64, access: &Access) -> bool
        ensures { IsTrue result → (other : AccessValue) → IsSeenIn self.now other → may_depend step access.now other ≡ false }
    {
        if access.at.write {
            self.all.parts(step, &access.subscript)
        } else {
            self.writes.parts(step, &access.subscript)
        }
    }
}
