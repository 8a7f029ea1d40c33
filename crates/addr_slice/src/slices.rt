ghost use Rattle.std.specs.Prelude.{◌≡◌, ℕ, ℤ, List, false, length};
ghost use Rattle.nest_syntax.specs.Arrays.{arrays_of, sizes_of};
ghost use Rattle.nest_syntax.specs.Course.{bodies_of};
ghost use Rattle.nest_syntax.specs.Outcome.{body_at, turn_in};
ghost use Rattle.nest_syntax.specs.Among.{is_among};
ghost use Rattle.nest_syntax.specs.Locals.{locals_of};
ghost use Rattle.nest_syntax.specs.Value.{scalar_at};
ghost use Rattle.settle_law.specs.Cuts.{HoldsFixed};
ghost use Rattle.settle_law.specs.Reading.{WithinTurn, fixed_in};
ghost use Rattle.word_store.specs.Memory.{HasLayout};
ghost use Rattle.nest_partition.specs.Split.{IsSplitOf};
ghost use Rattle.claim_walk.specs.Walk as step;
ghost use Rattle.claim_walk.specs.Laws.{AgreeAt};
ghost use Rattle.addr_slice.specs.Slice.{claims_of, cost_of};
ghost use Rattle.addr_slice.specs.Claims.{by_word};
ghost use Rattle.addr_slice.specs.Met.{setting, IsReady, HasRoom, one_more, told_of};

use crate::claim_set::Claims;
use nest_check::Checked;
use nest_mean::{Scalars, body_of, clear_locals, eval};
use nest_partition::Split;
use nest_syntax::{Cause, Expr};
use word_store::Words;

/// Puts the claims of an iteration into `into` and nothing else: whatever was claimed there before is forgotten. The
/// scalars have the values of the scheduler's scalars and of the invocation's variable; those of the body's locals are
/// changed, all others are kept. Only `const` words are read. Takes no memory. The result is the cost of the iteration:
/// the operations and stops that its walk meets, its end, and one more. It is at most 2^64 - 1.
pub fn claims_and_cost(
    split: &Split,
    checked: &Checked,
    body: u32,
    scalars: &mut Scalars,
    words: &Words,
    into: &mut Claims,
) -> u64
    requires split { IsSplitOf checked.now split.now }
    requires layout { HasLayout words.now checked.now.decls }
    requires room { HasRoom into.old checked.now }
    ensures claims { (opening others : List ℤ) → HoldsFixed (fixed_in (arrays_of checked.now.decls) opening) words.now.words → AgreeAt checked.now body scalars.old others
        → into.new ≡ claims_of checked.now opening (body, others) }
    ensures cost { (opening others : List ℤ) → HoldsFixed (fixed_in (arrays_of checked.now.decls) opening) words.now.words → AgreeAt checked.now body scalars.old others
        → result ≡ cost_of checked.now opening (body, others) }
    ensures holds { WithinTurn (sizes_of (arrays_of checked.now.decls)) (fixed_in (arrays_of checked.now.decls) words.now.words) (by_word into.new) (turn_in (arrays_of checked.now.decls) (bodies_of checked.now) body scalars.old) }
    ensures room { HasRoom into.new checked.now }
    ensures names { length scalars.new ≡ length scalars.old }
    ensures others { (name : ℕ) → is_among (locals_of (body_at (bodies_of checked.now) body)) name ≡ false → scalar_at scalars.new name ≡ scalar_at scalars.old name }
{
    into.clear();
    let mut cost = 2;
    // the program keeps the rules, as its clauses say
    let _program = checked.program();
    let stmts = body_of(checked, body);
    clear_locals(stmts, None, scalars);
    let walker = Walker {
        split,
        checked,
        words,
        body,
    };
    let _ = walker.walk_block(stmts, scalars, into, &mut cost);
    cost
}

/// Puts the claims of an iteration into `into`, as `claims_and_cost` does, and tells no cost.
pub fn claims(
    split: &Split,
    checked: &Checked,
    body: u32,
    scalars: &mut Scalars,
    words: &Words,
    into: &mut Claims,
)
    requires split { IsSplitOf checked.now split.now }
    requires layout { HasLayout words.now checked.now.decls }
    requires room { HasRoom into.old checked.now }
    ensures claims { (opening others : List ℤ) → HoldsFixed (fixed_in (arrays_of checked.now.decls) opening) words.now.words → AgreeAt checked.now body scalars.old others
        → into.new ≡ claims_of checked.now opening (body, others) }
    ensures holds { WithinTurn (sizes_of (arrays_of checked.now.decls)) (fixed_in (arrays_of checked.now.decls) words.now.words) (by_word into.new) (turn_in (arrays_of checked.now.decls) (bodies_of checked.now) body scalars.old) }
    ensures room { HasRoom into.new checked.now }
    ensures names { length scalars.new ≡ length scalars.old }
    ensures others { (name : ℕ) → is_among (locals_of (body_at (bodies_of checked.now) body)) name ≡ false → scalar_at scalars.new name ≡ scalar_at scalars.old name }
{
    let _cost = claims_and_cost(split, checked, body, scalars, words, into);
}

/// A walk ended early, where the iteration traps.
#[derive(Clone, Copy)]
pub(crate) struct Trapped;

/// What is known of a test before it is made: that it holds, that it fails, that it traps, or nothing.
#[derive(Clone, Copy)]
pub(crate) enum Told {
    Holds,
    Fails,
    Traps,
    Unknown,
}

/// What a walk looks at.
#[derive(Clone, Copy)]
pub(crate) struct Walker<'a> {
    pub(crate) split: &'a Split,
    pub(crate) checked: &'a Checked,
    pub(crate) words: &'a Words,
    pub(crate) body: u32,
}

impl Walker<'_> {
    pub(crate) fn told(&self, test: &Expr, scalars: &Scalars) -> Told
        requires ready { IsReady self.now.checked.now self.now.words.now self.now.split.now }
        ensures { result ≡ told_of (setting self.now.checked.now self.now.words.now self.now.split.now self.now.body) scalars.now test.now }
    {
        if !self.is_slice(test) {
            return Told::Unknown;
        }
        match self.value(test, scalars) {
            Ok(0) => Told::Fails,
            Ok(_) => Told::Holds,
            Err(_) => Told::Traps,
        }
    }

    pub(crate) fn is_slice(&self, expr: &Expr) -> bool
        requires ready { IsReady self.now.checked.now self.now.words.now self.now.split.now }
        ensures { result ≡ step.is_slice (setting self.now.checked.now self.now.words.now self.now.split.now self.now.body) expr.now }
    {
        self.split.is_slice(self.body, expr)
    }

    pub(crate) fn value(&self, expr: &Expr, scalars: &Scalars) -> Result<i64, Cause>
        requires ready { IsReady self.now.checked.now self.now.words.now self.now.split.now }
        ensures { result ≡ step.value_of (setting self.now.checked.now self.now.words.now self.now.split.now self.now.body) scalars.now expr.now }
    {
        eval(expr, scalars, self.words, self.checked)
    }
}

/// One operation or one stop more.
pub(crate) fn pass(cost: &mut u64)
    ensures { cost.new ≡ one_more cost.old }
{
    *cost = cost.saturating_add(1);
}
