ghost use Rattle.std.specs.Prelude.{◌≡◌, ◌<◌, ℕ, false, Ok, map, FitsSigned};
ghost use Rattle.std.specs.Int.{w64};
ghost use Rattle.nest_syntax.specs.Words.{counted, turns, variable};
ghost use Rattle.nest_syntax.specs.Arrays.{arrays_of, sizes_of};
ghost use Rattle.claim_walk.specs.Walk as step;
ghost use Rattle.addr_slice.specs.Claims.{Claimed};
ghost use Rattle.addr_slice.specs.Met.{setting, IsReady, HasRoom, Walks, Does, with_cost, in_branch, Branches, Tries};

use crate::claim_set::Claims;
use crate::slices::{Told, Trapped, Walker, pass};
use nest_mean::{Scalars, turns_of};
use nest_syntax::{Arm, Expr, Loop, Op, Stmt};
use word_store::{assign, value_in_turn};

impl Walker<'_> {
    #[cycle(walk)]
    pub(crate) fn walk_block(
        &self,
        stmts: &[Stmt],
        scalars: &mut Scalars,
        into: &mut Claims,
        cost: &mut u64,
    ) -> Result<(), Trapped>
        requires ready { IsReady self.now.checked.now self.now.words.now self.now.split.now }
        requires room { HasRoom into.old self.now.checked.now }
        ensures { Does (sizes_of (arrays_of self.now.checked.now.decls)) (step.walk_block (setting self.now.checked.now self.now.words.now self.now.split.now self.now.body) stmts.now scalars.old)
            result scalars.new into.old cost.old into.new cost.new }
    {
        for stmt in stmts {
            self.walk_stmt(stmt, scalars, into, cost)?;
        }
        Ok(())
    }

    #[cycle(walk)]
    fn walk_stmt(
        &self,
        stmt: &Stmt,
        scalars: &mut Scalars,
        into: &mut Claims,
        cost: &mut u64,
    ) -> Result<(), Trapped>
        requires ready { IsReady self.now.checked.now self.now.words.now self.now.split.now }
        requires room { HasRoom into.old self.now.checked.now }
        ensures { Does (sizes_of (arrays_of self.now.checked.now.decls)) (step.walk_stmt (setting self.now.checked.now self.now.words.now self.now.split.now self.now.body) stmt.now scalars.old)
            result scalars.new into.old cost.old into.new cost.new }
    {
        match stmt {
            Stmt::Declare { name, value, .. } => {
                self.walk_assign(*name, Op::Set, value, scalars, into, cost)
            }
            Stmt::Assign {
                name,
                op,
                value,
                ..
            } => self.walk_assign(*name, *op, value, scalars, into, cost),
            Stmt::Write {
                array,
                place,
                op,
                value,
                ..
            } => self.walk_write(*array, place, *op, value, scalars, into, cost),
            Stmt::If { arms, other } => {
                let mut is_data = false;
                match self.try_arms(arms.as_slice(), &mut is_data, scalars, into, cost) {
                    Some(ended) => in_branch(is_data, ended),
                    None => {
                        let ended = self.walk_block(other.as_slice(), scalars, into, cost);
                        in_branch(is_data, ended)
                    }
                }
            }
            Stmt::Loop(inner) => self.walk_loop(inner, scalars, into, cost),
        }
    }

    // The arms of an `if`, up to one that decides: how its block ended, or nothing where the last block of the `if` is
    // left. Behind a test that isn't known all that follows is a data branch; `is_data` says whether there was one.
    #[cycle(walk)]
    fn try_arms(
        &self,
        arms: &[Arm],
        is_data: &mut bool,
        scalars: &mut Scalars,
        into: &mut Claims,
        cost: &mut u64,
    ) -> Option<Result<(), Trapped>>
        requires ready { IsReady self.now.checked.now self.now.words.now self.now.split.now }
        requires room { HasRoom into.old self.now.checked.now }
        requires none { is_data.old ≡ false }
        ensures { (other : step.Effect) → Tries (sizes_of (arrays_of self.now.checked.now.decls))
            (step.choose (setting self.now.checked.now self.now.words.now self.now.split.now self.now.body) (map (step.walk_arm (setting self.now.checked.now self.now.words.now self.now.split.now self.now.body)) arms.now) other scalars.old)
            other result is_data.new scalars.new into.old cost.old into.new cost.new }
    {
        for arm in arms {
            let Ok(_) = self.walk(&arm.test, scalars, into, cost) else {
                return Some(Err(Trapped));
            };
            pass(cost);
            let known = self.told(&arm.test, scalars);
            match known {
                Told::Holds => {
                    return Some(self.walk_block(arm.body.as_slice(), scalars, into, cost));
                }
                Told::Traps => return Some(Err(Trapped)),
                _ => self.pass_arm(known, arm.body.as_slice(), is_data, scalars, into, cost),
            }
        }
        None
    }

    // What is walked of an arm before the next one is taken: where nothing is known of its test, its block is a data
    // branch.
    #[cycle(walk)]
    fn pass_arm(
        &self,
        known: Told,
        body: &[Stmt],
        is_data: &mut bool,
        scalars: &mut Scalars,
        into: &mut Claims,
        cost: &mut u64,
    )
        requires ready { IsReady self.now.checked.now self.now.words.now self.now.split.now }
        requires room { HasRoom into.old self.now.checked.now }
        ensures { Branches (sizes_of (arrays_of self.now.checked.now.decls)) known (step.walk_block (setting self.now.checked.now self.now.words.now self.now.split.now self.now.body) body.now scalars.old) is_data.old is_data.new scalars.old scalars.new into.old cost.old into.new cost.new }
    {
        if let Told::Unknown = known {
            let _ = self.walk_block(body, scalars, into, cost);
            *is_data = true;
        }
    }

    #[cycle(walk)]
    fn walk_loop(
        &self,
        inner: &Loop,
        scalars: &mut Scalars,
        into: &mut Claims,
        cost: &mut u64,
    ) -> Result<(), Trapped>
        requires ready { IsReady self.now.checked.now self.now.words.now self.now.split.now }
        requires room { HasRoom into.old self.now.checked.now }
        ensures { Does (sizes_of (arrays_of self.now.checked.now.decls)) (step.walk_loop (setting self.now.checked.now self.now.words.now self.now.split.now self.now.body) inner.now scalars.old)
            result scalars.new into.old cost.old into.new cost.new }
    {
        self.walk(&inner.low, scalars, into, cost)?;
        self.walk(&inner.high, scalars, into, cost)?;
        self.walk_from_low(inner, scalars, into, cost)
    }

    // A loop behind the walks of its bounds, and once its low bound is known, and its high one.
    #[cycle(walk)]
    fn walk_from_low(
        &self,
        inner: &Loop,
        scalars: &mut Scalars,
        into: &mut Claims,
        cost: &mut u64,
    ) -> Result<(), Trapped>
        requires ready { IsReady self.now.checked.now self.now.words.now self.now.split.now }
        requires room { HasRoom into.old self.now.checked.now }
        ensures { Does (sizes_of (arrays_of self.now.checked.now.decls))
            (step.turned inner.now.step inner.now.through inner.now.name (step.walk_block (setting self.now.checked.now self.now.words.now self.now.split.now self.now.body) inner.now.body)
            (step.value_of (setting self.now.checked.now self.now.words.now self.now.split.now self.now.body) scalars.old inner.now.low) (step.value_of (setting self.now.checked.now self.now.words.now self.now.split.now self.now.body) scalars.old inner.now.high) scalars.old)
            result scalars.new into.old cost.old into.new cost.new }
    {
        match self.value(&inner.low, scalars) {
            Ok(low) => self.walk_to_high(inner, low, scalars, into, cost),
            Err(_) => Err(Trapped),
        }
    }

    #[cycle(walk)]
    fn walk_to_high(
        &self,
        inner: &Loop,
        low: i64,
        scalars: &mut Scalars,
        into: &mut Claims,
        cost: &mut u64,
    ) -> Result<(), Trapped>
        requires ready { IsReady self.now.checked.now self.now.words.now self.now.split.now }
        requires room { HasRoom into.old self.now.checked.now }
        ensures { Does (sizes_of (arrays_of self.now.checked.now.decls))
            (step.turned inner.now.step inner.now.through inner.now.name (step.walk_block (setting self.now.checked.now self.now.words.now self.now.split.now self.now.body) inner.now.body)
            (Ok low) (step.value_of (setting self.now.checked.now self.now.words.now self.now.split.now self.now.body) scalars.old inner.now.high) scalars.old)
            result scalars.new into.old cost.old into.new cost.new }
    {
        match self.value(&inner.high, scalars) {
            Ok(high) => self.walk_between(inner, low, high, scalars, into, cost),
            Err(_) => Err(Trapped),
        }
    }

    #[cycle(walk)]
    fn walk_between(
        &self,
        inner: &Loop,
        low: i64,
        high: i64,
        scalars: &mut Scalars,
        into: &mut Claims,
        cost: &mut u64,
    ) -> Result<(), Trapped>
        requires ready { IsReady self.now.checked.now self.now.words.now self.now.split.now }
        requires room { HasRoom into.old self.now.checked.now }
        ensures { Does (sizes_of (arrays_of self.now.checked.now.decls))
            (step.looped (counted (turns low high inner.now.step inner.now.through)) (variable low inner.now.step) inner.now.name
            (step.walk_block (setting self.now.checked.now self.now.words.now self.now.split.now self.now.body) inner.now.body) scalars.old)
            result scalars.new into.old cost.old into.new cost.new }
    {
        match turns_of(low, high, inner.step, inner.through) {
            Ok(count) => {
                pass(cost);
                self.walk_turns(inner, low, count, scalars, into, cost)
            }
            Err(_) => Err(Trapped),
        }
    }

    // The turns of a loop whose bounds are known.
    #[cycle(walk)]
    fn walk_turns(
        &self,
        inner: &Loop,
        low: i64,
        count: u64,
        scalars: &mut Scalars,
        into: &mut Claims,
        cost: &mut u64,
    ) -> Result<(), Trapped>
        requires ready { IsReady self.now.checked.now self.now.words.now self.now.split.now }
        requires room { HasRoom into.old self.now.checked.now }
        requires reach { (k : ℕ) → k < count → FitsSigned w64 (variable low inner.now.step k) }
        ensures { Does (sizes_of (arrays_of self.now.checked.now.decls))
            (step.repeat count 0 (variable low inner.now.step) inner.now.name (step.walk_block (setting self.now.checked.now self.now.words.now self.now.split.now self.now.body) inner.now.body) scalars.old)
            result scalars.new into.old cost.old into.new cost.new }
    {
        for k in 0..count {
            scalars.set(inner.name, value_in_turn(low, inner.step, k));
            self.walk_block(inner.body.as_slice(), scalars, into, cost)?;
            pass(cost);
        }
        Ok(())
    }

    fn walk_assign(
        &self,
        name: u32,
        op: Op,
        value: &Expr,
        scalars: &mut Scalars,
        into: &mut Claims,
        cost: &mut u64,
    ) -> Result<(), Trapped>
        requires ready { IsReady self.now.checked.now self.now.words.now self.now.split.now }
        requires room { HasRoom into.old self.now.checked.now }
        ensures { Does (sizes_of (arrays_of self.now.checked.now.decls))
            (step.after (step.walk (setting self.now.checked.now self.now.words.now self.now.split.now self.now.body) scalars.old value.now) (step.assign (setting self.now.checked.now self.now.words.now self.now.split.now self.now.body) op name value.now) scalars.old)
            result scalars.new into.old cost.old into.new cost.new }
    {
        self.walk(value, scalars, into, cost)?;
        self.assign(name, op, value, scalars, cost)
    }

    // `=` and `op=` of a scalar, behind the walk of its value: a slice local gets its new value, and of a data local
    // nothing is known.
    fn assign(
        &self,
        name: u32,
        op: Op,
        value: &Expr,
        scalars: &mut Scalars,
        cost: &mut u64,
    ) -> Result<(), Trapped>
        requires ready { IsReady self.now.checked.now self.now.words.now self.now.split.now }
        ensures { (claims : Claimed) → Does (sizes_of (arrays_of self.now.checked.now.decls))
            (step.assign (setting self.now.checked.now self.now.words.now self.now.split.now self.now.body) op name value.now scalars.old)
            result scalars.new claims cost.old claims cost.new }
    {
        if self.split.is_data(self.body, name) {
            pass_assigning(op, cost);
            return Ok(());
        }
        let Ok(right) = self.value(value, scalars) else {
            return Err(Trapped);
        };
        let Ok(new) = assign(op, scalars.get(name), right) else {
            return Err(Trapped);
        };
        scalars.set(name, new);
        pass_assigning(op, cost);
        Ok(())
    }

    fn walk_write(
        &self,
        name: u32,
        place: &Expr,
        op: Op,
        value: &Expr,
        scalars: &Scalars,
        into: &mut Claims,
        cost: &mut u64,
    ) -> Result<(), Trapped>
        requires ready { IsReady self.now.checked.now self.now.words.now self.now.split.now }
        requires room { HasRoom into.old self.now.checked.now }
        ensures { Does (sizes_of (arrays_of self.now.checked.now.decls))
            (step.after (step.walk (setting self.now.checked.now self.now.words.now self.now.split.now self.now.body) scalars.now place.now)
            (step.after (step.walk (setting self.now.checked.now self.now.words.now self.now.split.now self.now.body) scalars.now value.now)
            (step.after (step.write (setting self.now.checked.now self.now.words.now self.now.split.now self.now.body) op name scalars.now place.now) step.ends)) scalars.now)
            result scalars.now into.old cost.old into.new cost.new }
    {
        self.walk(place, scalars, into, cost)?;
        self.walk(value, scalars, into, cost)?;
        self.write(name, place, op, scalars, into, cost)
    }

    // The write of a word, which `op=` reads first.
    fn write(
        &self,
        name: u32,
        place: &Expr,
        op: Op,
        scalars: &Scalars,
        into: &mut Claims,
        cost: &mut u64,
    ) -> Result<(), Trapped>
        requires ready { IsReady self.now.checked.now self.now.words.now self.now.split.now }
        requires room { HasRoom into.old self.now.checked.now }
        ensures { Walks (sizes_of (arrays_of self.now.checked.now.decls)) (step.write (setting self.now.checked.now self.now.words.now self.now.split.now self.now.body) op name scalars.now place.now)
            result into.old cost.old into.new cost.new }
    {
        if op == Op::Set {
            return self.access(name, place, true, true, scalars, into, cost);
        }
        self.access(name, place, true, false, scalars, into, cost)?;
        pass(cost);
        self.access(name, place, true, true, scalars, into, cost)
    }
}

// How a walk ends that may stand in a data branch: behind one it goes on.
fn in_branch(is_data: bool, ended: Result<(), Trapped>) -> Result<(), Trapped>
    ensures { result ≡ in_branch is_data ended }
{
    if is_data { Ok(()) } else { ended }
}

/// The operations of an assignment.
fn pass_assigning(op: Op, cost: &mut u64)
    ensures { cost.new ≡ with_cost cost.old (step.assigning op) }
{
    if op != Op::Set {
        pass(cost);
    }
    pass(cost);
}
