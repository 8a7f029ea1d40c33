ghost use Rattle.std.specs.Prelude.{◌≡◌, ◌≢◌, is_err};
ghost use Rattle.nest_syntax.specs.Arrays.{arrays_of, sizes_of};
ghost use Rattle.claim_walk.specs.Walk as step;
ghost use Rattle.addr_slice.specs.Claims.{Claimed};
ghost use Rattle.addr_slice.specs.Met.{setting, IsReady, HasRoom, Walks, if_holds, flipped, operation_on};

use crate::claim_set::Claims;
use crate::slices::{Told, Trapped, Walker, pass};
use nest_mean::Scalars;
use nest_syntax::{Bin, Expr};
use word_store::apply;

impl Walker<'_> {
    #[cycle(expression)]
    pub(crate) fn walk(
        &self,
        expr: &Expr,
        scalars: &Scalars,
        into: &mut Claims,
        cost: &mut u64,
    ) -> Result<(), Trapped>
        requires ready { IsReady self.now.checked.now self.now.words.now self.now.split.now }
        requires room { HasRoom into.old self.now.checked.now }
        ensures { Walks (sizes_of (arrays_of self.now.checked.now.decls)) (step.walk (setting self.now.checked.now self.now.words.now self.now.split.now self.now.body) scalars.now expr.now)
            result into.old cost.old into.new cost.new }
    {
        match expr {
            Expr::Number(_) => Ok(()),
            Expr::Scalar(_) => Ok(()),
            Expr::Word(name, place) => {
                self.walk(place.get(), scalars, into, cost)?;
                let is_claimed = self.split.is_written(*name);
                self.access(*name, place.get(), is_claimed, false, scalars, into, cost)
            }
            Expr::Unary(_, part) => {
                self.walk(part.get(), scalars, into, cost)?;
                pass(cost);
                Ok(())
            }
            Expr::Binary(op, left, right) => {
                self.walk(left.get(), scalars, into, cost)?;
                match op {
                    Bin::Both => {
                        pass(cost);
                        let known = self.told(left.get(), scalars);
                        self.walk_tested_if(known, right.get(), scalars, into, cost)
                    }
                    Bin::Either => {
                        pass(cost);
                        let known = flipped(self.told(left.get(), scalars));
                        self.walk_tested_if(known, right.get(), scalars, into, cost)
                    }
                    _ => {
                        self.walk(right.get(), scalars, into, cost)?;
                        self.operate(*op, left.get(), right.get(), scalars, cost)
                    }
                }
            }
            Expr::Choice(test, first, second) => {
                self.walk(test.get(), scalars, into, cost)?;
                pass(cost);
                let known = self.told(test.get(), scalars);
                self.walk_if(known, first.get(), scalars, into, cost)?;
                self.walk_if(flipped(known), second.get(), scalars, into, cost)
            }
        }
    }

    // A part that counts where a test holds of which this is known.
    #[cycle(expression)]
    fn walk_if(
        &self,
        known: Told,
        expr: &Expr,
        scalars: &Scalars,
        into: &mut Claims,
        cost: &mut u64,
    ) -> Result<(), Trapped>
        requires ready { IsReady self.now.checked.now self.now.words.now self.now.split.now }
        requires room { HasRoom into.old self.now.checked.now }
        ensures { Walks (sizes_of (arrays_of self.now.checked.now.decls)) (if_holds known (step.walk (setting self.now.checked.now self.now.words.now self.now.split.now self.now.body) scalars.now expr.now))
            result into.old cost.old into.new cost.new }
    {
        match known {
            Told::Holds => self.walk(expr, scalars, into, cost),
            Told::Fails => Ok(()),
            Told::Traps => Err(Trapped),
            Told::Unknown => {
                let _ = self.walk(expr, scalars, into, cost);
                Ok(())
            }
        }
    }

    // The same of the second part of `&&` or `||`.
    #[cycle(expression)]
    fn walk_tested_if(
        &self,
        known: Told,
        expr: &Expr,
        scalars: &Scalars,
        into: &mut Claims,
        cost: &mut u64,
    ) -> Result<(), Trapped>
        requires ready { IsReady self.now.checked.now self.now.words.now self.now.split.now }
        requires room { HasRoom into.old self.now.checked.now }
        ensures { Walks (sizes_of (arrays_of self.now.checked.now.decls)) (if_holds known (step.behind (step.walk (setting self.now.checked.now self.now.words.now self.now.split.now self.now.body) scalars.now expr.now) (step.meets step.Passes)))
            result into.old cost.old into.new cost.new }
    {
        match known {
            Told::Holds => self.walk_tested(expr, scalars, into, cost),
            Told::Fails => Ok(()),
            Told::Traps => Err(Trapped),
            Told::Unknown => {
                let _ = self.walk_tested(expr, scalars, into, cost);
                Ok(())
            }
        }
    }

    // The second part of `&&` or `||`, and the pause behind it.
    #[cycle(expression)]
    fn walk_tested(
        &self,
        expr: &Expr,
        scalars: &Scalars,
        into: &mut Claims,
        cost: &mut u64,
    ) -> Result<(), Trapped>
        requires ready { IsReady self.now.checked.now self.now.words.now self.now.split.now }
        requires room { HasRoom into.old self.now.checked.now }
        ensures { Walks (sizes_of (arrays_of self.now.checked.now.decls))
            (step.behind (step.walk (setting self.now.checked.now self.now.words.now self.now.split.now self.now.body) scalars.now expr.now) (step.meets step.Passes))
            result into.old cost.old into.new cost.new }
    {
        self.walk(expr, scalars, into, cost)?;
        pass(cost);
        Ok(())
    }

    fn operate(
        &self,
        op: Bin,
        left: &Expr,
        right: &Expr,
        scalars: &Scalars,
        cost: &mut u64,
    ) -> Result<(), Trapped>
        requires ready { IsReady self.now.checked.now self.now.words.now self.now.split.now }
        requires not_both { op ≢ Bin.Both }
        requires not_either { op ≢ Bin.Either }
        ensures { (claims : Claimed) → Walks (sizes_of (arrays_of self.now.checked.now.decls))
            (step.operation (operation_on (setting self.now.checked.now self.now.words.now self.now.split.now self.now.body) scalars.now op left.now right.now))
            result claims cost.old claims cost.new }
    {
        if self.traps(op, left, right, scalars) {
            return Err(Trapped);
        }
        pass(cost);
        Ok(())
    }

    // Whether an operation is known to trap. Of other operands than slice expressions it isn't known.
    fn traps(&self, op: Bin, left: &Expr, right: &Expr, scalars: &Scalars) -> bool
        requires ready { IsReady self.now.checked.now self.now.words.now self.now.split.now }
        requires not_both { op ≢ Bin.Both }
        requires not_either { op ≢ Bin.Either }
        ensures { result ≡ is_err (operation_on (setting self.now.checked.now self.now.words.now self.now.split.now self.now.body) scalars.now op left.now right.now) }
    {
        if !self.is_slice(left) || !self.is_slice(right) {
            return false;
        }
        let Ok(first) = self.value(left, scalars) else {
            return true;
        };
        let Ok(second) = self.value(right, scalars) else {
            return true;
        };
        apply(op, first, second).is_err()
    }
}

// What is known of the opposite of a test.
fn flipped(known: Told) -> Told
    ensures { result ≡ flipped known }
{
    match known {
        Told::Holds => Told::Fails,
        Told::Fails => Told::Holds,
        Told::Traps => Told::Traps,
        Told::Unknown => Told::Unknown,
    }
}
