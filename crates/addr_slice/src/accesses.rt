ghost use Rattle.std.specs.Prelude.{◌≡◌, ◌<◌, Ok, length, IfSome, [], ◌∷◌};
ghost use Rattle.nest_syntax.specs.Arrays.{arrays_of, array_of, sizes_of};
ghost use Rattle.claim_walk.specs.Walk as step;
ghost use Rattle.addr_slice.specs.Claims.{words_of};
ghost use Rattle.addr_slice.specs.Met.{setting, IsReady, HasRoom, Walks, with_steps};

use crate::claim_set::Claims;
use crate::slices::{Trapped, Walker, pass};
use nest_mean::Scalars;
use nest_syntax::Expr;

impl Walker<'_> {
    // A word at a subscript that is known, or at any of its array. It is claimed where the array isn't `const`.
    pub(crate) fn access(
        &self,
        name: u32,
        place: &Expr,
        is_claimed: bool,
        write: bool,
        scalars: &Scalars,
        into: &mut Claims,
        cost: &mut u64,
    ) -> Result<(), Trapped>
        requires ready { IsReady self.now.checked.now self.now.words.now self.now.split.now }
        requires room { HasRoom into.old self.now.checked.now }
        ensures { Walks (sizes_of (arrays_of self.now.checked.now.decls)) (step.access (setting self.now.checked.now self.now.words.now self.now.split.now self.now.body) is_claimed write name scalars.now place.now)
            result into.old cost.old into.new cost.new }
    {
        if !self.is_slice(place) {
            return self.sweep(name, is_claimed, write, into, cost);
        }
        match self.value(place, scalars) {
            Ok(at) => self.touch(name, at, is_claimed, write, into, cost),
            Err(_) => Err(Trapped),
        }
    }

    fn touch(
        &self,
        name: u32,
        at: i64,
        is_claimed: bool,
        write: bool,
        into: &mut Claims,
        cost: &mut u64,
    ) -> Result<(), Trapped>
        requires ready { IsReady self.now.checked.now self.now.words.now self.now.split.now }
        requires room { HasRoom into.old self.now.checked.now }
        ensures { Walks (sizes_of (arrays_of self.now.checked.now.decls)) (step.at_place (setting self.now.checked.now self.now.words.now self.now.split.now self.now.body) is_claimed write name (Ok at))
            result into.old cost.old into.new cost.new }
    {
        let Some(array) = self.array_of(name) else {
            return Err(Trapped);
        };
        let Some(word) = self.words.number_of(array, at) else {
            return Err(Trapped);
        };
        if is_claimed {
            into.add(word, write);
        }
        pass(cost);
        Ok(())
    }

    fn sweep(
        &self,
        name: u32,
        is_claimed: bool,
        write: bool,
        into: &mut Claims,
        cost: &mut u64,
    ) -> Result<(), Trapped>
        requires ready { IsReady self.now.checked.now self.now.words.now self.now.split.now }
        requires room { HasRoom into.old self.now.checked.now }
        ensures { Walks (sizes_of (arrays_of self.now.checked.now.decls)) (step.anywhere (setting self.now.checked.now self.now.words.now self.now.split.now self.now.body) is_claimed write name)
            result into.old cost.old into.new cost.new }
    {
        let Some(array) = self.array_of(name) else {
            return Err(Trapped);
        };
        if is_claimed {
            self.claim_all(array, write, into);
        }
        pass(cost);
        Ok(())
    }

    fn claim_all(&self, array: u32, write: bool, into: &mut Claims)
        requires there { array < length (arrays_of self.now.checked.now.decls) }
        requires ready { IsReady self.now.checked.now self.now.words.now self.now.split.now }
        requires room { HasRoom into.old self.now.checked.now }
        ensures claims { into.new ≡ with_steps (sizes_of (arrays_of self.now.checked.now.decls)) into.old (step.Sweeps array write ∷ []) }
        ensures room { words_of into.new ≡ words_of into.old }
    {
        if let Some(first) = self.words.number_of(array, 0) {
            let count = self.checked.lengths()[array as usize] as u32;
            into.add_all(first, count, write);
        }
    }

    fn array_of(&self, name: u32) -> Option<u32>
        ensures number { result ≡ array_of (arrays_of self.now.checked.now.decls) name }
        ensures there { IfSome result (λ n. n < length (arrays_of self.now.checked.now.decls)) }
    {
        self.checked.array_of(name)
    }
}
