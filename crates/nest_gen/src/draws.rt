ghost use Rattle.std.specs.Prelude.{◌≡◌, ◌<◌, ◌≤◌, ◌%◌, pos, IfOk, OnOk, map};
ghost use Rattle.nest_gen.specs.Draws.{drawn, next_state, draws_from, state_behind};

use nest_syntax::NoMemory;
use std::alloc::Global;

/// The draws from a state on, one by one.
#[derive(Drop)]
pub(crate) struct Draws {
    state: u32,
    ghost small: { state < 2147483648 },
}

impl Draws {
    pub(crate) fn from_seed(seed: u32) -> Draws
        requires { seed < 2147483648 }
        ensures { result.state ≡ seed }
    {
        Draws { state: seed }
    }

    fn next(&mut self) -> u32
        ensures state { self.new.state ≡ next_state self.old.state }
        ensures draw { result ≡ drawn self.new.state }
    {
        let next = (self.state as u64 * 1_103_515_245 + 12_345) % 2_147_483_648;
        self.state = next as u32;
        self.state / 65_536
    }

    /// So many draws, each modulo the same number.
    pub(crate) fn take(
        &mut self,
        alloc: Global,
        count: u32,
        modulus: u32,
    ) -> Result<Vec<i64>, NoMemory>
        requires { 1 ≤ modulus }
        ensures draws { IfOk result (λ list. list.items ≡ map (λ draw. pos (draw % modulus)) (draws_from self.old.state count)) }
        ensures state { OnOk result (self.new.state ≡ state_behind self.old.state count) }
    {
        let mut list = Vec::new(alloc);
        for _turn in 0..count {
            list.push(reduced(self.next(), modulus))?;
        }
        Ok(list)
    }
}

fn reduced(draw: u32, modulus: u32) -> i64
    requires { 1 ≤ modulus }
    ensures { result ≡ pos (draw % modulus) }
{
    i64::from(draw % modulus)
}
