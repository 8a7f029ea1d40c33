ghost use Rattle.std.specs.Prelude.{◌≡◌, IfOk, pos, replicate};
ghost use Rattle.nest_syntax.specs.Value.{scalar_at, with_scalar};

use nest_syntax::NoMemory;
use std::alloc::Global;
use std::marker::Model;

/// The values of scalars, one for each name of a program, by the number of the name.
#[derive(Debug, Drop)]
pub struct Scalars {
    values: Vec<i64>,
}

impl Model for Scalars {
    ghost use Rattle.std.specs.Prelude.{List, ℤ};

    ghost Value = { List ℤ };

    ghost view = { λ s. s.values.items };
}

impl Scalars {
    /// A scalar for each of so many names, each 0.
    pub fn zeros(alloc: Global, names: usize) -> Result<Scalars, NoMemory>
        ensures { IfOk result (λ made. made ≡ replicate names (pos 0)) }
    {
        Ok(Scalars {
            values: vec![in alloc; 0i64; names]?,
        })
    }

    /// The value of a name's scalar, 0 where the name isn't there.
    pub fn get(&self, name: u32) -> i64
        ensures { result ≡ scalar_at self.now name }
    {
        self.values.get(name as usize).copied().unwrap_or(0)
    }

    /// Gives a name's scalar a value. Where the name isn't there nothing changes.
    pub fn set(&mut self, name: u32, value: i64)
        ensures { self.new ≡ with_scalar self.old name value }
    {
        if (name as usize) < self.values.len() {
            self.values[name as usize] = value;
        }
    }

    /// The values, in the order of the numbers of names.
    pub(crate) fn as_slice(&self) -> &[i64]
        ensures { result.now ≡ self.now }
    {
        self.values.as_slice()
    }
}
