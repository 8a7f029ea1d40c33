ghost use Rattle.std.specs.Prelude.{◌≡◌, ◌<◌, ◌≤◌, ◌∷◌, ◌++◌, [], IfOk, length};
ghost use Rattle.spec_core.specs.Blocks.{planned_at};

use epoch_plan::Epoch;
use nest_syntax::NoMemory;
use std::alloc::Global;
use std::marker::Model;

/// The most epochs of a segment.
pub(crate) const MOST_EPOCHS: usize = 64;

const NO_EPOCH: Epoch = Epoch {
    body: 0,
    first: 0,
    low: 0,
    step: 1,
    trips: 0,
    all: false,
    env: [0; 32],
};

/// The open epochs of a segment. There is room for 64.
#[derive(Drop)]
pub(crate) struct Epochs {
    places: Vec<Epoch>,
    /// How many places are in use.
    count: usize,
}

impl Model for Epochs {
    ghost use Rattle.std.specs.Prelude.{◌≡◌, ◌≤◌, List, take, length};
    ghost use Rattle.epoch_plan.specs.declared.blocks.Epoch.{Epoch as Planned};

    ghost Value = { List Planned };

    ghost view = { λ e. take e.count e.places.items };

    ghost invariant = { λ e. (length e.places.items ≡ 64) × (e.count ≤ 64) };
}

impl Epochs {
    /// None is open.
    pub(crate) fn none(alloc: Global) -> Result<Epochs, NoMemory>
        ensures { IfOk result (λ made. made ≡ []) }
    {
        Ok(Epochs {
            places: vec![in alloc; NO_EPOCH; MOST_EPOCHS]?,
            count: 0,
        })
    }

    pub(crate) fn len(&self) -> usize
        ensures same { result ≡ length self.now }
        ensures few { length self.now ≤ 64 }
    {
        self.count
    }

    pub(crate) fn get(&self, index: u32) -> &Epoch
        requires { index < length self.now }
        ensures { result.now ≡ planned_at self.now index }
    {
        &self.places[index as usize]
    }

    pub(crate) fn push(&mut self, epoch: Epoch)
        requires { length self.old < 64 }
        ensures { self.new ≡ self.old ++ epoch ∷ [] }
    {
        self.places[self.count] = epoch;
        self.count += 1;
    }

    pub(crate) fn clear(&mut self)
        ensures { self.new ≡ [] }
    {
        self.count = 0;
    }
}
