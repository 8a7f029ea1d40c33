ghost use Rattle.std.specs.Prelude.{◌≡◌, ◌≤◌, IfOk, map, replicate, sum};
ghost use Rattle.word_store.specs.Memory.{most_words};

use nest_syntax::NoMemory;
use range_sign::Signature;
use std::alloc::Global;

/// The hulls of the tasks of one epoch: a signature for each worker.
#[derive(Drop)]
pub(crate) struct Row<G: Signature> {
    pub(crate) signs: Vec<G>,
}

impl<G: Signature> Row<G> {
    /// Signatures with nothing noted.
    pub(crate) fn open(alloc: Global, lengths: &[u64], workers: u8) -> Result<Row<G>, NoMemory>
        requires { sum lengths.now ≤ most_words }
        ensures { IfOk result (λ row. row.signs.items ≡ replicate workers (G.nothing lengths.now)) }
    {
        let workers = workers as usize;
        let mut signs = Vec::with_capacity(alloc, workers)?;
        'open: while signs.len() < workers {
            signs.push(G::make(alloc, lengths)?)?;
        }
        Ok(Row { signs })
    }

    /// Forgets what they noted.
    pub(crate) fn clear(&mut self)
        ensures { self.new.signs.items ≡ map (λ (sign : G). G.nothing (G.sizes_of sign)) self.old.signs.items }
    {
        'workers: for worker in 0..self.signs.len() {
            self.signs[worker].clear();
        }
    }
}
