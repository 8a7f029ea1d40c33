ghost use Rattle.std.specs.Prelude.{◌≡◌, IfOk};

use nest_syntax::NoMemory;
use std::alloc::Global;
use std::marker::Model;
use word_store::Words;

/// Words that are marked, as a whole copy. All words that are handed to it have arrays of the same lengths.
#[derive(Debug, Drop)]
pub struct Checkpoint {
    marked: Words,
}

impl Model for Checkpoint {
    ghost use Rattle.word_store.specs.Memory.{Memory};

    ghost Value = { Memory };

    ghost view = { λ c. c.marked };
}

impl Checkpoint {
    /// Marks the words. The one call that takes memory.
    pub fn mark(alloc: Global, words: &Words) -> Result<Checkpoint, NoMemory>
        ensures { IfOk result (λ made. made ≡ words.now) }
    {
        Ok(Checkpoint {
            marked: words.copy(alloc)?,
        })
    }

    /// Gives the words last marked back.
    pub fn restore(&self, words: &mut Words)
        requires { words.old.sizes ≡ self.now.sizes }
        ensures { words.new ≡ self.now }
    {
        words.copy_from(&self.marked);
    }

    /// Marks these words in place of those last marked.
    pub fn commit(&mut self, words: &Words)
        requires { words.now.sizes ≡ self.old.sizes }
        ensures { self.new ≡ words.now }
    {
        self.marked.copy_from(words);
    }
}
