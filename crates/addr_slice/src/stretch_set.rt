ghost use Rattle.std.specs.Prelude.{◌≡◌, ◌<◌, ◌≤◌, true, false, IsTrue, IfOk, length, replicate, slice_set};
ghost use Rattle.addr_slice.specs.Claims.{is_set};
ghost use Rattle.addr_slice.specs.WordSet.{AreSet};

use crate::deep_set::DeepSet;
use nest_syntax::NoMemory;
use std::alloc::Global;
use std::marker::Model;

/// A set of words that knows which stretches are in it as a whole, so that the words of one needn't be put in again.
#[derive(Debug, Drop)]
pub(crate) struct StretchSet {
    words: DeepSet,
    // From where such a stretch starts, all words up to the next end are in the set.
    starts: DeepSet,
    ends: DeepSet,
}

impl Model for StretchSet {
    ghost use Rattle.std.specs.Prelude.{List, Bool};
    ghost use Rattle.addr_slice.specs.WordSet.{IsMarked};

    ghost Value = { List Bool };

    ghost view = { λ s. s.words };

    ghost invariant = { λ s. IsMarked s.words s.starts s.ends };
}

impl StretchSet {
    pub(crate) fn empty(alloc: Global, count: usize) -> Result<StretchSet, NoMemory>
        requires { count ≤ 1048576 }
        ensures { IfOk result (λ made. made ≡ replicate count false) }
    {
        Ok(StretchSet {
            words: DeepSet::empty(alloc, count)?,
            starts: DeepSet::empty(alloc, count)?,
            ends: DeepSet::empty(alloc, count)?,
        })
    }

    pub(crate) fn len(&self) -> usize
        ensures len { result ≡ length self.now }
        ensures few { length self.now ≤ 1048576 }
    {
        self.words.len()
    }

    pub(crate) fn has(&self, word: usize) -> bool
        ensures { result ≡ is_set self.now word }
    {
        self.words.has(word)
    }

    pub(crate) fn insert(&mut self, word: usize)
        requires { word < length self.old }
        ensures { self.new ≡ slice_set self.old word true }
    {
        self.words.insert(word);
    }

    // Whether it is known that all words from the first to the last are in the set.
    pub(crate) fn is_whole(&self, first: usize, last: usize) -> bool
        ensures { IsTrue result → AreSet self.now first last }
    {
        match self.ends.next_from(first) {
            Some(end) => self.starts.has(first) && last <= end,
            None => false,
        }
    }

    // Makes known that all words from the first to the last are in the set.
    pub(crate) fn mark_whole(&mut self, first: usize, last: usize)
        requires order { first ≤ last }
        requires within { last < length self.old }
        requires set { AreSet self.old first last }
        ensures { self.new ≡ self.old }
    {
        self.starts.insert(first);
        self.ends.insert(last);
    }

    pub(crate) fn clear(&mut self)
        ensures { self.new ≡ replicate (length self.old) false }
    {
        self.words.clear();
        self.starts.clear();
        self.ends.clear();
    }
}
