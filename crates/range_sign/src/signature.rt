ghost use Rattle.std.specs.Prelude.{◌≡◌, ◌<◌, ◌≤◌, ℕ, Bool, List, IfOk, length, sum, slice_index};
ghost use Rattle.word_store.specs.Memory.{most_words};
ghost use Rattle.range_sign.specs.Noted.{HoldsWhatIsNoted, KeepsSizes};
ghost use Rattle.range_sign.specs.Overlap.{overlap_of};

use nest_syntax::NoMemory;
use std::alloc::Global;

/// The most arrays that a signature is made for.
pub(crate) const MOST_ARRAYS: usize = 1_048_576;

/// What a task noted of its accesses: two sets of words, those read and those written. An array is named by its number in
/// order of declaration, a word by its array and its place in it, all from 0. Only `make` takes memory.
///
/// An exact kind holds the words that it noted, any other kind of each array all places from the least noted to the
/// greatest, apart for those read and those written. The law of a kind speaks of what it noted since it was made or
/// cleared, newest first.
pub trait Signature: Drop {
    /// Whether it holds the very words that it noted.
    const EXACT: bool;

    ghost EXACT: { Bool };

    ghost sizes_of: { Self → List ℕ };

    ghost holds: { Self → ℕ → ℕ → Bool → Bool };

    ghost nothing: { List ℕ → Self };

    ghost with_note: { Self → ℕ → ℕ → Bool → Self };

    /// A signature with nothing noted, for arrays of these lengths, which add up to at most 1,048,576. For more arrays
    /// than that, as lengths of 0 allow, the answer is `NoMemory`.
    fn make(alloc: Global, lengths: &[u64]) -> Result<Self, NoMemory>
    where
        Self: Sized,
        requires words { sum lengths.now ≤ most_words }
        ensures is { IfOk result (λ made. made ≡ nothing lengths.now) }
        ensures sizes { IfOk result (λ made. sizes_of made ≡ lengths.now) };

    /// Forgets all that was noted.
    fn clear(&mut self)
        ensures is { self.new ≡ nothing (sizes_of self.old) }
        ensures sizes { sizes_of self.new ≡ sizes_of self.old };

    /// Notes a word of an array, as written or else as read.
    fn note(&mut self, array: u32, place: u64, write: bool)
        requires array { array < length (sizes_of self.old) }
        requires place { place < slice_index (sizes_of self.old) array }
        ensures is { self.new ≡ with_note self.old array place write }
        ensures sizes { sizes_of self.new ≡ sizes_of self.old };

    /// The first array, in order of declaration, in which the two hold a common word, one of them as written. None comes
    /// exactly where there is no such array. Both are of the same lengths.
    fn overlap(&self, other: &Self) -> Option<u32>
        requires { sizes_of self.now ≡ sizes_of other.now }
        ensures { result ≡ overlap_of (sizes_of self.now) (holds self.now) (holds other.now) };

    ghost keeps_sizes: { KeepsSizes sizes_of nothing with_note };

    ghost holds_what_is_noted: { HoldsWhatIsNoted EXACT holds nothing with_note };
}
