ghost use Rattle.std.specs.Prelude.{◌≡◌, ◌<◌, Some, length, map, IfOk, OnOk, All};
ghost use Rattle.nest_syntax.specs.Arrays.{with_word};
ghost use Rattle.word_store.specs.Memory.{number_at};
ghost use Rattle.settle_law.specs.Traces as law;
ghost use Rattle.trace_order.specs.Swaps.{traced};

use crate::access::Access;
use nest_syntax::NoMemory;
use std::alloc::Global;
use word_store::Words;

/// The words behind the accesses: each word has the value of its last write, or the one that it had before.
pub fn settle(alloc: Global, base: &Words, accesses: &[Access]) -> Result<Words, NoMemory>
    requires { All (λ a. a.word < length base.now.words) accesses.now }
    ensures { IfOk result (λ words. words ≡ record base.now { words = law.settle base.now.words (map traced accesses.now) }) }
{
    let mut words = base.copy(alloc)?;
    for access in accesses {
        if access.write {
            put(&mut words, access.word, access.value)?;
        }
    }
    Ok(words)
}

// Writes the word with this number.
fn put(words: &mut Words, word: u32, value: i64) -> Result<(), NoMemory>
    requires { word < length words.old.words }
    ensures { OnOk result (words.new ≡ record words.old { words = with_word words.old.words word value }) }
{
    let (array, place) = locate(words, word)?;
    let _ = words.store(array, place, value);
    Ok(())
}

// The array that has the word with this number, and its place there. `NoMemory` comes for an array whose number passes
// 32 bits.
fn locate(words: &Words, word: u32) -> Result<(u32, i64), NoMemory>
    requires { word < length words.now.words }
    ensures array { IfOk result (λ at. at.0 < length words.now.sizes) }
    ensures word { IfOk result (λ at. number_at words.now.sizes at.0 at.1 ≡ Some word) }
{
    let mut place = word as u64;
    for array in 0..words.arrays() {
        let size = words.lengths()[array];
        if place < size {
            let Ok(array) = u32::try_from(array) else {
                return Err(NoMemory);
            };
            return Ok((array, place as i64));
        }
        place -= size;
    }
    unreachable!()
}
