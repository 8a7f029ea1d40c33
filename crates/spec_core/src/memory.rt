ghost use Rattle.std.specs.Prelude.{◌≡◌, ◌<◌, slice_index_or};
ghost use Rattle.nest_syntax.specs.Arrays.{word_at, with_word, word_number};

use word_store::Words;

/// The word at a place of an array.
#[tactic(auto, using(crate::proofs::Places::array_there, crate::proofs::Places::place_small, crate::proofs::Places::loaded_is))]
pub(crate) fn word_at(words: &Words, array: u32, place: u64) -> i64
    requires { place < slice_index_or words.now.sizes array 0 }
    ensures { result ≡ word_at words.now.words (word_number words.now.sizes array place) }
{
    // It tells that places are small.
    let _arrays = words.arrays();
    match words.load(array, place as i64) {
        Some(word) => word,
        None => unreachable!(),
    }
}

/// Writes the word at a place of an array.
#[tactic(auto, using(crate::proofs::Places::array_there, crate::proofs::Places::place_small, crate::proofs::Places::stored_is))]
pub(crate) fn set_word(words: &mut Words, array: u32, place: u64, value: i64)
    requires { place < slice_index_or words.old.sizes array 0 }
    ensures { words.new ≡ record words.old { words = with_word words.old.words (word_number words.old.sizes array place) value } }
{
    let _arrays = words.arrays();
    let _ = words.store(array, place as i64, value);
}
