//! The claims of an iteration, noted in a signature.
ghost use Rattle.std.specs.Prelude.{◌≡◌, ◌<◌, ◌≤◌, ◌+◌, ◌^◌, sum, take, length, slice_index_or, if◌then◌else◌};
ghost use Rattle.nest_syntax.specs.Arrays.{word_number};
ghost use Rattle.addr_slice.specs.Claims.{by_word};
ghost use Rattle.spec_machine.specs.Segments.{with_claimed, with_claims};
ghost use Rattle.spec_setup.specs.Signs.{kind_of, with_word_noted};
ghost use Rattle.spec_core.specs.Signatures.{signs};

use addr_slice::Claims;
use range_sign::Signature;

/// Notes all that is claimed, word by word in order.
pub(crate) fn note_claims<G: Signature>(claims: &Claims, lengths: &[u64], sign: &mut G)
    requires few { sum lengths.now ≤ 1048576 }
    requires many { length lengths.now < 2 ^ 32 }
    requires sizes { G.sizes_of sign.old ≡ lengths.now }
    ensures sign { sign.new ≡ with_claims (kind_of lengths.now (signs G.EXACT G.holds G.nothing G.with_note)) (by_word claims.now) (sum lengths.now) sign.old }
    ensures sizes { G.sizes_of sign.new ≡ lengths.now }
{
    let mut start = 0u32;
    for array in 0..lengths.len() {
        let end = end_of(lengths, array, start);
        note_array(claims, array as u32, start, end, sign);
        start = end;
    }
}

// The number behind the last word of an array, whose first word has the number `start`.
fn end_of(lengths: &[u64], array: usize, start: u32) -> u32
    requires few { sum lengths.now ≤ 1048576 }
    requires array { array < length lengths.now }
    requires start { start ≡ sum (take array lengths.now) }
    ensures end { result ≡ start + slice_index_or lengths.now array 0 }
    ensures next { result ≡ sum (take (array + 1) lengths.now) }
{
    start + lengths[array] as u32
}

// Notes what is claimed of one array, whose words have the numbers from `start` up to and without `end`.
fn note_array<G: Signature>(claims: &Claims, array: u32, start: u32, end: u32, sign: &mut G)
    requires array { array < length (G.sizes_of sign.old) }
    requires start { start ≡ sum (take array (G.sizes_of sign.old)) }
    requires end { end ≡ start + slice_index_or (G.sizes_of sign.old) array 0 }
    ensures sign { (before : G) → sign.old ≡ with_claims (kind_of (G.sizes_of sign.old) (signs G.EXACT G.holds G.nothing G.with_note)) (by_word claims.now) start before
        → sign.new ≡ with_claims (kind_of (G.sizes_of sign.old) (signs G.EXACT G.holds G.nothing G.with_note)) (by_word claims.now) end before }
    ensures sizes { G.sizes_of sign.new ≡ G.sizes_of sign.old }
{
    let mut from = start;
    'words: while let Some(word) = claims.next_from(from) {
        if word >= end {
            return;
        }
        note_word(claims, array, u64::from(word - start), word, sign);
        from = word + 1;
    }
}

// Notes what is claimed of one word.
fn note_word<G: Signature>(claims: &Claims, array: u32, place: u64, word: u32, sign: &mut G)
    requires array { array < length (G.sizes_of sign.old) }
    requires place { place < slice_index_or (G.sizes_of sign.old) array 0 }
    requires word { word ≡ word_number (G.sizes_of sign.old) array place }
    ensures sign { sign.new ≡ with_claimed (kind_of (G.sizes_of sign.old) (signs G.EXACT G.holds G.nothing G.with_note)) (by_word claims.now) word sign.old }
    ensures sizes { G.sizes_of sign.new ≡ G.sizes_of sign.old }
{
    let (is_read, is_written) = (claims.has(word, false), claims.has(word, true));
    note_if(is_read, array, place, false, sign);
    note_if(is_written, array, place, true, sign);
}

fn note_if<G: Signature>(is_claimed: bool, array: u32, place: u64, write: bool, sign: &mut G)
    requires array { array < length (G.sizes_of sign.old) }
    requires place { place < slice_index_or (G.sizes_of sign.old) array 0 }
    ensures sign { sign.new ≡ (if is_claimed then with_word_noted (G.sizes_of sign.old) (signs G.EXACT G.holds G.nothing G.with_note) write (word_number (G.sizes_of sign.old) array place) sign.old else sign.old) }
    ensures sizes { G.sizes_of sign.new ≡ G.sizes_of sign.old }
{
    if is_claimed {
        sign.note(array, place, write);
    }
}
