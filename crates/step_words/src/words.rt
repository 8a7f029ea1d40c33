//! The words of a text, taken off its front one by one.
ghost use Rattle.std.specs.Prelude.{◌≡◌, ◌<◌, ◌∷◌, [], true, length, slice_index, IfSome, MatchOption};
ghost use Rattle.std.specs.List.{position};
ghost use Rattle.step_words.specs.Steps as step;

fn is_separator(byte: u8) -> bool
    ensures { result ≡ step.is_separator byte }
{
    byte == b' ' || byte == b'\t' || byte == b'\r' || byte == b'\n'
}

fn first_separator(bytes: &[u8]) -> Option<usize>
    ensures { result ≡ position step.is_separator bytes.now }
{
    bytes.iter().position(|byte| is_separator(*byte))
}

fn first_word_byte(bytes: &[u8]) -> Option<usize>
    ensures { result ≡ position step.is_word_byte bytes.now }
{
    bytes.iter().position(|byte| !is_separator(*byte))
}

// The first word of bytes that begin with it, and the bytes behind it.
fn front_word(bytes: &[u8]) -> (&[u8], &[u8])
    requires some { 0 < length bytes.now }
    requires begins { step.is_word_byte (slice_index bytes.now 0) ≡ true }
    ensures words { step.words_in bytes.now ≡ result.0.now ∷ step.words_in result.1.now }
    ensures shorter { length result.1.now < length bytes.now }
{
    match first_separator(bytes) {
        Some(end) => (&bytes[..end], &bytes[end + 1..]),
        None => (bytes, &[]),
    }
}

/// The first word, and the bytes behind it.
pub(crate) fn next_word(bytes: &[u8]) -> Option<(&[u8], &[u8])>
    ensures words { MatchOption result (step.words_in bytes.now ≡ []) (λ r. step.words_in bytes.now ≡ r.0.now ∷ step.words_in r.1.now) }
    ensures shorter { IfSome result (λ r. length r.1.now < length bytes.now) }
{
    match first_word_byte(bytes) {
        Some(start) => Some(front_word(&bytes[start..])),
        None => None,
    }
}
