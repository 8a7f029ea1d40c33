//! Lines and their words, taken off the front of a text one by one.
ghost use Rattle.std.specs.Prelude.{◌≡◌, ◌<◌, ◌≤◌, ◌∷◌, [], true, length, slice_index, IfSome, MatchOption};
ghost use Rattle.std.specs.List.{list_all, position};
ghost use Rattle.nest_data.specs.Lines as line;

fn is_line_feed(byte: u8) -> bool
    ensures { result ≡ line.is_line_feed byte }
{
    byte == b'\n'
}

fn is_separator(byte: u8) -> bool
    ensures { result ≡ line.is_separator byte }
{
    byte == b' ' || byte == b'\t'
}

fn is_space(byte: u8) -> bool
    ensures { result ≡ line.is_space byte }
{
    is_separator(byte) || byte == b'\r'
}

fn first_line_feed(bytes: &[u8]) -> Option<usize>
    ensures { result ≡ position line.is_line_feed bytes.now }
{
    bytes.iter().position(|byte| is_line_feed(*byte))
}

fn first_separator(bytes: &[u8]) -> Option<usize>
    ensures { result ≡ position line.is_separator bytes.now }
{
    bytes.iter().position(|byte| is_separator(*byte))
}

fn first_word_byte(bytes: &[u8]) -> Option<usize>
    ensures { result ≡ position line.is_word_byte bytes.now }
{
    bytes.iter().position(|byte| !is_separator(*byte))
}

/// The first line without its line feed, and the bytes behind it.
pub(crate) fn next_line(bytes: &[u8]) -> (&[u8], &[u8])
    requires { 0 < length bytes.now }
    ensures lines { line.lines_of bytes.now ≡ result.0.now ∷ line.lines_of result.1.now }
    ensures shorter { length result.1.now < length bytes.now }
    ensures within { length result.0.now ≤ length bytes.now }
{
    match first_line_feed(bytes) {
        Some(end) => (&bytes[..end], &bytes[end + 1..]),
        None => (bytes, &[]),
    }
}

/// Whether a line has nothing but spaces, tabs and carriage returns.
pub(crate) fn is_blank(text: &[u8]) -> bool
    ensures { result ≡ list_all line.is_space text.now }
{
    text.iter().all(|byte| is_space(*byte))
}

/// A line without the one carriage return that may stand at its end.
pub(crate) fn without_return(text: &[u8]) -> &[u8]
    ensures line { result.now ≡ line.without_return text.now }
    ensures within { length result.now ≤ length text.now }
{
    if !text.is_empty() && text[text.len() - 1] == b'\r' {
        &text[..text.len() - 1]
    } else {
        text
    }
}

// The first word of bytes that begin with it, and the bytes behind it.
fn front_word(bytes: &[u8]) -> (&[u8], &[u8])
    requires some { 0 < length bytes.now }
    requires begins { line.is_word_byte (slice_index bytes.now 0) ≡ true }
    ensures words { line.words_in bytes.now ≡ result.0.now ∷ line.words_in result.1.now }
    ensures shorter { length result.1.now < length bytes.now }
{
    match first_separator(bytes) {
        Some(end) => (&bytes[..end], &bytes[end + 1..]),
        None => (bytes, &[]),
    }
}

/// The first word, and the bytes behind it.
pub(crate) fn next_word(bytes: &[u8]) -> Option<(&[u8], &[u8])>
    ensures words { MatchOption result (line.words_in bytes.now ≡ []) (λ r. line.words_in bytes.now ≡ r.0.now ∷ line.words_in r.1.now) }
    ensures shorter { IfSome result (λ r. length r.1.now < length bytes.now) }
{
    match first_word_byte(bytes) {
        Some(start) => Some(front_word(&bytes[start..])),
        None => None,
    }
}
