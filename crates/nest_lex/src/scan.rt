//! Scanners: where a word, a line or a comment ends.
ghost use Rattle.std.specs.Prelude.{◌≡◌, ◌≤◌, ◌+◌, ℕ, length, MatchOption};
ghost use Rattle.nest_lex.specs.Bytes as class;
ghost use Rattle.nest_lex.specs.Pieces.{IsLineEnd, IsBlockEnd, ClosesBlock};
ghost use Rattle.nest_lex.specs.Scans.{IsWordEnd};

pub fn is_letter(byte: u8) -> bool
    ensures { result ≡ class.is_letter byte }
{
    matches!(byte, b'a'..=b'z' | b'A'..=b'Z' | b'_')
}

pub fn is_digit(byte: u8) -> bool
    ensures { result ≡ class.is_digit byte }
{
    matches!(byte, b'0'..=b'9')
}

pub fn is_word_byte(byte: u8) -> bool
    ensures { result ≡ class.is_word_byte byte }
{
    is_letter(byte) || is_digit(byte)
}

pub fn is_space(byte: u8) -> bool
    ensures { result ≡ class.is_space byte }
{
    byte == b' ' || byte == b'\t' || byte == b'\r'
}

pub fn is_blank(byte: u8) -> bool
    ensures { result ≡ class.is_blank byte }
{
    is_space(byte) || byte == b'\n'
}

/// The first place from `from` on where no letter, digit or `_` stands.
pub fn word_end(bytes: &[u8], from: usize) -> usize
    requires { from ≤ length bytes.now }
    ensures { IsWordEnd bytes.now from result }
{
    for at in from..bytes.len() {
        if !is_word_byte(bytes[at]) {
            return at;
        }
    }
    bytes.len()
}

/// The first line feed from `from` on, or the end.
pub fn line_end(bytes: &[u8], from: usize) -> usize
    requires { from ≤ length bytes.now }
    ensures { IsLineEnd bytes.now from result }
{
    for at in from..bytes.len() {
        if bytes[at] == b'\n' {
            return at;
        }
    }
    bytes.len()
}

/// The place behind the first `*/` from `from` on.
pub fn block_end(bytes: &[u8], from: usize) -> Option<usize>
    requires { from ≤ length bytes.now }
    ensures { MatchOption result ((k : ℕ) → from ≤ k → ClosesBlock bytes.now k → ⊥) (λ to. IsBlockEnd bytes.now from to) }
{
    for at in from..bytes.len() {
        if bytes[at] == b'/' && from < at && bytes[at - 1] == b'*' {
            return Some(at + 1);
        }
    }
    None
}
