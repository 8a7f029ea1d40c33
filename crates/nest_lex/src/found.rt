//! What stands at a place of a text.
ghost use Rattle.std.specs.Prelude.{◌≡◌, ◌<◌, ◌≤◌, ◌+◌, true, false, length, slice_index, MatchOption};
ghost use Rattle.nest_lex.specs.Bytes as class;
ghost use Rattle.nest_lex.specs.Pieces.{OpensLine, OpensBlock};
ghost use Rattle.nest_lex.specs.Scans.{IsLongestMark, NoMark};
ghost use Rattle.nest_lex.specs.Found.{IsFound};

use crate::number::number_of;
use crate::piece::Piece;
use crate::refused::LexKind;
use crate::scan::{block_end, is_blank, is_digit, is_word_byte, line_end, word_end};
use crate::spelling::{keyword_of, longer_mark, single_mark};
use crate::token::Mark;

/// A gap or a piece and where it ends, or why there is none.
pub enum Found {
    Gap(usize),
    Piece(Piece, usize),
    Fault(LexKind),
}

/// The byte at a place, or 0 behind the end.
fn byte_at(bytes: &[u8], at: usize) -> u8
    ensures { result ≡ slice_index bytes.now at }
{
    bytes.get(at).copied().unwrap_or(0)
}

/// The longest mark at a place, and where it ends.
#[tactic(auto, using(crate::proofs::Marks::one_byte, crate::proofs::Marks::one_more, crate::proofs::Marks::longest_at_end))]
fn mark_at(bytes: &[u8], at: usize) -> Option<(Mark, usize)>
    requires { at < length bytes.now }
    ensures { MatchOption result (NoMark bytes.now at) (λ r. IsLongestMark bytes.now r.0 at r.1) }
{
    let mut mark = single_mark(bytes[at])?;
    for next in at + 1..bytes.len() {
        match longer_mark(mark, bytes[next]) {
            Some(longer) => mark = longer,
            None => return Some((mark, next)),
        }
    }
    Some((mark, bytes.len()))
}

/// The name, keyword or number at a place where a word stands.
#[tactic(auto, using(crate::proofs::Words::number_is_bad))]
fn word_at(bytes: &[u8], at: usize) -> Found
    requires within { at < length bytes.now }
    requires word { class.is_word_byte (slice_index bytes.now at) ≡ true }
    ensures { IsFound bytes.now at result }
{
    let end = word_end(bytes, at);
    let word = &bytes[at..end];
    if is_digit(bytes[at]) {
        return match number_of(word) {
            Some(n) => Found::Piece(Piece::Number(n), end),
            None => Found::Fault(LexKind::Number),
        };
    }
    match keyword_of(word) {
        Some(keyword) => Found::Piece(Piece::Keyword(keyword), end),
        None => Found::Piece(Piece::Name, end),
    }
}

/// The comment at a place where `/*` stands.
fn block_at(bytes: &[u8], at: usize) -> Found
    requires within { at + 2 ≤ length bytes.now }
    requires block { OpensBlock bytes.now at }
    ensures { IsFound bytes.now at result }
{
    match block_end(bytes, at + 2) {
        Some(to) => Found::Gap(to),
        None => Found::Fault(LexKind::Comment),
    }
}

/// The mark at a place where nothing else begins.
#[tactic(auto, using(crate::proofs::Marks::byte_is_bad))]
fn sign_at(bytes: &[u8], at: usize) -> Found
    requires within { at < length bytes.now }
    requires no_blank { class.is_blank (slice_index bytes.now at) ≡ false }
    requires no_word { class.is_word_byte (slice_index bytes.now at) ≡ false }
    requires no_line { OpensLine bytes.now at → ⊥ }
    requires no_block { OpensBlock bytes.now at → ⊥ }
    ensures { IsFound bytes.now at result }
{
    match mark_at(bytes, at) {
        Some((mark, next)) => Found::Piece(Piece::Mark(mark), next),
        None => Found::Fault(LexKind::Byte),
    }
}

/// What stands at a place before the end.
pub fn found_at(bytes: &[u8], at: usize) -> Found
    requires { at < length bytes.now }
    ensures { IsFound bytes.now at result }
{
    let byte = bytes[at];
    if is_blank(byte) {
        return Found::Gap(at + 1);
    }
    if is_word_byte(byte) {
        return word_at(bytes, at);
    }
    let second = byte_at(bytes, at + 1);
    if byte == b'/' && second == b'/' {
        return Found::Gap(line_end(bytes, at + 2));
    }
    if byte == b'/' && second == b'*' {
        return block_at(bytes, at);
    }
    sign_at(bytes, at)
}
