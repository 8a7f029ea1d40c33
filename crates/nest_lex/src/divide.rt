//! Dividing the input into its parts.
ghost use Rattle.std.specs.Prelude.{◌≡◌, ◌<◌, ◌≤◌, ◌+◌, ℕ, List, length, MatchOption, IsTrue, ◌↔◌, slice_index};
ghost use Rattle.std.specs.List.{list_all};
ghost use Rattle.nest_lex.specs.Bytes.{is_space as is_space_byte};
ghost use Rattle.nest_lex.specs.Parts.{Says, IsMarkerLine, NoneBetween, IsParts, behind, marker_text as text_of};
ghost use Rattle.nest_lex.specs.Markers.{BeginsLine, NoMarker, IsFirstMarker, IsFirstSteps};
ghost use Rattle.nest_lex.specs.declared.input.Marker.{Marker};
ghost use Rattle.nest_lex.specs.declared.input.Marker.TheVariants.{Steps};
ghost use Rattle.nest_lex.specs.declared.input.Parts.{Parts};

use crate::input::{Marker, MarkerLine, Parts};
use crate::scan::{is_space, line_end};
use crate::spot::{START, spot_after};

fn marker_text(marker: Marker) -> &'static [u8]
    ensures { result.now ≡ text_of marker }
{
    match marker {
        Marker::Data => b"data",
        Marker::Steps => b"steps",
    }
}

/// Whether each byte is a space, a tab or a carriage return.
fn is_all_space(bytes: &[u8]) -> bool
    ensures { result ≡ list_all is_space_byte bytes.now }
{
    bytes.iter().all(|byte| is_space(*byte))
}

/// Whether a line is this word and nothing but blanks behind it.
fn says(line: &[u8], word: &[u8]) -> bool
    ensures { IsTrue result ↔ Says line.now word.now }
{
    if line.len() < word.len() {
        return false;
    }
    let (front, rest) = line.split_at(word.len());
    front == word && is_all_space(rest)
}

/// The marker that a line says, if it says one.
fn marker_of(line: &[u8]) -> Option<Marker>
    ensures { MatchOption result ((m : Marker) → Says line.now (text_of m) → ⊥) (λ m. Says line.now (text_of m)) }
{
    if says(line, marker_text(Marker::Data)) {
        Some(Marker::Data)
    } else if says(line, marker_text(Marker::Steps)) {
        Some(Marker::Steps)
    } else {
        None
    }
}

/// The place behind a line that ends at `stop`.
fn line_behind(bytes: &[u8], stop: usize) -> usize
    requires { stop ≤ length bytes.now }
    ensures { result ≡ behind bytes.now stop }
{
    if stop < bytes.len() {
        stop + 1
    } else {
        bytes.len()
    }
}

/// The first line from `from` on that says a marker.
fn first_marker(bytes: &[u8], from: usize) -> Option<MarkerLine>
    requires within { from ≤ length bytes.now }
    requires line { BeginsLine bytes.now from }
    ensures { MatchOption result (NoMarker bytes.now from (length bytes.now)) (IsFirstMarker bytes.now from) }
{
    let mut start = from;
    while start < bytes.len() {
        let stop = line_end(bytes, start);
        match marker_of(&bytes[start..stop]) {
            Some(marker) => return Some(MarkerLine {
                marker,
                start,
                stop,
            }),
            None => start = line_behind(bytes, stop),
        }
    }
    None
}

/// The first line `steps` from `from` on.
fn first_steps(bytes: &[u8], from: usize) -> Option<MarkerLine>
    requires within { from ≤ length bytes.now }
    requires line { BeginsLine bytes.now from }
    ensures { MatchOption result (NoneBetween bytes.now Steps from (length bytes.now)) (IsFirstSteps bytes.now from) }
{
    let mut start = from;
    while let Some(line) = first_marker(bytes, start) {
        match line.marker {
            Marker::Steps => return Some(line),
            Marker::Data => start = line_behind(bytes, line.stop),
        }
    }
    None
}

/// The parts of an input whose nest ends at a line `data`.
fn data_parts(bytes: &[u8], line: MarkerLine) -> Parts
    requires small { length bytes.now ≤ 33554432 }
    requires first { IsFirstMarker bytes.now 0 line }
    requires marker { line.marker ≡ Marker.Data }
    ensures { IsParts bytes.now result }
{
    let values = line_behind(bytes, line.stop);
    let data_line = spot_after(bytes, 0, line.start, START).line + 1;
    match first_steps(bytes, values) {
        Some(last) => Parts {
            nest_end: line.start,
            values: Some((values, last.start)),
            data_line,
            steps: Some(line_behind(bytes, last.stop)),
        },
        None => Parts {
            nest_end: line.start,
            values: Some((values, bytes.len())),
            data_line,
            steps: None,
        },
    }
}

/// The parts of an input whose nest ends at this line.
fn marked_parts(bytes: &[u8], line: MarkerLine) -> Parts
    requires small { length bytes.now ≤ 33554432 }
    requires first { IsFirstMarker bytes.now 0 line }
    ensures { IsParts bytes.now result }
{
    match line.marker {
        Marker::Data => data_parts(bytes, line),
        Marker::Steps => Parts {
            nest_end: line.start,
            values: None,
            data_line: 0,
            steps: Some(line_behind(bytes, line.stop)),
        },
    }
}

/// Divides an input into its nest, its data lines and its step words.
///
/// The first line `data` or `steps` ends the nest, also inside a comment; spaces, tabs and carriage returns may stand
/// behind the word, in any mixture. Data lines go up to the first line `steps` or the end. The data lines and the step
/// words aren't read here.
pub fn parts(bytes: &[u8]) -> Parts
    requires { length bytes.now ≤ 33554432 }
    ensures { IsParts bytes.now result }
{
    match first_marker(bytes, 0) {
        Some(line) => marked_parts(bytes, line),
        None => Parts {
            nest_end: bytes.len(),
            values: None,
            data_line: 0,
            steps: None,
        },
    }
}

/// An input has its parts in one way.
pub fn one_division()
    ensures { (text : List ℕ) (p q : Parts) → IsParts text p → IsParts text q → p ≡ q }
{}
