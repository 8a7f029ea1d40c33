//! Data lines, read one by one into the words.
ghost use Rattle.std.specs.Prelude.{◌≡◌, ◌<◌, ◌≤◌, ◌^◌, Ok, length, sum, IfOk, slice_index_or};
ghost use Rattle.std.specs.Result.{result_map_both};
ghost use Rattle.word_store.specs.Memory.{IsSound, most_words};
ghost use Rattle.nest_data.specs.Lines.{lines_of, words_in, words_of};
ghost use Rattle.nest_data.specs.Data.{and_then, counted, values_of, with_array, behind_values, behind_words, opening, outcome, Tells};
ghost use Rattle.nest_data.specs.Progress.{read_of};

use crate::arrays::array_named;
use crate::lines::{is_blank, next_line, next_word, without_return};
use crate::refused::{DataKind, DataRefused};
use crate::values::value_of;
use nest_syntax::{Name, NoMemory};
use std::alloc::Global;
use word_store::Words;

/// What the lines so far gave: which arrays had a line, and the words.
#[derive(Drop)]
pub(crate) struct Progress {
    given: Vec<bool>,
    words: Words,
}

fn length_of(words: &Words, array: u32) -> u64
    requires { array < length words.now.sizes }
    ensures length { result ≡ slice_index_or words.now.sizes array 0 }
    ensures sound { IsSound words.now }
{
    let arrays = words.arrays();
    prove!((array as usize) < arrays);
    words.lengths()[array as usize]
}

/// Reads values into the words of an array.
fn read_values(words: &mut Words, array: u32, bytes: &[u8]) -> Result<(), DataKind>
    requires there { array < length words.old.sizes }
    requires small { length bytes.now ≤ 33554432 }
    ensures values { and_then (λ values. Ok (with_array words.old array values)) (counted (slice_index_or words.old.sizes array 0) (values_of (words_in bytes.now))) ≡ result_map_both (λ _. words.new) (λ kind. kind) result }
    ensures sizes { words.new.sizes ≡ words.old.sizes }
{
    let size = length_of(words, array);
    let mut place = 0u64;
    let mut rest = bytes;
    'values: while let Some((word, behind)) = next_word(rest) {
        match value_of(word) {
            Some(value) => words.store(array, place as i64, value),
            None => return Err(DataKind::Number),
        };
        place += 1;
        rest = behind;
    }
    if place == size {
        Ok(())
    } else {
        Err(DataKind::Count)
    }
}

impl Progress {
    /// Before the first line: no array is given, and all words of arrays of these lengths are 0.
    pub fn open(alloc: Global, lengths: &[u64]) -> Result<Progress, NoMemory>
        requires { sum lengths.now ≤ most_words }
        ensures read { IfOk result (λ progress. read_of progress ≡ opening lengths.now) }
        ensures sizes { IfOk result (λ progress. progress.words.sizes ≡ lengths.now) }
    {
        let words = Words::zeros(alloc, lengths)?;
        Ok(Progress {
            given: vec![in alloc; false; lengths.len()]?,
            words,
        })
    }

    fn read_array(&mut self, array: u32, values: &[u8]) -> Result<(), DataKind>
        requires there { array < length self.old.words.sizes }
        requires known { array < length self.old.given.items }
        requires small { length values.now ≤ 33554432 }
        ensures read { behind_values (read_of self.old) (words_in values.now) array ≡ result_map_both (λ _. read_of self.new) (λ kind. kind) result }
        ensures sizes { self.new.words.sizes ≡ self.old.words.sizes }
        ensures given { length self.new.given.items ≡ length self.old.given.items }
    {
        if self.given[array as usize] {
            return Err(DataKind::Repeated);
        }
        self.given[array as usize] = true;
        read_values(&mut self.words, array, values)
    }

    /// Reads a line, without its line feed.
    fn read_line(&mut self, names: &[Name], arrays: &[u32], text: &[u8]) -> Result<(), DataKind>
        requires few { length arrays.now < 2 ^ 32 }
        requires there { length self.old.words.sizes ≡ length arrays.now }
        requires known { length self.old.given.items ≡ length arrays.now }
        requires small { length text.now ≤ 33554432 }
        ensures read { behind_words names.now arrays.now (read_of self.old) (words_of text.now) ≡ result_map_both (λ _. read_of self.new) (λ kind. kind) result }
        ensures sizes { self.new.words.sizes ≡ self.old.words.sizes }
        ensures given { length self.new.given.items ≡ length self.old.given.items }
    {
        if is_blank(text) {
            return Ok(());
        }
        match next_word(without_return(text)) {
            Some((name, values)) => match array_named(names, arrays, name) {
                Some(array) => self.read_array(array, values),
                None => Err(DataKind::Name),
            },
            None => Ok(()),
        }
    }

    /// Reads all lines; the first of them has the number `first_line`.
    pub fn read_lines(
        mut self,
        names: &[Name],
        arrays: &[u32],
        bytes: &[u8],
        first_line: u32,
    ) -> Result<Words, DataRefused>
        requires few { length arrays.now < 2 ^ 32 }
        requires there { length self.words.sizes ≡ length arrays.now }
        requires known { length self.given.items ≡ length arrays.now }
        requires small { length bytes.now ≤ 33554432 }
        requires line { first_line ≤ 33554433 }
        ensures told { Tells (outcome names.now arrays.now (read_of self) first_line (lines_of bytes.now)) result }
        ensures sizes { IfOk result (λ words. words.sizes ≡ self.words.sizes) }
    {
        let mut line = first_line;
        let mut rest = bytes;
        'lines: while !rest.is_empty() {
            let (text, behind) = next_line(rest);
            match self.read_line(names, arrays, text) {
                Ok(()) => {}
                Err(kind) => return Err(DataRefused::Line { kind, line }),
            }
            rest = behind;
            line += 1;
        }
        Ok(self.words)
    }
}
