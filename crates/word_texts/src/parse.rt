ghost use Rattle.std.specs.Prelude.{◌≡◌, List, map, MatchResult};
ghost use Rattle.std.specs.List.{list_all};
ghost use Rattle.std.specs.Prelude.{string_bytes};
ghost use Rattle.clap.specs.Words.{kind_of};
ghost use Rattle.clap.specs.declared.error.kind.ErrorKind.TheVariants as kind;
ghost use Rattle.word_texts.specs.Spelling.{Pair, Give};
ghost use Rattle.word_texts.specs.Command as usual;
ghost use Rattle.word_texts.specs.Found.{Finds};
ghost use Rattle.word_texts.specs.declared.refused.WordsRefused.TheVariants.{Words};

use crate::command::command;
use crate::refused::WordsRefused;
use clap::error::ErrorKind;
use clap::{ArgMatches, Error};
use std::alloc::Global;

/// Whether a word begins with no hyphen, or with two and something behind them. In any other place clap reads more into
/// a hyphen than the table does.
fn is_usual(word: &str) -> bool
    ensures { result ≡ usual.is_usual word.now }
{
    match word.as_bytes() {
        [] => true,
        [a] | [a, _] => *a != b'-',
        [a, b, ..] => *a != b'-' || *b == b'-',
    }
}

fn are_usual(words: &[String]) -> bool
    ensures { result ≡ list_all (λ word. usual.is_usual (string_bytes word)) words.now }
{
    words.iter().all(|word| is_usual(word.as_str()))
}

fn refusal(error: &Error) -> WordsRefused
    ensures { result ≡ Words → kind_of error.now ≡ kind.OutOfMemory → ⊥ }
{
    match error.kind() {
        ErrorKind::OutOfMemory => WordsRefused::NoMemory,
        _ => WordsRefused::Words,
    }
}

/// The texts that the words give to the names of the action and the options, as clap's matches: `get_str` of a name,
/// and `get_flag` of `record`. `Words` comes only where the words give no such texts, or give a name twice.
pub fn texts_of<'a>(alloc: Global, words: &'a [String]) -> Result<ArgMatches<'a>, WordsRefused>
    ensures { MatchResult result (λ m. Finds (map string_bytes words.now) m) (λ e. e ≡ Words → (given : List Pair) → Give (map string_bytes words.now) given → ⊥) }
{
    if !are_usual(words) {
        return Err(WordsRefused::Words);
    }
    match command(alloc)?.try_get_matches_from(words) {
        Ok(matches) => Ok(matches),
        Err(error) => Err(refusal(&error)),
    }
}
