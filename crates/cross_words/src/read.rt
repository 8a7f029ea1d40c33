ghost use Rattle.std.specs.Prelude.{◌≡◌, List, map, string_bytes, MatchOption, MatchResult};
ghost use Rattle.word_texts.specs.Spelling.{Text};
ghost use Rattle.word_texts.specs.Found.{Finds};
ghost use Rattle.word_texts.specs.declared.refused.WordsRefused.TheVariants.{Words};
ghost use Rattle.cross_words.specs.Table.{Say};
ghost use Rattle.cross_words.specs.declared.call.Call.{Call};

use crate::call::Call;
use crate::table::{action_of, engine_of, number_of, sign_of};
use clap::ArgMatches;
use progress_board::Options;
use std::alloc::Global;
use word_texts::{WordsRefused, one_list, texts_of};

fn call_of(texts: &ArgMatches) -> Option<Call>
    ensures { (words : List Text) → Finds words texts.now → MatchOption result ((call : Call) → Say words call → ⊥) (Say words) }
{
    one_list();
    Some(Call {
        action: action_of(texts.get_str("action"))?,
        options: Options {
            engine: engine_of(texts.get_str("engine"))?,
            workers: number_of(texts.get_str("workers"), 2, 1, 8)? as u8,
            queue: number_of(texts.get_str("queue"), 16, 1, 1024)? as u16,
            sign: sign_of(texts.get_str("sign"))?,
            segment: number_of(texts.get_str("segment"), 16, 1, 64)? as u8,
            distance: number_of(texts.get_str("distance"), 4, 0, 64)? as u8,
        },
        seed: number_of(texts.get_str("seed"), 1, 0, 2_147_483_647)?,
        size: number_of(texts.get_str("size"), 64, 1, 262_144)?,
        with_steps: texts.get_flag("record"),
    })
}

/// The call that the words behind the program's name say. `Words` comes only where they say none.
pub fn read_words(alloc: Global, words: &[String]) -> Result<Call, WordsRefused>
    ensures { MatchResult result (λ call. Say (map string_bytes words.now) call) (λ e. e ≡ Words → (call : Call) → Say (map string_bytes words.now) call → ⊥) }
{
    let texts = texts_of(alloc, words)?;
    match call_of(&texts) {
        Some(call) => Ok(call),
        None => Err(WordsRefused::Words),
    }
}
