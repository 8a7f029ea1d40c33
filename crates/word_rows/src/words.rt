//! Command words and step words.

use cross_words::{WordsRefused, read_words};
use std::alloc::Global;
use std::fmt::Write;
use step_words::{StepsRefused, read_steps};
use word_texts::texts_of;

const MOST_BYTES: usize = 1000;

/// Appends the call that the words say.
pub fn add_call(alloc: Global, words: &[String], text: &mut String) -> Option<()> {
    match read_words(alloc, words) {
        Ok(call) => {
            let options = call.options;
            write!(text, "{:?} {:?}", call.action, options.engine).ok()?;
            write!(text, " workers {} queue {}", options.workers, options.queue).ok()?;
            write!(text, " sign {:?} segment {}", options.sign, options.segment).ok()?;
            write!(text, " distance {} seed {}", options.distance, call.seed).ok()?;
            write!(text, " size {} record {}", call.size, call.with_steps).ok()
        }
        Err(WordsRefused::Words) => text.push_str("refused").ok(),
        Err(WordsRefused::NoMemory) => None,
    }
}

/// Appends the text that the words behind a name give to it.
pub fn add_text(alloc: Global, parts: &[String], text: &mut String) -> Option<()> {
    let (name, words) = parts.split_first()?;
    match texts_of(alloc, words) {
        Ok(matches) => match matches.get_str(name.as_str()) {
            Some(said) => write!(text, "'{said}'").ok(),
            None => text.push_str("none").ok(),
        },
        Err(WordsRefused::Words) => text.push_str("refused").ok(),
        Err(WordsRefused::NoMemory) => None,
    }
}

/// Appends the actors that step words name, or the first word that names none.
pub fn add_steps(alloc: Global, parts: &[String], bytes: &[u8], text: &mut String) -> Option<()> {
    let workers: u8 = parts.first()?.parse().ok()?;
    if workers > 8 || bytes.len() > MOST_BYTES {
        return None;
    }
    match read_steps(alloc, bytes, workers) {
        Ok(steps) => {
            text.push_str("steps").ok()?;
            for step in steps.as_slice() {
                write!(text, " {step}").ok()?;
            }
            Some(())
        }
        Err(StepsRefused::Word(number)) => write!(text, "refused {number}").ok(),
        Err(StepsRefused::NoMemory) => None,
    }
}
