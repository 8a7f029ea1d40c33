//! Lists of accesses.
ghost use Rattle.std.specs.Prelude.{◌≡◌, ◌<◌, ◌∷◌, [], All, IfSome};

use std::alloc::Global;
use std::fmt::Write;
use trace_order::{Access, in_order, settle};
use word_store::Words;

/// Appends the first pair of accesses that is out of order, and the words that they settle to.
pub fn add_order(alloc: Global, parts: &[String], text: &mut String) -> Option<()> {
    let accesses = accesses_of(alloc, parts)?;
    match in_order(accesses.as_slice()) {
        Some((first, second)) => write!(text, "{first} before {second}").ok()?,
        None => text.push_str("in order").ok()?,
    }
    let words = settled(alloc, accesses.as_slice())?;
    for word in words.array(0) {
        write!(text, " {word}").ok()?;
    }
    for word in words.array(1) {
        write!(text, " {word}").ok()?;
    }
    Some(())
}

fn settled(alloc: Global, accesses: &[Access]) -> Option<Words>
    requires { All (λ a. a.word < 3) accesses.now }
    ensures { IfSome result (λ words. words.sizes ≡ 2 ∷ 1 ∷ []) }
{
    let mut words = Words::zeros(alloc, &[2, 1]).ok()?;
    words.store(0, 0, 9);
    words.store(0, 1, 9);
    words.store(1, 0, 9);
    settle(alloc, &words, accesses).ok()
}

fn accesses_of(alloc: Global, parts: &[String]) -> Option<Vec<Access>>
    ensures { IfSome result (λ list. All (λ a. a.word < 3) list.items) }
{
    let mut list = Vec::new(alloc);
    for part in parts {
        list.push(access_of(part.as_str())?).ok()?;
    }
    Some(list)
}

/// An access to one of three words.
fn access_of(text: &str) -> Option<Access>
    ensures { IfSome result (λ a. a.word < 3) }
{
    let (place, value) = text.split_once('=')?;
    let (task, word) = place.split_once('.')?;
    let word: u32 = word.parse().ok()?;
    if word >= 3 {
        return None;
    }
    let (write, task) = match task.strip_prefix('w') {
        Some(task) => (true, task),
        None => (false, task.strip_prefix('r')?),
    };
    Some(Access {
        task: task.parse().ok()?,
        word,
        write,
        value: value.parse().ok()?,
    })
}
