//! What the command words ask the program for.
ghost use Rattle.std.specs.Prelude.{◌≡◌, IfOk, IfSome, map, string_bytes};
ghost use Rattle.cross_top.specs.Words as asked;
ghost use Rattle.cross_top.specs.Threads as threads;

use cross_words::{Action, Call, WordsRefused, calls_are_in_range, one_call, read_words};
use nest_syntax::NoMemory;
use std::alloc::Global;

/// Whether an action reads an input.
pub fn reads_input(action: Action) -> bool
    ensures { result ≡ asked.reads_input action }
{
    match action {
        Action::Gen | Action::Big => false,
        Action::Plain | Action::Check | Action::Deps | Action::Alone => true,
        Action::Replay | Action::Profile | Action::Run => true,
    }
}

/// Whether an action is answered.
fn is_answered(action: Action) -> bool
    ensures { result ≡ asked.is_answered action }
{
    match action {
        Action::Plain | Action::Check | Action::Deps | Action::Gen => true,
        Action::Alone | Action::Replay | Action::Profile | Action::Big => true,
        Action::Run => false,
    }
}

/// The call that the words ask for. None comes exactly where they say none that is answered.
pub fn asked(alloc: Global, words: &[String]) -> Result<Option<Call>, NoMemory>
    ensures asked { IfOk result (λ call. asked.Ask (map string_bytes words.now) call) }
    ensures answerable { IfOk result (λ call. IfSome call asked.IsAnswerable) }
{
    one_call();
    calls_are_in_range();
    match read_words(alloc, words) {
        Ok(call) => {
            if is_answered(call.action) {
                Ok(Some(call))
            } else {
                Ok(None)
            }
        }
        Err(WordsRefused::Words) => Ok(None),
        Err(WordsRefused::NoMemory) => Err(NoMemory),
    }
}

/// Whether an action is run by threads.
fn is_threaded(action: Action) -> bool
    ensures { result ≡ threads.is_threaded action }
{
    matches!(action, Action::Run)
}

/// The call that the words ask for, where it is one that is run by threads.
#[tactic(auto, using(crate::proofs::Replies::runs_threads))]
pub fn asked_to_run(alloc: Global, words: &[String]) -> Result<Option<Call>, NoMemory>
    ensures asked { IfOk result (λ call. threads.AskToRun (map string_bytes words.now) call) }
    ensures threaded { IfOk result (λ call. IfSome call threads.IsThreaded) }
{
    one_call();
    calls_are_in_range();
    match read_words(alloc, words) {
        Ok(call) => {
            if is_threaded(call.action) {
                Ok(Some(call))
            } else {
                Ok(None)
            }
        }
        Err(WordsRefused::Words) => Ok(None),
        Err(WordsRefused::NoMemory) => Err(NoMemory),
    }
}
