//! The texts of the table: actions, kinds and numbers.
ghost use Rattle.std.specs.Prelude.{◌≡◌, ◌≤◌, IfSome, option_and_then, option_map};
ghost use Rattle.cross_words.specs.Table as said;
ghost use Rattle.progress_board.specs.declared.options.Engine.TheVariants.{Domore};
ghost use Rattle.progress_board.specs.declared.options.Sign.TheVariants.{Range};

use crate::call::Action;
use nest_lex::number_within;
use progress_board::{Engine, Sign};

pub(crate) fn action_of(text: Option<&str>) -> Option<Action>
    ensures { result ≡ option_and_then said.action_named (option_map (λ t. t.now) text.entry) }
{
    match text? {
        "plain" => Some(Action::Plain),
        "check" => Some(Action::Check),
        "deps" => Some(Action::Deps),
        "alone" => Some(Action::Alone),
        "replay" => Some(Action::Replay),
        "profile" => Some(Action::Profile),
        "gen" => Some(Action::Gen),
        "big" => Some(Action::Big),
        "run" => Some(Action::Run),
        _ => None,
    }
}

pub(crate) fn engine_of(text: Option<&str>) -> Option<Engine>
    ensures { result ≡ said.or_default Domore said.engine_named (option_map (λ t. t.now) text.entry) }
{
    match text {
        None | Some("domore") => Some(Engine::Domore),
        Some("speccross") => Some(Engine::Speccross),
        Some("barrier") => Some(Engine::Barrier),
        Some(_) => None,
    }
}

pub(crate) fn sign_of(text: Option<&str>) -> Option<Sign>
    ensures { result ≡ said.or_default Range said.sign_named (option_map (λ t. t.now) text.entry) }
{
    match text {
        None | Some("range") => Some(Sign::Range),
        Some("exact") => Some(Sign::Exact),
        Some(_) => None,
    }
}

/// The number that an option's text says, between these bounds, or the default.
pub(crate) fn number_of(text: Option<&str>, default: u32, least: u32, most: u32) -> Option<u32>
    requires { default ≤ most }
    ensures says { result ≡ said.or_default default (said.number_between least most) (option_map (λ t. t.now) text.entry) }
    ensures small { IfSome result (λ n. n ≤ most) }
{
    let Some(text) = text else {
        return Some(default);
    };
    if text.len() > 10 {
        return None;
    }
    let number = number_within(u64::from(most), text.as_bytes())? as u32;
    if number < least { None } else { Some(number) }
}
