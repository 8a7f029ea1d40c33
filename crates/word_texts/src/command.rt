ghost use Rattle.std.specs.Prelude.{◌≡◌, IfOk, Some, false, codes};
ghost use Rattle.clap.specs.Words.{app_of, rule_of, with_rule, new_rule};
ghost use Rattle.word_texts.specs.Command.{action_rule, option_rule, flag_rule, bare, app};

use clap::{Arg, ArgAction, Command};
use std::alloc::{AllocError, Global};

fn option<'a>(alloc: Global, name: &'a str) -> Arg<'a>
    ensures rule { rule_of result ≡ option_rule name.entry.now }
    ensures global { result.global ≡ false }
{
    Arg::new(alloc, name).long(name)
}

fn with_option<'a>(
    command: Command<'a>,
    alloc: Global,
    name: &'a str,
) -> Result<Command<'a>, AllocError>
    ensures { IfOk result (λ c. app_of c ≡ with_rule (app_of command.entry) (option_rule name.entry.now)) }
{
    command.arg(option(alloc, name))
}

fn with_flag<'a>(command: Command<'a>, alloc: Global) -> Result<Command<'a>, AllocError>
    ensures { IfOk result (λ c. app_of c ≡ with_rule (app_of command.entry) flag_rule) }
{
    command.arg(option(alloc, "record").action(ArgAction::SetTrue))
}

fn with_action<'a>(alloc: Global) -> Result<Command<'a>, AllocError>
    ensures { IfOk result (λ c. app_of c ≡ with_rule bare action_rule) }
{
    Command::new(alloc, "cross")
        .no_binary_name(true)
        .disable_help_flag(true)
        .disable_version_flag(true)
        .arg(Arg::new(alloc, "action"))
}

/// A flat command: the action, each option with one text, the flag, and neither help nor version.
pub(crate) fn command<'a>(alloc: Global) -> Result<Command<'a>, AllocError>
    ensures { IfOk result (λ c. app_of c ≡ app) }
{
    let command = with_action(alloc)?;
    let command = with_option(command, alloc, "engine")?;
    let command = with_option(command, alloc, "workers")?;
    let command = with_option(command, alloc, "queue")?;
    let command = with_option(command, alloc, "sign")?;
    let command = with_option(command, alloc, "segment")?;
    let command = with_option(command, alloc, "distance")?;
    let command = with_option(command, alloc, "seed")?;
    let command = with_option(command, alloc, "size")?;
    with_flag(command, alloc)
}
