//! The program of an input.
ghost use Rattle.std.specs.Prelude.{◌≡◌, ◌≤◌, ℕ, List, Result, length};
ghost use Rattle.nest_syntax.specs.declared.tree.Program.{Program};
ghost use Rattle.word_store.specs.Memory.{Memory};
ghost use Rattle.nest_lex.specs.Parts.{IsParts};
ghost use Rattle.nest_lex.specs.Text.{AreTokens, AreWellNamed, IsFault};
ghost use Rattle.nest_input.specs.declared.refused.Refusal.{Refusal};
ghost use Rattle.nest_input.specs.Input.{IsNest, SaysNest, SaysWords, SaysSteps, Tells, token_refusal, spot_at, nest_in};

use crate::refused::{InputRefused, Refusal};
use nest_check::{CheckRefused, Checked, check};
use nest_lex::{LexKind, LexRefused, Parts, Spot, Tokens, lex, parts};
use nest_parse::{ParseRefused, parse};
use std::alloc::Global;

fn token_refusal(kind: LexKind, at: Spot) -> Refusal
    ensures { result ≡ token_refusal kind at }
{
    match kind {
        LexKind::Dense => Refusal::Dense(at),
        _ => Refusal::Token(at),
    }
}

/// The spot of a token by its number. The spot of the number behind the last one is the end of the nest.
fn spot_at(tokens: &Tokens, number: usize) -> Spot
    ensures { result ≡ spot_at tokens.now number }
{
    match tokens.list.get(number) {
        Some(token) => token.spot,
        None => tokens.end,
    }
}

/// The program of a list of tokens.
fn nest_of_tokens(alloc: Global, text: &[u8], tokens: &Tokens) -> Result<Checked, InputRefused>
    requires are { AreTokens text.now tokens.now }
    requires named { AreWellNamed tokens.now }
    ensures { Tells (IsNest text.now) result }
{
    let program = match parse(alloc, tokens) {
        Ok(program) => program,
        Err(ParseRefused::Syntax { token }) => {
            return Err(InputRefused::Refused(Refusal::Syntax(spot_at(tokens, token))));
        }
        Err(ParseRefused::NoMemory) => return Err(InputRefused::NoMemory),
    };
    match check(alloc, program) {
        Ok(checked) => Ok(checked),
        Err(CheckRefused::Rule { rule, line }) => {
            Err(InputRefused::Refused(Refusal::Rule { rule, line }))
        }
        Err(CheckRefused::NoMemory) => Err(InputRefused::NoMemory),
    }
}

/// The program of the text of a nest.
fn nest_of(alloc: Global, text: &[u8]) -> Result<Checked, InputRefused>
    requires { length text.now ≤ 33554432 }
    ensures { Tells (IsNest text.now) result }
{
    match lex(alloc, text) {
        Ok(tokens) => nest_of_tokens(alloc, text, &tokens),
        Err(LexRefused::Fault { kind, at }) => Err(InputRefused::Refused(token_refusal(kind, at))),
        Err(LexRefused::NoMemory) => Err(InputRefused::NoMemory),
    }
}

/// The text of the nest of an input.
fn nest_text<'a>(input: &'a [u8], parts: &Parts) -> &'a [u8]
    requires { IsParts input.now parts.now }
    ensures is { result.now ≡ nest_in input.now parts.now }
    ensures short { length result.now ≤ length input.now }
{
    &input[..parts.nest_end]
}

/// The program of an input, which keeps the rules, or what is wrong with its nest. What stands behind the nest isn't
/// looked at.
pub fn read_nest(alloc: Global, input: &[u8]) -> Result<Checked, InputRefused>
    requires { length input.now ≤ 33554432 }
    ensures { Tells (SaysNest input.now) result }
{
    let parts = parts(input);
    nest_of(alloc, nest_text(input, &parts))
}

/// An input says one thing: of its nest, of the words of a program, and of the steps of so many workers.
pub fn one_saying()
    ensures nest { (input : List ℕ) (said other : Result Program Refusal) → SaysNest input said → SaysNest input other → said ≡ other }
    ensures words { (input : List ℕ) (program : Program) (said other : Result Memory Refusal) → SaysWords input program said → SaysWords input program other → said ≡ other }
    ensures steps { (input : List ℕ) (workers : ℕ) (said other : Result (List ℕ) ℕ) → SaysSteps input workers said → SaysSteps input workers other → said ≡ other }
{}
