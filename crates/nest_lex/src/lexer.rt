//! The tokens of a text.
ghost use Rattle.std.specs.Prelude.{List, ◌≡◌, ◌≤◌, ◌⊎◌, ℕ, Err, length, IfOk, IfErr, MatchResult};
ghost use Rattle.nest_lex.specs.Text.{AreTokens, AreWellNamed, IsFault, IsRefusal};
ghost use Rattle.nest_lex.specs.declared.token.Spot.{Spot};
ghost use Rattle.nest_lex.specs.declared.token.Tokens.{Tokens};
ghost use Rattle.nest_lex.specs.declared.refused.LexKind.{LexKind};

use crate::reader::Reader;
use crate::refused::LexRefused;
use crate::token::Tokens;
use std::alloc::Global;

/// The tokens of a text, or its first fault.
///
/// Names are numbered from 0 in the order of their first appearance. Lines and columns count from 1, columns in
/// bytes. `Fault` comes only where the text has no tokens, with the first fault of the text and its spot: a byte that
/// begins no token, the first digit of digits that are no number, the start of a comment that isn't ended, or the token
/// that opens a 65th bracket or is the 129th of its run.
pub fn lex(alloc: Global, bytes: &[u8]) -> Result<Tokens, LexRefused>
    requires { length bytes.now ≤ 33554432 }
    ensures tokens { IfOk result (AreTokens bytes.now) }
    ensures only { (t : Tokens) → AreTokens bytes.now t → MatchResult result (λ r. r ≡ t) (λ e. e ≡ LexRefused.NoMemory) }
    ensures named { IfOk result AreWellNamed }
    ensures refused { IfErr result (IsRefusal bytes.now) }
    ensures fault { (kind : LexKind) (at : Spot) → IsFault bytes.now kind at
        → (result ≡ Err LexRefused.NoMemory) ⊎ (result ≡ Err (LexRefused.Fault kind at)) }
{
    let mut reader = Reader::new(alloc);
    while reader.at < bytes.len() {
        reader.step(alloc, bytes)?;
    }
    Ok(reader.tokens(bytes))
}

/// A text has one list of tokens or one first fault, and never both.
pub fn one_answer()
    ensures tokens { (text : List ℕ) (r t : Tokens) → AreTokens text r → AreTokens text t → r ≡ t }
    ensures fault { (text : List ℕ) (kind other : LexKind) (at spot : Spot)
        → IsFault text kind at → IsFault text other spot → (kind ≡ other) × (at ≡ spot) }
    ensures never_both { (text : List ℕ) (t : Tokens) (kind : LexKind) (at : Spot) → AreTokens text t → IsFault text kind at → ⊥ }
{}
