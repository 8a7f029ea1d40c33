//! Single tokens. At a fault the cursor stays before the token that can't stand there.
ghost use Rattle.std.specs.Prelude.{◌≡◌, ℕ, ◌∷◌, ◌<◌, Some, length, OnOk, OnSome, MatchOption, MatchBool, is_some};
ghost use Rattle.std.specs.Bool.{OnTrue};
ghost use Rattle.nest_parse.specs.Grammar as grammar;
ghost use Rattle.nest_lex.specs.declared.token.Keyword.{Keyword};
ghost use Rattle.nest_lex.specs.declared.token.Mark.{Mark};
ghost use Rattle.nest_lex.specs.declared.token.Kind.TheVariants as kinds;
ghost use Rattle.nest_parse.specs.Expected as machine;
ghost use Rattle.nest_parse.specs.Expected.{next_kind};

use crate::cursor::Cursor;
use crate::kinds::{is_same_keyword, is_same_mark};
use crate::refused::Stop;
use crate::tables::{assignment, binary, comparison, unary};
use nest_lex::{Keyword, Kind, Mark};
use nest_syntax::{Bin, Op, Un};

const GREATEST: u64 = 9_223_372_036_854_775_807;

impl<'a> Cursor<'a> {
    pub(crate) fn next_mark(&self) -> Option<Mark>
        ensures { MatchOption result ((m : Mark) → next_kind self.now ≡ Some (kinds.Mark m) → ⊥) (λ m. next_kind self.now ≡ Some (kinds.Mark m)) }
    {
        match self.next_kind() {
            Some(Kind::Mark(mark)) => Some(mark),
            _ => None,
        }
    }

    pub(crate) fn next_keyword(&self) -> Option<Keyword>
        ensures { MatchOption result ((w : Keyword) → next_kind self.now ≡ Some (kinds.Keyword w) → ⊥) (λ w. next_kind self.now ≡ Some (kinds.Keyword w)) }
    {
        match self.next_kind() {
            Some(Kind::Keyword(keyword)) => Some(keyword),
            _ => None,
        }
    }

    pub(crate) fn next_name(&self) -> Option<u32>
        ensures { MatchOption result ((n : ℕ) → next_kind self.now ≡ Some (kinds.Name n) → ⊥) (λ n. next_kind self.now ≡ Some (kinds.Name n)) }
    {
        match self.next_kind() {
            Some(Kind::Name(name)) => Some(name),
            _ => None,
        }
    }

    pub(crate) fn next_number(&self) -> Option<u64>
        ensures { MatchOption result ((n : ℕ) → next_kind self.now ≡ Some (kinds.Number n) → ⊥) (λ n. next_kind self.now ≡ Some (kinds.Number n)) }
    {
        match self.next_kind() {
            Some(Kind::Number(number)) => Some(number),
            _ => None,
        }
    }

    /// Passes this mark.
    pub(crate) fn sign(&mut self, mark: Mark) -> Result<(), Stop>
        ensures reads { machine.Reads (machine.IsSign mark) (λ k. machine.This mark ∷ k) self.old self.new result }
        ensures shorter { OnOk result (length self.new < length self.old) }
    {
        let Some(found) = self.next_mark() else {
            return Err(Stop::Fault);
        };
        if !is_same_mark(found, mark) {
            return Err(Stop::Fault);
        }
        self.skip();
        Ok(())
    }

    /// Passes this keyword.
    pub(crate) fn keyword(&mut self, word: Keyword) -> Result<(), Stop>
        ensures reads { machine.Reads (machine.IsWord word) (λ k. machine.Word word ∷ k) self.old self.new result }
        ensures shorter { OnOk result (length self.new < length self.old) }
    {
        let Some(found) = self.next_keyword() else {
            return Err(Stop::Fault);
        };
        if !is_same_keyword(found, word) {
            return Err(Stop::Fault);
        }
        self.skip();
        Ok(())
    }

    /// Passes this name.
    pub(crate) fn same_name(&mut self, name: u32) -> Result<(), Stop>
        ensures reads { machine.Reads (machine.IsTheName name) (λ k. machine.ThisName name ∷ k) self.old self.new result }
        ensures shorter { OnOk result (length self.new < length self.old) }
    {
        let Some(found) = self.next_name() else {
            return Err(Stop::Fault);
        };
        if found != name {
            return Err(Stop::Fault);
        }
        self.skip();
        Ok(())
    }

    pub(crate) fn name(&mut self) -> Result<u32, Stop>
        ensures reads { machine.Reads machine.IsName (λ k. machine.AnyName ∷ k) self.old self.new result }
        ensures shorter { OnOk result (length self.new < length self.old) }
    {
        let Some(found) = self.next_name() else {
            return Err(Stop::Fault);
        };
        self.skip();
        Ok(found)
    }

    /// Passes the name of a loop's variable.
    pub(crate) fn variable(&mut self) -> Result<u32, Stop>
        ensures reads { machine.ReadsVariable self.old self.new result }
        ensures shorter { OnOk result (length self.new < length self.old) }
    {
        let Some(found) = self.next_name() else {
            return Err(Stop::Fault);
        };
        self.skip();
        Ok(found)
    }

    pub(crate) fn number(&mut self) -> Result<u64, Stop>
        ensures reads { machine.Reads machine.IsNumber (λ k. machine.AnyNumber ∷ k) self.old self.new result }
        ensures shorter { OnOk result (length self.new < length self.old) }
    {
        let Some(found) = self.next_number() else {
            return Err(Stop::Fault);
        };
        if found > GREATEST {
            return Err(Stop::Fault);
        }
        self.skip();
        Ok(found)
    }

    pub(crate) fn assignment(&mut self) -> Result<Op, Stop>
        ensures reads { machine.Reads machine.IsAssignment (λ k. machine.Assigns ∷ k) self.old self.new result }
        ensures shorter { OnOk result (length self.new < length self.old) }
    {
        let Some(kind) = self.next_kind() else {
            return Err(Stop::Fault);
        };
        let Some(op) = assignment(kind) else {
            return Err(Stop::Fault);
        };
        self.skip();
        Ok(op)
    }

    pub(crate) fn comparison(&mut self) -> Result<bool, Stop>
        ensures reads { machine.Reads machine.IsComparison (λ k. machine.Compare ∷ k) self.old self.new result }
        ensures shorter { OnOk result (length self.new < length self.old) }
    {
        let Some(kind) = self.next_kind() else {
            return Err(Stop::Fault);
        };
        let Some(through) = comparison(kind) else {
            return Err(Stop::Fault);
        };
        self.skip();
        Ok(through)
    }

    /// Passes an operator of this level, if one comes next.
    pub(crate) fn pass_binary(&mut self, depth: usize) -> Option<Bin>
        ensures takes { machine.TakesOperator depth self.old self.new result }
        ensures shorter { OnSome result (length self.new < length self.old) }
    {
        let kind = self.next_kind()?;
        let (level, op) = binary(kind)?;
        if level != depth {
            return None;
        }
        self.skip();
        Some(op)
    }

    /// Passes a unary operator, if one comes next.
    pub(crate) fn pass_unary(&mut self) -> Option<Un>
        ensures takes { MatchOption result (machine.TakesNone (λ t. is_some (grammar.unary t)) self.old self.new) (λ o. machine.IsUnary self.old o self.new) }
        ensures shorter { OnSome result (length self.new < length self.old) }
    {
        let kind = self.next_kind()?;
        let op = unary(kind)?;
        self.skip();
        Some(op)
    }

    /// Passes a name, if one comes next.
    pub(crate) fn pass_name(&mut self) -> Option<u32>
        ensures takes { MatchOption result (machine.TakesNone machine.is_name self.old self.new) (λ n. machine.IsName self.old n self.new) }
        ensures shorter { OnSome result (length self.new < length self.old) }
    {
        let name = self.next_name()?;
        self.skip();
        Some(name)
    }

    /// Passes this mark, if it comes next, and says whether.
    pub(crate) fn pass_mark(&mut self, mark: Mark) -> bool
        ensures takes { MatchBool result (machine.IsSign mark self.old tt self.new) (machine.TakesNone (machine.is_mark mark) self.old self.new) }
        ensures shorter { OnTrue result (length self.new < length self.old) }
    {
        let Some(found) = self.next_mark() else {
            return false;
        };
        if !is_same_mark(found, mark) {
            return false;
        }
        self.skip();
        true
    }

    /// Passes this keyword, if it comes next, and says whether.
    pub(crate) fn pass_keyword(&mut self, word: Keyword) -> bool
        ensures takes { MatchBool result (machine.IsWord word self.old tt self.new) (machine.TakesNone (machine.is_keyword word) self.old self.new) }
        ensures shorter { OnTrue result (length self.new < length self.old) }
    {
        let Some(found) = self.next_keyword() else {
            return false;
        };
        if !is_same_keyword(found, word) {
            return false;
        }
        self.skip();
        true
    }
}
