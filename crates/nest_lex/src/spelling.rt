//! How keywords and marks are written.
ghost use Rattle.std.specs.Prelude.{◌≡◌, ◌∷◌, ◌++◌, [], true, false, MatchOption};
ghost use Rattle.nest_lex.specs.Scans.{is_newer};
ghost use Rattle.nest_lex.specs.Spelling as spelling;
ghost use Rattle.nest_lex.specs.declared.token.Keyword.{Keyword};
ghost use Rattle.nest_lex.specs.declared.token.Mark.{Mark};

use crate::token::{Keyword, Mark};

/// The keyword that this word is, if it is one.
#[tactic(auto, using(crate::proofs::Tables::no_keyword))]
pub fn keyword_of(word: &[u8]) -> Option<Keyword>
    ensures { MatchOption result ((k : Keyword) → spelling.keyword_text k ≡ word.now → ⊥) (λ k. spelling.keyword_text k ≡ word.now) }
{
    match older_keyword_of(word) {
        Some(keyword) => Some(keyword),
        None => newer_keyword_of(word),
    }
}

/// The same for the 32 keywords that C had from 1989 on.
fn older_keyword_of(word: &[u8]) -> Option<Keyword>
    ensures { MatchOption result ((k : Keyword) → is_newer k ≡ false → spelling.keyword_text k ≡ word.now → ⊥)
        (λ k. spelling.keyword_text k ≡ word.now) }
{
    match word {
        b"auto" => Some(Keyword::Auto),
        b"break" => Some(Keyword::Break),
        b"case" => Some(Keyword::Case),
        b"char" => Some(Keyword::Char),
        b"const" => Some(Keyword::Const),
        b"continue" => Some(Keyword::Continue),
        b"default" => Some(Keyword::Default),
        b"do" => Some(Keyword::Do),
        b"double" => Some(Keyword::Double),
        b"else" => Some(Keyword::Else),
        b"enum" => Some(Keyword::Enum),
        b"extern" => Some(Keyword::Extern),
        b"float" => Some(Keyword::Float),
        b"for" => Some(Keyword::For),
        b"goto" => Some(Keyword::Goto),
        b"if" => Some(Keyword::If),
        b"int" => Some(Keyword::Int),
        b"long" => Some(Keyword::Long),
        b"register" => Some(Keyword::Register),
        b"return" => Some(Keyword::Return),
        b"short" => Some(Keyword::Short),
        b"signed" => Some(Keyword::Signed),
        b"sizeof" => Some(Keyword::Sizeof),
        b"static" => Some(Keyword::Static),
        b"struct" => Some(Keyword::Struct),
        b"switch" => Some(Keyword::Switch),
        b"typedef" => Some(Keyword::Typedef),
        b"union" => Some(Keyword::Union),
        b"unsigned" => Some(Keyword::Unsigned),
        b"void" => Some(Keyword::Void),
        b"volatile" => Some(Keyword::Volatile),
        b"while" => Some(Keyword::While),
        _ => None,
    }
}

/// The same for the five that came in 1999.
fn newer_keyword_of(word: &[u8]) -> Option<Keyword>
    ensures { MatchOption result ((k : Keyword) → is_newer k ≡ true → spelling.keyword_text k ≡ word.now → ⊥)
        (λ k. spelling.keyword_text k ≡ word.now) }
{
    match word {
        b"inline" => Some(Keyword::Inline),
        b"restrict" => Some(Keyword::Restrict),
        b"_Bool" => Some(Keyword::Bool),
        b"_Complex" => Some(Keyword::Complex),
        b"_Imaginary" => Some(Keyword::Imaginary),
        _ => None,
    }
}

/// The mark that is this one byte.
pub fn single_mark(byte: u8) -> Option<Mark>
    ensures { MatchOption result ((m : Mark) → spelling.mark_text m ≡ byte ∷ [] → ⊥) (λ m. spelling.mark_text m ≡ byte ∷ []) }
{
    match byte {
        b'(' => Some(Mark::OpenRound),
        b')' => Some(Mark::CloseRound),
        b'[' => Some(Mark::OpenSquare),
        b']' => Some(Mark::CloseSquare),
        b'{' => Some(Mark::OpenCurly),
        b'}' => Some(Mark::CloseCurly),
        b';' => Some(Mark::Semicolon),
        b'?' => Some(Mark::Question),
        b':' => Some(Mark::Colon),
        b'=' => Some(Mark::Assign),
        b'|' => Some(Mark::Or),
        b'^' => Some(Mark::Xor),
        b'&' => Some(Mark::And),
        b'<' => Some(Mark::Less),
        b'>' => Some(Mark::More),
        b'+' => Some(Mark::Plus),
        b'-' => Some(Mark::Minus),
        b'*' => Some(Mark::Times),
        b'/' => Some(Mark::Divide),
        b'%' => Some(Mark::Remainder),
        b'!' => Some(Mark::Not),
        b'~' => Some(Mark::Flip),
        _ => None,
    }
}

/// The mark that is `mark` and one byte more.
pub fn longer_mark(mark: Mark, byte: u8) -> Option<Mark>
    ensures { MatchOption result ((m : Mark) → spelling.mark_text m ≡ spelling.mark_text mark ++ byte ∷ [] → ⊥) (λ m. spelling.mark_text m ≡ spelling.mark_text mark ++ byte ∷ []) }
{
    match (mark, byte) {
        (Mark::Plus, b'=') => Some(Mark::PlusAssign),
        (Mark::Minus, b'=') => Some(Mark::MinusAssign),
        (Mark::Times, b'=') => Some(Mark::TimesAssign),
        (Mark::Divide, b'=') => Some(Mark::DivideAssign),
        (Mark::Remainder, b'=') => Some(Mark::RemainderAssign),
        (Mark::ShiftLeft, b'=') => Some(Mark::ShiftLeftAssign),
        (Mark::ShiftRight, b'=') => Some(Mark::ShiftRightAssign),
        (Mark::And, b'=') => Some(Mark::AndAssign),
        (Mark::Xor, b'=') => Some(Mark::XorAssign),
        (Mark::Or, b'=') => Some(Mark::OrAssign),
        (Mark::Or, b'|') => Some(Mark::OrOr),
        (Mark::And, b'&') => Some(Mark::AndAnd),
        (Mark::Assign, b'=') => Some(Mark::Equal),
        (Mark::Not, b'=') => Some(Mark::NotEqual),
        (Mark::Less, b'=') => Some(Mark::LessEqual),
        (Mark::More, b'=') => Some(Mark::MoreEqual),
        (Mark::Less, b'<') => Some(Mark::ShiftLeft),
        (Mark::More, b'>') => Some(Mark::ShiftRight),
        (Mark::Plus, b'+') => Some(Mark::Increment),
        (Mark::Minus, b'-') => Some(Mark::Decrement),
        _ => None,
    }
}
