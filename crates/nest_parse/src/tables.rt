//! The operators of the language.
ghost use Rattle.std.specs.Prelude.{◌≡◌};
ghost use Rattle.nest_parse.specs.Grammar as grammar;

use nest_lex::{Kind, Mark};
use nest_syntax::{Bin, Op, Un};

/// A binary operator with its level, from the tightest, 0, to the loosest, 9.
pub(crate) fn binary(kind: Kind) -> Option<(usize, Bin)>
    ensures { result ≡ grammar.binary kind }
{
    match kind {
        Kind::Mark(mark) => binary_mark(mark),
        _ => None,
    }
}

fn binary_mark(mark: Mark) -> Option<(usize, Bin)>
    ensures { result ≡ grammar.binary (Kind.Mark mark) }
{
    match mark {
        Mark::Times => Some((0, Bin::Mul)),
        Mark::Divide => Some((0, Bin::Div)),
        Mark::Remainder => Some((0, Bin::Rem)),
        Mark::Plus => Some((1, Bin::Add)),
        Mark::Minus => Some((1, Bin::Sub)),
        Mark::ShiftLeft => Some((2, Bin::Shl)),
        Mark::ShiftRight => Some((2, Bin::Shr)),
        Mark::Less => Some((3, Bin::Less)),
        Mark::LessEqual => Some((3, Bin::LessEq)),
        Mark::More => Some((3, Bin::More)),
        Mark::MoreEqual => Some((3, Bin::MoreEq)),
        Mark::Equal => Some((4, Bin::Equal)),
        Mark::NotEqual => Some((4, Bin::NotEqual)),
        Mark::And => Some((5, Bin::And)),
        Mark::Xor => Some((6, Bin::Xor)),
        Mark::Or => Some((7, Bin::Or)),
        Mark::AndAnd => Some((8, Bin::Both)),
        Mark::OrOr => Some((9, Bin::Either)),
        _ => None,
    }
}

pub(crate) fn unary(kind: Kind) -> Option<Un>
    ensures { result ≡ grammar.unary kind }
{
    match kind {
        Kind::Mark(mark) => unary_mark(mark),
        _ => None,
    }
}

fn unary_mark(mark: Mark) -> Option<Un>
    ensures { result ≡ grammar.unary (Kind.Mark mark) }
{
    match mark {
        Mark::Minus => Some(Un::Neg),
        Mark::Not => Some(Un::Not),
        Mark::Flip => Some(Un::Flip),
        _ => None,
    }
}

/// What a mark between a target and a value does.
pub(crate) fn assignment(kind: Kind) -> Option<Op>
    ensures { result ≡ grammar.assignment kind }
{
    match kind {
        Kind::Mark(mark) => assignment_mark(mark),
        _ => None,
    }
}

fn assignment_mark(mark: Mark) -> Option<Op>
    ensures { result ≡ grammar.assignment (Kind.Mark mark) }
{
    match mark {
        Mark::Assign => Some(Op::Set),
        Mark::PlusAssign => Some(Op::Add),
        Mark::MinusAssign => Some(Op::Sub),
        Mark::TimesAssign => Some(Op::Mul),
        Mark::DivideAssign => Some(Op::Div),
        Mark::RemainderAssign => Some(Op::Rem),
        Mark::ShiftLeftAssign => Some(Op::Shl),
        Mark::ShiftRightAssign => Some(Op::Shr),
        Mark::AndAssign => Some(Op::And),
        Mark::XorAssign => Some(Op::Xor),
        Mark::OrAssign => Some(Op::Or),
        _ => None,
    }
}

/// Whether a loop with this mark in its test goes through its high bound.
pub(crate) fn comparison(kind: Kind) -> Option<bool>
    ensures { result ≡ grammar.comparison kind }
{
    match kind {
        Kind::Mark(Mark::Less) => Some(false),
        Kind::Mark(Mark::LessEqual) => Some(true),
        _ => None,
    }
}
