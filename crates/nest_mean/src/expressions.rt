ghost use Rattle.std.specs.Prelude.{◌≡◌, ◌<◌, IfSome, length};
ghost use Rattle.nest_syntax.specs.Words.{truth, is_zero};
ghost use Rattle.nest_syntax.specs.Arrays.{arrays_of, array_of};
ghost use Rattle.nest_syntax.specs.Value.{value, read};
ghost use Rattle.word_store.specs.Memory.{HasLayout};

use crate::values::Scalars;
use nest_check::Checked;
use nest_syntax::{Bin, Cause, Expr};
use word_store::{Words, apply, apply_un};

/// The value of an expression, from the scalars and the words of the declared arrays, or the cause of its trap.
pub fn eval(expr: &Expr, scalars: &Scalars, words: &Words, checked: &Checked) -> Result<i64, Cause>
    requires sizes { HasLayout words.now checked.now.decls }
    ensures { result ≡ value (arrays_of checked.now.decls) scalars.now words.now.words expr.now }
{
    match expr {
        Expr::Number(number) => Ok(*number),
        Expr::Scalar(name) => Ok(scalars.get(*name)),
        Expr::Word(name, place) => {
            let at = eval(place.get(), scalars, words, checked)?;
            read(*name, at, words, checked)
        }
        Expr::Unary(op, part) => Ok(apply_un(*op, eval(part.get(), scalars, words, checked)?)),
        Expr::Binary(op, first, second) => {
            let left = eval(first.get(), scalars, words, checked)?;
            match op {
                Bin::Both if left == 0 => Ok(0),
                Bin::Either if left != 0 => Ok(1),
                Bin::Both | Bin::Either => Ok(truth(eval(second.get(), scalars, words, checked)?)),
                _ => apply(*op, left, eval(second.get(), scalars, words, checked)?),
            }
        }
        Expr::Choice(test, first, second) => {
            if is_zero(eval(test.get(), scalars, words, checked)?) {
                eval(second.get(), scalars, words, checked)
            } else {
                eval(first.get(), scalars, words, checked)
            }
        }
    }
}

// The word at a subscript of the array with this name.
fn read(name: u32, at: i64, words: &Words, checked: &Checked) -> Result<i64, Cause>
    requires sizes { HasLayout words.now checked.now.decls }
    ensures { result ≡ read (arrays_of checked.now.decls) words.now.words name at }
{
    let array = array_of(name, checked).ok_or(Cause::Index)?;
    words.load(array, at).ok_or(Cause::Index)
}

/// The number of the array with this name. None comes exactly where no array has it.
pub(crate) fn array_of(name: u32, checked: &Checked) -> Option<u32>
    ensures number { result ≡ array_of (arrays_of checked.now.decls) name }
    ensures there { IfSome result (λ n. n < length (arrays_of checked.now.decls)) }
{
    checked.array_of(name)
}

fn truth(value: i64) -> i64
    ensures { result ≡ truth value }
{
    if value == 0 { 0 } else { 1 }
}

pub(crate) fn is_zero(value: i64) -> bool
    ensures { result ≡ is_zero value }
{
    value == 0
}
