ghost use Rattle.std.specs.Prelude.{◌≡◌, ◌<◌, ◌↔◌, IsTrue, nat_lt};
ghost use Rattle.nest_check.specs.Parts.{depth};

use nest_syntax::Expr;

/// Whether an expression is deeper than a bound. It is looked into no further than that.
pub(crate) fn is_deeper(expr: &Expr, most: u32) -> bool
    ensures { result ≡ nat_lt most (depth expr.now) }
{
    let Some(below) = most.checked_sub(1) else {
        return true;
    };
    match expr {
        Expr::Number(_) => false,
        Expr::Scalar(_) => false,
        Expr::Word(_, place) => is_deeper(place.get(), below),
        Expr::Unary(_, part) => is_deeper(part.get(), below),
        Expr::Binary(_, left, right) => is_deeper(left.get(), below)
            || is_deeper(right.get(), below),
        Expr::Choice(test, first, second) => {
            is_deeper(test.get(), below)
                || is_deeper(first.get(), below)
                || is_deeper(second.get(), below)
        }
    }
}
