ghost use Rattle.std.specs.Prelude.{◌≡◌, IfOk};

use crate::names::NoMemory;
use crate::tree::Expr;
use sqlite_items::Boxed;
use std::alloc::Global;

impl Expr {
    /// An equal expression.
    pub fn copy(&self, alloc: Global) -> Result<Expr, NoMemory>
        ensures { IfOk result (λ copied. copied ≡ self.now) }
    {
        match self {
            Expr::Number(number) => Ok(Expr::Number(*number)),
            Expr::Scalar(name) => Ok(Expr::Scalar(*name)),
            Expr::Word(array, place) => Ok(Expr::Word(
                *array,
                Boxed::new(alloc, place.get().copy(alloc)?)?,
            )),
            Expr::Unary(op, part) => Ok(Expr::Unary(
                *op,
                Boxed::new(alloc, part.get().copy(alloc)?)?,
            )),
            Expr::Binary(op, left, right) => {
                let left = Boxed::new(alloc, left.get().copy(alloc)?)?;
                let right = Boxed::new(alloc, right.get().copy(alloc)?)?;
                Ok(Expr::Binary(*op, left, right))
            }
            Expr::Choice(test, first, second) => {
                let test = Boxed::new(alloc, test.get().copy(alloc)?)?;
                let first = Boxed::new(alloc, first.get().copy(alloc)?)?;
                let second = Boxed::new(alloc, second.get().copy(alloc)?)?;
                Ok(Expr::Choice(test, first, second))
            }
        }
    }
}
