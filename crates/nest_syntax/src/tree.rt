use crate::names::{Line, Name};
use crate::operators::{Bin, Op, Un};
use sqlite_items::{Boxed, Items};

/// An expression. Each `u32` is a name: of a scalar, or of the array of a `Word`.
#[derive(Debug, Drop)]
pub enum Expr {
    Number(i64),
    Scalar(u32),
    /// A word of an array: its name and its subscript.
    Word(u32, Boxed<Expr>),
    Unary(Un, Boxed<Expr>),
    Binary(Bin, Boxed<Expr>, Boxed<Expr>),
    /// `test ? first : second`.
    Choice(Boxed<Expr>, Boxed<Expr>, Boxed<Expr>),
}

/// One `if` or `else if`: its line, its test and its block.
#[cycle(stmt)]
#[derive(Debug, Drop)]
pub struct Arm {
    pub line: Line,
    pub test: Expr,
    pub body: Items<Stmt>,
}

/// A loop: its variable, its two bounds, whether it goes `through` the high one (`<=`), its step and its block.
/// At depth 1 it is a region, at depth 2 an invocation of its body.
#[cycle(stmt)]
#[derive(Debug, Drop)]
pub struct Loop {
    pub line: Line,
    pub name: u32,
    pub low: Expr,
    pub high: Expr,
    pub through: bool,
    pub step: u64,
    pub body: Items<Stmt>,
}

/// A statement. `other` is the last `else` block, empty where there is none.
#[cycle(stmt)]
#[derive(Debug, Drop)]
pub enum Stmt {
    Declare {
        line: Line,
        name: u32,
        value: Expr,
    },
    Assign {
        line: Line,
        name: u32,
        op: Op,
        value: Expr,
    },
    Write {
        line: Line,
        array: u32,
        place: Expr,
        op: Op,
        value: Expr,
    },
    If {
        arms: Items<Arm>,
        other: Items<Stmt>,
    },
    Loop(Loop),
}

/// A declaration before the regions. A `fixed` array is a `const` one.
#[derive(Debug, Drop)]
pub enum Decl {
    Array {
        line: Line,
        name: u32,
        length: u64,
        fixed: bool,
    },
    Scalar {
        line: Line,
        name: u32,
        value: i64,
    },
}

/// A whole nest. A name is its number in `names`.
#[derive(Debug, Drop)]
pub struct Program {
    pub names: Items<Name>,
    pub decls: Items<Decl>,
    pub regions: Items<Loop>,
}
