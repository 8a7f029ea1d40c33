/// A unary operator: `-`, `!`, `~`.
#[derive(Clone, Copy, Debug, PartialEq, Eq)]
pub enum Un {
    Neg,
    Not,
    Flip,
}

/// A binary operator. `Both` is `&&` and `Either` is `||`.
#[derive(Clone, Copy, Debug, PartialEq, Eq)]
pub enum Bin {
    Add,
    Sub,
    Mul,
    Div,
    Rem,
    Shl,
    Shr,
    And,
    Xor,
    Or,
    Less,
    LessEq,
    More,
    MoreEq,
    Equal,
    NotEqual,
    Both,
    Either,
}

/// How an assignment makes the new value: `=`, or the operation of an `op=`.
#[derive(Clone, Copy, Debug, PartialEq, Eq)]
pub enum Op {
    Set,
    Add,
    Sub,
    Mul,
    Div,
    Rem,
    Shl,
    Shr,
    And,
    Xor,
    Or,
}

/// Why a run ends early: a divisor of 0, a subscript outside its array, a loop of too many turns.
#[derive(Clone, Copy, Debug, PartialEq, Eq)]
pub enum Cause {
    Divide,
    Index,
    Loop,
}
