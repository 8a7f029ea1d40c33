use crate::turning::Turning;
use nest_syntax::{Expr, Line, Op};

/// What comes next: an event of the script, the next turn of the region that was entered, or the end of the program.
#[derive(Clone, Copy, Debug)]
pub(crate) enum Next {
    Node(usize),
    Turn,
    End,
}

/// The header of a loop.
#[derive(Debug, Drop)]
pub(crate) struct Header {
    pub(crate) line: Line,
    pub(crate) name: u32,
    pub(crate) low: Expr,
    pub(crate) high: Expr,
    pub(crate) through: bool,
    pub(crate) step: u64,
}

/// An event of the scheduler that stands in the text, with what comes behind it.
#[derive(Debug, Drop)]
pub(crate) enum Node {
    /// The header of a region. Its turns begin with `items`.
    Region {
        header: Header,
        items: Next,
        leave: Next,
    },
    /// A declaration or an assignment.
    Change {
        line: Line,
        name: u32,
        op: Op,
        value: Expr,
        next: Next,
    },
    /// The test of an arm.
    Test {
        line: Line,
        test: Expr,
        taken: Next,
        otherwise: Next,
    },
    /// The header of a loop that invokes a body.
    Invoke {
        header: Header,
        body: u32,
        next: Next,
    },
    /// The header of an array statement, a body by itself.
    Write {
        line: Line,
        body: u32,
        next: Next,
    },
}

/// The region that was entered.
#[derive(Debug, Drop)]
pub(crate) struct Region {
    pub(crate) name: u32,
    pub(crate) turning: Turning,
    pub(crate) items: Next,
    pub(crate) leave: Next,
}

/// The invocation that was entered. An array statement has no variable.
#[derive(Debug, Drop)]
pub(crate) struct Invocation {
    pub(crate) body: u32,
    pub(crate) name: Option<u32>,
    pub(crate) turning: Turning,
    pub(crate) next: Next,
}

/// Where a cursor stands: before an event, or in an invocation, before its next iteration or its end.
#[derive(Debug, Drop)]
pub(crate) enum At {
    Before(Next),
    Inside(Invocation),
}
