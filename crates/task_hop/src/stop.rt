use nest_syntax::{Cause, Line};

/// Where a hop stops: at an access to a word, named by its array and its place in it, where the worker may be interrupted,
/// at the end of the iteration, or at a trap. `next` is the address of the hop behind it; a word that is read goes into
/// the temporary `into` first.
#[derive(Clone, Copy, Debug, PartialEq, Eq)]
pub enum Stop {
    Load {
        array: u32,
        place: u64,
        into: u8,
        next: u32,
    },
    Store {
        array: u32,
        place: u64,
        value: i64,
        next: u32,
    },
    Go {
        next: u32,
    },
    Finish,
    Trap {
        cause: Cause,
        line: Line,
    },
}
