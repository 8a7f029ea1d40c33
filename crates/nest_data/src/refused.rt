//! Why data lines are refused.

use nest_syntax::NoMemory;
use std::alloc::AllocError;
use thiserror::Error;

/// What is wrong with a data line. A line with several faults has the first of them in this order.
#[derive(Clone, Copy, Debug, PartialEq, Eq)]
pub enum DataKind {
    /// The first word is no array's name.
    Name,
    /// An earlier line has the same name.
    Repeated,
    /// A word behind the name isn't a value.
    Number,
    /// There are fewer or more values than the array has words.
    Count,
}

/// The answer of `read_data` to lines that give no words, or where memory ran out.
#[derive(Clone, Copy, Debug, PartialEq, Eq, Error)]
pub enum DataRefused {
    /// The first line that has a fault.
    #[error("a faulty data line")]
    Line { kind: DataKind, line: u32 },
    #[error("out of memory")]
    NoMemory,
}

impl From<AllocError> for DataRefused {
    ghost use Rattle.std.specs.Prelude.{◌≡◌};
    ghost use Rattle.nest_data.specs.declared.refused.DataRefused.TheVariants.{NoMemory};

    ghost from_gives = { λ _ e. e ≡ NoMemory };

    fn from(_error: AllocError) -> DataRefused {
        DataRefused::NoMemory
    }
}

impl From<NoMemory> for DataRefused {
    ghost use Rattle.std.specs.Prelude.{◌≡◌};
    ghost use Rattle.nest_data.specs.declared.refused.DataRefused.TheVariants.{NoMemory};

    ghost from_gives = { λ _ e. e ≡ NoMemory };

    fn from(_error: NoMemory) -> DataRefused {
        DataRefused::NoMemory
    }
}
