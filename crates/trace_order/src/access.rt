ghost use Rattle.std.specs.Prelude.{IsTrue, ◌↔◌};
ghost use Rattle.trace_order.specs.Swaps.{Swapped, traced};

/// An access of a task to a word, with the value that was read or written. Words are numbered from 0 over all arrays,
/// one array after another in order of declaration.
#[derive(Clone, Copy, Debug, PartialEq, Eq)]
pub struct Access {
    pub task: u64,
    pub word: u32,
    pub write: bool,
    pub value: i64,
}

impl Access {
    // Whether the two conflict, and this one, which stands first, is of the later task.
    pub(crate) fn is_swapped_with(&self, later: &Access) -> bool
        ensures { IsTrue result ↔ Swapped (traced self.now) (traced later.now) }
    {
        self.word == later.word && (self.write || later.write) && later.task < self.task
    }
}
