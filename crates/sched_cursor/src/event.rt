/// An event of the scheduler.
#[derive(Clone, Copy, Debug, PartialEq, Eq)]
pub enum Event {
    /// An event that computes with scalars and `const` words alone: a header, a turn of a region or the leaving of it, a
    /// declaration or an assignment among the items, the test of an arm.
    Scalar,
    /// One that reads written arrays.
    Drain,
    /// An iteration of the invocation entered.
    Iterate,
    /// The end of the invocation.
    Close,
    /// The end of the program.
    End,
}

/// The invocation that was entered, and how many of its turns were passed. Its variable in the next iteration is
/// `low + turn*step`. An array statement has low 0, step 1 and one trip.
#[derive(Clone, Copy, Debug, PartialEq, Eq)]
pub struct Here {
    pub body: u32,
    pub low: i64,
    pub step: u64,
    pub trips: u64,
    pub turn: u64,
}

/// What an iteration is handed out with: the number of its body, the value of the invocation's variable, 0 for an array
/// statement, and the scalars of the scheduler by their numbers.
#[derive(Clone, Copy, Debug, PartialEq, Eq)]
pub struct Iteration {
    pub body: u32,
    pub value: i64,
    pub env: [i64; 32],
}
