/// An iteration that was handed out, with what its worker needs to run it.
#[derive(Debug, Drop)]
pub struct Ticket {
    /// The iteration, numbered from 0 over the whole run, in textual order.
    pub number: u64,
    /// Its body, numbered from 0 in textual order.
    pub body: u32,
    /// The value of the invocation's variable.
    pub value: i64,
    /// The scheduler scalars by their numbers, as they were when it was handed out.
    pub env: [i64; 32],
    /// By worker, the iteration that has to be finished first, if one has to.
    pub waits: [Option<u64>; 8],
}
