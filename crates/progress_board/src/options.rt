/// An engine. `Barrier` is the machine of `Speccross` with distance 0.
#[derive(Clone, Copy, Debug, PartialEq, Eq)]
pub enum Engine {
    Domore,
    Speccross,
    Barrier,
}

/// How an access signature is kept: as one range for each array, or word by word.
#[derive(Clone, Copy, Debug, PartialEq, Eq)]
pub enum Sign {
    Range,
    Exact,
}

/// How a machine is to run. Their ranges: `workers` 1 to 8, `queue` 1 to 1024, `segment` 1 to 64, `distance` 0 to 64.
///
/// Workers are the actors 0 to W - 1, where W is `workers`; the scheduler is W and the checker W + 1.
#[derive(Clone, Copy, Debug, PartialEq, Eq)]
pub struct Options {
    pub engine: Engine,
    pub workers: u8,
    /// How many tickets a worker's queue holds.
    pub queue: u16,
    pub sign: Sign,
    /// The most invocations in a segment.
    pub segment: u8,
    /// How many epochs a worker may be ahead of the slowest.
    pub distance: u8,
}
