use thiserror::Error;

/// A read failed, and gave nothing.
#[derive(Clone, Copy, Debug, PartialEq, Eq)]
pub struct ReadFailed;

/// A write failed, and took nothing.
#[derive(Clone, Copy, Debug, PartialEq, Eq)]
pub struct WriteFailed;

/// Why `take_all` gave no bytes.
#[derive(Clone, Copy, Debug, PartialEq, Eq, Error)]
pub enum TakeFault {
    /// A read failed.
    #[error("a read failed")]
    Read,
    /// The source had more bytes than `MOST_BYTES`.
    #[error("the input is too long")]
    TooLong,
    /// There was no memory left. No clause ties this answer to a cause.
    #[error("out of memory")]
    NoMemory,
}
