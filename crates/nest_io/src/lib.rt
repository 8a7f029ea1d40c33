//! Bytes in and out. A source gives bytes and a sink takes them; each call may fail, and then a count
//! of faults has risen.
//!
//! `take_all` gives all bytes of a source or says what stopped it, and `put_all` writes all bytes to a
//! sink or stops at a fault. `MemorySource` and `MemorySink` fail where they are told to, and their
//! contracts say exactly what they do; `StdSource` and `StdSink` are standard input and output.
#![tactic(auto)]

mod fault;
mod memory_sink;
mod memory_source;
mod standard;
mod stream;
mod transfer;

pub use fault::{ReadFailed, TakeFault, WriteFailed};
pub use memory_sink::MemorySink;
pub use memory_source::MemorySource;
pub use standard::{StdSink, StdSource};
pub use stream::{Sink, Source};
pub use transfer::{MOST_BYTES, put_all, take_all};
