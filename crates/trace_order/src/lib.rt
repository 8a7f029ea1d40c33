//! Lists of accesses, checked against the law that lets iterations be out of order: whether they stand in its order, and
//! which words they settle to.
//!
//! In come accesses in the order in which they were made, out comes the first pair that is out of order, or the words
//! behind them. Both are by the definitions of `settle_law`.
#![tactic(auto)]

mod access;
mod order;
mod settled;

pub use access::Access;
pub use order::in_order;
pub use settled::settle;
