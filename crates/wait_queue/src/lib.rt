//! The tickets of a worker, in the order in which they were put: a queue with a capacity.
//!
//! In come tickets, each with an iteration and its waits, and out they come one by one. To a caller the queue is a list
//! of tickets and a capacity; a ticket is handed back exactly where the list is as long as that.
#![tactic(auto)]

mod ticket;
mod tickets;

pub use ticket::Ticket;
pub use tickets::Tickets;
