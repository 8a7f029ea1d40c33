ghost use Rattle.std.specs.Prelude.{◌≡◌, ◌<◌, ◌↔◌, [], ◌∷◌, ◌++◌, length, drop, slice_get, option_copied, IsTrue, IfOk, IfErr, OnOk, IsOk};
ghost use Rattle.circular_buffer.specs.Buffer.{buffer};

use crate::ticket::Ticket;
use circular_buffer::HeapCircularBuffer;
use nest_syntax::NoMemory;
use std::alloc::Global;
use std::marker::Model;

/// Tickets in the order in which they were put, and how many there may be. All memory is taken at the start.
#[derive(Debug, Drop)]
pub struct Tickets {
    ring: HeapCircularBuffer<Ticket>,
}

impl Model for Tickets {
    ghost use Rattle.circular_buffer.specs.Buffer.{Buffer};
    ghost use Rattle.wait_queue.specs.declared.ticket.Ticket.{Ticket};

    ghost Value = { Buffer Ticket };

    ghost view = { λ t. t.ring };
}

impl Tickets {
    /// An empty queue with room for exactly `capacity` tickets.
    pub fn with_capacity(alloc: Global, capacity: usize) -> Result<Tickets, NoMemory>
        ensures { IfOk result (λ tickets. tickets ≡ buffer [] capacity) }
    {
        let ring = HeapCircularBuffer::with_capacity(alloc, capacity)?;
        Ok(Tickets { ring })
    }

    /// How many tickets there are.
    pub fn len(&self) -> usize
        ensures { result ≡ length self.now.items }
    {
        self.ring.len()
    }

    /// Whether there are fewer tickets than there may be.
    pub fn has_room(&self) -> bool
        ensures { IsTrue result ↔ (length self.now.items < self.now.capacity) }
    {
        self.ring.len() < self.ring.capacity()
    }

    /// Puts a ticket behind the others. Where the queue is full, the ticket is handed back and nothing changes.
    pub fn put(&mut self, ticket: Ticket) -> Result<(), Ticket>
        ensures room { IsOk result ↔ (length self.old.items < self.old.capacity) }
        ensures put { OnOk result (self.new ≡ buffer (self.old.items ++ ticket ∷ []) self.old.capacity) }
        ensures full { IfErr result (λ back. (back ≡ ticket) × (self.new ≡ self.old)) }
    {
        self.ring.try_push_back(ticket)
    }

    /// The first ticket of the queue, or None where it is empty.
    pub fn front(&self) -> Option<&Ticket>
        ensures { option_copied result ≡ slice_get self.now.items 0 }
    {
        self.ring.front()
    }

    /// Takes the first ticket out, or answers None where the queue is empty.
    pub fn take(&mut self) -> Option<Ticket>
        ensures first { result ≡ slice_get self.old.items 0 }
        ensures left { self.new ≡ buffer (drop 1 self.old.items) self.old.capacity }
    {
        self.ring.pop_front()
    }
}
