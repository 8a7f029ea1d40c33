ghost use Rattle.std.specs.Prelude.{◌≡◌, ◌<◌, length, slice_index_or};
ghost use Rattle.task_code.specs.Code.{instruction_at, hop_at, entry_at, slot_at};

use arrayvec::ArrayVec;
use std::marker::Model;
use task_hop::{End, Hop, Jump, Operation};

/// What stands at an address: an operation, with the address behind it, or the end of a hop.
#[derive(Clone, Copy, Debug, PartialEq, Eq)]
pub enum Instruction {
    Then(Operation, u32),
    End(End),
}

/// Where a body begins: its address, and the local that is the variable of its invocation.
#[derive(Clone, Copy, Debug, PartialEq, Eq)]
pub struct Entry {
    pub at: u32,
    pub slot: Option<u8>,
}

/// The code of the bodies of a program. Bodies are numbered from 0 in textual order.
#[derive(Debug, Drop)]
pub struct TaskCode {
    instructions: Vec<Instruction>,
    entries: Vec<Entry>,
}

impl Model for TaskCode {
    ghost use Rattle.task_code.specs.Code.{Code};

    ghost Value = { Code };

    ghost view = { λ c. record { instructions = c.instructions.items; entries = c.entries.items } };
}

impl TaskCode {
    pub(crate) fn made_of(instructions: Vec<Instruction>, entries: Vec<Entry>) -> TaskCode
        ensures { result ≡ record { instructions = instructions.items; entries = entries.items } }
    {
        TaskCode {
            instructions,
            entries,
        }
    }

    /// How many bodies there are.
    pub fn bodies(&self) -> usize
        ensures { result ≡ length self.now.entries }
    {
        self.entries.len()
    }

    /// The address at which a body begins.
    pub fn entry(&self, body: u32) -> u32
        requires { body < length self.now.entries }
        ensures { result ≡ entry_at self.now body }
    {
        self.entries[body as usize].at
    }

    /// The number of the local that is the variable of a body's invocation. None comes exactly where the body is an array
    /// statement.
    pub fn slot(&self, body: u32) -> Option<u8>
        requires { body < length self.now.entries }
        ensures { result ≡ slot_at self.now body }
    {
        self.entries[body as usize].slot
    }

    /// The hop that begins at an address: the operations from there on, at most 32, and an end. Behind 32 operations the
    /// end is a Go to the address of what follows. Takes a constant time.
    pub fn hop(&self, at: u32) -> Hop
        ensures { result ≡ hop_at self.now.instructions at }
    {
        let mut operations = ArrayVec::new();
        let mut here = at;
        while !operations.is_full() {
            match self.instruction(here) {
                Instruction::Then(operation, next) => {
                    operations.push(operation);
                    here = next;
                }
                Instruction::End(end) => return Hop { operations, end },
            }
        }
        Hop {
            operations,
            end: End::Go(Jump::To(here)),
        }
    }

    // At an address that the code doesn't have the iteration is over.
    fn instruction(&self, at: u32) -> Instruction
        ensures { result ≡ instruction_at self.now.instructions at }
    {
        match self.instructions.get(at as usize) {
            Some(instruction) => *instruction,
            None => Instruction::End(End::Finish),
        }
    }
}
