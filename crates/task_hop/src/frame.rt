ghost use Rattle.std.specs.Prelude.{◌≡◌, pos, slice_index_or, slice_set};
ghost use Rattle.task_hop.specs.Registers.{held, value_of, with_register};

/// How many registers of each kind a frame has.
pub const SCALARS: usize = 32;

pub const LOCALS: usize = 16;

pub const TEMPORARIES: usize = 32;

/// The registers of an iteration: the scalars of the scheduler, the locals of the body, and temporaries. Each register is
/// named by its number, from 0.
#[derive(Clone, Copy, Debug, PartialEq, Eq)]
pub struct Frame {
    pub env: [i64; 32],
    pub locals: [i64; 16],
    pub temps: [i64; 32],
}

/// A register of a frame. One that the frame doesn't have holds 0, whatever is put into it.
#[derive(Clone, Copy, Debug, PartialEq, Eq)]
pub enum Register {
    Scalar(u8),
    Local(u8),
    Temporary(u8),
}

/// What an operation is applied to.
#[derive(Clone, Copy, Debug, PartialEq, Eq)]
pub enum Operand {
    Number(i64),
    Held(Register),
}

impl Frame {
    /// The value of an operand.
    pub fn value(&self, operand: Operand) -> i64
        ensures { result ≡ value_of self.now operand }
    {
        match operand {
            Operand::Number(number) => number,
            Operand::Held(register) => self.get(register),
        }
    }

    /// What a register holds.
    pub fn get(&self, register: Register) -> i64
        ensures { result ≡ held self.now register }
    {
        match register {
            Register::Scalar(number) => held(&self.env, number),
            Register::Local(number) => held(&self.locals, number),
            Register::Temporary(number) => held(&self.temps, number),
        }
    }

    /// Puts a value into a register. Nothing changes where the frame has no such register.
    pub fn set(&mut self, register: Register, value: i64)
        ensures { self.new ≡ with_register self.old register value }
    {
        match register {
            Register::Scalar(number) => put(&mut self.env, number, value),
            Register::Local(number) => put(&mut self.locals, number, value),
            Register::Temporary(number) => put(&mut self.temps, number, value),
        }
    }
}

fn held(registers: &[i64], number: u8) -> i64
    ensures { result ≡ slice_index_or registers.now number (pos 0) }
{
    match registers.get(number as usize) {
        Some(value) => *value,
        None => 0,
    }
}

fn put(registers: &mut [i64], number: u8, value: i64)
    ensures { registers.new ≡ slice_set registers.old number value }
{
    if (number as usize) < registers.len() {
        registers[number as usize] = value;
    }
}
