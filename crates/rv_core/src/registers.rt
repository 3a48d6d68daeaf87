//! The registers, and what is to be done to them.

ghost use Rattle.std.specs.Prelude.{◌≡◌, ◌<◌};
ghost use Rattle.rv_core.specs.Effect;
ghost use Rattle.rv_core.specs.declared.registers.Plan.TheVariants.{Set};

use sls_base::{BAD_TARGET, INSTRUCTION_BYTES, REGISTERS};

/// The program counter and the registers. Register 0 reads 0, whatever stands in `x[0]`.
#[derive(Clone, Copy, PartialEq, Eq, Debug)]
pub struct Regs {
    pub pc: u32,
    pub x: [u32; REGISTERS],
}

impl Regs {
    ghost use Rattle.rv_core.specs.Effect.{register, with_register};

    /// The value of a register.
    pub fn get(&self, index: u8) -> u32
        requires { index < REGISTERS }
        ensures { result ≡ register self.now index }
    {
        if index == 0 {
            0
        } else {
            self.x[index as usize]
        }
    }

    /// Writes a register. A write to register 0 is lost.
    pub fn set(&mut self, index: u8, value: u32)
        requires { index < REGISTERS }
        ensures registers { self.new.x ≡ with_register self.old.x index value }
        ensures pc { self.new.pc ≡ self.old.pc }
    {
        if index != 0 {
            self.x[index as usize] = value;
        }
    }
}

/// What an instruction comes to.
#[derive(Clone, Copy, PartialEq, Eq, Debug)]
pub enum Plan {
    /// Write the value to register `rd`, and go on at `pc`.
    Set { rd: u8, value: u32, pc: u32 },
    /// Read `access_size(op)` bytes at `at`, write `extend(op, ..)` of them to register `rd`, and go on at the next
    /// instruction.
    Load { op: u8, rd: u8, at: u32 },
    /// Store the lowest `access_size(op)` bytes of the value at `at`, and go on at the next instruction.
    Store { op: u8, at: u32, value: u32 },
    /// An environment call.
    Call,
    /// The thread stops, with this cause.
    Stop(u8),
}

/// The value for register `rd`, and the address to go on at.
pub fn set(rd: u8, value: u32, pc: u32) -> Plan
    ensures { result ≡ Set rd value pc }
{
    Plan::Set { rd, value, pc }
}

/// A jump to a target, with the value for register `rd`. At an address that isn't a multiple of 4 no instruction begins:
/// a jump to it stops the thread and writes no register.
pub fn jump(rd: u8, value: u32, target: u32) -> Plan
    ensures { result ≡ Effect.jump rd value target }
{
    if target % INSTRUCTION_BYTES == 0 {
        set(rd, value, target)
    } else {
        Plan::Stop(BAD_TARGET)
    }
}
