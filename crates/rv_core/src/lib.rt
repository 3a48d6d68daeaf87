//! What an instruction of RV32I does: `plan` tells it from the registers, and who calls it reads and writes memory.
//!
//! The instructions are those of the RISC-V Unprivileged ISA manual, chapter "RV32I Base Integer Instruction Set",
//! version 2.1. Where the manual raises an exception the thread stops, with a cause; FENCE does nothing.
#![tactic(auto)]

ghost use Rattle.std.specs.Prelude.{◌≡◌, ◌<◌, ◌%◌};
ghost use Rattle.rv_table.specs.Table.{IsInstr};
ghost use Rattle.rv_core.specs.Effect;
ghost use Rattle.rv_core.specs.Effect.{effect};
ghost use Rattle.rv_core.specs.Ranges.{IsPlan, GoesAligned};

mod access;
mod arithmetic;
mod ranges;
mod registers;

pub use access::{access_size, extend};
use arithmetic::{operate, taken};
pub use ranges::plans_in_range;
pub use registers::{Plan, Regs};
use registers::{jump, set};
use rv_table::Instr;
use sls_base::{BREAKPOINT, INSTRUCTION_BYTES, MISALIGNED};

/// What the instruction does, with these registers.
pub fn plan(instr: Instr, regs: &Regs) -> Plan
    requires { IsInstr instr }
    ensures effect { result ≡ effect instr regs.now }
    ensures in_range { IsPlan result }
    ensures aligned { regs.now.pc % INSTRUCTION_BYTES ≡ 0 → GoesAligned result }
{
    let next = regs.pc.wrapping_add(INSTRUCTION_BYTES);
    match instr {
        Instr::Lui { rd, imm } => set(rd, imm, next),
        Instr::Auipc { rd, imm } => set(rd, regs.pc.wrapping_add(imm), next),
        Instr::Jal { rd, imm } => jump(rd, next, regs.pc.wrapping_add(imm)),
        Instr::Jalr { rd, rs1, imm } => { jump(rd, next, regs.get(rs1).wrapping_add(imm) / 2 * 2) }
        Instr::Branch { op, rs1, rs2, imm } => {
            if taken(op, regs.get(rs1), regs.get(rs2)) {
                jump(0, 0, regs.pc.wrapping_add(imm))
            } else {
                set(0, 0, next)
            }
        }
        Instr::Load { op, rd, rs1, imm } => {
            let at = regs.get(rs1).wrapping_add(imm);
            if at % access_size(op) == 0 {
                Plan::Load { op, rd, at }
            } else {
                Plan::Stop(MISALIGNED)
            }
        }
        Instr::Store { op, rs1, rs2, imm } => {
            let at = regs.get(rs1).wrapping_add(imm);
            let value = regs.get(rs2);
            if at % access_size(op) == 0 {
                Plan::Store { op, at, value }
            } else {
                Plan::Stop(MISALIGNED)
            }
        }
        Instr::OpImm {
            op,
            alt,
            rd,
            rs1,
            imm,
        } => set(rd, operate(op, alt, regs.get(rs1), imm), next),
        Instr::Op {
            op,
            alt,
            rd,
            rs1,
            rs2,
        } => {
            let value = operate(op, alt, regs.get(rs1), regs.get(rs2));
            set(rd, value, next)
        }
        Instr::Fence => set(0, 0, next),
        Instr::Ecall => Plan::Call,
        Instr::Ebreak => Plan::Stop(BREAKPOINT),
    }
}

#[cfg(test)]
mod tests;
