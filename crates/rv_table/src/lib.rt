//! The instruction table of RV32I: which instruction a word is, and which word an instruction is.
//!
//! The table is that of the RISC-V Unprivileged ISA manual, chapter "RV32I Base Integer Instruction Set", version 2.1:
//! its sections on formats and on immediate encoding variants, and its instructions from the integer computational
//! instructions to the environment calls. A word that is in no row of the table is no instruction. That holds for the
//! instructions of every extension, FENCE.I among them.
#![tactic(auto)]

mod field;
pub mod funct3;
mod laws;
pub mod opcodes;
mod reading;
mod writing;

pub use laws::{funct3_numbers, one_row, opcode_numbers};
pub use reading::decode;
pub use sls_base::REGISTERS;
pub use writing::encode;

/// An instruction of the table.
///
/// `op` is the field funct3, whose values are named in the module `funct3`, and `alt` says that funct7 is 0x20. `rd`,
/// `rs1` and `rs2` are the numbers of registers, 0 to 31. `imm` is the immediate as the instruction uses it: 32 bits
/// that are sign-extended in the formats I, S, B and J, whose lower 12 bits are 0 in format U, and which are 0 to 31
/// where it is the amount of a shift.
#[derive(Clone, Copy, PartialEq, Eq, Debug)]
pub enum Instr {
    /// LUI.
    Lui {
        rd: u8,
        imm: u32,
    },
    /// AUIPC.
    Auipc {
        rd: u8,
        imm: u32,
    },
    /// JAL.
    Jal {
        rd: u8,
        imm: u32,
    },
    /// JALR.
    Jalr {
        rd: u8,
        rs1: u8,
        imm: u32,
    },
    /// BEQ, BNE, BLT, BGE, BLTU, BGEU.
    Branch {
        op: u8,
        rs1: u8,
        rs2: u8,
        imm: u32,
    },
    /// LB, LH, LW, LBU, LHU.
    Load {
        op: u8,
        rd: u8,
        rs1: u8,
        imm: u32,
    },
    /// SB, SH, SW.
    Store {
        op: u8,
        rs1: u8,
        rs2: u8,
        imm: u32,
    },
    /// ADDI, SLLI, SLTI, SLTIU, XORI, SRLI, ORI, ANDI; with `alt` SRAI.
    OpImm {
        op: u8,
        alt: bool,
        rd: u8,
        rs1: u8,
        imm: u32,
    },
    /// ADD, SLL, SLT, SLTU, XOR, SRL, OR, AND; with `alt` SUB, SRA.
    Op {
        op: u8,
        alt: bool,
        rd: u8,
        rs1: u8,
        rs2: u8,
    },
    /// FENCE. Its other fields are ignored.
    Fence,
    /// ECALL.
    Ecall,
    /// EBREAK.
    Ebreak,
}

#[cfg(test)]
mod tests;
