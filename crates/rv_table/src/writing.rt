//! From an instruction to its word.

ghost use Rattle.std.specs.Prelude.{◌≡◌, ◌<◌, ◌+◌, ◌*◌, ◌^◌, ◌≢◌, ℕ, Some};
ghost use Rattle.rv_table.specs.declared.Instr.TheVariants.{Fence};
ghost use Rattle.rv_table.specs.Spelling;
ghost use Rattle.rv_table.specs.Word;
ghost use Rattle.rv_table.specs.Table.{IsRow, IsInstr};
ghost use Rattle.rv_table.specs.Decoded.{decoded};

use crate::Instr;
use crate::field::bits;
use crate::funct3::JALR_FUNCT3;
use crate::opcodes::{
    ALT, AUIPC, BASE, BRANCH, EBREAK_WORD, ECALL_WORD, FENCE_WORD, JAL, JALR, LOAD, LUI, OP,
    OP_IMM, STORE,
};

/// The word of an instruction. FENCE gives the word with all other fields 0.
pub fn encode(instr: Instr) -> u32
    requires { IsInstr instr }
    ensures row { IsRow result instr }
    // What is written is read again.
    ensures read_back { decoded result ≡ Some instr }
    // No other word is in that row, so what is read is written again, but for FENCE.
    ensures only { (w : ℕ) → w < 2 ^ 32 → IsRow w instr → instr ≢ Fence → w ≡ result }
    ensures fence { instr ≡ Fence → result ≡ FENCE_WORD }
{
    word(instr)
}

fn word(instr: Instr) -> u32
    requires { IsInstr instr }
    ensures row { IsRow result instr }
    ensures only { (w : ℕ) → w < 2 ^ 32 → IsRow w instr → instr ≢ Fence → w ≡ result }
    ensures fence { instr ≡ Fence → result ≡ FENCE_WORD }
{
    match instr {
        Instr::Lui { rd, imm } => u_word(LUI, rd, bits(imm, 31, 12)),
        Instr::Auipc { rd, imm } => u_word(AUIPC, rd, bits(imm, 31, 12)),
        Instr::Jal { rd, imm } => {
            let low = bits(imm, 19, 12) | bits(imm, 11, 11) << 8;
            u_word(
                JAL,
                rd,
                low | bits(imm, 10, 1) << 9 | bits(imm, 20, 20) << 19,
            )
        }
        Instr::Jalr { rd, rs1, imm } => i_word(JALR, rd, JALR_FUNCT3, rs1, imm),
        Instr::Branch { op, rs1, rs2, imm } => {
            let low = bits(imm, 11, 11) | bits(imm, 4, 1) << 1;
            let high = bits(imm, 10, 5) | bits(imm, 12, 12) << 6;
            word_of(BRANCH, low, op, rs1, rs2, high)
        }
        Instr::Load { op, rd, rs1, imm } => i_word(LOAD, rd, op, rs1, imm),
        Instr::Store { op, rs1, rs2, imm } => {
            word_of(STORE, bits(imm, 4, 0), op, rs1, rs2, bits(imm, 11, 5))
        }
        Instr::OpImm {
            op,
            alt,
            rd,
            rs1,
            imm,
        } => {
            if alt {
                word_of(OP_IMM, u32::from(rd), op, rs1, imm as u8, ALT)
            } else {
                i_word(OP_IMM, rd, op, rs1, imm)
            }
        }
        Instr::Op {
            op,
            alt,
            rd,
            rs1,
            rs2,
        } => {
            word_of(
                OP,
                u32::from(rd),
                op,
                rs1,
                rs2,
                if alt { ALT } else { BASE },
            )
        }
        Instr::Fence => FENCE_WORD,
        Instr::Ecall => ECALL_WORD,
        Instr::Ebreak => EBREAK_WORD,
    }
}

/// A word by its fields: the opcode, then bits 11:7, 14:12, 19:15, 24:20 and 31:25.
fn word_of(opcode: u32, rd: u32, op: u8, rs1: u8, rs2: u8, funct7: u32) -> u32
    requires opcode { opcode < 128 }
    requires rd { rd < 32 }
    requires op { op < 8 }
    requires rs1 { rs1 < 32 }
    requires rs2 { rs2 < 32 }
    requires funct7 { funct7 < 128 }
    ensures { result ≡ Spelling.word opcode rd op rs1 rs2 funct7 }
{
    let low = opcode | rd << 7 | u32::from(op) << 12;
    low | u32::from(rs1) << 15 | u32::from(rs2) << 20 | funct7 << 25
}

/// A word whose bits 31:20 are the low bits of `imm`.
fn i_word(opcode: u32, rd: u8, op: u8, rs1: u8, imm: u32) -> u32
    requires opcode { opcode < 128 }
    requires rd { rd < 32 }
    requires op { op < 8 }
    requires rs1 { rs1 < 32 }
    ensures { result ≡ Spelling.word_with_immediate opcode rd op rs1 (Word.bits 11 0 imm) }
{
    let low = opcode | u32::from(rd) << 7 | u32::from(op) << 12;
    low | u32::from(rs1) << 15 | bits(imm, 11, 0) << 20
}

/// A word by its opcode, bits 11:7 and bits 31:12.
fn u_word(opcode: u32, rd: u8, high: u32) -> u32
    requires opcode { opcode < 128 }
    requires rd { rd < 32 }
    requires high { high < 2 ^ 20 }
    ensures { result ≡ opcode + 2 ^ 7 * rd + 2 ^ 12 * high }
{
    opcode | u32::from(rd) << 7 | high << 12
}
