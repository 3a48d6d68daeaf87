//! Laws. Each of these functions does nothing: its contract is the law.

ghost use Rattle.std.specs.Prelude.{◌≡◌, ◌↔◌, ℕ, Some};
ghost use Rattle.rv_table.specs.declared.Instr.{Instr};
ghost use Rattle.rv_table.specs.Table.{IsRow, IsInstr};
ghost use Rattle.rv_table.specs.Decoded.{decoded};

use crate::funct3::{
    ADD, AND, BEQ, BGE, BGEU, BLT, BLTU, BNE, FENCE_FUNCT3, JALR_FUNCT3, LB, LBU, LH, LHU, LW, OR,
    SB, SH, SLL, SLT, SLTU, SRA, SRL, SUB, SW, XOR,
};
use crate::opcodes::{
    ALT, AUIPC, BASE, BRANCH, EBREAK_WORD, ECALL_WORD, FENCE_WORD, JAL, JALR, LOAD, LUI, MISC_MEM,
    OP, OP_IMM, STORE, SYSTEM,
};

/// Each word is in one row at most, which `decoded` names, and the fields of a row are in range.
pub fn one_row()
    ensures decoded { (w : ℕ) (i : Instr) → (decoded w ≡ Some i) ↔ IsRow w i }
    ensures only { (w : ℕ) (i j : Instr) → IsRow w i → IsRow w j → i ≡ j }
    ensures in_range { (w : ℕ) (i : Instr) → IsRow w i → IsInstr i }
{}

/// Which number each opcode has, each funct7, and each instruction that is one word.
pub fn opcode_numbers()
    ensures upper { (LUI ≡ 0x37) × (AUIPC ≡ 0x17) }
    ensures jumps { (JAL ≡ 0x6F) × (JALR ≡ 0x67) }
    ensures branch { BRANCH ≡ 0x63 }
    ensures memory { (LOAD ≡ 0x03) × (STORE ≡ 0x23) × (MISC_MEM ≡ 0x0F) }
    ensures operations { (OP_IMM ≡ 0x13) × (OP ≡ 0x33) }
    ensures system { SYSTEM ≡ 0x73 }
    ensures funct7 { (BASE ≡ 0x00) × (ALT ≡ 0x20) }
    ensures words { (FENCE_WORD ≡ 0x0000000F) × (ECALL_WORD ≡ 0x00000073) × (EBREAK_WORD ≡ 0x00100073) }
{}

/// Which funct3 each instruction has.
pub fn funct3_numbers()
    ensures branches { (BEQ ≡ 0) × (BNE ≡ 1) × (BLT ≡ 4) × (BGE ≡ 5) × (BLTU ≡ 6) × (BGEU ≡ 7) }
    ensures loads { (LB ≡ 0) × (LH ≡ 1) × (LW ≡ 2) × (LBU ≡ 4) × (LHU ≡ 5) }
    ensures stores { (SB ≡ 0) × (SH ≡ 1) × (SW ≡ 2) }
    ensures operations { (ADD ≡ 0) × (SLL ≡ 1) × (SLT ≡ 2) × (SLTU ≡ 3) × (XOR ≡ 4) × (SRL ≡ 5) × (OR ≡ 6) × (AND ≡ 7) }
    ensures second_forms { (SUB ≡ 0) × (SRA ≡ 5) }
    ensures alone { (JALR_FUNCT3 ≡ 0) × (FENCE_FUNCT3 ≡ 0) }
{}
