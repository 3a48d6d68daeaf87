//! From a word to its instruction.

ghost use Rattle.std.specs.Prelude.{◌≡◌, Some, IfSome};
ghost use Rattle.rv_table.specs.declared.Instr.{Instr};
ghost use Rattle.rv_table.specs.Word;
ghost use Rattle.rv_table.specs.Table.{IsRow, IsInstr};
ghost use Rattle.rv_table.specs.Decoded.{decoded};

use crate::Instr;
use crate::field::{
    funct3, funct7, immediate_b, immediate_i, immediate_j, immediate_s, immediate_u, opcode, rd,
    rs1, rs2,
};
use crate::funct3::{
    BEQ, BGE, BGEU, BLT, BLTU, BNE, FENCE_FUNCT3, JALR_FUNCT3, LB, LBU, LH, LHU, LW, SB, SH, SLL,
    SRA, SRL, SUB, SW,
};
use crate::opcodes::{
    ALT, AUIPC, BASE, BRANCH, EBREAK_WORD, ECALL_WORD, JAL, JALR, LOAD, LUI, MISC_MEM, OP, OP_IMM,
    STORE, SYSTEM,
};

/// The instruction of a word. It is None exactly where the word is in no row of the table.
pub fn decode(word: u32) -> Option<Instr>
    // What is read is the row of the word, with its fields in range.
    ensures found { IfSome result (λ i. IsRow word i × IsInstr i) }
    // A word that is in a row is read.
    ensures only { (i : Instr) → IsRow word i → result ≡ Some i }
    ensures decoded { result ≡ decoded word }
{
    row(word)
}

fn row(word: u32) -> Option<Instr>
    ensures found { IfSome result (λ i. IsRow word i × IsInstr i) }
    ensures only { (i : Instr) → IsRow word i → result ≡ Some i }
{
    match opcode(word) {
        LUI => Some(Instr::Lui {
            rd: rd(word),
            imm: immediate_u(word),
        }),
        AUIPC => Some(Instr::Auipc {
            rd: rd(word),
            imm: immediate_u(word),
        }),
        JAL => Some(Instr::Jal {
            rd: rd(word),
            imm: immediate_j(word),
        }),
        JALR if funct3(word) == JALR_FUNCT3 => {
            Some(Instr::Jalr {
                rd: rd(word),
                rs1: rs1(word),
                imm: immediate_i(word),
            })
        }
        BRANCH => branch(word),
        LOAD => load(word),
        STORE => store(word),
        OP_IMM => op_imm(word),
        OP => register_op(word),
        MISC_MEM if funct3(word) == FENCE_FUNCT3 => Some(Instr::Fence),
        SYSTEM => system(word),
        _ => None,
    }
}

fn branch(word: u32) -> Option<Instr>
    requires { Word.opcode word ≡ BRANCH }
    ensures found { IfSome result (λ i. IsRow word i × IsInstr i) }
    ensures only { (i : Instr) → IsRow word i → result ≡ Some i }
{
    match funct3(word) {
        op @ (BEQ | BNE | BLT | BGE | BLTU | BGEU) => Some(Instr::Branch {
            op,
            rs1: rs1(word),
            rs2: rs2(word),
            imm: immediate_b(word),
        }),
        _ => None,
    }
}

fn load(word: u32) -> Option<Instr>
    requires { Word.opcode word ≡ LOAD }
    ensures found { IfSome result (λ i. IsRow word i × IsInstr i) }
    ensures only { (i : Instr) → IsRow word i → result ≡ Some i }
{
    match funct3(word) {
        op @ (LB | LH | LW | LBU | LHU) => Some(Instr::Load {
            op,
            rd: rd(word),
            rs1: rs1(word),
            imm: immediate_i(word),
        }),
        _ => None,
    }
}

fn store(word: u32) -> Option<Instr>
    requires { Word.opcode word ≡ STORE }
    ensures found { IfSome result (λ i. IsRow word i × IsInstr i) }
    ensures only { (i : Instr) → IsRow word i → result ≡ Some i }
{
    match funct3(word) {
        op @ (SB | SH | SW) => Some(Instr::Store {
            op,
            rs1: rs1(word),
            rs2: rs2(word),
            imm: immediate_s(word),
        }),
        _ => None,
    }
}

fn op_imm(word: u32) -> Option<Instr>
    requires { Word.opcode word ≡ OP_IMM }
    ensures found { IfSome result (λ i. IsRow word i × IsInstr i) }
    ensures only { (i : Instr) → IsRow word i → result ≡ Some i }
{
    let op = funct3(word);
    let (alt, imm) = match (op, funct7(word)) {
        (SLL | SRL, BASE) => (false, u32::from(rs2(word))),
        (SRA, ALT) => (true, u32::from(rs2(word))),
        (SLL | SRL, _) => return None,
        _ => (false, immediate_i(word)),
    };
    Some(Instr::OpImm {
        op,
        alt,
        rd: rd(word),
        rs1: rs1(word),
        imm,
    })
}

fn register_op(word: u32) -> Option<Instr>
    requires { Word.opcode word ≡ OP }
    ensures found { IfSome result (λ i. IsRow word i × IsInstr i) }
    ensures only { (i : Instr) → IsRow word i → result ≡ Some i }
{
    let op = funct3(word);
    let alt = match (op, funct7(word)) {
        (_, BASE) => false,
        (SUB | SRA, ALT) => true,
        _ => return None,
    };
    Some(Instr::Op {
        op,
        alt,
        rd: rd(word),
        rs1: rs1(word),
        rs2: rs2(word),
    })
}

fn system(word: u32) -> Option<Instr>
    requires { Word.opcode word ≡ SYSTEM }
    ensures found { IfSome result (λ i. IsRow word i × IsInstr i) }
    ensures only { (i : Instr) → IsRow word i → result ≡ Some i }
{
    match word {
        ECALL_WORD => Some(Instr::Ecall),
        EBREAK_WORD => Some(Instr::Ebreak),
        _ => None,
    }
}
