//! From words to a text.

ghost use Rattle.std.specs.Prelude.{◌≡◌, ◌<◌, [], ◌∷◌, ◌++◌, IfOk, OnOk, codes, string_bytes};
ghost use Rattle.rv_table.specs.Decoded.{decoded};
ghost use Rattle.rv_table.specs.Table.{IsInstr};
ghost use Rattle.rv_asm.specs.Printed as P;

use crate::name::{branch_name, immediate_name, load_name, register_name, store_name};
use rv_table::{Instr, decode, encode};
use std::alloc::{AllocError, Global};

/// The bits of a word below those that lui and auipc print.
const UPPER_SHIFT: u32 = 12;

/// The text of some words, a line for each.
///
/// # Errors
///
/// Only where memory runs out.
pub fn print(alloc: Global, words: &[u32]) -> Result<Vec<u8>, AllocError>
    ensures { IfOk result (λ text. text.items ≡ P.text_of words.now) }
{
    let mut text = String::new(alloc);
    for word in words {
        write_word(&mut text, *word)?;
    }
    Ok(text.into_bytes())
}

/// A word as its instruction; an illegal word, and a FENCE with other fields, as a number.
fn write_word(text: &mut String, word: u32) -> Result<(), AllocError>
    ensures { OnOk result (string_bytes text.new ≡ string_bytes text.old ++ P.line_text word) }
{
    match decode(word) {
        None => write_data(text, word),
        Some(Instr::Fence) if word != encode(Instr::Fence) => write_data(text, word),
        Some(instr) => write_instruction(text, instr),
    }
}

/// A word as a number.
fn write_data(text: &mut String, word: u32) -> Result<(), AllocError>
    ensures { OnOk result (string_bytes text.new ≡ string_bytes text.old ++ (P.data_text word ++ codes "\n")) }
{
    let [a, b, c, d] = word.to_be_bytes();
    write!(text, ".word 0x{a:02x}{b:02x}{c:02x}{d:02x}\n")
}

/// An instruction.
#[tactic(auto, unfolding(crate::specs::Printed::instruction_text))]
fn write_instruction(text: &mut String, instr: Instr) -> Result<(), AllocError>
    requires { IsInstr instr }
    ensures { OnOk result (string_bytes text.new ≡ string_bytes text.old ++ (P.instruction_text instr ++ codes "\n")) }
{
    match instr {
        Instr::Lui { rd, imm } => with_upper(text, "lui", rd, imm),
        Instr::Auipc { rd, imm } => with_upper(text, "auipc", rd, imm),
        Instr::Jal { rd, imm } => with_offset(text, "jal", rd, imm),
        Instr::Jalr { rd, rs1, imm } => with_memory(text, "jalr", rd, imm, rs1),
        Instr::Branch { op, rs1, rs2, imm } => {
            with_immediate(text, branch_name(op), rs1, rs2, imm)
        }
        Instr::Load { op, rd, rs1, imm } => with_memory(text, load_name(op), rd, imm, rs1),
        Instr::Store { op, rs1, rs2, imm } => with_memory(text, store_name(op), rs2, imm, rs1),
        Instr::OpImm {
            op,
            alt,
            rd,
            rs1,
            imm,
        } => with_immediate(text, immediate_name(op, alt), rd, rs1, imm),
        Instr::Op {
            op,
            alt,
            rd,
            rs1,
            rs2,
        } => with_registers(text, register_name(op, alt), rd, rs1, rs2),
        Instr::Fence => text.push_str("fence\n"),
        Instr::Ecall => text.push_str("ecall\n"),
        Instr::Ebreak => text.push_str("ebreak\n"),
    }
}

/// A register and the upper 20 bits.
fn with_upper(text: &mut String, name: &str, rd: u8, imm: u32) -> Result<(), AllocError>
    ensures { let line = P.written name.now (P.register_text rd ∷ P.upper_text imm ∷ []) ++ codes "\n" in
        OnOk result (string_bytes text.new ≡ string_bytes text.old ++ line) }
{
    let upper = imm >> UPPER_SHIFT;
    write!(text, "{name} x{rd}, {upper}\n")
}

/// A register and an offset.
fn with_offset(text: &mut String, name: &str, rd: u8, imm: u32) -> Result<(), AllocError>
    ensures { let line = P.written name.now (P.register_text rd ∷ P.signed_text imm ∷ []) ++ codes "\n" in
        OnOk result (string_bytes text.new ≡ string_bytes text.old ++ line) }
{
    let offset = imm.cast_signed();
    write!(text, "{name} x{rd}, {offset}\n")
}

/// A register and a place in memory.
fn with_memory(
    text: &mut String,
    name: &str,
    register: u8,
    imm: u32,
    base: u8,
) -> Result<(), AllocError>
    ensures { let line = P.written name.now (P.register_text register ∷ P.memory_text imm base ∷ []) ++ codes "\n" in
        OnOk result (string_bytes text.new ≡ string_bytes text.old ++ line) }
{
    let offset = imm.cast_signed();
    write!(text, "{name} x{register}, {offset}(x{base})\n")
}

/// Two registers and an immediate.
fn with_immediate(
    text: &mut String,
    name: &str,
    first: u8,
    second: u8,
    imm: u32,
) -> Result<(), AllocError>
    ensures { let operands = P.register_text first ∷ P.register_text second ∷ P.signed_text imm ∷ [] in
        OnOk result (string_bytes text.new ≡ string_bytes text.old ++ (P.written name.now operands ++ codes "\n")) }
{
    let immediate = imm.cast_signed();
    write!(text, "{name} x{first}, x{second}, {immediate}\n")
}

/// Three registers.
fn with_registers(text: &mut String, name: &str, rd: u8, rs1: u8, rs2: u8) -> Result<(), AllocError>
    ensures { let operands = P.register_text rd ∷ P.register_text rs1 ∷ P.register_text rs2 ∷ [] in
        OnOk result (string_bytes text.new ≡ string_bytes text.old ++ (P.written name.now operands ++ codes "\n")) }
{
    write!(text, "{name} x{rd}, x{rs1}, x{rs2}\n")
}
