//! What a line says.

ghost use Rattle.std.specs.Prelude.{◌≡◌, ◌<◌, ◌%◌, ◌^◌, IfOk};
ghost use Rattle.std.specs.Option.{option_map};
ghost use Rattle.rv_table.specs.declared.Instr.TheVariants.{OpImm, Op};
ghost use Rattle.rv_table.specs.Table.{IsInstr};
ghost use Rattle.rv_asm.specs.Names.{IsMnemonic, IsPlain};
ghost use Rattle.rv_asm.specs.Operand.{IsWithin};
ghost use Rattle.rv_asm.specs.Statement as S;
ghost use Rattle.rv_asm.specs.View.{seen, view, view_target, IsAimed, IsStatement};

use crate::aim::{STEP, reach, with_offset};
use crate::error::AsmCause;
use crate::mnemonic::{Mnemonic, PlainMnemonic, mnemonic_of};
use crate::number::{Number, even_within, number_of, within};
use crate::operand::{is_name, memory_of, register_of};
use crate::text::{
    one_operand, split_before, three_operands, trim, trim_start, two_operands, without_last,
};
use rv_table::Instr;

/// Limits of the immediates: from their negative to the other.
const IMMEDIATE_MIN: u32 = 2048;

const IMMEDIATE_MAX: u32 = 2047;

const SHIFT_MAX: u32 = 31;

const UPPER_MAX: u32 = 1_048_575;

const WORD_MAX: u32 = 4_294_967_295;

/// What a line says: nothing, the definition of a label, a word, an instruction, or a branch or jal to a label, with
/// the offset left open.
#[derive(Clone, Copy)]
pub enum Statement<'a> {
    Blank,
    Label(&'a [u8]),
    Word(u32),
    Instr(Instr),
    Aimed { instr: Instr, label: &'a [u8] },
}

/// The target of a branch or jal: an offset, or the name of a label.
#[derive(Clone, Copy)]
enum Target<'a> {
    Offset(Number),
    Label(&'a [u8]),
}

fn target_of(text: &[u8]) -> Option<Target<'_>>
    ensures { option_map view_target result ≡ S.target_of text.now }
{
    if is_name(text) {
        return Some(Target::Label(text));
    }
    Some(Target::Offset(number_of(text)?))
}

/// The upper 20 bits of lui and auipc, behind their register.
#[tactic(auto, unfolding(crate::specs::Statement::upper))]
fn upper(text: &[u8]) -> Result<(u8, u32), AsmCause>
    ensures parsed { result ≡ S.upper text.now }
    ensures in_range { IfOk result (λ p. (p.0 < 32) × (p.1 < 2 ^ 32) × (p.1 % 2 ^ 12 ≡ 0)) }
{
    let Some((first, second)) = two_operands(text) else {
        return Err(AsmCause::Form);
    };
    let Some(number) = number_of(second) else {
        return Err(AsmCause::Form);
    };
    let Some(rd) = register_of(first) else {
        return Err(AsmCause::Reg);
    };
    match within(number, 0, UPPER_MAX) {
        Some(high) => Ok((rd, high << 12)),
        None => Err(AsmCause::Number),
    }
}

/// The operands of loads, stores and jalr: a register, the one in the parentheses, and the immediate before them.
#[tactic(auto, unfolding(crate::specs::Statement::access))]
fn access(text: &[u8]) -> Result<(u8, u8, u32), AsmCause>
    ensures parsed { result ≡ S.access text.now }
    ensures in_range { IfOk result (λ p. (p.0 < 32) × (p.1 < 32) × IsWithin 2048 2047 p.2) }
{
    let Some((first, second)) = two_operands(text) else {
        return Err(AsmCause::Form);
    };
    let Some((before, enclosed)) = memory_of(second) else {
        return Err(AsmCause::Form);
    };
    let Some(number) = number_of(before) else {
        return Err(AsmCause::Form);
    };
    let (Some(register), Some(base)) = (register_of(first), register_of(enclosed)) else {
        return Err(AsmCause::Reg);
    };
    match within(number, IMMEDIATE_MIN, IMMEDIATE_MAX) {
        Some(imm) => Ok((register, base, imm)),
        None => Err(AsmCause::Number),
    }
}

/// The operands of an operation with an immediate from `-below` to `above`: two registers and the immediate.
#[tactic(auto, unfolding(crate::specs::Statement::immediate))]
fn immediate(text: &[u8], below: u32, above: u32) -> Result<(u8, u8, u32), AsmCause>
    ensures parsed { result ≡ S.immediate below above text.now }
    ensures in_range { IfOk result (λ p. (p.0 < 32) × (p.1 < 32) × IsWithin below above p.2) }
{
    let Some((first, second, third)) = three_operands(text) else {
        return Err(AsmCause::Form);
    };
    let Some(number) = number_of(third) else {
        return Err(AsmCause::Form);
    };
    let (Some(rd), Some(rs1)) = (register_of(first), register_of(second)) else {
        return Err(AsmCause::Reg);
    };
    match within(number, below, above) {
        Some(imm) => Ok((rd, rs1, imm)),
        None => Err(AsmCause::Number),
    }
}

/// Three registers.
#[tactic(auto, unfolding(crate::specs::Statement::registers))]
fn registers(text: &[u8]) -> Result<(u8, u8, u8), AsmCause>
    ensures parsed { result ≡ S.registers text.now }
    ensures in_range { IfOk result (λ p. (p.0 < 32) × (p.1 < 32) × (p.2 < 32)) }
{
    let Some((first, second, third)) = three_operands(text) else {
        return Err(AsmCause::Form);
    };
    match (register_of(first), register_of(second), register_of(third)) {
        (Some(rd), Some(rs1), Some(rs2)) => Ok((rd, rs1, rs2)),
        _ => Err(AsmCause::Reg),
    }
}

/// The number of `.word`.
#[tactic(auto, unfolding(crate::specs::Statement::data_word))]
fn data_word(text: &[u8]) -> Result<u32, AsmCause>
    ensures { result ≡ S.data_word text.now }
{
    let Some(operand) = one_operand(text) else {
        return Err(AsmCause::Form);
    };
    let Some(number) = number_of(operand) else {
        return Err(AsmCause::Form);
    };
    within(number, 0, WORD_MAX).ok_or(AsmCause::Number)
}

/// A register and a target.
#[tactic(auto, unfolding(crate::specs::Statement::jump))]
fn jump(text: &[u8]) -> Result<(u8, Target<'_>), AsmCause>
    ensures parsed { seen (λ p. (p.0, view_target p.1)) result ≡ S.jump text.now }
    ensures in_range { IfOk result (λ p. p.0 < 32) }
{
    let Some((first, second)) = two_operands(text) else {
        return Err(AsmCause::Form);
    };
    let Some(target) = target_of(second) else {
        return Err(AsmCause::Form);
    };
    match register_of(first) {
        Some(rd) => Ok((rd, target)),
        None => Err(AsmCause::Reg),
    }
}

/// Two registers and a target.
#[tactic(auto, unfolding(crate::specs::Statement::branch))]
fn branch(text: &[u8]) -> Result<(u8, u8, Target<'_>), AsmCause>
    ensures parsed { seen (λ p. (p.0, p.1, view_target p.2)) result ≡ S.branch text.now }
    ensures in_range { IfOk result (λ p. (p.0 < 32) × (p.1 < 32)) }
{
    let Some((first, second, third)) = three_operands(text) else {
        return Err(AsmCause::Form);
    };
    let Some(target) = target_of(third) else {
        return Err(AsmCause::Form);
    };
    match (register_of(first), register_of(second)) {
        (Some(rs1), Some(rs2)) => Ok((rs1, rs2, target)),
        _ => Err(AsmCause::Reg),
    }
}

/// A branch or jal with its target. An offset goes into the instruction.
fn aimed(instr: Instr, target: Target<'_>) -> Result<Statement<'_>, AsmCause>
    requires { IsAimed instr }
    ensures parsed { seen view result ≡ S.aimed instr (view_target target.entry) }
    ensures in_range { IfOk result IsStatement }
{
    let number = match target {
        Target::Label(label) => return Ok(Statement::Aimed { instr, label }),
        Target::Offset(number) => number,
    };
    let reach = reach(instr);
    match even_within(number, reach, reach - STEP) {
        Some(imm) => Ok(Statement::Instr(with_offset(instr, imm))),
        None => Err(AsmCause::Number),
    }
}

/// An instruction that has no operands.
fn bare(instr: Instr, text: &[u8]) -> Result<Instr, AsmCause>
    ensures { result ≡ S.bare instr text.now }
{
    if text.is_empty() {
        Ok(instr)
    } else {
        Err(AsmCause::Form)
    }
}

/// An operation with an immediate.
fn op_imm(op: u8, alt: bool, operands: (u8, u8, u32)) -> Instr
    ensures { result ≡ OpImm op alt operands.0 operands.1 operands.2 }
{
    let (rd, rs1, imm) = operands;
    Instr::OpImm {
        op,
        alt,
        rd,
        rs1,
        imm,
    }
}

/// An operation on registers.
fn op_registers(op: u8, alt: bool, operands: (u8, u8, u8)) -> Instr
    ensures { result ≡ Op op alt operands.0 operands.1 operands.2 }
{
    let (rd, rs1, rs2) = operands;
    Instr::Op {
        op,
        alt,
        rd,
        rs1,
        rs2,
    }
}

/// An instruction that has no target, with its operands.
#[tactic(auto, unfolding(crate::specs::Statement::plain))]
fn plain(mnemonic: PlainMnemonic, text: &[u8]) -> Result<Instr, AsmCause>
    requires { IsPlain mnemonic }
    ensures parsed { result ≡ S.plain mnemonic text.now }
    ensures in_range { IfOk result IsInstr }
{
    match mnemonic {
        PlainMnemonic::Lui => {
            let (rd, imm) = upper(text)?;
            Ok(Instr::Lui { rd, imm })
        }
        PlainMnemonic::Auipc => {
            let (rd, imm) = upper(text)?;
            Ok(Instr::Auipc { rd, imm })
        }
        PlainMnemonic::Jalr => {
            let (rd, rs1, imm) = access(text)?;
            Ok(Instr::Jalr { rd, rs1, imm })
        }
        PlainMnemonic::Load { op } => {
            let (rd, rs1, imm) = access(text)?;
            Ok(Instr::Load { op, rd, rs1, imm })
        }
        PlainMnemonic::Store { op } => {
            let (rs2, rs1, imm) = access(text)?;
            Ok(Instr::Store { op, rs1, rs2, imm })
        }
        PlainMnemonic::Immediate { op } => {
            let operands = immediate(text, IMMEDIATE_MIN, IMMEDIATE_MAX)?;
            Ok(op_imm(op, false, operands))
        }
        PlainMnemonic::Shift { op, alt } => Ok(op_imm(op, alt, immediate(text, 0, SHIFT_MAX)?)),
        PlainMnemonic::Register { op, alt } => Ok(op_registers(op, alt, registers(text)?)),
        PlainMnemonic::Bare(instr) => bare(instr, text),
    }
}

/// A mnemonic with its operands.
#[tactic(auto, unfolding(crate::specs::Statement::instruction))]
fn instruction(mnemonic: Mnemonic, text: &[u8]) -> Result<Statement<'_>, AsmCause>
    requires { IsMnemonic mnemonic }
    ensures parsed { seen view result ≡ S.instruction mnemonic text.now }
    ensures in_range { IfOk result IsStatement }
{
    match mnemonic {
        Mnemonic::Jal => {
            let (rd, target) = jump(text)?;
            aimed(Instr::Jal { rd, imm: 0 }, target)
        }
        Mnemonic::Branch { op } => {
            let (rs1, rs2, target) = branch(text)?;
            let imm = 0;
            aimed(Instr::Branch { op, rs1, rs2, imm }, target)
        }
        Mnemonic::Plain(mnemonic) => Ok(Statement::Instr(plain(mnemonic, text)?)),
        Mnemonic::Word => Ok(Statement::Word(data_word(text)?)),
    }
}

/// The definition of a label, of which nothing else stands in the line.
fn label<'a>(name: &'a [u8], others: &[u8]) -> Result<Statement<'a>, AsmCause>
    ensures parsed { seen view result ≡ S.label name.now others.now }
    ensures in_range { IfOk result IsStatement }
{
    if is_name(name) && others.is_empty() {
        Ok(Statement::Label(name))
    } else {
        Err(AsmCause::Form)
    }
}

/// What a line says.
#[tactic(auto, unfolding(crate::specs::Statement::statement_of))]
pub fn statement_of(line: &[u8]) -> Result<Statement<'_>, AsmCause>
    ensures parsed { seen view result ≡ S.statement_of line.now }
    ensures in_range { IfOk result IsStatement }
{
    let (code, _) = split_before(line, b'#', b'#');
    let text = trim(code);
    if text.is_empty() {
        return Ok(Statement::Blank);
    }
    let (word, behind) = split_before(text, b' ', b'\t');
    let operands = trim_start(behind);
    match without_last(word, b':') {
        Some(name) => label(name, operands),
        None => match mnemonic_of(word) {
            Some(mnemonic) => instruction(mnemonic, operands),
            None => Err(AsmCause::Op),
        },
    }
}
