//! Labels and words of a program.

ghost use Rattle.std.specs.Prelude.{◌≡◌, ◌≤◌, ◌-◌, ◌%◌, true, false, Some, None, Ok, IfOk, IfErr, IfSome, IfNone};
ghost use Rattle.std.specs.Prelude.{map, length};
ghost use Rattle.rv_table.specs.Table.{IsInstr};
ghost use Rattle.rv_asm.specs.Operand.{IsWithin};
ghost use Rattle.rv_asm.specs.Program as P;
ghost use Rattle.rv_asm.specs.Statement as S;
ghost use Rattle.rv_asm.specs.View.{seen, view, IsAimed, IsStatement};

use crate::aim::{STEP, reach, with_offset};
use crate::error::AsmCause;
use crate::lines::Line;
use crate::statement::Statement;
use rv_table::{Instr, encode};
use sls_base::{INSTRUCTION_BYTES, PROGRAM_WORDS};

fn defines(line: &Line<'_>, name: &[u8]) -> bool
    ensures { result ≡ P.defines name.now (seen view line.now) }
{
    match line {
        Ok(Statement::Label(label)) => *label == name,
        _ => false,
    }
}

fn words_of(line: &Line<'_>) -> usize
    ensures count { result ≡ P.words_of (seen view line.now) }
    ensures few { result ≤ 1 }
{
    match line {
        Ok(Statement::Word(_) | Statement::Instr(_) | Statement::Aimed { .. }) => 1,
        _ => 0,
    }
}

/// The words before the first definition of a label.
fn place_of(program: &[Line<'_>], name: &[u8]) -> Option<usize>
    ensures place { result ≡ P.place_of name.now (map (seen view) program.now) }
    ensures in_program { IfSome result (λ place. place ≤ length program.now) }
{
    let mut place = 0;
    for line in program {
        if defines(line, name) {
            return Some(place);
        }
        place += words_of(line);
    }
    None
}

/// A word, unless it is one too many.
fn counted(at: usize, word: u32) -> Result<Option<u32>, AsmCause>
    ensures ok { IfOk result (λ found. (found ≡ Some word) × (P.long at ≡ None)) }
    ensures err { IfErr result (λ c. P.long at ≡ Some c) }
{
    if at < PROGRAM_WORDS {
        Ok(Some(word))
    } else {
        Err(AsmCause::Long)
    }
}

/// Where a word begins, in bytes.
fn start_of(word: usize) -> u32
    requires { word ≤ 65537 }
    ensures { result ≡ P.start_of word }
{
    word as u32 * INSTRUCTION_BYTES
}

/// The offset of a branch or jal in the word `at` to the word `place`, where it reaches that.
fn offset(instr: Instr, at: usize, place: usize) -> Option<u32>
    requires aimed { IsAimed instr }
    requires at { at ≤ 65537 }
    requires place { place ≤ 65537 }
    ensures some { IfSome result (λ imm. (P.reaches instr at place ≡ true) × (imm ≡ P.offset at place)) }
    ensures none { IfNone result (P.reaches instr at place ≡ false) }
    ensures in_range { IfSome result (IsWithin (S.reach instr) (S.reach instr - 2)) }
    ensures even { IfSome result (λ imm. imm % 2 ≡ 0) }
{
    let from = start_of(at);
    let to = start_of(place);
    let reached = if to < from {
        from - to
    } else {
        to - from + STEP
    } <= reach(instr);
    if reached {
        Some(to.wrapping_sub(from))
    } else {
        None
    }
}

/// The word of an instruction.
fn word(instr: Instr) -> u32
    requires { IsInstr instr }
    ensures { P.IsWordOf instr result }
{
    encode(instr)
}

/// The word of a line that stands behind the lines `before` and their `at` words, or its fault.
pub fn word_of(
    program: &[Line<'_>],
    before: &[Line<'_>],
    line: &Line<'_>,
    at: usize,
) -> Result<Option<u32>, AsmCause>
    requires size { length program.now ≤ 65537 }
    requires at { at ≡ P.words_in (map (seen view) before.now) }
    requires few { at ≤ 65537 }
    requires in_range { IfOk line.now IsStatement }
    ensures ok { IfOk result (λ found.
        (P.fault_of (map (seen view) program.now) (map (seen view) before.now) (seen view line.now) ≡ None)
        × P.GivesWord (map (seen view) program.now) at (seen view line.now) found) }
    ensures err { IfErr result (λ c.
        P.fault_of (map (seen view) program.now) (map (seen view) before.now) (seen view line.now) ≡ Some c) }
{
    match line {
        Err(cause) => Err(*cause),
        Ok(Statement::Blank) => Ok(None),
        Ok(Statement::Label(name)) => match place_of(before, name) {
            Some(_) => Err(AsmCause::Label),
            None => Ok(None),
        },
        Ok(Statement::Word(word)) => counted(at, *word),
        Ok(Statement::Instr(instr)) => counted(at, word(*instr)),
        Ok(Statement::Aimed { instr, label }) => aimed_word(program, *instr, label, at),
    }
}

/// The word of a branch or jal to a label.
fn aimed_word(
    program: &[Line<'_>],
    instr: Instr,
    label: &[u8],
    at: usize,
) -> Result<Option<u32>, AsmCause>
    requires size { length program.now ≤ 65537 }
    requires few { at ≤ 65537 }
    requires aimed { IsAimed instr }
    ensures ok { IfOk result (λ found.
        (P.aim_fault instr at (P.place_of label.now (map (seen view) program.now)) ≡ None)
        × P.GivesWord (map (seen view) program.now) at (Ok (S.Aims instr label.now)) found) }
    ensures err { IfErr result (λ c.
        P.aim_fault instr at (P.place_of label.now (map (seen view) program.now)) ≡ Some c) }
{
    let Some(place) = place_of(program, label) else {
        return Err(AsmCause::Label);
    };
    match offset(instr, at, place) {
        Some(imm) => counted(at, word(with_offset(instr, imm))),
        None => Err(AsmCause::Number),
    }
}
