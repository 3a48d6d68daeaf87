//! Branches and jal: how far they reach, and their offset, which is set last.

ghost use Rattle.std.specs.Prelude.{◌≡◌, ◌-◌, ◌%◌};
ghost use Rattle.rv_table.specs.Table.{IsInstr};
ghost use Rattle.rv_asm.specs.Operand.{IsWithin};
ghost use Rattle.rv_asm.specs.Statement as S;
ghost use Rattle.rv_asm.specs.View.{IsAimed};

use rv_table::Instr;

/// How far back a branch and jal reach; forward it is `STEP` less.
const BRANCH_REACH: u32 = 4096;

const JUMP_REACH: u32 = 1_048_576;

/// What parts an offset from the next.
pub const STEP: u32 = 2;

/// How far back a branch or jal reaches.
pub fn reach(instr: Instr) -> u32
    requires { IsAimed instr }
    ensures { result ≡ S.reach instr }
{
    match instr {
        Instr::Jal { .. } => JUMP_REACH,
        _ => BRANCH_REACH,
    }
}

/// A branch or jal with an offset that it reaches.
pub fn with_offset(instr: Instr, imm: u32) -> Instr
    requires aimed { IsAimed instr }
    requires reached { IsWithin (S.reach instr) (S.reach instr - 2) imm }
    requires even { imm % 2 ≡ 0 }
    ensures offset { result ≡ S.with_offset instr imm }
    ensures in_range { IsInstr result }
{
    match instr {
        Instr::Jal { rd, .. } => Instr::Jal { rd, imm },
        Instr::Branch { op, rs1, rs2, .. } => Instr::Branch { op, rs1, rs2, imm },
        _ => unreachable!(),
    }
}
