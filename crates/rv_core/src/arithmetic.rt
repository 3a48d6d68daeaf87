//! What is computed of two words: the operations and the conditions of branches.

ghost use Rattle.std.specs.Prelude.{◌≡◌, ◌<◌, true};
ghost use Rattle.rv_table.specs.Table.{IsOneOf, alt_ops, branch_ops};
ghost use Rattle.rv_core.specs.Effect.{result_of, is_taken};

use rv_table::funct3::{ADD, BEQ, BGE, BLT, BLTU, BNE, OR, SLL, SLT, SLTU, SRA, SRL, SUB, XOR};

/// The result of an operation; `alt` chooses the second form.
pub fn operate(op: u8, alt: bool, a: u32, b: u32) -> u32
    requires in_range { op < 8 }
    requires known { alt ≡ true → IsOneOf op alt_ops }
    ensures { result ≡ result_of op alt a b }
{
    match op {
        SUB if alt => a.wrapping_sub(b),
        ADD => a.wrapping_add(b),
        SLL => a.wrapping_shl(b),
        SLT => u32::from(a.cast_signed() < b.cast_signed()),
        SLTU => u32::from(a < b),
        XOR => a ^ b,
        SRA if alt => a.cast_signed().wrapping_shr(b).cast_unsigned(),
        SRL => a.wrapping_shr(b),
        OR => a | b,
        _ => a & b,
    }
}

/// Whether a branch is taken.
pub fn taken(op: u8, a: u32, b: u32) -> bool
    requires { IsOneOf op branch_ops }
    ensures { result ≡ is_taken op a b }
{
    match op {
        BEQ => a == b,
        BNE => a != b,
        BLT => a.cast_signed() < b.cast_signed(),
        BGE => a.cast_signed() >= b.cast_signed(),
        BLTU => a < b,
        _ => a >= b,
    }
}
