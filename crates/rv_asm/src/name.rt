//! The names of instructions.

ghost use Rattle.std.specs.Prelude.{◌≡◌, ◌<◌, ◌⊎◌, false};
ghost use Rattle.rv_table.specs.Table.{IsOneOf, alt_ops, branch_ops, load_ops, store_ops};
ghost use Rattle.rv_asm.specs.Printed as P;

/// The name of a branch.
pub fn branch_name(op: u8) -> &'static str
    requires { IsOneOf op branch_ops }
    ensures { result.now ≡ P.name_at P.branch_names op }
{
    match op {
        0 => "beq",
        1 => "bne",
        4 => "blt",
        5 => "bge",
        6 => "bltu",
        7 => "bgeu",
        _ => unreachable!(),
    }
}

/// The name of a load.
pub fn load_name(op: u8) -> &'static str
    requires { IsOneOf op load_ops }
    ensures { result.now ≡ P.name_at P.load_names op }
{
    match op {
        0 => "lb",
        1 => "lh",
        2 => "lw",
        4 => "lbu",
        5 => "lhu",
        _ => unreachable!(),
    }
}

/// The name of a store.
pub fn store_name(op: u8) -> &'static str
    requires { IsOneOf op store_ops }
    ensures { result.now ≡ P.name_at P.store_names op }
{
    match op {
        0 => "sb",
        1 => "sh",
        2 => "sw",
        _ => unreachable!(),
    }
}

/// The name of an operation with an immediate.
pub fn immediate_name(op: u8, alt: bool) -> &'static str
    requires { op < 8 }
    ensures { result.now ≡ P.immediate_name op alt }
{
    match op {
        _ if alt => "srai",
        0 => "addi",
        1 => "slli",
        2 => "slti",
        3 => "sltiu",
        4 => "xori",
        5 => "srli",
        6 => "ori",
        7 => "andi",
        _ => unreachable!(),
    }
}

/// The name of an operation on registers.
pub fn register_name(op: u8, alt: bool) -> &'static str
    requires { op < 8 }
    ensures { result.now ≡ P.register_name op alt }
{
    match op {
        0 if alt => "sub",
        _ if alt => "sra",
        0 => "add",
        1 => "sll",
        2 => "slt",
        3 => "sltu",
        4 => "xor",
        5 => "srl",
        6 => "or",
        7 => "and",
        _ => unreachable!(),
    }
}
