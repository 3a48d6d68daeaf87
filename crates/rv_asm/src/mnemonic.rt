//! Mnemonics.

ghost use Rattle.std.specs.Prelude.{◌≡◌, IfSome, map};
ghost use Rattle.rv_asm.specs.Names;
ghost use Rattle.rv_asm.specs.Table.{entry_of};

use rv_table::Instr;

/// What the first word of an instruction names, or `.word`.
#[derive(Clone, Copy)]
pub enum Mnemonic {
    Jal,
    Branch { op: u8 },
    Plain(PlainMnemonic),
    Word,
}

/// An instruction that has no target. `op` is funct3; `alt` is that of SUB, SRA and SRAI.
#[derive(Clone, Copy)]
pub enum PlainMnemonic {
    Lui,
    Auipc,
    Jalr,
    Load { op: u8 },
    Store { op: u8 },
    Immediate { op: u8 },
    Shift { op: u8, alt: bool },
    Register { op: u8, alt: bool },
    /// An instruction that has no operands.
    Bare(Instr),
}

/// Each mnemonic by its name.
const MNEMONICS: [(&str, Mnemonic); 41] = [
    ("beq", Mnemonic::Branch { op: 0 }),
    ("bne", Mnemonic::Branch { op: 1 }),
    ("blt", Mnemonic::Branch { op: 4 }),
    ("bge", Mnemonic::Branch { op: 5 }),
    ("bltu", Mnemonic::Branch { op: 6 }),
    ("bgeu", Mnemonic::Branch { op: 7 }),
    ("lb", Mnemonic::Plain(PlainMnemonic::Load { op: 0 })),
    ("lh", Mnemonic::Plain(PlainMnemonic::Load { op: 1 })),
    ("lw", Mnemonic::Plain(PlainMnemonic::Load { op: 2 })),
    ("lbu", Mnemonic::Plain(PlainMnemonic::Load { op: 4 })),
    ("lhu", Mnemonic::Plain(PlainMnemonic::Load { op: 5 })),
    ("sb", Mnemonic::Plain(PlainMnemonic::Store { op: 0 })),
    ("sh", Mnemonic::Plain(PlainMnemonic::Store { op: 1 })),
    ("sw", Mnemonic::Plain(PlainMnemonic::Store { op: 2 })),
    ("addi", Mnemonic::Plain(PlainMnemonic::Immediate { op: 0 })),
    ("slti", Mnemonic::Plain(PlainMnemonic::Immediate { op: 2 })),
    ("sltiu", Mnemonic::Plain(PlainMnemonic::Immediate { op: 3 })),
    ("xori", Mnemonic::Plain(PlainMnemonic::Immediate { op: 4 })),
    ("ori", Mnemonic::Plain(PlainMnemonic::Immediate { op: 6 })),
    ("andi", Mnemonic::Plain(PlainMnemonic::Immediate { op: 7 })),
    (
        "slli",
        Mnemonic::Plain(PlainMnemonic::Shift { op: 1, alt: false }),
    ),
    (
        "srli",
        Mnemonic::Plain(PlainMnemonic::Shift { op: 5, alt: false }),
    ),
    (
        "srai",
        Mnemonic::Plain(PlainMnemonic::Shift { op: 5, alt: true }),
    ),
    (
        "add",
        Mnemonic::Plain(PlainMnemonic::Register { op: 0, alt: false }),
    ),
    (
        "sub",
        Mnemonic::Plain(PlainMnemonic::Register { op: 0, alt: true }),
    ),
    (
        "sll",
        Mnemonic::Plain(PlainMnemonic::Register { op: 1, alt: false }),
    ),
    (
        "slt",
        Mnemonic::Plain(PlainMnemonic::Register { op: 2, alt: false }),
    ),
    (
        "sltu",
        Mnemonic::Plain(PlainMnemonic::Register { op: 3, alt: false }),
    ),
    (
        "xor",
        Mnemonic::Plain(PlainMnemonic::Register { op: 4, alt: false }),
    ),
    (
        "srl",
        Mnemonic::Plain(PlainMnemonic::Register { op: 5, alt: false }),
    ),
    (
        "sra",
        Mnemonic::Plain(PlainMnemonic::Register { op: 5, alt: true }),
    ),
    (
        "or",
        Mnemonic::Plain(PlainMnemonic::Register { op: 6, alt: false }),
    ),
    (
        "and",
        Mnemonic::Plain(PlainMnemonic::Register { op: 7, alt: false }),
    ),
    ("lui", Mnemonic::Plain(PlainMnemonic::Lui)),
    ("auipc", Mnemonic::Plain(PlainMnemonic::Auipc)),
    ("jal", Mnemonic::Jal),
    ("jalr", Mnemonic::Plain(PlainMnemonic::Jalr)),
    ("fence", Mnemonic::Plain(PlainMnemonic::Bare(Instr::Fence))),
    ("ecall", Mnemonic::Plain(PlainMnemonic::Bare(Instr::Ecall))),
    (
        "ebreak",
        Mnemonic::Plain(PlainMnemonic::Bare(Instr::Ebreak)),
    ),
    (".word", Mnemonic::Word),
];

/// The mnemonic of a word of the text.
#[tactic(auto, unfolding(crate::specs::Names::mnemonic_of))]
pub fn mnemonic_of(name: &[u8]) -> Option<Mnemonic>
    ensures mnemonic { result ≡ Names.mnemonic_of name.now }
    ensures in_range { IfSome result Names.IsMnemonic }
{
    named(&MNEMONICS, name)
}

/// What a table has for a name.
fn named(table: &[(&str, Mnemonic)], name: &[u8]) -> Option<Mnemonic>
    ensures { result ≡ Names.named (map entry_of table.now) name.now }
{
    for (known, mnemonic) in table {
        if known.as_bytes() == name {
            return Some(*mnemonic);
        }
    }
    None
}
