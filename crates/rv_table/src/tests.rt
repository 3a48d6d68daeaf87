use super::*;
use std::test::Fail;

/// Words, each with its instruction.
macro_rules! words {
    ($($word:literal => $kind:ident $({ $($field:ident: $value:expr),* })?;)*) => {
        [$(($word, Instr::$kind $({ $($field: $value),* })?)),*]
    };
}

#[test]
fn words_are_read_and_written_again(rt: HostRuntime) -> Result<(), Fail> {
    let table = words![
        // lui x8, 1
        0x0000_1437 => Lui { rd: 8, imm: 0x1000 };
        // auipc x5, 0xFFFFF
        0xFFFF_F297 => Auipc { rd: 5, imm: 0xFFFF_F000 };
        // jal x0, -4
        0xFFDF_F06F => Jal { rd: 0, imm: 0xFFFF_FFFC };
        // jalr x1, 0(x5)
        0x0002_80E7 => Jalr { rd: 1, rs1: 5, imm: 0 };
        // bne x6, x0, -32
        0xFE03_10E3 => Branch { op: 1, rs1: 6, rs2: 0, imm: 0xFFFF_FFE0 };
        // beq x0, x0, 2
        0x0000_0163 => Branch { op: 0, rs1: 0, rs2: 0, imm: 2 };
        // lw x5, 64(x0)
        0x0400_2283 => Load { op: 2, rd: 5, rs1: 0, imm: 64 };
        // sw x7, 4(x9)
        0x0074_A223 => Store { op: 2, rs1: 9, rs2: 7, imm: 4 };
        // addi x6, x6, -1
        0xFFF3_0313 => OpImm { op: 0, alt: false, rd: 6, rs1: 6, imm: 0xFFFF_FFFF };
        // sltiu x6, x5, -1
        0xFFF2_B313 => OpImm { op: 3, alt: false, rd: 6, rs1: 5, imm: 0xFFFF_FFFF };
        // slli x9, x9, 12
        0x00C4_9493 => OpImm { op: 1, alt: false, rd: 9, rs1: 9, imm: 12 };
        // srai x6, x5, 31
        0x41F2_D313 => OpImm { op: 5, alt: true, rd: 6, rs1: 5, imm: 31 };
        // add x7, x7, x5
        0x0053_83B3 => Op { op: 0, alt: false, rd: 7, rs1: 7, rs2: 5 };
        // sub x10, x10, x11
        0x40B5_0533 => Op { op: 0, alt: true, rd: 10, rs1: 10, rs2: 11 };
        0x0000_000F => Fence;
        0x0000_0073 => Ecall;
        0x0010_0073 => Ebreak;
    ];
    for (word, wanted) in table {
        let found = decode(word);
        assert_eq!(rt; found, Some(wanted), "at {word}");
        if let Some(instr) = found {
            assert_eq!(rt; encode(instr), word, "at {word}");
        }
    }
    Ok(())
}

#[test]
fn the_other_fields_of_fence_are_ignored(rt: HostRuntime) -> Result<(), Fail> {
    // fence iorw, iorw; and the same with rd x1 and rs1 x1
    for word in [0x0FF0_000F, 0x0FF0_808F] {
        assert_eq!(rt; decode(word), Some(Instr::Fence), "at {word}");
    }
    assert_eq!(rt; encode(Instr::Fence), 0x0000_000F);
    Ok(())
}

#[test]
fn words_of_no_row(rt: HostRuntime) -> Result<(), Fail> {
    let words = [
        0x0000_0000,
        0xFFFF_FFFF,
        // fence.i
        0x0000_100F,
        // slli x6, x6, 32
        0x0203_1313,
        // ld x0, 0(x0)
        0x0000_3003,
        // mul x10, x10, x11
        0x02B5_0533,
        // mret
        0x3020_0073,
        // a branch of funct3 2, and a jalr of funct3 1
        0x0000_2063,
        0x0000_1067,
    ];
    for word in words {
        assert_eq!(rt; decode(word), None, "at {word}");
    }
    Ok(())
}
