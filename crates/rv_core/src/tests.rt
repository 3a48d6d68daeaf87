use super::*;
use rv_table::decode;
use std::test::Fail;

/// The registers with pc, x5 and x6.
fn registers(pc: u32, x5: u32, x6: u32) -> Regs {
    let mut x = [0; 32];
    x[5] = x5;
    x[6] = x6;
    Regs { pc, x }
}

/// Words, each with pc, x5 and x6 before it, and what it comes to.
macro_rules! plans {
    ($($word:literal, $pc:literal, $x5:literal, $x6:literal => $plan:expr;)*) => {
        [$(($word, ($pc, $x5, $x6), $plan)),*]
    };
}

#[test]
fn plans_of_words(rt: HostRuntime) -> Result<(), Fail> {
    let table = plans![
        // lui x8, 1
        0x0000_1437, 0x0, 0x0, 0x0 => Plan::Set { rd: 8, value: 0x1000, pc: 0x4 };
        // auipc x5, 0xFFFFF
        0xFFFF_F297, 0x1004, 0x0, 0x0 => Plan::Set { rd: 5, value: 0x4, pc: 0x1008 };
        // jal x0, -4
        0xFFDF_F06F, 0x8, 0x0, 0x0 => Plan::Set { rd: 0, value: 0xC, pc: 0x4 };
        // jalr x1, 0(x5), whose bit 0 is cleared
        0x0002_80E7, 0x40, 0x101, 0x0 => Plan::Set { rd: 1, value: 0x44, pc: 0x100 };
        // jalr x5, 0(x5), which goes by the old x5
        0x0002_82E7, 0x40, 0x200, 0x0 => Plan::Set { rd: 5, value: 0x44, pc: 0x200 };
        // beq x0, x0, 2
        0x0000_0163, 0x40, 0x0, 0x0 => Plan::Stop(2);
        // blt x5, x6, 8
        0x0062_C463, 0x40, 0xFFFF_FFFF, 0x1 => Plan::Set { rd: 0, value: 0, pc: 0x48 };
        // bltu x5, x6, 8
        0x0062_E463, 0x40, 0xFFFF_FFFF, 0x1 => Plan::Set { rd: 0, value: 0, pc: 0x44 };
        // lb x7, -1(x5)
        0xFFF2_8383, 0x40, 0x101, 0x0 => Plan::Load { op: 0, rd: 7, at: 0x100 };
        // lw x5, 2(x0)
        0x0020_2283, 0x40, 0x0, 0x0 => Plan::Stop(3);
        // sw x6, 4(x5)
        0x0062_A223, 0x40, 0x100, 0x7 => Plan::Store { op: 2, at: 0x104, value: 0x7 };
        // addi x0, x0, 5
        0x0050_0013, 0x40, 0x0, 0x0 => Plan::Set { rd: 0, value: 5, pc: 0x44 };
        // srai x6, x5, 31
        0x41F2_D313, 0x40, 0x8000_0000, 0x0 => Plan::Set { rd: 6, value: 0xFFFF_FFFF, pc: 0x44 };
        // sltiu x6, x5, -1
        0xFFF2_B313, 0x40, 0x5, 0x0 => Plan::Set { rd: 6, value: 1, pc: 0x44 };
        // sra x7, x5, x6
        0x4062_D3B3, 0x40, 0x8000_0000, 33 => Plan::Set { rd: 7, value: 0xC000_0000, pc: 0x44 };
        // slt x7, x5, x6
        0x0062_A3B3, 0x40, 0xFFFF_FFFF, 0x1 => Plan::Set { rd: 7, value: 1, pc: 0x44 };
        // sltu x7, x5, x6
        0x0062_B3B3, 0x40, 0xFFFF_FFFF, 0x1 => Plan::Set { rd: 7, value: 0, pc: 0x44 };
        // fence iorw, iorw
        0x0FF0_000F, 0x40, 0x0, 0x0 => Plan::Set { rd: 0, value: 0, pc: 0x44 };
        // ecall
        0x0000_0073, 0x40, 0x0, 0x0 => Plan::Call;
        // ebreak
        0x0010_0073, 0x40, 0x0, 0x0 => Plan::Stop(5);
    ];
    for (word, (pc, x5, x6), wanted) in table {
        let regs = registers(pc, x5, x6);
        let found = decode(word).map(|instr| plan(instr, &regs));
        assert_eq!(rt; found, Some(wanted), "at {word}");
    }
    Ok(())
}

#[test]
fn loads_are_extended(rt: HostRuntime) -> Result<(), Fail> {
    let table = [
        (0, 0x80, 0xFFFF_FF80),
        (0, 0x7F, 0x7F),
        (4, 0x80, 0x80),
        (1, 0x8001, 0xFFFF_8001),
        (5, 0x8001, 0x8001),
        (2, 0x8000_0001, 0x8000_0001),
    ];
    for (op, raw, wanted) in table {
        assert_eq!(rt; extend(op, raw), wanted, "at {op}, {raw}");
    }
    for (op, wanted) in [(0, 1), (1, 2), (2, 4), (4, 1), (5, 2)] {
        assert_eq!(rt; access_size(op), wanted, "at {op}");
    }
    Ok(())
}

#[test]
fn register_zero_keeps_its_zero(rt: HostRuntime) -> Result<(), Fail> {
    let before = registers(0x40, 0x5, 0x6);
    let mut regs = before;
    regs.set(0, 5);
    assert_eq!(rt; regs, before);
    assert_eq!(rt; regs.get(0), 0);
    regs.set(31, 7);
    assert_eq!(rt; regs.get(31), 7);
    Ok(())
}
