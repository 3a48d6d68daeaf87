use rv_asm::{AsmCause, AsmError, assemble, print};
use std::alloc::Global;
use std::test::Fail;

/// Texts and the words that they give.
const TEXTS: [(&str, &[u32]); 8] = [
    // a label, and offsets to it from behind and before
    (
        "top:\nlw x5, 64(x0)\njal x0, top\n",
        &[0x0400_2283, 0xFFDF_F06F],
    ),
    ("beq x0, x0, end\necall\nend:", &[0x0000_0463, 0x0000_0073]),
    // blanks, comments, empty lines, CR before LF, and a last line without LF
    (
        " \tadd  x7 ,\tx7,x5\t# sum\r\n\r\n#\nfence\r\nebreak",
        &[0x0053_83B3, 0x0000_000F, 0x0010_0073],
    ),
    // numbers
    (
        ".word 0x00fF\n.word 4294967295\n.word 000",
        &[0xFF, 0xFFFF_FFFF, 0],
    ),
    ("lui x8, 1\nauipc x5, 1048575", &[0x0000_1437, 0xFFFF_F297]),
    (
        "srai x6, x5, 31\nsltiu x6, x5, -1",
        &[0x41F2_D313, 0xFFF2_B313],
    ),
    (
        "jalr x1, 0(x5)\nsw x7, 4(x9)\nbne x6, x0, -32",
        &[0x0002_80E7, 0x0074_A223, 0xFE03_10E3],
    ),
    ("", &[]),
];

/// Texts, the line at fault, and its cause.
const FAULTS: [(&str, u32, AsmCause); 23] = [
    ("addi x5, x32, 1", 1, AsmCause::Reg),
    ("addi x5, x05, 1", 1, AsmCause::Reg),
    ("lw x5, 64()", 1, AsmCause::Reg),
    ("addi x5, x0, 2048", 1, AsmCause::Number),
    (".word -1", 1, AsmCause::Number),
    ("beq x0, x0, 3", 1, AsmCause::Number),
    ("slli x5, x5, 32", 1, AsmCause::Number),
    ("addi x5, x0, 1\t2", 1, AsmCause::Form),
    ("addi x5, x0", 1, AsmCause::Form),
    ("sw x5, 4 (x6)", 1, AsmCause::Form),
    ("sw x5, (x6)", 1, AsmCause::Form),
    ("name: ecall", 1, AsmCause::Form),
    ("1name:", 1, AsmCause::Form),
    ("ecall x0", 1, AsmCause::Form),
    (".word -0x1", 1, AsmCause::Form),
    ("ecall\n\nname : ecall", 3, AsmCause::Op),
    ("ECALL", 1, AsmCause::Op),
    ("ecall\r", 1, AsmCause::Op),
    ("a:\necall\na:", 3, AsmCause::Label),
    ("ecall\njal x0, b", 2, AsmCause::Label),
    // the first cause of a line, and the first line
    ("addi x5, x32, y", 1, AsmCause::Form),
    ("addi x5, x32, 2048", 1, AsmCause::Reg),
    ("jal x0, b\nfoo", 1, AsmCause::Label),
];

/// Words and their texts, in which a FENCE with other fields, FENCE.I and illegal words are numbers.
const WORDS: [(&[u32], &str); 8] = [
    (&[0x0400_2283, 0xFFDF_F06F], "lw x5, 64(x0)\njal x0, -4\n"),
    (
        &[0x0000_1437, 0xFFFF_F297],
        "lui x8, 1\nauipc x5, 1048575\n",
    ),
    (
        &[0x0002_80E7, 0xFE74_AE23, 0xFE03_10E3],
        "jalr x1, 0(x5)\nsw x7, -4(x9)\nbne x6, x0, -32\n",
    ),
    (
        &[0x41F2_D313, 0x00C4_9493, 0x8002_B313],
        "srai x6, x5, 31\nslli x9, x9, 12\nsltiu x6, x5, -2048\n",
    ),
    (
        &[0x0053_83B3, 0x40B5_0533, 0x40B5_5533],
        "add x7, x7, x5\nsub x10, x10, x11\nsra x10, x10, x11\n",
    ),
    (
        &[0x0000_000F, 0x0000_0073, 0x0010_0073],
        "fence\necall\nebreak\n",
    ),
    (
        &[0x0FF0_000F, 0x0000_100F, 0, 0xFFFF_FFFF],
        ".word 0x0ff0000f\n.word 0x0000100f\n.word 0x00000000\n.word 0xffffffff\n",
    ),
    (&[], ""),
];

/// The word of ECALL.
const ECALL: u32 = 0x0000_0073;

/// The words of a text that has no fault.
fn words_of(alloc: Global, text: &[u8]) -> Result<Vec<u32>, Fail> {
    let words = assemble(alloc, text).ok().ok_or("the text has a fault")?;
    Ok(words)
}

/// The line at fault and its cause.
fn fault_of(alloc: Global, text: &[u8]) -> Option<(u32, AsmCause)> {
    match assemble(alloc, text) {
        Err(AsmError::Bad { line, cause }) => Some((line, cause)),
        _ => None,
    }
}

#[test]
fn texts_give_their_words(rt: HostRuntime) -> Result<(), Fail> {
    for (text, words) in &TEXTS {
        let found = words_of(rt.alloc(), text.as_bytes())?;
        assert_eq!(rt; found.as_slice(), *words, "{text}");
    }
    Ok(())
}

#[test]
fn the_first_fault_is_told(rt: HostRuntime) {
    for (text, line, cause) in &FAULTS {
        let found = fault_of(rt.alloc(), text.as_bytes());
        assert_eq!(rt; found, Some((*line, *cause)), "{text}");
    }
}

#[test]
fn words_are_printed(rt: HostRuntime) -> Result<(), Fail> {
    for (words, text) in &WORDS {
        let found = print(rt.alloc(), words)?;
        assert_eq!(rt; found.as_slice(), text.as_bytes(), "{text}");
    }
    Ok(())
}

#[test]
fn what_is_printed_gives_its_words(rt: HostRuntime) -> Result<(), Fail> {
    for (words, text) in &WORDS {
        let found = words_of(rt.alloc(), text.as_bytes())?;
        assert_eq!(rt; found.as_slice(), *words, "{text}");
    }
    Ok(())
}

#[test]
fn a_program_has_at_most_1024_words(rt: HostRuntime) -> Result<(), Fail> {
    let most = vec![in rt.alloc(); ECALL; 1024]?;
    let text = print(rt.alloc(), &most)?;
    assert_eq!(rt; words_of(rt.alloc(), &text)?.len(), 1024);
    let more = vec![in rt.alloc(); ECALL; 1025]?;
    let text = print(rt.alloc(), &more)?;
    assert_eq!(rt; fault_of(rt.alloc(), &text), Some((1025, AsmCause::Long)));
    Ok(())
}

#[test]
fn a_text_has_at_most_65536_bytes(rt: HostRuntime) -> Result<(), Fail> {
    let most = vec![in rt.alloc(); b' '; 65_536]?;
    assert_eq!(rt; words_of(rt.alloc(), &most)?.len(), 0);
    let more = vec![in rt.alloc(); b' '; 65_537]?;
    assert_eq!(rt; fault_of(rt.alloc(), &more), Some((0, AsmCause::Long)));
    Ok(())
}

#[test]
fn a_fault_is_printed(rt: HostRuntime) -> Result<(), Fail> {
    let fault = AsmError::Bad {
        line: 3,
        cause: AsmCause::Reg,
    };
    let text = format!(in rt.alloc(); "{fault}")?;
    assert_eq!(rt; text.as_str(), "line 3 is at fault: Reg");
    Ok(())
}
