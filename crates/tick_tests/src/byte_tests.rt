//! Loads, stores, puts and gets at the ends of pages.

use crate::beside::Beside;
use crate::programs::{image_of, refused};
use sls_base::{HALTED, MISALIGNED, NO_ACCESS, ThreadState};
use std::test::Fail;

/// Each of six threads loads or stores at another end: of the pages, between two of them, past them, and past the last
/// address. The first puts and gets there once the others have ended.
const ENDS: &str = "
    addi x6, x0, 0x155
    lui x20, 1
    addi x7, x10, -1
    bne x7, x0, second
    sw x6, -4(x20)
    lw x5, -4(x20)
    sw x6, 0(x20)
    lw x5, 0(x20)
    sb x6, -1(x20)
    sh x6, 4(x20)
    lbu x5, -1(x20)
    lw x5, -2(x20)
second:
    addi x7, x10, -2
    bne x7, x0, third
    lui x21, 2
    lw x5, -4(x21)
    lw x5, 0(x21)
third:
    addi x7, x10, -3
    bne x7, x0, fourth
    lw x5, -4(x0)
fourth:
    addi x7, x10, -4
    bne x7, x0, fifth
    sh x6, -2(x0)
fifth:
    addi x7, x10, -5
    bne x7, x0, sixth
    sw x6, 2(x20)
sixth:
    addi x10, x0, 2
    addi x11, x20, -4
    addi x12, x0, 10
    addi x17, x0, 2     # put
    ecall
    addi x24, x10, 0
    addi x10, x0, 2
    addi x11, x0, -4
    ecall
    addi x25, x10, 0
    addi x10, x0, 6
    addi x11, x20, -3
    addi x12, x0, 40
    addi x17, x0, 3     # get
    ecall
    addi x26, x10, 0
    addi x10, x0, 6
    addi x11, x0, -3
    ecall
    addi x27, x10, 0
    addi x17, x0, 1     # halt
    ecall
";

#[test]
fn loads_and_stores_at_the_ends_of_regions(rt: HostRuntime) -> Result<(), Fail> {
    let alloc = rt.alloc();
    let image = image_of(&rt, alloc, ENDS, 6, 2)?;
    let mut both = Beside::begin(&rt, alloc, &image, 1)?;
    both.input(&rt, alloc, [7; 56].into())?;
    both.input(&rt, alloc, [9; 56].into())?;
    both.ticks(&rt, alloc, 160)?;
    for (id, cause) in [
        (11, HALTED),
        (12, MISALIGNED),
        (13, NO_ACCESS),
        (14, NO_ACCESS),
        (15, NO_ACCESS),
        (16, MISALIGNED),
    ] {
        assert!(rt;
            both.thread(id).state == ThreadState::Stopped(cause),
            "thread {id}"
        );
    }
    assert!(rt; both.thread(12).x[5] == 0x55 && both.thread(12).pc == 4 * 11);
    // The put over two regions, that past the last address, and so the gets, of which the first got 56 bytes.
    let first = both.thread(11);
    assert!(rt; first.x[24] == 0 && first.x[25] == refused(5));
    assert!(rt; first.x[26] == 56 && first.x[27] == refused(5));
    // What the second thread had stored stands in the entry, and then what was got, as far as there was room.
    assert!(rt; both.has_first_entry(0, &[0x55, 1, 0, 0x55, 0x55, 1, 0, 0, 0x55, 1]));
    for (memory, offset, byte) in [(9, 4092, 0x55), (9, 4093, 7), (10, 36, 7), (10, 37, 0)] {
        assert!(rt;
            both.byte(memory, offset) == byte,
            "the byte at {offset} of {memory}"
        );
    }
    assert!(rt; both.has_same_bytes(9, 1) && both.has_same_bytes(10, 1));
    assert!(rt; both.has_same_entries(0));
    Ok(())
}

/// The second page is mapped behind itself, and inputs are got over its end.
const TWICE: &str = "
    addi x10, x0, 1
    addi x11, x0, 9
    lui x12, 2
    addi x13, x0, 0
    addi x14, x0, 1
    addi x15, x0, 3
    addi x17, x0, 5     # map
    ecall
    lui x11, 2
    addi x11, x11, -3
    addi x10, x0, 6
    addi x12, x0, 40
    addi x17, x0, 3     # get
    ecall
    addi x10, x0, 2
    lui x11, 2
    addi x11, x11, -9
    addi x12, x0, 30
    addi x17, x0, 2     # put
    ecall
    addi x17, x0, 1     # halt
    ecall
";

#[test]
fn one_page_stands_at_two_addresses(rt: HostRuntime) -> Result<(), Fail> {
    let alloc = rt.alloc();
    let image = image_of(&rt, alloc, TWICE, 1, 2)?;
    let mut both = Beside::begin(&rt, alloc, &image, 1)?;
    both.input(&rt, alloc, [7; 56].into())?;
    both.ticks(&rt, alloc, 8 + 6)?;
    assert!(rt; both.thread(11).x[10] == 56);
    // Three bytes before the end of the page, and the others from its begin on.
    for (offset, byte) in [(4092, 0), (4093, 7), (4095, 7), (0, 7), (36, 7), (37, 0)] {
        assert!(rt; both.byte(10, offset) == byte, "the byte at {offset}");
    }
    both.ticks(&rt, alloc, 6)?;
    assert!(rt; both.thread(11).x[10] == 0 && both.has_same_entries(0));
    assert!(rt; both.has_same_bytes(10, 1));
    Ok(())
}

/// The second page is mapped as the last one that has addresses.
const LAST: &str = "
    addi x10, x0, 1
    addi x11, x0, 9
    lui x12, 0xFFFFF
    addi x13, x0, 0
    addi x14, x0, 1
    addi x15, x0, 3
    addi x17, x0, 5     # map
    ecall
    addi x6, x0, 0x155
    sw x6, -4(x0)
    lw x5, -4(x0)
    addi x10, x0, 2
    addi x11, x0, -4
    addi x12, x0, 4
    addi x17, x0, 2     # put
    ecall
    addi x24, x10, 0
    addi x10, x0, 2
    addi x12, x0, 5
    ecall
    addi x25, x10, 0
    addi x10, x0, 6
    addi x11, x0, -3
    addi x12, x0, 4
    addi x17, x0, 3     # get
    ecall
    addi x26, x10, 0
    addi x10, x0, 6
    addi x12, x0, 3
    ecall
    addi x27, x10, 0
    addi x17, x0, 1     # halt
    ecall
";

#[test]
fn no_bytes_stand_past_the_last_address(rt: HostRuntime) -> Result<(), Fail> {
    let alloc = rt.alloc();
    let image = image_of(&rt, alloc, LAST, 1, 2)?;
    let mut both = Beside::begin(&rt, alloc, &image, 1)?;
    both.input(&rt, alloc, [7; 56].into())?;
    both.ticks(&rt, alloc, 40)?;
    let thread = both.thread(11);
    assert!(rt; thread.state == ThreadState::Stopped(HALTED) && thread.x[5] == 0x155);
    // Up to the last address, and one byte past it, though the first page is there.
    assert!(rt; thread.x[24] == 0 && thread.x[25] == refused(5));
    assert!(rt; thread.x[26] == refused(5) && thread.x[27] == 56);
    assert!(rt; both.has_first_entry(0, &[0x55, 1, 0, 0]));
    for (offset, byte) in [(4092, 0x55), (4093, 7), (4095, 7), (0, 0)] {
        assert!(rt; both.byte(10, offset) == byte, "the byte at {offset}");
    }
    assert!(rt; both.has_same_bytes(9, 1) && both.has_same_bytes(10, 1));
    assert!(rt; both.has_same_entries(0));
    Ok(())
}

/// Gets inputs to three bytes before the second page, then to one byte before that, and so on, with ever less room.
const GETS: &str = "
    lui x20, 1
again:
    addi x11, x20, -3
    addi x12, x0, 40
    addi x17, x0, 3
get:
    addi x10, x0, 6
    ecall
    addi x12, x12, -1
    addi x11, x11, -1
    bne x12, x0, get
    jal x0, again
";

#[test]
fn inputs_are_got_in_order_and_the_65th_is_full(rt: HostRuntime) -> Result<(), Fail> {
    let alloc = rt.alloc();
    let image = image_of(&rt, alloc, GETS, 1, 2)?;
    let mut both = Beside::begin(&rt, alloc, &image, 1)?;
    let full = both.inputs(&rt, alloc, 66)?;
    assert!(rt; full == 2, "{full} of 66 inputs");
    both.ticks(&rt, alloc, 6)?;
    assert!(rt; both.thread(11).x[10] == 1);
    both.ticks(&rt, alloc, 5)?;
    assert!(rt; both.thread(11).x[10] == 8);
    both.ticks(&rt, alloc, 330)?;
    assert!(rt; both.thread(11).x[10] == refused(13));
    assert!(rt; both.has_same_bytes(9, 1) && both.has_same_bytes(10, 1));
    Ok(())
}
