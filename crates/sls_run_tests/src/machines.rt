//! The machine by itself: formatting, checkpoints, cuts and recovery, entries, stops and refusals.

ghost use Rattle.std.specs.Prelude.{◌<◌};
ghost use Rattle.sls_base.specs.declared.limits.TheConstants.{WORDS};
ghost use Rattle.pmem_model.specs.Memory.{AllHome};

use crate::programs::{
    CHECKPOINT, FORMATTING, RECOVERY, ask, boot, counting, cut_and_light, image_of, turns,
};
use pmem_model::Pmem;
use sls_base::{FRAME_WORDS, TABLE_WORDS};
use sls_kernel::{Asked, Did, Machine, Off};
use std::alloc::Global;
use std::process::Abort;
use std::test::Fail;

/// The turns of a round of the program.
const ROUND: u32 = 9;
/// Where the first area begins, which formatting makes durable: at frame 16.
const AREA_PLACE: usize = TABLE_WORDS + 16 * FRAME_WORDS;
/// The words of its six frames.
const AREA_WORDS: usize = 6 * FRAME_WORDS;

/// The place of the word that says what the thread does, in the record of the second area.
const STATUS_PLACE: usize = TABLE_WORDS + 29 * FRAME_WORDS + 16;
/// What that word says in its low byte of a thread that has stopped; the byte above has the cause.
const STOPPED: u64 = 6;

/// Two words that halt: addi x17, x0, 1 and ecall.
const HALTS: [u32; 2] = [0x0010_0893, 0x0000_0073];
/// More turns than a program that stops takes.
const LIMIT: u32 = 100;

/// After how many turns a machine that is up has nothing to run, if that is below the limit.
fn turns_until_idle(machine: &mut Machine) -> u32 {
    for count in 0..LIMIT {
        if machine.turn(0) == Did::Idle {
            return count;
        }
    }
    LIMIT
}

/// addi xTO, x0, IMMEDIATE, where an immediate from 2,048 on is the negative number 4,096 below.
fn addi(to: u32, immediate: u32) -> u32 {
    immediate << 20 | to << 7 | 0x13
}

/// A program that puts by these arguments, puts the answer, of four bytes, as the next entry of channel 0, and halts.
fn putting(slot: u32, address: u32, length: u32) -> [u32; 12] {
    [
        addi(17, 2),
        addi(10, slot),
        addi(11, address),
        addi(12, length),
        0x0000_0073, // ecall
        0x04A0_2023, // sw x10, 64(x0)
        addi(10, 2),
        addi(11, 64),
        addi(12, 4),
        0x0000_0073, // ecall
        HALTS[0],
        HALTS[1],
    ]
}

/// Whether channel 0 has nothing to accept.
fn has_none(rt: &impl Abort, machine: &mut Machine) -> bool {
    assert!(rt; machine.is_up());
    machine.accept(0).is_none()
}

/// Whether the next entry of channel 0 is the one of this number, with these bytes.
fn accepts(rt: &impl Abort, machine: &mut Machine, number: u64, bytes: &[u8]) -> bool {
    assert!(rt; machine.is_up());
    match machine.accept(0) {
        Some(entry) => entry.number == number && entry.bytes.as_slice() == bytes,
        None => false,
    }
}

/// The durable value of a word.
fn durable(nvm: &Pmem, at: usize) -> u64
    requires range { at < WORDS }
    requires home { AllHome nvm.now }
{
    nvm.durable(at)
}

/// The durable words of two memories are the same where formatting stores them.
fn is_same(one: &Off, other: &Off) -> bool
    requires one { AllHome one.now.nvm }
    requires other { AllHome other.now.nvm }
{
    for at in 0..2 {
        if durable(&one.nvm, at) != durable(&other.nvm, at) {
            return false;
        }
    }
    for at in AREA_PLACE..AREA_PLACE + AREA_WORDS {
        if durable(&one.nvm, at) != durable(&other.nvm, at) {
            return false;
        }
    }
    true
}

#[test]
fn formatting_takes_17_turns_and_ends_at_version_0(rt: HostRuntime) -> Result<(), Fail> {
    let image = counting(&rt, rt.alloc())?;
    let mut machine = boot(rt.alloc(), &image)?;
    assert!(rt; !machine.is_up());
    for _ in 1..FORMATTING {
        assert!(rt; !machine.is_up());
        machine.turn(0);
    }
    assert_eq!(rt; machine.turn(0), Did::Up(0));
    assert!(rt; machine.is_up());
    assert_eq!(rt; machine.version(), 0);
    Ok(())
}

#[test]
fn a_cut_within_formatting_leaves_the_same_memory_in_the_end(rt: HostRuntime) -> Result<(), Fail> {
    let image = counting(&rt, rt.alloc())?;
    let mut straight = boot(rt.alloc(), &image)?;
    assert_eq!(rt; turns(&mut straight, FORMATTING), Did::Up(0));
    let straight = straight.cut();
    for before in 0..FORMATTING {
        let mut machine = boot(rt.alloc(), &image)?;
        turns(&mut machine, before);
        let mut machine = cut_and_light(rt.alloc(), machine, &image)?;
        assert_eq!(rt;
            turns(&mut machine, FORMATTING),
            Did::Up(0),
            "after {before}"
        );
        assert!(rt; is_same(&machine.cut(), &straight), "after {before}");
    }
    Ok(())
}

#[test]
fn an_entry_is_accepted_once_committed_and_what_is_not_committed_is_lost_in_a_cut(
    rt: HostRuntime,
) -> Result<(), Fail> {
    let image = counting(&rt, rt.alloc())?;
    let mut machine = boot(rt.alloc(), &image)?;
    turns(&mut machine, FORMATTING);
    assert_eq!(rt; turns(&mut machine, ROUND), Did::Retired);
    assert!(rt; has_none(&rt, &mut machine));
    assert_eq!(rt; ask(&rt, rt.alloc(), &mut machine), Asked::Started);
    assert_eq!(rt; turns(&mut machine, CHECKPOINT), Did::Committed(1));
    assert!(rt; accepts(&rt, &mut machine, 0, &[1, 0, 0, 0]));
    assert!(rt; has_none(&rt, &mut machine));

    turns(&mut machine, ROUND);
    assert_eq!(rt; ask(&rt, rt.alloc(), &mut machine), Asked::Started);
    turns(&mut machine, CHECKPOINT - 1);
    let mut machine = cut_and_light(rt.alloc(), machine, &image)?;
    assert_eq!(rt; turns(&mut machine, RECOVERY), Did::Up(1));
    assert!(rt; has_none(&rt, &mut machine));

    turns(&mut machine, ROUND);
    assert_eq!(rt; ask(&rt, rt.alloc(), &mut machine), Asked::Started);
    assert_eq!(rt; turns(&mut machine, CHECKPOINT), Did::Committed(2));
    assert!(rt; accepts(&rt, &mut machine, 1, &[2, 0, 0, 0]));
    Ok(())
}

#[test]
fn a_write_back_of_the_version_word_commits(rt: HostRuntime) -> Result<(), Fail> {
    let image = counting(&rt, rt.alloc())?;
    let mut machine = boot(rt.alloc(), &image)?;
    turns(&mut machine, FORMATTING + ROUND);
    assert_eq!(rt; ask(&rt, rt.alloc(), &mut machine), Asked::Started);
    assert_eq!(rt; ask(&rt, rt.alloc(), &mut machine), Asked::InFlight);
    for _ in 0..CHECKPOINT {
        if machine.dirty_from(1) == Some(1) {
            break;
        }
        machine.turn(0);
    }
    assert_eq!(rt; machine.version(), 0);
    assert_eq!(rt; machine.write_back(1), Some(1));
    assert!(rt; machine.in_checkpoint());
    assert!(rt; accepts(&rt, &mut machine, 0, &[1, 0, 0, 0]));
    let mut machine = cut_and_light(rt.alloc(), machine, &image)?;
    assert_eq!(rt; turns(&mut machine, RECOVERY), Did::Up(1));
    Ok(())
}

/// The word of the record of a stopped thread, as the first checkpoint saves it: that it stopped, and the cause.
fn saved_status(rt: &impl Abort, alloc: Global, machine: &mut Machine) -> u64 {
    assert_eq!(rt; ask(rt, alloc, machine), Asked::Started);
    assert_eq!(rt; turns(machine, CHECKPOINT), Did::Committed(1));
    durable(machine.nvm(), STATUS_PLACE)
}

#[test]
fn a_thread_stops_with_its_cause(rt: HostRuntime) -> Result<(), Fail> {
    for (first, second, third, stopped_after, cause) in [
        (0x0000_0000, 0, 0, 1, 1), // no instruction
        (0x0000_0163, 0, 0, 1, 2), // beq x0, x0, 2
        (0x0020_2283, 0, 0, 1, 3), // lw x5, 2(x0)
        (0x7FF0_0313, 0x7FD3_0313, 0x0003_2283, 5, 0), // addi x6, x0, 2047; addi x6, x6, 2045; lw x5, 0(x6); then halt
        (0x7FF0_0313, 0x7FD3_0313, 0x0043_2283, 3, 4), // and with lw x5, 4(x6), which is past the page
        (0x0000_106F, 0, 0, 2, 4), // jal x0, 4096
        (0x0010_0073, 0, 0, 1, 5), // ebreak
    ] {
        let image = image_of(&rt, rt.alloc(), &[first, second, third, HALTS[0], HALTS[1]])?;
        let mut machine = boot(rt.alloc(), &image)?;
        turns(&mut machine, FORMATTING);
        assert_eq!(rt;
            turns_until_idle(&mut machine),
            stopped_after,
            "{first:08x} {third:08x}"
        );
        let status = saved_status(&rt, rt.alloc(), &mut machine);
        assert_eq!(rt; status, STOPPED | cause << 8, "{first:08x} {third:08x}");
    }
    Ok(())
}

#[test]
fn put_answers_by_the_slot_the_address_and_the_length(rt: HostRuntime) -> Result<(), Fail> {
    // The low bytes of -2, -3, -5 and -6; the others are all ones.
    for (slot, address, length, answer) in [
        (10, 64, 4, 0xFE), // an empty slot
        (8, 64, 4, 0xFD), // the memory
        (2, 4_095, 4, 0xFB), // from the last address on
        (2, 64, 0, 0xFA),
        (2, 64, 57, 0xFA),
    ] {
        let image = image_of(&rt, rt.alloc(), &putting(slot, address, length))?;
        let mut machine = boot(rt.alloc(), &image)?;
        turns(&mut machine, FORMATTING);
        assert_eq!(rt; turns_until_idle(&mut machine), 12);
        assert_eq!(rt; ask(&rt, rt.alloc(), &mut machine), Asked::Started);
        assert_eq!(rt; turns(&mut machine, CHECKPOINT), Did::Committed(1));
        assert!(rt;
            accepts(&rt, &mut machine, 0, &[answer, 0xFF, 0xFF, 0xFF]),
            "slot {slot}, {length} bytes"
        );
    }
    Ok(())
}
