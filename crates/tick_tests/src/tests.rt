//! Calls with answers that were worked out by hand, and drawn programs.

ghost use Rattle.std.specs.Prelude.{IfOk};
ghost use Rattle.kernel_calls.specs.Kernel.{IsHeld};

use crate::beside::Beside;
use crate::programs::{answers, drawn_source, image_of};
use sls_base::Image;
use std::alloc::Global;
use std::process::Abort;
use std::test::Fail;

#[test]
fn memory_objects_take_all_pages(rt: HostRuntime) -> Result<(), Fail> {
    let rows = "
        mem_new 64 = 10
        mem_new 64 = 11
        mem_new 64 = 12
        mem_new 64 = 13
        mem_new 64 = 14
        mem_new 64 = 15
        mem_new 64 = 16
        mem_new 59 = 17
        mem_new 1 = -10
        cap_drop 0 10 = 0
        mem_new 1 = -10
    ";
    answers(&rt, rt.alloc(), rows)?;
    Ok(())
}

#[test]
fn a_group_has_32_slots(rt: HostRuntime) -> Result<(), Fail> {
    let alloc = rt.alloc();
    let mut rows = String::new(alloc);
    for slot in 10..32 {
        write!(rows, "group_new = {slot}\n")?;
    }
    rows.push_str(
        "
        group_new = -8
        mem_new 65 = -6
        A copy without a right that is asked for, into the group.
        cap_drop 0 31 = 0
        cap_copy 8 0 9 = 31
        cap_copy 31 0 2 = -4
        cap_copy 31 0 1 = -8
    ",
    )?;
    answers(&rt, alloc, rows.as_str())?;
    Ok(())
}

#[test]
fn slots_end_before_numbers_of_objects_and_those_before_pages(rt: HostRuntime) -> Result<(), Fail> {
    let alloc = rt.alloc();
    let mut rows = String::new(alloc);
    // Of 128 numbers 11 are taken, then 95 by what is dropped, 14 by what the group keeps, and 8 by all pages.
    for _ in 0..95 {
        rows.push_str("note_new = 10\ncap_drop 0 10 = 0\n")?;
    }
    for slot in 10..24 {
        write!(rows, "note_new = {slot}\n")?;
    }
    for slot in 24..31 {
        write!(rows, "mem_new 64 = {slot}\n")?;
    }
    rows.push_str(
        "
        mem_new 59 = 31
        thread_new 0 1 2 0 = -5
        mem_new 65 = -6
        mem_new 1 = -8
        note_new = -8
        cap_drop 0 10 = 0
        mem_new 1 = -9
        note_new = -9
    ",
    )?;
    answers(&rt, alloc, rows.as_str())?;
    Ok(())
}

#[test]
fn refusals_come_in_their_order(rt: HostRuntime) -> Result<(), Fail> {
    let rows = "
        19 = -1
        put 32 0 1 = -2
        put 6 0 1 = -3
        put 2 4096 1 = -5
        put 2 64 57 = -6
        put 2 64 56 = 0
        get 6 64 1 = -13
        get 6 64 0 = -6
        get 6 4096 1 = -5
        mem_new 0 = -6
        mem_new 2 = 10
        map 1 10 8192 0 1 16 = -4
        map 1 10 8192 0 3 7 = -6
        map 1 10 0 0 2 7 = -7
        map 1 10 -4096 0 2 7 = -5
        map 1 10 -4096 0 1 7 = 0
        map 1 10 4096 0 2 3 = 0
        unmap 1 8192 = -5
        unmap 1 4096 = 0
        space_new = 11
        group_new = 12
        cap_copy 10 12 3 = 0
        cap_drop 12 1 = -2
        thread_new 0 1 2 0 = -5
        note_new = 13
        signal 13 = 0
        wait 13 = 0
        conn_new = 14
        call 14 1 2 = -14
        serve 13 0 0 = -3
        cap_copy 13 0 8 = 15
        signal 15 = -4
        yield = 0
        thread_new 0 1 64 7 = 16
    ";
    let both = answers(&rt, rt.alloc(), rows)?;
    assert!(rt; both.has_same_entries(0) && both.has_same_bytes(9, 1));
    Ok(())
}

#[test]
fn a_refusal_comes_before_the_next_of_any_argument(rt: HostRuntime) -> Result<(), Fail> {
    let rows = "
        There is no such call, and no capability.
        19 31 = -1
        Argument 0 is of the wrong kind, and argument 1 names no capability.
        map 0 31 8192 0 1 1 = -2
        thread_new 1 31 2 0 = -2
        cap_copy 31 8 1 = -2
        Argument 0 is no group, and has no slot of that number.
        cap_drop 8 32 = -2
        Argument 0 names a space without the right to write, and argument 1 is of the wrong kind.
        cap_copy 1 0 8 = 10
        map 10 0 8192 0 1 1 = -3
        thread_new 0 8 2 0 = -3
        There is no such right, and the base is no page's.
        map 10 8 8 0 1 1 = -4
        unmap 10 4096 = -4
        thread_new 0 10 2 0 = -4
        The base is no page's, and there is no page of the region; the bytes aren't there, and are too many.
        map 1 8 8 0 0 7 = -5
        put 2 4096 57 = -5
        get 6 4096 57 = -5
        There are fewer pages, and others are mapped there; there is room for no bytes, and no input waits.
        map 1 8 0 0 2 7 = -6
        get 6 64 0 = -6
        A server without the right to call calls its own connection.
        conn_new = 11
        cap_copy 11 0 1 = 12
        call 12 0 0 = -4
        call 11 0 0 = -14
    ";
    answers(&rt, rt.alloc(), rows)?;
    Ok(())
}

#[test]
fn a_space_has_16_regions(rt: HostRuntime) -> Result<(), Fail> {
    let alloc = rt.alloc();
    let mut rows = String::new(alloc);
    for page in 1..16u32 {
        write!(rows, "map 1 8 {} 0 1 1 = 0\n", page * 4096)?;
    }
    rows.push_str("map 1 8 4096 0 1 1 = -7\nmap 1 8 65536 0 1 1 = -11\n")?;
    answers(&rt, alloc, rows.as_str())?;
    Ok(())
}

#[test]
fn a_ring_has_64_entries(rt: HostRuntime) -> Result<(), Fail> {
    let alloc = rt.alloc();
    let mut rows = String::new(alloc);
    for _ in 0..64 {
        rows.push_str("put 2 0 4 = 0\n")?;
    }
    rows.push_str("put 2 0 57 = -6\nput 2 0 4 = -12\n")?;
    let both = answers(&rt, alloc, rows.as_str())?;
    assert!(rt; both.has_same_entries(0));
    Ok(())
}

/// Both machines of so many cores after ticks of a program that is drawn.
fn drawn_ticks(
    rt: &impl Abort,
    alloc: Global,
    image: &Image,
    cores: u8,
    seed: u64,
) -> Result<Beside, Fail>
    ensures { IfOk result (λ b. IsHeld b.kernel.calls b.kernel.accepted b.kernel.nvm) }
{
    let mut both = Beside::begin(rt, alloc, image, cores)?;
    both.input(rt, alloc, [cores; 56].into())?;
    let busy = both.drawn(rt, alloc, cores, 300, seed)?;
    assert!(rt; busy > 100, "{busy} ticks");
    assert!(rt; both.has_same_bytes(9, 1) && both.has_same_bytes(10, 1));
    assert!(rt; both.has_same_entries(0) && both.has_same_entries(3));
    Ok(both)
}

/// They go on from the begin after a cut, where inputs and numbers in use are forgotten.
fn goes_on_after_a_cut(
    rt: &impl Abort,
    alloc: Global,
    both: Beside,
    image: &Image,
    cores: u8,
) -> Result<(), Fail> {
    let mut both = both.cut(rt, alloc, image, cores)?;
    let busy = both.drawn(rt, alloc, cores, 100, 7)?;
    assert!(rt; busy > 40, "{busy} ticks after a cut");
    assert!(rt; both.has_same_bytes(9, 1) && both.has_same_entries(0));
    Ok(())
}

#[test]
fn drawn_programs_go_on_alike(rt: HostRuntime) -> Result<(), Fail> {
    let alloc = rt.alloc();
    for (cores, seed) in [(1, 1), (2, 2), (8, 3), (2, 4), (8, 5)] {
        let source = drawn_source(alloc, 60, seed)?;
        let image = image_of(&rt, alloc, source.as_str(), 5, 2)?;
        let both = drawn_ticks(&rt, alloc, &image, cores, seed)?;
        goes_on_after_a_cut(&rt, alloc, both, &image, cores)?;
    }
    Ok(())
}
