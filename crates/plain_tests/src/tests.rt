//! Programs on the plain machine, with answers worked out by hand.

use crate::test_programs::{
    CAP_COPY, CAP_DROP, CHECKPOINT, CONN_CALL, CONN_NEW, GET, GROUP_NEW, MAP, MEM_NEW, NOTE_NEW,
    PUT, Row, SERVE, SIGNAL, SPACE_NEW, THREAD_NEW, UNMAP, WAIT, YIELD, answers, compare, refused,
    step, world_of_calls,
};
use arrayvec::ArrayVec;
use plain_model::{Label, Object, Place, Reply};
use sls_base::ThreadState;
use std::test::Fail;

#[test]
fn memory_objects_take_the_least_pages(rt: HostRuntime) -> Result<(), Fail> {
    let world = answers(
        &rt,
        rt.alloc(),
        &[
            (MEM_NEW, &[64], 10),
            (MEM_NEW, &[64], 11),
            (MEM_NEW, &[64], 12),
            (MEM_NEW, &[64], 13),
            (MEM_NEW, &[64], 14),
            (MEM_NEW, &[64], 15),
            (MEM_NEW, &[64], 16),
            (MEM_NEW, &[59], 17),
            (MEM_NEW, &[1], refused(10)),
            (CAP_DROP, &[0, 10], 0),
            (MEM_NEW, &[1], refused(10)),
            (CHECKPOINT, &[], 0),
            (MEM_NEW, &[1], 10),
        ],
    )?;
    match world.running().object(11) {
        Some(Object::Memory(pages)) => {
            assert!(rt;
                pages.len() == 1 && pages[0].number == 5,
                "the new object has page 5"
            );
        }
        _ => assert!(rt; false, "the new object is number 11"),
    }
    Ok(())
}

#[test]
fn a_group_has_32_slots(rt: HostRuntime) -> Result<(), Fail> {
    let alloc = rt.alloc();
    let mut rows: Vec<Row> = Vec::new(alloc);
    for slot in 10..32 {
        rows.push((GROUP_NEW, &[], slot))?;
    }
    rows.push((GROUP_NEW, &[], refused(8)))?;
    rows.push((MEM_NEW, &[64], refused(8)))?;
    rows.push((MEM_NEW, &[65], refused(6)))?;
    answers(&rt, alloc, rows.as_slice())?;
    Ok(())
}

#[test]
fn there_are_128_objects(rt: HostRuntime) -> Result<(), Fail> {
    let alloc = rt.alloc();
    let mut rows: Vec<Row> = Vec::new(alloc);
    for _ in 0..117 {
        rows.push((NOTE_NEW, &[], 10))?;
        rows.push((CAP_DROP, &[0, 10], 0))?;
    }
    rows.push((NOTE_NEW, &[], refused(9)))?;
    rows.push((CHECKPOINT, &[], 0))?;
    rows.push((NOTE_NEW, &[], 10))?;
    answers(&rt, alloc, rows.as_slice())?;
    Ok(())
}

#[test]
fn a_number_is_taken_again_after_the_commit(rt: HostRuntime) -> Result<(), Fail> {
    let world = answers(
        &rt,
        rt.alloc(),
        &[
            (GROUP_NEW, &[], 10),
            (CAP_COPY, &[10, 10, 15], 0),
            (CAP_DROP, &[0, 10], 0),
            (GROUP_NEW, &[], 10),
            (CAP_DROP, &[0, 10], 0),
            (CHECKPOINT, &[], 0),
            (GROUP_NEW, &[], 10),
        ],
    )?;
    assert!(rt; world.running().object(11).is_some() && world.running().object(12).is_none());
    Ok(())
}

#[test]
fn refusals_come_in_their_order(rt: HostRuntime) -> Result<(), Fail> {
    let world = answers(
        &rt,
        rt.alloc(),
        &[
            (19, &[], refused(1)),
            (2047, &[], refused(1)),
            (PUT, &[32, 0, 1], refused(2)),
            (PUT, &[10, 0, 1], refused(2)),
            (PUT, &[6, 0, 1], refused(3)),
            (GET, &[2, 0, 1], refused(3)),
            (PUT, &[2, 4096, 1], refused(5)),
            (PUT, &[2, 4096, 0], refused(6)),
            (PUT, &[2, 64, 57], refused(6)),
            (PUT, &[2, 64, 0], refused(6)),
            (PUT, &[2, 64, 56], 0),
            (GET, &[6, 64, 1], refused(13)),
            (GET, &[6, 64, 0], refused(6)),
            (GET, &[6, 4096, 1], refused(5)),
            (MEM_NEW, &[0], refused(6)),
            (MEM_NEW, &[65], refused(6)),
            (MEM_NEW, &[2], 10),
            (MAP, &[1, 10, 8192, 0, 1, 8], refused(6)),
            (MAP, &[1, 10, 8192, 0, 1, 16], refused(4)),
            (MAP, &[1, 10, 8192, 0, 3, 7], refused(6)),
            (MAP, &[1, 10, 8192, 0, 0, 7], refused(6)),
            (MAP, &[1, 10, 8, 0, 0, 7], refused(5)),
            (MAP, &[1, 10, 0, 0, 2, 7], refused(7)),
            (MAP, &[1, 10, 0xFFFF_F000, 0, 2, 7], refused(5)),
            (MAP, &[1, 10, 0xFFFF_F000, 0, 1, 7], 0),
            (MAP, &[1, 10, 4096, 0, 2, 3], 0),
            (MAP, &[1, 10, 8192, 1, 1, 3], refused(7)),
            (MAP, &[10, 10, 16384, 0, 1, 3], refused(3)),
            (UNMAP, &[1, 8192], refused(5)),
            (UNMAP, &[1, 4096], 0),
            (UNMAP, &[1, 4096], refused(5)),
            (SPACE_NEW, &[], 11),
            (GROUP_NEW, &[], 12),
            (CAP_COPY, &[10, 12, 3], 0),
            (CAP_COPY, &[10, 12, 16], refused(4)),
            (CAP_DROP, &[12, 1], refused(2)),
            (CAP_DROP, &[12, 32], refused(2)),
            (CAP_DROP, &[1, 32], refused(2)),
            (CAP_DROP, &[1, 0], refused(3)),
            (THREAD_NEW, &[0, 1, 2, 0], refused(5)),
            (THREAD_NEW, &[0, 0, 2, 0], refused(3)),
            (NOTE_NEW, &[], 13),
            (SIGNAL, &[13], 0),
            (WAIT, &[13], 0),
            (CONN_NEW, &[], 14),
            (CONN_CALL, &[14, 1, 2], refused(14)),
            (SERVE, &[13, 0, 0], refused(3)),
            (CAP_COPY, &[13, 0, 8], 15),
            (SIGNAL, &[15], refused(4)),
            (WAIT, &[15], refused(4)),
            (CAP_COPY, &[15, 0, 0], 16),
            (CAP_COPY, &[16, 0, 0], refused(4)),
            (YIELD, &[], 0),
        ],
    )?;
    assert!(rt; world.put_count(0) == 1);
    Ok(())
}

#[test]
fn a_space_has_16_regions(rt: HostRuntime) -> Result<(), Fail> {
    let alloc = rt.alloc();
    let bases: [[u32; 6]; 16] = [
        [1, 8, 4096, 0, 1, 1],
        [1, 8, 8192, 0, 1, 1],
        [1, 8, 12288, 0, 1, 1],
        [1, 8, 16384, 0, 1, 1],
        [1, 8, 20480, 0, 1, 1],
        [1, 8, 24576, 0, 1, 1],
        [1, 8, 28672, 0, 1, 1],
        [1, 8, 32768, 0, 1, 1],
        [1, 8, 36864, 0, 1, 1],
        [1, 8, 40960, 0, 1, 1],
        [1, 8, 45056, 0, 1, 1],
        [1, 8, 49152, 0, 1, 1],
        [1, 8, 53248, 0, 1, 1],
        [1, 8, 57344, 0, 1, 1],
        [1, 8, 61440, 0, 1, 1],
        [1, 8, 65536, 0, 1, 1],
    ];
    let mut rows: Vec<Row> = Vec::new(alloc);
    for base in bases.iter().take(15) {
        rows.push((MAP, base.as_slice(), 0))?;
    }
    rows.push((MAP, bases[15].as_slice(), refused(11)))?;
    answers(&rt, alloc, rows.as_slice())?;
    Ok(())
}

#[test]
fn a_ring_has_64_entries(rt: HostRuntime) -> Result<(), Fail> {
    let alloc = rt.alloc();
    let mut rows: Vec<Row> = Vec::new(alloc);
    for _ in 0..64 {
        rows.push((PUT, &[2, 0, 4], 0))?;
    }
    rows.push((PUT, &[2, 0, 4], refused(12)))?;
    let mut world = answers(&rt, alloc, rows.as_slice())?;
    let early = step(&rt, alloc, &mut world, Label::Accept(0))?;
    assert!(rt; matches!(early, Reply::NoEntry));
    for place in 0..65u8 {
        let reply = step(&rt, alloc, &mut world, input(&[place]))?;
        assert!(rt;
            matches!(reply, Reply::Full) == (place == 64),
            "input {place}"
        );
    }
    step(&rt, alloc, &mut world, Label::Commit)?;
    match step(&rt, alloc, &mut world, Label::Accept(0))? {
        Reply::Took(entry) => assert!(rt; entry.number == 0 && entry.bytes.len() == 4),
        _ => assert!(rt; false, "an entry that was saved is accepted"),
    }
    Ok(())
}

#[test]
fn a_refusal_is_tested_for_all_arguments_before_the_next(rt: HostRuntime) -> Result<(), Fail> {
    answers(
        &rt,
        rt.alloc(),
        &[
            // argument 0 is of the wrong kind, and argument 1 names no capability
            (MAP, &[0, 31, 8192, 0, 1, 1], refused(2)),
            (THREAD_NEW, &[1, 31, 2, 0], refused(2)),
            (CAP_COPY, &[1, 0, 8], 10),
            // argument 0 names a space without the right to write, and argument 1 is of the wrong kind
            (MAP, &[10, 0, 8192, 0, 1, 1], refused(3)),
            (MAP, &[10, 8, 8, 0, 1, 1], refused(4)),
            (PUT, &[2, 4096, 57], refused(5)),
            (UNMAP, &[10, 4096], refused(4)),
            (CAP_COPY, &[10, 1, 1], refused(3)),
        ],
    )?;
    Ok(())
}

/// An input of these bytes.
fn input(bytes: &[u8]) -> Label {
    let mut all = ArrayVec::new();
    for byte in bytes {
        if !all.is_full() {
            all.push(*byte);
        }
    }
    Label::Input(all)
}

#[test]
fn a_get_takes_the_first_input_as_far_as_there_is_room(rt: HostRuntime) -> Result<(), Fail> {
    let alloc = rt.alloc();
    let rows: [Row; 3] = [
        (GET, &[6, 1024, 3], 5),
        (GET, &[6, 1028, 56], 1),
        (GET, &[6, 1028, 56], refused(13)),
    ];
    let mut world = world_of_calls(&rt, alloc, &rows)?;
    step(&rt, alloc, &mut world, input(&[1, 2, 3, 4, 5]))?;
    step(&rt, alloc, &mut world, input(&[6]))?;
    compare(&rt, alloc, &mut world, &rows)?;
    for (offset, byte) in [(1024, 1), (1026, 3), (1027, 0), (1028, 6), (1029, 0)] {
        let place = Place {
            memory: 9,
            page: 0,
            offset,
        };
        assert!(rt;
            world.running().byte_at(place) == byte,
            "the byte at {offset}"
        );
    }
    Ok(())
}

#[test]
fn a_new_thread_is_ready_with_its_argument(rt: HostRuntime) -> Result<(), Fail> {
    let alloc = rt.alloc();
    let world = answers(&rt, alloc, &[(THREAD_NEW, &[0, 1, 64, 7], 10)])?;
    match world.thread(11) {
        Some(view) => assert!(rt;
            view.state == ThreadState::Ready && view.pc == 64 && view.x10 == 7
        ),
        None => assert!(rt; false, "there is a new thread"),
    }
    assert!(rt; world.running().queue.as_slice() == [11].as_slice());
    Ok(())
}

#[test]
fn a_cut_goes_back_to_the_saved_copy(rt: HostRuntime) -> Result<(), Fail> {
    let alloc = rt.alloc();
    let mut world = answers(
        &rt,
        rt.alloc(),
        &[
            (PUT, &[2, 0, 4], 0),
            (CHECKPOINT, &[], 0),
            (PUT, &[2, 0, 8], 0),
        ],
    )?;
    step(&rt, alloc, &mut world, input(&[1]))?;
    assert!(rt; world.put_count(0) == 2 && world.version() == 1);
    assert!(rt; world.cost() == 8 * (1 + 3) + 64);
    step(&rt, alloc, &mut world, Label::Cut)?;
    assert!(rt; world.put_count(0) == 1 && world.running().inputs.is_empty());
    assert!(rt; world.cost() == 64 && world.version() == 1);
    assert!(rt; world.touches(0, 4) && !world.touches(0, 0));
    assert!(rt; !world.must_store(0, 4));
    assert!(rt; world.has_page(4) && !world.has_page(5));
    Ok(())
}
