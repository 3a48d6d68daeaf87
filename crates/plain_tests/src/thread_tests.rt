//! Programs of several threads on the plain machine, and what becomes of each.

use crate::test_programs::{first_world, image_of, refused, tick, ticks, x10};
use plain_model::{Object, Place, Reply, World};
use sls_base::{Image, LOST_OBJECT, ObjId, Program, RegionSpec, ThreadState};
use std::test::Fail;

/// Whether a thread does this.
fn is_in(world: &World, id: ObjId, state: ThreadState) -> bool {
    match world.thread(id) {
        Some(view) => view.state == state,
        None => false,
    }
}

// Each thread of a program begins with its place in x10. The capabilities are: 0 the group, 1 the space, 2 to 5 the output
// channels, 6 the input, 7 the root group, 8 the memory object, and from 9 on the threads; a new one is the next.

/// The first of four threads makes a notification, on which the others wait. It signals twice, drops the thread that still
/// waits, and commits.
const WAITERS: &str = "
    bne x10, x0, wait
    addi x17, x0, 12    # note_new
    ecall
    addi x17, x0, 0     # yield
    ecall
    addi x10, x0, 13
    addi x17, x0, 13    # signal
    ecall
    addi x10, x0, 13
    addi x17, x0, 13    # signal
    ecall
    addi x10, x0, 0
    addi x11, x0, 12
    addi x17, x0, 10    # cap_drop
    ecall
    addi x17, x0, 18    # checkpoint
    ecall
    addi x17, x0, 0     # yield
    ecall
wait:
    addi x10, x0, 13
    addi x17, x0, 14    # wait
    ecall
    addi x17, x0, 1     # halt
    ecall
";

#[test]
fn signals_wake_the_first_that_waits(rt: HostRuntime) -> Result<(), Fail> {
    let alloc = rt.alloc();
    let image = image_of(&rt, alloc, WAITERS, 4)?;
    let mut world = first_world(&rt, alloc, &image, 1)?;
    ticks(&rt, alloc, &mut world, 5 + 3 * 4)?;
    for id in [11, 12, 13] {
        assert!(rt; is_in(&world, id, ThreadState::Waiting(14)) && x10(&world, id) == 13);
    }
    ticks(&rt, alloc, &mut world, 2 * 3)?;
    for (id, state) in [
        (11, ThreadState::Ready),
        (12, ThreadState::Ready),
        (13, ThreadState::Waiting(14)),
    ] {
        assert!(rt; is_in(&world, id, state));
    }
    ticks(&rt, alloc, &mut world, 4 + 2)?;
    assert!(rt; world.thread(13).is_none());
    match world.running().object(14) {
        Some(Object::Notification(count, waiters)) => {
            assert!(rt;
                *count == 0 && waiters.is_empty(),
                "who waited and vanished waits no more"
            );
        }
        _ => assert!(rt; false, "the notification is there"),
    }
    ticks(&rt, alloc, &mut world, 2 + 1)?;
    assert!(rt;
        is_in(&world, 11, ThreadState::Running(0)) && is_in(&world, 12, ThreadState::Ready)
    );
    Ok(())
}

/// The first thread signals with the last instruction of its slice of 16.
const SIGNAL_AT_SLICE_END: &str = "
    bne x10, x0, wait
    addi x17, x0, 12    # note_new
    ecall
    addi x17, x0, 0     # yield
    ecall
    addi x10, x0, 11
    addi x17, x0, 13    # signal
    addi x6, x0, 6
count:
    addi x6, x6, -1
    bne x6, x0, count
    ecall
wait:
    addi x10, x0, 11
    addi x17, x0, 14    # wait
    ecall
";

#[test]
fn who_is_woken_stands_before_who_woke_it(rt: HostRuntime) -> Result<(), Fail> {
    let alloc = rt.alloc();
    let image = image_of(&rt, alloc, SIGNAL_AT_SLICE_END, 2)?;
    let mut world = first_world(&rt, alloc, &image, 1)?;
    ticks(&rt, alloc, &mut world, 5 + 4)?;
    assert!(rt; is_in(&world, 11, ThreadState::Waiting(12)));
    ticks(&rt, alloc, &mut world, 16)?;
    assert!(rt; world.running().queue.as_slice() == [11, 10].as_slice());
    Ok(())
}

/// The first thread serves a connection, which the second calls.
const SERVER: &str = "
    bne x10, x0, client
    addi x17, x0, 15    # conn_new
    ecall
    addi x10, x0, 11
    addi x11, x0, 0
    addi x12, x0, 0
    addi x17, x0, 17    # serve
    ecall
    addi x10, x0, 11
    addi x11, x0, 5
    addi x12, x0, 6
    addi x17, x0, 17    # serve
    ecall
client:
    addi x10, x0, 11
    addi x11, x0, 0
    addi x12, x0, 0
    addi x17, x0, 17    # serve
    ecall
    addi x10, x0, 11
    addi x11, x0, 7
    addi x12, x0, 8
    addi x17, x0, 16    # call
    ecall
    addi x17, x0, 1     # halt
    ecall
";

#[test]
fn a_server_that_waits_serves_a_client_at_once(rt: HostRuntime) -> Result<(), Fail> {
    let alloc = rt.alloc();
    let image = image_of(&rt, alloc, SERVER, 2)?;
    let mut world = first_world(&rt, alloc, &image, 1)?;
    ticks(&rt, alloc, &mut world, 3 + 5)?;
    assert!(rt; is_in(&world, 10, ThreadState::Serving(12)));
    ticks(&rt, alloc, &mut world, 1 + 5)?;
    assert!(rt; x10(&world, 11) == refused(14), "only the server may serve");
    ticks(&rt, alloc, &mut world, 5)?;
    assert!(rt; is_in(&world, 10, ThreadState::Ready) && x10(&world, 10) == 0);
    assert!(rt; is_in(&world, 11, ThreadState::Served(12)));
    let server = world.running().thread_at(10);
    assert!(rt; server.x[11] == 7 && server.x[12] == 8);
    ticks(&rt, alloc, &mut world, 5)?;
    let client = world.running().thread_at(11);
    assert!(rt; client.state == ThreadState::Ready && client.x[10] == 0);
    assert!(rt; client.x[11] == 5 && client.x[12] == 6);
    assert!(rt; is_in(&world, 10, ThreadState::Serving(12)));
    Ok(())
}

/// The first thread drops the client that it serves, and commits.
const CLIENT_DROPPED: &str = "
    bne x10, x0, client
    addi x17, x0, 15    # conn_new
    ecall
    addi x10, x0, 11
    addi x17, x0, 17    # serve
    ecall
    addi x10, x0, 0
    addi x11, x0, 10
    addi x17, x0, 10    # cap_drop
    ecall
    addi x17, x0, 18    # checkpoint
    ecall
    addi x10, x0, 11
    addi x17, x0, 17    # serve
    ecall
client:
    addi x10, x0, 11
    addi x17, x0, 16    # call
    ecall
";

#[test]
fn a_client_that_vanished_is_served_no_more(rt: HostRuntime) -> Result<(), Fail> {
    let alloc = rt.alloc();
    let image = image_of(&rt, alloc, CLIENT_DROPPED, 2)?;
    let mut world = first_world(&rt, alloc, &image, 1)?;
    ticks(&rt, alloc, &mut world, 6 + 4)?;
    assert!(rt; is_in(&world, 11, ThreadState::Served(12)));
    ticks(&rt, alloc, &mut world, 4 + 2)?;
    assert!(rt; world.thread(11).is_none());
    match world.running().object(12) {
        Some(Object::Connection(server, client, clients)) => {
            assert!(rt; *server == 10 && client.is_none() && clients.is_empty());
        }
        _ => assert!(rt; false, "the connection is there"),
    }
    ticks(&rt, alloc, &mut world, 3)?;
    assert!(rt; is_in(&world, 10, ThreadState::Serving(12)));
    Ok(())
}

/// The first thread drops the notification on which the second waits, and commits.
const NOTIFICATION_DROPPED: &str = "
    bne x10, x0, wait
    addi x17, x0, 12    # note_new
    ecall
    addi x17, x0, 0     # yield
    ecall
    addi x10, x0, 0
    addi x11, x0, 11
    addi x17, x0, 10    # cap_drop
    ecall
    addi x17, x0, 18    # checkpoint
    ecall
wait:
    addi x10, x0, 11
    addi x17, x0, 14    # wait
    ecall
";

#[test]
fn who_waits_for_what_vanished_stops(rt: HostRuntime) -> Result<(), Fail> {
    let alloc = rt.alloc();
    let image = image_of(&rt, alloc, NOTIFICATION_DROPPED, 2)?;
    let mut world = first_world(&rt, alloc, &image, 1)?;
    ticks(&rt, alloc, &mut world, 5 + 4 + 4)?;
    assert!(rt; is_in(&world, 11, ThreadState::Waiting(12)));
    ticks(&rt, alloc, &mut world, 2)?;
    assert!(rt; is_in(&world, 11, ThreadState::Stopped(LOST_OBJECT)));
    assert!(rt; world.running().object(12).is_none());
    Ok(())
}

/// Loads from page 0, stores to it and puts on channel 1.
const REACHES: &str = "
    lw x5, 64(x0)
    sw x5, 64(x0)
    addi x10, x0, 3
    addi x11, x0, 64
    addi x12, x0, 4
    addi x17, x0, 2     # put
    ecall
";

#[test]
fn what_the_next_tick_reaches(rt: HostRuntime) -> Result<(), Fail> {
    let alloc = rt.alloc();
    let image = image_of(&rt, alloc, REACHES, 1)?;
    let mut world = first_world(&rt, alloc, &image, 2)?;
    assert!(rt; world.touches(0, 4) && !world.must_store(0, 4));
    ticks(&rt, alloc, &mut world, 1)?;
    assert!(rt; world.touches(0, 4) && world.must_store(0, 4) && !world.touches(0, 5));
    ticks(&rt, alloc, &mut world, 5)?;
    assert!(rt; world.touches(0, 1) && world.must_store(0, 1) && !world.touches(0, 2));
    assert!(rt; world.touches(0, 4) && !world.must_store(0, 4));
    assert!(rt; !world.touches(1, 4), "the other core has no thread");
    Ok(())
}

#[test]
fn each_core_takes_the_next_thread_of_the_queue(rt: HostRuntime) -> Result<(), Fail> {
    let alloc = rt.alloc();
    let image = image_of(&rt, alloc, "addi x5, x5, 1\naddi x5, x5, 1\n", 2)?;
    let mut world = first_world(&rt, alloc, &image, 3)?;
    for core in [1, 0] {
        let reply = tick(&rt, alloc, &mut world, core)?;
        assert!(rt; matches!(reply, Reply::Retired));
    }
    assert!(rt; is_in(&world, 10, ThreadState::Running(1)));
    assert!(rt; is_in(&world, 11, ThreadState::Running(0)));
    let reply = tick(&rt, alloc, &mut world, 2)?;
    assert!(rt; matches!(reply, Reply::Idle));
    Ok(())
}

#[test]
fn programs_have_their_numbers_and_pages_in_order(rt: HostRuntime) -> Result<(), Fail> {
    let alloc = rt.alloc();
    let mut programs = Vec::new(alloc);
    for _ in 0..2 {
        let mut regions = Vec::new(alloc);
        for (base, pages) in [(0, 2), (8192, 1)] {
            regions.push(RegionSpec {
                base,
                pages,
                rights: 7,
                content: vec![in alloc; 9; 4096 * usize::from(pages) - 95]?,
            })?;
        }
        programs.push(Program {
            entry: 0,
            threads: 2,
            channels: 0,
            regions,
        })?;
    }
    let world = first_world(&rt, alloc, &Image { programs }, 1)?;
    assert!(rt; world.running().queue.as_slice() == [11, 12, 17, 18].as_slice());
    for (memory, page, number) in [(9, 0, 4), (9, 1, 5), (10, 0, 6), (15, 1, 8), (16, 0, 9)] {
        let place = Place {
            memory,
            page,
            offset: 4000,
        };
        assert!(rt; world.running().page_number_at(place) == number);
        assert!(rt; world.running().byte_at(place) == 9);
    }
    for (memory, page, offset, byte) in [(15, 1, 4001, 0), (15, 0, 4001, 9), (16, 0, 4001, 0)] {
        let place = Place {
            memory,
            page,
            offset,
        };
        assert!(rt; world.running().byte_at(place) == byte);
    }
    assert!(rt; world.has_page(9) && !world.has_page(10));
    Ok(())
}
