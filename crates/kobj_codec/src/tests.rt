use super::*;
use arrayvec::ArrayVec;
use cap_group::{Cap, Group};
use mem_space::{MemPage, Memory, Region, Space};
use pmem_layout::{EMPTY_WORD, SLOT_WORDS};
use sls_base::{Lcg, OBJECTS, ObjId, Ring, Thread, ThreadState};
use std::process::Abort;

/// A record whose words are zero but for these.
fn record(words: &[(usize, u64)]) -> [u64; SLOT_WORDS] {
    let mut record = [EMPTY_WORD; SLOT_WORDS];
    for (place, word) in words {
        if let Some(at) = record.get_mut(*place) {
            *at = *word;
        }
    }
    record
}

/// Asserts that an object is written as these words, and that what is read of them is written so again.
fn stands_as(rt: &impl Abort, obj: &Obj, words: &[(usize, u64)]) {
    let wanted = record(words);
    assert!(rt; obj.is_in_range());
    assert_eq!(rt; encode(obj), wanted);
    match decode(&wanted) {
        Some(read) => assert_eq!(rt; encode(&read), wanted),
        None => panic!(rt; "no object is read"),
    }
}

fn list_of(ids: &[ObjId]) -> ArrayVec<ObjId, OBJECTS> {
    let mut list = ArrayVec::new();
    for id in ids {
        if !list.is_full() {
            list.push(*id);
        }
    }
    list
}

fn space_of(regions: &[Region]) -> Space {
    let mut space = Space::new();
    for region in regions {
        if !space.is_full() {
            space.regions.push(*region);
        }
    }
    space
}

/// Pages that are not fresh, and one behind them.
fn memory_of(pages: usize, last: MemPage) -> Memory {
    let mut memory = Memory::new();
    for _ in 1..pages {
        if !memory.pages.is_full() {
            memory.pages.push(MemPage::default());
        }
    }
    if !memory.pages.is_full() {
        memory.pages.push(last);
    }
    memory
}

#[test]
fn groups_at_both_ends(rt: HostRuntime) {
    let mut group = Group::new();
    stands_as(&rt, &Obj::Group(group), &[(0, 1)]);
    group.slots[0] = Some(Cap {
        object: 7,
        rights: 15,
    });
    stands_as(&rt, &Obj::Group(group), &[(0, 1), (1, 32_895)]);
    group.slots[3] = Some(Cap {
        object: 127,
        rights: 0,
    });
    group.slots[4] = Some(Cap {
        object: 0,
        rights: 0,
    });
    group.slots[31] = Some(Cap {
        object: 127,
        rights: 15,
    });
    stands_as(
        &rt,
        &Obj::Group(group),
        &[
            (0, 1),
            (1, 0x87F0_0000_0000_807F),
            (2, 0x8000),
            (8, 0x87FF_0000_0000_0000),
        ],
    );
}

#[test]
fn threads_at_both_ends(rt: HostRuntime) {
    let mut thread = Thread {
        group: 0,
        space: 0,
        state: ThreadState::Ready,
        pc: 0,
        x: [0; 32],
    };
    stands_as(&rt, &Obj::Thread(thread), &[(0, 2)]);
    for (state, head) in [
        (ThreadState::Running(0), 0x00_0100_0002),
        (ThreadState::Running(7), 0x07_0100_0002),
        (ThreadState::Waiting(127), 0x7F_0200_0002),
        (ThreadState::Calling(127), 0x7F_0300_0002),
        (ThreadState::Served(127), 0x7F_0400_0002),
        (ThreadState::Serving(127), 0x7F_0500_0002),
        (ThreadState::Stopped(0), 0x00_0600_0002),
        (ThreadState::Stopped(6), 0x06_0600_0002),
    ] {
        thread.state = state;
        stands_as(&rt, &Obj::Thread(thread), &[(0, head)]);
    }
    thread.group = 126;
    thread.space = 127;
    thread.pc = 0xFFFF_FFFC;
    thread.x[1] = 1;
    thread.x[2] = 2;
    thread.x[31] = 0xFFFF_FFFF;
    stands_as(
        &rt,
        &Obj::Thread(thread),
        &[
            (0, 0x06_067F_7E02),
            (1, 0x0000_0001_FFFF_FFFC),
            (2, 2),
            (16, 0xFFFF_FFFF_0000_0000),
        ],
    );
}

#[test]
fn spaces_at_both_ends(rt: HostRuntime) {
    stands_as(&rt, &Obj::Space(Space::new()), &[(0, 3)]);
    let least = Region {
        base: 0,
        count: 1,
        first: 0,
        memory: 9,
        rights: 7,
    };
    let long = Region {
        base: 0xF_FFBF,
        count: 64,
        first: 0,
        memory: 127,
        rights: 7,
    };
    let last = Region {
        base: 0xF_FFFF,
        count: 1,
        first: 63,
        memory: 127,
        rights: 1,
    };
    stands_as(
        &rt,
        &Obj::Space(space_of(&[least, long, last])),
        &[
            (0, 3),
            (1, 0x8000_0712_0010_0000),
            (2, 0x8000_07FE_040F_FFBF),
            (3, 0x8000_01FF_F81F_FFFF),
        ],
    );
}

#[test]
fn memory_objects_at_both_ends(rt: HostRuntime) {
    let fresh = MemPage {
        page: 511,
        fresh: true,
    };
    let stored = MemPage {
        page: 4,
        fresh: false,
    };
    stands_as(
        &rt,
        &Obj::Memory(memory_of(1, stored)),
        &[(0, 0x104), (1, 4)],
    );
    stands_as(
        &rt,
        &Obj::Memory(memory_of(1, fresh)),
        &[(0, 0x104), (1, 0x81FF)],
    );
    stands_as(
        &rt,
        &Obj::Memory(memory_of(64, fresh)),
        &[(0, 0x4004), (16, 0x81FF_0000_0000_0000)],
    );
}

#[test]
fn connections_at_both_ends(rt: HostRuntime) {
    let alone = ConnectionRec {
        server: 0,
        client: None,
        clients: list_of(&[]),
    };
    stands_as(&rt, &Obj::Connection(alone), &[(0, 5)]);
    let busy = ConnectionRec {
        server: 126,
        client: Some(127),
        clients: list_of(&[125, 0, 1, 2, 3, 4, 5, 6, 124]),
    };
    stands_as(
        &rt,
        &Obj::Connection(busy),
        &[
            (0, 0x017F_7E05),
            (1, 9),
            (2, 0x0605_0403_0201_007D),
            (3, 124),
        ],
    );
}

#[test]
fn notifications_at_both_ends(rt: HostRuntime) {
    let none = NotificationRec {
        count: 0,
        waiters: list_of(&[]),
    };
    stands_as(&rt, &Obj::Notification(none), &[(0, 6)]);
    let mut ids = [0; 128];
    for id in 0..128u8 {
        ids[id as usize] = id;
    }
    let all = NotificationRec {
        count: 0xFFFF_FFFF,
        waiters: list_of(&ids),
    };
    let mut words = [(0, 0xFFFF_FFFF_0000_0006); 18];
    words[1] = (1, 128);
    let mut word: u64 = 0x0706_0504_0302_0100;
    for place in 2..18 {
        words[place] = (place, word);
        word = word.wrapping_add(0x0808_0808_0808_0808);
    }
    stands_as(&rt, &Obj::Notification(all), &words);
}

#[test]
fn rings_at_both_ends(rt: HostRuntime) {
    for (channel, fresh, count, page, words) in [
        (0, true, 1, 0, [(0, 0x1_0007), (1, 1), (2, 0)]),
        (
            3,
            false,
            u64::MAX,
            511,
            [(0, 0x307), (1, u64::MAX), (2, 511)],
        ),
        (4, false, 0, 0, [(0, 0x407), (1, 0), (2, 0)]),
    ] {
        let ring = Ring {
            channel,
            fresh,
            count,
            page,
        };
        stands_as(&rt, &Obj::Ring(ring), &words);
    }
}

#[test]
fn schedulers_at_both_ends(rt: HostRuntime) {
    let idle = Scheduler {
        cores: 1,
        running: [None; 8],
        queue: list_of(&[10]),
    };
    stands_as(&rt, &Obj::Scheduler(idle), &[(0, 0x108), (9, 1), (10, 10)]);
    let mut running = [None; 8];
    running[0] = Some((0, 1));
    running[7] = Some((127, 16));
    let full = Scheduler {
        cores: 8,
        running,
        queue: list_of(&[]),
    };
    stands_as(
        &rt,
        &Obj::Scheduler(full),
        &[
            (0, 0x808),
            (1, 0x8000_0000_0000_0100),
            (8, 0x8000_0000_0000_107F),
        ],
    );
}

/// Asserts that each of these records is no object's.
fn tell_nothing<const N: usize>(rt: &impl Abort, records: &[(&str, [(usize, u64); N])]) {
    for (what, words) in records {
        assert!(rt; decode(&record(words)).is_none(), "{what}");
    }
}

#[test]
fn a_thread_whose_pc_is_2_is_none(rt: HostRuntime) {
    tell_nothing(&rt, &[("pc is 2", [(0, 2), (1, 2)])]);
}

#[test]
fn heads_past_a_range_are_none(rt: HostRuntime) {
    tell_nothing(
        &rt,
        &[
            ("no kind", [(0, 0)]),
            ("kind 9", [(0, 9)]),
            ("a group with a bit more", [(0, 0x101)]),
            ("a thread of group 128", [(0, 0x8002)]),
            ("a thread of space 128", [(0, 0x80_0002)]),
            ("a ready thread about 1", [(0, 0x01_0000_0002)]),
            ("a thread on core 8", [(0, 0x08_0100_0002)]),
            ("a thread that waits at 128", [(0, 0x80_0200_0002)]),
            ("a thread of cause 7", [(0, 0x07_0600_0002)]),
            ("a thread of state 7", [(0, 0x00_0700_0002)]),
            ("a thread with a bit more", [(0, 0x100_0000_0002)]),
            ("a memory object without pages", [(0, 0x004)]),
            ("a memory object of 65 pages", [(0, 0x4104)]),
            ("a connection to server 128", [(0, 0x8005)]),
            ("a client without its mark", [(0, 0x1_0005)]),
            ("a client 128", [(0, 0x0180_0005)]),
            ("a notification with a bit more", [(0, 0x106)]),
            ("a ring of channel 5", [(0, 0x507)]),
            ("a fresh input ring", [(0, 0x1_0407)]),
            ("a scheduler without cores", [(0, 0x008)]),
            ("a scheduler of 9 cores", [(0, 0x908)]),
        ],
    );
}

#[test]
fn words_past_a_range_are_none(rt: HostRuntime) {
    tell_nothing(
        &rt,
        &[
            ("a slot without its mark", [(0, 1), (1, 0x007F)]),
            ("a slot of object 128", [(0, 1), (1, 0x8800)]),
            ("a slot 32", [(0, 1), (9, 0x800F)]),
            ("a thread's word 17", [(0, 2), (17, 1)]),
            ("a region of no page", [(0, 3), (1, 0x8000_0712_0000_0000)]),
            ("a region of no right", [(0, 3), (1, 0x8000_0012_0010_0000)]),
            ("a region not marked", [(0, 3), (1, 0x0000_0712_0010_0000)]),
            (
                "a region with a bit more",
                [(0, 3), (1, 0x8000_0F12_0010_0000)],
            ),
            ("a region of 65 pages", [(0, 3), (1, 0x8000_0712_0410_0000)]),
            (
                "a region past index 63",
                [(0, 3), (1, 0x8000_0713_F820_0000)],
            ),
            (
                "a region past the addresses",
                [(0, 3), (1, 0x8000_0712_002F_FFFF)],
            ),
            (
                "a region behind a gap",
                [(0, 3), (2, 0x8000_0712_0010_0000)],
            ),
            ("a page 512", [(0, 0x104), (1, 0x200)]),
            ("a page more", [(0, 0x104), (1, 0x5_0004)]),
            ("a list of 129", [(0, 5), (1, 129)]),
            ("a number behind a list", [(0, 6), (2, 1)]),
            ("an output ring of page 512", [(0, 0x007), (2, 512)]),
            ("an input ring with a count", [(0, 0x407), (1, 1)]),
            ("an input ring with a page", [(0, 0x407), (2, 1)]),
            ("a ring's word 3", [(0, 0x007), (3, 1)]),
            (
                "a thread with no slice",
                [(0, 0x108), (1, 0x8000_0000_0000_000A)],
            ),
            ("a slice of 17", [(0, 0x108), (1, 0x8000_0000_0000_110A)]),
            (
                "a thread 128 on a core",
                [(0, 0x108), (1, 0x8000_0000_0000_0180)],
            ),
            (
                "a thread on a core past the cores",
                [(0, 0x108), (2, 0x8000_0000_0000_010A)],
            ),
            ("a core not marked", [(0, 0x108), (1, 0x10A)]),
        ],
    );
}

#[test]
fn lists_and_regions_out_of_order_are_none(rt: HostRuntime) {
    tell_nothing(
        &rt,
        &[
            ("a client 128 in a list", [(0, 5), (1, 1), (2, 128)]),
            ("one client twice", [(0, 5), (1, 2), (2, 0x0A0A)]),
            ("one waiter twice", [(0, 6), (1, 3), (2, 0x0A_0B0A)]),
            (
                "two regions of one page",
                [
                    (0, 3),
                    (1, 0x8000_0712_0020_0000),
                    (2, 0x8000_0712_0010_0001),
                ],
            ),
            (
                "regions by falling base",
                [
                    (0, 3),
                    (1, 0x8000_0712_0010_0001),
                    (2, 0x8000_0712_0010_0000),
                ],
            ),
        ],
    );
}

/// A thread whose numbers are drawn.
fn drawn_thread(draws: &mut Lcg) -> Thread {
    let mut thread = Thread {
        group: (draws.next() >> 57) as u8,
        space: (draws.next() >> 57) as u8,
        state: ThreadState::Waiting((draws.next() >> 57) as u8),
        pc: (draws.next() >> 34) as u32 * 4,
        x: [0; 32],
    };
    for j in 1..32 {
        thread.x[j] = (draws.next() >> 32) as u32;
    }
    thread
}

#[test]
fn drawn_threads_are_read_as_they_were(rt: HostRuntime) {
    let mut draws = Lcg { state: 7 };
    for _ in 0..100u8 {
        let thread = drawn_thread(&mut draws);
        let obj = Obj::Thread(thread);
        assert!(rt; obj.is_in_range());
        match decode(&encode(&obj)) {
            Some(Obj::Thread(read)) => assert_eq!(rt; read, thread),
            _ => panic!(rt; "no thread is read"),
        }
    }
}
