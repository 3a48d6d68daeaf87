//! Tables and records of their objects.

ghost use Rattle.std.specs.Prelude.{◌<◌};
ghost use Rattle.kobj_codec.specs.Objects.{IsObj};

use super::*;
use cap_group::Group;
use ipc_note::{Connection, Notification};
use kobj_codec::{Obj, decode, encode};
use kobj_table::{Cores, Objects, Slot};
use mem_space::{MemPage, Memory, Region, Space};
use sls_base::{OBJECTS, ObjId, READ, Ring, SCHEDULER, Thread, ThreadState};

/// A thread that runs on core 0, or waits.
fn thread(state: ThreadState) -> Thread {
    Thread {
        group: 7,
        space: 12,
        state,
        pc: 64,
        x: [0; 32],
    }
}

/// Two pages, of which the second is fresh.
fn two_pages() -> Memory {
    let mut memory = Memory::new();
    for (page, fresh) in [(30, false), (31, true)] {
        if !memory.pages.is_full() {
            memory.pages.push(MemPage { page, fresh });
        }
    }
    memory
}

/// A space of one page that may be read.
fn one_page() -> Space {
    let mut space = Space::new();
    if !space.regions.is_full() {
        space.regions.push(Region {
            base: 5,
            count: 1,
            first: 1,
            memory: 13,
            rights: READ,
        });
    }
    space
}

/// Puts a thread that stands in no list at the end of one.
fn stand(objects: &mut Objects, list: ObjId, id: ObjId)
    requires list { list < OBJECTS }
    requires id { id < OBJECTS }
{
    if !objects.links.is_linked(id as usize) {
        objects.links.push_back(list as usize, id as usize);
    }
}

/// A table with an object of each kind: numbers 1 and 10 to 16. Thread 11 runs on core 0, 33 and 30 are in the run
/// queue, 31 waits at the connection, and 32, 40 and 39 at the notification.
fn of_each_kind() -> Objects {
    let mut objects = Objects::new();
    let mut running = [None; 8];
    running[0] = Some((11, 5));
    objects.put(SCHEDULER, Slot::Scheduler(Cores { cores: 2, running }));
    objects.put(10, Slot::Group(Group::new()));
    objects.put(11, Slot::Thread(thread(ThreadState::Running(0))));
    objects.put(12, Slot::Space(one_page()));
    objects.put(13, Slot::Memory(two_pages()));
    objects.put(
        14,
        Slot::Connection(Connection {
            server: 11,
            client: Some(41),
        }),
    );
    objects.put(15, Slot::Notification(Notification { count: 3 }));
    objects.put(
        16,
        Slot::Ring(Ring {
            channel: 2,
            fresh: true,
            count: 9,
            page: 2,
        }),
    );
    for (list, id) in [(1, 33), (15, 32), (14, 31), (15, 40), (1, 30), (15, 39)] {
        stand(&mut objects, list, id);
    }
    objects
}

/// The words of the record of a number, if it has one that is in range.
fn words_at(objects: &Objects, id: ObjId) -> Option<[u64; 64]> {
    let obj = record_at(objects, id)?;
    if obj.is_in_range() {
        Some(encode(&obj))
    } else {
        None
    }
}

/// The words of a number's record, told once more of an empty table into which it was put back.
fn words_again(objects: &Objects, id: ObjId) -> Option<[u64; 64]> {
    let words = words_at(objects, id)?;
    let obj = decode(&words)?;
    words_at(&put_alone(id, &obj), id)
}

/// A table with the object of one record.
fn put_alone(id: ObjId, obj: &Obj) -> Objects
    requires { IsObj obj.now }
{
    laws::sound_objects_have_records();
    let mut objects = Objects::new();
    if (id as usize) < OBJECTS {
        put_back(&mut objects, id, obj);
    }
    objects
}

/// A word of bytes, the lowest first.
fn bytes(bytes: [u8; 8]) -> u64 {
    u64::from_le_bytes(bytes)
}

#[test]
fn each_kind_has_its_record(rt: HostRuntime) {
    let objects = of_each_kind();
    let mut kinds = [0; 128];
    kinds[1] = 8;
    for (i, kind) in kinds[10..17].iter_mut().enumerate() {
        *kind = i as u64 + 1;
    }
    for id in 0..=255u8 {
        let words = words_at(&objects, id);
        let kind = kinds.get(id as usize).copied().unwrap_or(0);
        assert_eq!(rt; words.map_or(0, |words| words[0] & 0xff), kind, "at {id}");
    }
}

#[test]
fn a_record_has_its_own_list(rt: HostRuntime) {
    let objects = of_each_kind();
    let note = words_at(&objects, 15).expect(&rt, "a notification");
    assert_eq!(rt;
        &note[..3],
        [6 | 3 << 32, 3, bytes([32, 40, 39, 0, 0, 0, 0, 0])].as_slice()
    );
    let connection = words_at(&objects, 14).expect(&rt, "a connection");
    assert_eq!(rt;
        &connection[..3],
        [bytes([5, 11, 41, 1, 0, 0, 0, 0]), 1, 31].as_slice()
    );
    let scheduler = words_at(&objects, 1).expect(&rt, "a scheduler");
    assert_eq!(rt;
        &scheduler[..2],
        [
            bytes([8, 2, 0, 0, 0, 0, 0, 0]),
            bytes([11, 5, 0, 0, 0, 0, 0, 0x80])
        ]
        .as_slice()
    );
    assert_eq!(rt;
        &scheduler[9..11],
        [2, bytes([33, 30, 0, 0, 0, 0, 0, 0])].as_slice()
    );
}

#[test]
fn what_is_put_back_has_the_same_record(rt: HostRuntime) {
    let objects = of_each_kind();
    for id in 0..128u8 {
        assert_eq!(rt;
            words_again(&objects, id),
            words_at(&objects, id),
            "at {id}"
        );
    }
}

#[test]
fn what_is_put_back_takes_its_list_alone(rt: HostRuntime) {
    let objects = of_each_kind();
    let Some(note) = record_at(&objects, 15) else {
        return;
    };
    if !note.is_in_range() {
        return;
    }
    let alone = put_alone(15, &note);
    for list in 0..128u8 {
        assert_eq!(rt;
            alone.first(list),
            if list == 15 { Some(32) } else { None },
            "at {list}"
        );
    }
    for id in 0..128u8 {
        let linked = id == 32 || id == 39 || id == 40;
        assert_eq!(rt; alone.links.is_linked(id as usize), linked, "at {id}");
    }
}
