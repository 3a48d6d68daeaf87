//! Small tables, of which each test says what is reached and what the sweep leaves.

ghost use Rattle.std.specs.Prelude.{◌<◌};

use super::*;
use cap_group::{Cap, Group};
use ipc_note::{Connection, Notification};
use kobj_table::{Cores, Objects, Slot};
use mem_space::{MemPage, Memory, Region, Space};
use sls_base::{
    ALL_RIGHTS, CORES, FIRST_OUTPUT_RING, GROUP_SLOTS, INPUT_RING, LOST_OBJECT, OBJECTS, ObjId,
    READ, ROOT_GROUP, Ring, SCHEDULER, Thread, ThreadState,
};

const GROUP: ObjId = 7;

const SPACE: ObjId = 8;

/// A capability with all rights.
fn cap_to(object: ObjId) -> Cap {
    Cap {
        object,
        rights: ALL_RIGHTS,
    }
}

/// A group that names these objects, in its last slots.
fn group_of(named: &[ObjId]) -> Group {
    let mut group = Group::new();
    for (place, id) in named.iter().enumerate() {
        if place < GROUP_SLOTS {
            group.slots[GROUP_SLOTS - 1 - place] = Some(cap_to(*id));
        }
    }
    group
}

/// A thread of the first group and space of the program.
fn thread(state: ThreadState) -> Thread {
    Thread {
        group: GROUP,
        space: SPACE,
        state,
        pc: 64,
        x: [9; 32],
    }
}

/// A space that shows the first page of a memory object.
fn space_of(memory: ObjId) -> Slot {
    let mut space = Space::new();
    if !space.is_full() {
        space.regions.push(Region {
            base: 5,
            count: 1,
            first: 0,
            memory,
            rights: READ,
        });
    }
    Slot::Space(space)
}

/// A memory object of one page.
fn memory_of(page: u16) -> Slot {
    let mut memory = Memory::new();
    if !memory.pages.is_full() {
        memory.pages.push(MemPage { page, fresh: true });
    }
    Slot::Memory(memory)
}

/// A table with the objects that are always there, and a group and a space that have nothing in them. The root group
/// names these two and the objects that are given.
fn table(named: &[ObjId]) -> Objects {
    let mut objects = Objects::new();
    let mut root = group_of(named);
    root.slots[0] = Some(cap_to(GROUP));
    root.slots[1] = Some(cap_to(SPACE));
    objects.put(ROOT_GROUP, Slot::Group(root));
    objects.put(GROUP, Slot::Group(Group::new()));
    objects.put(SPACE, Slot::Space(Space::new()));
    objects.put(
        SCHEDULER,
        Slot::Scheduler(Cores {
            cores: 2,
            running: [None; CORES],
        }),
    );
    for channel in 0..4u8 {
        objects.put(
            FIRST_OUTPUT_RING + channel,
            Slot::Ring(Ring {
                channel,
                fresh: false,
                count: 3,
                page: u16::from(channel),
            }),
        );
    }
    objects.put(
        INPUT_RING,
        Slot::Ring(Ring {
            channel: 4,
            fresh: false,
            count: 0,
            page: 0,
        }),
    );
    objects
}

/// Puts a thread at a number and at the end of a list.
fn put_in_list(objects: &mut Objects, id: ObjId, list: ObjId, state: ThreadState)
    requires id { id < OBJECTS }
    requires list { list < OBJECTS }
{
    objects.set_thread(id, thread(state));
    if !objects.links.is_linked(id as usize) {
        objects.links.push_back(list as usize, id as usize);
    }
}

/// The first three threads of a list.
fn listed(objects: &Objects, list: ObjId) -> [Option<ObjId>; 3]
    requires { list < OBJECTS }
{
    let mut listed = [None; 3];
    let mut next = objects.first(list);
    for place in 0..3 {
        listed[place] = next;
        next = match next {
            Some(id) if (id as usize) < OBJECTS => objects.next(id),
            _ => None,
        };
    }
    listed
}

/// Which numbers are among these.
fn among(ids: &[ObjId]) -> [bool; OBJECTS] {
    let mut among = [false; OBJECTS];
    for id in ids {
        if (*id as usize) < OBJECTS {
            among[*id as usize] = true;
        }
    }
    among
}

/// Which numbers have an object.
fn standing(objects: &Objects) -> [bool; OBJECTS] {
    let mut standing = [false; OBJECTS];
    for id in 0..OBJECTS {
        standing[id] = !matches!(objects.slot(id as ObjId), Some(Slot::Empty));
    }
    standing
}

#[test]
fn what_is_named_over_two_groups_is_reached_by_each_kind_of_edge(rt: HostRuntime) {
    let mut objects = table(&[10]);
    objects.put(10, Slot::Group(group_of(&[11, 15, 17])));
    objects.set_thread(
        11,
        Thread {
            group: 12,
            space: 13,
            ..thread(ThreadState::Ready)
        },
    );
    objects.put(12, Slot::Group(Group::new()));
    objects.put(13, space_of(14));
    objects.put(14, memory_of(30));
    objects.put(
        15,
        Slot::Connection(Connection {
            server: 127,
            client: Some(20),
        }),
    );
    objects.set_thread(127, thread(ThreadState::Stopped(0)));
    objects.put(17, Slot::Notification(Notification { count: 0 }));
    // A client that is served, waiters, the run queue and cores lead nowhere.
    objects.set_thread(20, thread(ThreadState::Served(15)));
    put_in_list(&mut objects, 21, 17, ThreadState::Waiting(17));
    put_in_list(&mut objects, 22, SCHEDULER, ThreadState::Ready);
    objects.set_thread(23, thread(ThreadState::Running(0)));
    objects.run(0, Some((23, 9)));
    assert_eq!(rt;
        reach(&objects),
        among(&[
            0, 1, 2, 3, 4, 5, 6, GROUP, SPACE, 10, 11, 12, 13, 14, 15, 17, 127
        ])
    );
}

#[test]
fn groups_that_name_each_other_go_where_nothing_else_names_them(rt: HostRuntime) {
    let mut objects = table(&[]);
    objects.put(20, Slot::Group(group_of(&[21, ROOT_GROUP])));
    objects.put(21, Slot::Group(group_of(&[20, 22])));
    objects.put(22, memory_of(30));
    assert_eq!(rt; sweep(&mut objects), among(&[20, 21, 22]));
    assert_eq!(rt;
        standing(&objects),
        among(&[0, 1, 2, 3, 4, 5, 6, GROUP, SPACE])
    );
    assert!(rt;
        objects
            .ring(FIRST_OUTPUT_RING)
            .is_some_and(|ring| ring.count == 3)
    );
    assert_eq!(rt; sweep(&mut objects), [false; OBJECTS]);
}

#[test]
fn threads_that_go_leave_every_place_and_the_others_keep_theirs(rt: HostRuntime) {
    let mut objects = table(&[10, 11, 12, 13, 14, 15]);
    objects.put(20, Slot::Group(group_of(&[30, 31, 32, 33, 34])));
    objects.put(10, Slot::Notification(Notification { count: 0 }));
    objects.put(
        11,
        Slot::Connection(Connection {
            server: 12,
            client: Some(34),
        }),
    );
    objects.set_thread(12, thread(ThreadState::Running(0)));
    objects.run(0, Some((12, 9)));
    objects.set_thread(31, thread(ThreadState::Running(1)));
    objects.run(1, Some((31, 16)));
    put_in_list(&mut objects, 30, SCHEDULER, ThreadState::Ready);
    put_in_list(&mut objects, 13, SCHEDULER, ThreadState::Ready);
    put_in_list(&mut objects, 14, 10, ThreadState::Waiting(10));
    put_in_list(&mut objects, 32, 10, ThreadState::Waiting(10));
    put_in_list(&mut objects, 33, 11, ThreadState::Calling(11));
    put_in_list(&mut objects, 15, 11, ThreadState::Calling(11));
    objects.set_thread(34, thread(ThreadState::Served(11)));
    assert_eq!(rt;
        sweep(&mut objects),
        among(&[SCHEDULER, 10, 11, 20, 30, 31, 32, 33, 34])
    );
    assert_eq!(rt; listed(&objects, SCHEDULER), [Some(13), None, None]);
    assert_eq!(rt; listed(&objects, 10), [Some(14), None, None]);
    assert_eq!(rt; listed(&objects, 11), [Some(15), None, None]);
    assert_eq!(rt; objects.running(0), Some((12, 9)));
    assert_eq!(rt; objects.running(1), None);
    assert!(rt;
        objects
            .connection(11)
            .is_some_and(|connection| connection.client.is_none())
    );
    for (id, state) in [
        (12, ThreadState::Running(0)),
        (13, ThreadState::Ready),
        (14, ThreadState::Waiting(10)),
        (15, ThreadState::Calling(11)),
    ] {
        assert_eq!(rt; objects.thread_or_zeros(id), thread(state), "at {id}");
    }
}

#[test]
fn threads_that_wait_for_what_goes_stop(rt: HostRuntime) {
    let mut objects = table(&[10, 11, 12, 13, 14]);
    objects.put(40, Slot::Notification(Notification { count: 0 }));
    for (connection, client) in [(41, None), (42, Some(12)), (43, None)] {
        objects.put(
            connection,
            Slot::Connection(Connection { server: 13, client }),
        );
    }
    put_in_list(&mut objects, 10, 40, ThreadState::Waiting(40));
    put_in_list(&mut objects, 11, 41, ThreadState::Calling(41));
    objects.set_thread(12, thread(ThreadState::Served(42)));
    objects.set_thread(13, thread(ThreadState::Serving(43)));
    objects.set_thread(14, thread(ThreadState::Stopped(0)));
    assert_eq!(rt;
        sweep(&mut objects),
        among(&[10, 11, 12, 13, 40, 41, 42, 43])
    );
    for id in 10..14 {
        assert_eq!(rt;
            objects.thread_or_zeros(id),
            thread(ThreadState::Stopped(LOST_OBJECT)),
            "at {id}"
        );
    }
    assert_eq!(rt;
        objects.thread_or_zeros(14),
        thread(ThreadState::Stopped(0))
    );
    for list in [40, 41] {
        assert_eq!(rt; listed(&objects, list), [None; 3], "at {list}");
    }
}
