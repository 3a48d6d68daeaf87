//! A table that is filled, asked and changed.

ghost use Rattle.std.specs.Prelude.{◌<◌};

use super::*;
use cap_group::Group;
use ipc_note::{Connection, Notification, signal, wait};
use mem_space::{MemPage, Memory, Region, Space};
use sls_base::{OBJECTS, ObjId, READ, Ring, SCHEDULER, Thread, ThreadState};

const NOTE: ObjId = 20;

/// A thread that is ready.
fn ready(pc: u32) -> Thread {
    Thread {
        group: 7,
        space: 8,
        state: ThreadState::Ready,
        pc,
        x: [0; 32],
    }
}

/// A memory object of one fresh page.
fn one_page(page: u16) -> Memory {
    let mut memory = Memory::new();
    if !memory.pages.is_full() {
        memory.pages.push(MemPage { page, fresh: true });
    }
    memory
}

/// A table with an object of each kind: numbers 1 and 10 to 16.
fn of_each_kind() -> Objects {
    let mut objects = Objects::new();
    objects.put(
        SCHEDULER,
        Slot::Scheduler(Cores {
            cores: 2,
            running: [None; 8],
        }),
    );
    objects.put(10, Slot::Group(Group::new()));
    objects.put(11, Slot::Thread(ready(64)));
    objects.put(12, Slot::Space(Space::new()));
    objects.put(13, Slot::Memory(one_page(30)));
    objects.put(
        14,
        Slot::Connection(Connection {
            server: 11,
            client: None,
        }),
    );
    objects.put(15, Slot::Notification(Notification { count: 3 }));
    objects.put(
        16,
        Slot::Ring(Ring {
            channel: 2,
            fresh: true,
            count: 9,
            page: 2,
        }),
    );
    objects
}

/// Which of the readers find their kind at a number.
fn found(objects: &Objects, id: ObjId) -> [bool; 7] {
    [
        objects.group(id).is_some(),
        objects.thread(id).is_some(),
        objects.space(id).is_some(),
        objects.memory(id).is_some(),
        objects.connection(id).is_some(),
        objects.notification(id).is_some(),
        objects.ring(id).is_some(),
    ]
}

/// Says that the first page of a memory object is fresh no more.
fn fill_first_page(objects: &mut Objects, id: ObjId)
    requires { id < OBJECTS }
{
    let Some(memory) = objects.memory(id) else {
        return;
    };
    if memory.pages.len() > 0 {
        objects.set_fresh(id, 0, false);
    }
}

/// Maps two pages to be read, from address 20480 on, where an empty space stands.
fn map_two_pages(objects: &mut Objects, id: ObjId)
    requires { id < OBJECTS }
{
    let Some(space) = objects.space(id) else {
        return;
    };
    if space.regions.is_empty() {
        objects.map_region(
            id,
            Region {
                base: 5,
                count: 2,
                first: 0,
                memory: 13,
                rights: READ,
            },
        );
    }
}

/// Takes the region that begins at a page out of a space.
fn unmap_page(objects: &mut Objects, id: ObjId, base: u32)
    requires { id < OBJECTS }
{
    if objects.space(id).is_some() {
        objects.unmap_region(id, base);
    }
}

/// Where the first region of a space has the page behind its first.
fn translated(objects: &Objects, id: ObjId) -> Option<(ObjId, u8)> {
    let region = objects.space(id)?.regions.first()?;
    Some((region.memory, region.first.wrapping_add(1)))
}

/// Lets a thread that stands in no list wait on the notification.
fn wait_on_note(objects: &mut Objects, id: ObjId)
    requires { id < OBJECTS }
{
    let Some(mut note) = objects.notification(NOTE) else {
        return;
    };
    let mut caller = objects.thread_or_zeros(id);
    if !objects.links.is_linked(id as usize) {
        wait(&mut note, NOTE, &mut objects.links, id, &mut caller);
    }
    objects.put(NOTE, Slot::Notification(note));
    objects.set_thread(id, caller);
}

/// Signals the notification.
fn signal_note(objects: &mut Objects) {
    let Some(mut note) = objects.notification(NOTE) else {
        return;
    };
    let first = objects.first(NOTE);
    let mut caller = ready(0);
    let mut waiter = objects.thread_or_zeros(first.unwrap_or(0));
    signal(
        &mut note,
        NOTE,
        &mut objects.links,
        &mut caller,
        &mut waiter,
    );
    objects.put(NOTE, Slot::Notification(note));
    if let Some(first) = first {
        objects.set_thread(first, waiter);
    }
}

#[test]
fn each_kind_is_found_by_its_own_reader_alone(rt: HostRuntime) {
    let objects = of_each_kind();
    for id in 0..=255u8 {
        for (kind, found) in found(&objects, id).iter().enumerate() {
            assert_eq!(rt;
                *found,
                id >= 10 && id as usize - 10 == kind,
                "{kind} at {id}"
            );
        }
        assert_eq!(rt;
            objects.slot(id).is_some(),
            (id as usize) < OBJECTS,
            "at {id}"
        );
    }
    assert!(rt; objects.ring(16).is_some_and(|ring| ring.count == 9));
    assert_eq!(rt; objects.thread_or_zeros(11), ready(64));
    assert_eq!(rt; objects.thread_or_zeros(12).group, 0);
}

#[test]
fn what_is_taken_away_is_gone_and_all_else_stays(rt: HostRuntime) {
    let mut objects = of_each_kind();
    assert!(rt;
        matches!(
            objects.take(15),
            Slot::Notification(Notification { count: 3 })
        )
    );
    assert!(rt; matches!(objects.take(15), Slot::Empty));
    objects.set_thread(14, ready(8));
    assert_eq!(rt;
        found(&objects, 14),
        [false, true, false, false, false, false, false]
    );
    assert_eq!(rt; found(&objects, 15), [false; 7]);
    assert_eq!(rt;
        found(&objects, 16),
        [false, false, false, false, false, false, true]
    );
    assert_eq!(rt; objects.thread_or_zeros(11), ready(64));
}

#[test]
fn a_core_runs_what_it_is_told(rt: HostRuntime) {
    let mut objects = of_each_kind();
    objects.run(1, Some((11, 16)));
    assert_eq!(rt; objects.running(1), Some((11, 16)));
    assert_eq!(rt; objects.running(0), None);
    objects.run(1, None);
    assert_eq!(rt; objects.running(1), None);
}

#[test]
fn a_region_is_mapped_in_one_space_and_taken_out_again(rt: HostRuntime) {
    let mut objects = of_each_kind();
    objects.put(17, Slot::Space(Space::new()));
    map_two_pages(&mut objects, 12);
    for (id, want) in [(12, Some((13, 1))), (17, None)] {
        assert_eq!(rt; translated(&objects, id), want, "at {id}");
    }
    unmap_page(&mut objects, 12, 6);
    assert_eq!(rt; translated(&objects, 12), Some((13, 1)));
    unmap_page(&mut objects, 12, 5);
    assert_eq!(rt; translated(&objects, 12), None);
}

#[test]
fn a_mark_is_that_of_one_page(rt: HostRuntime) {
    let mut objects = of_each_kind();
    objects.put(17, Slot::Memory(one_page(31)));
    fill_first_page(&mut objects, 13);
    for (id, want) in [(13, Some((30, false))), (17, Some((31, true)))] {
        let page = match objects.memory(id) {
            Some(memory) => memory.page(0),
            None => None,
        };
        assert_eq!(rt; page.map(|page| (page.page, page.fresh)), want, "at {id}");
    }
}

#[test]
fn waiters_wake_in_order_without_the_one_that_left(rt: HostRuntime) {
    let mut objects = of_each_kind();
    objects.put(NOTE, Slot::Notification(Notification { count: 0 }));
    for id in 30..33u8 {
        objects.set_thread(id, ready(u32::from(id)));
        wait_on_note(&mut objects, id);
    }
    assert_eq!(rt; objects.next(30), Some(31));
    objects.leave(31);
    objects.leave(31);
    assert_eq!(rt; objects.next(30), Some(32));
    for (first, count) in [(Some(30), 0), (Some(32), 0), (None, 1)] {
        assert_eq!(rt; objects.first(NOTE), first);
        signal_note(&mut objects);
        assert!(rt;
            objects
                .notification(NOTE)
                .is_some_and(|note| note.count == count)
        );
    }
    for id in [30, 32] {
        assert_eq!(rt; objects.dequeue(), Some(id));
        assert_eq!(rt; objects.thread_or_zeros(id), ready(u32::from(id)));
    }
    assert_eq!(rt; objects.dequeue(), None);
    assert_eq!(rt;
        objects.thread_or_zeros(31).state,
        ThreadState::Waiting(NOTE)
    );
}
