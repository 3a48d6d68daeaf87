//! Calls on a small table: a group of which ten slots are taken, and ten objects and five pages in use.

use crate::done::Done;
use crate::runtime::Runtime;
use call_readings::{Devices, NumbersInUse, refusal_of};
use cap_group::{Cap, Group};
use ipc_note::RUN_QUEUE;
use kobj_table::{Cores, Objects, Slot};
use plain_state::{ANSWER, Call, FIRST_ARGUMENT, Refusal, arg};
use sls_base::{
    ALL_RIGHTS, GROUP_SLOTS, MEMORY_PAGES, OBJECTS, ObjId, SCHEDULER, Thread, ThreadState,
};

const GROUP: ObjId = 7;

const CALLER: ObjId = 9;

const NOTHING_OUTSIDE: Devices = Devices {
    accepted: [0; 4],
    first_input: None,
};

/// The group, whose first ten slots name itself.
fn group() -> Group {
    let mut slots = [None; GROUP_SLOTS];
    for slot in 0..10 {
        slots[slot] = Some(Cap {
            object: GROUP,
            rights: ALL_RIGHTS,
        });
    }
    Group { slots }
}

/// The kernel, with numbers 0 to 9 of objects and 0 to 4 of pages in use.
fn kernel() -> Runtime {
    let mut objects = Objects::new();
    let cores = Cores {
        cores: 1,
        running: [None; 8],
    };
    objects.put(SCHEDULER, Slot::Scheduler(cores));
    objects.put(GROUP, Slot::Group(group()));
    let mut numbers = NumbersInUse::new();
    for id in 0..10 {
        numbers.take_object(id);
    }
    for page in 0..5 {
        numbers.take_page(page);
    }
    Runtime::new(objects, numbers)
}

/// A thread of the group that calls with these arguments.
fn caller(arguments: [u32; 3]) -> Thread {
    let mut x = [0; 32];
    for i in 0..3 {
        x[FIRST_ARGUMENT + i] = arguments[i];
    }
    Thread {
        group: GROUP,
        space: 8,
        state: ThreadState::Running(0),
        pc: 64,
        x,
    }
}

/// Carries out a call that isn't refused.
fn carry_out(calls: &mut Runtime, me: ObjId, thread: &Thread, call: Call) -> Option<Done> {
    match call {
        Call::GroupNew => Some(calls.group_new(me, thread)),
        Call::NoteNew => Some(calls.note_new(me, thread)),
        Call::CapCopy => Some(calls.cap_copy(me, thread)),
        Call::CapDrop if (arg(thread, 1) as usize) < GROUP_SLOTS => Some(calls.cap_drop(
            me, thread,
        )),
        Call::MemNew if arg(thread, 0) as usize <= MEMORY_PAGES => Some(calls.mem_new(me, thread)),
        Call::Signal if matches!(calls.objects.slot(SCHEDULER), Some(Slot::Scheduler(_))) => {
            Some(calls.signal(me, thread))
        }
        Call::Wait
            if matches!(calls.objects.slot(SCHEDULER), Some(Slot::Scheduler(_)))
                && (me as usize) < OBJECTS
                && !calls.objects.links.is_linked(me as usize) => { Some(calls.wait(me, thread)) }
        _ => None,
    }
}

/// What a call of a thread answers.
fn answer(calls: &mut Runtime, me: ObjId, call: Call, arguments: [u32; 3]) -> Option<u32> {
    let thread = caller(arguments);
    match refusal_of(
        &calls.objects,
        &calls.numbers,
        &NOTHING_OUTSIDE,
        me,
        &thread,
        call,
    ) {
        Some(refusal) => Some(refusal.number()),
        None => Some(carry_out(calls, me, &thread, call)?.regs.x[ANSWER]),
    }
}

/// Puts a thread down on core 0, where it stands in no list.
fn put_down(calls: &mut Runtime, me: ObjId, left: u8, thread: &Thread, done: &Done) {
    if (me as usize) < OBJECTS && me != SCHEDULER && !calls.objects.links.is_linked(me as usize) {
        calls.settle(0, me, left, thread, done);
    }
}

/// A thread waits on a new notification, and the caller signals it with so much left of its slice.
fn signal_with(calls: &mut Runtime, left: u8) {
    answer(calls, CALLER, Call::NoteNew, [0; 3]);
    calls.objects.set_thread(20, caller([10, 0, 0]));
    answer(calls, 20, Call::Wait, [10, 0, 0]);
    let thread = caller([10, 0, 0]);
    if let Some(done) = carry_out(calls, CALLER, &thread, Call::Signal) {
        put_down(calls, CALLER, left, &thread, &done);
    }
}

#[test]
fn who_is_woken_stands_before_its_waker_whose_slice_has_ended(rt: HostRuntime) {
    let mut calls = kernel();
    signal_with(&mut calls, 0);
    assert_eq!(rt; calls.objects.first(RUN_QUEUE as ObjId), Some(20));
    assert_eq!(rt; calls.objects.next(20), Some(CALLER));
    assert_eq!(rt; calls.objects.running(0), None);
    let waker = calls.objects.thread_or_zeros(CALLER);
    assert_eq!(rt; waker.state, ThreadState::Ready);
    assert_eq!(rt; (waker.pc, waker.x[ANSWER]), (68, 0));
}

#[test]
fn a_waker_with_something_left_of_its_slice_keeps_its_core(rt: HostRuntime) {
    let mut calls = kernel();
    signal_with(&mut calls, 3);
    assert_eq!(rt; calls.objects.next(20), None);
    assert_eq!(rt; calls.objects.running(0), Some((CALLER, 3)));
    assert_eq!(rt;
        calls.objects.thread_or_zeros(CALLER).state,
        ThreadState::Running(0)
    );
}

#[test]
fn memory_objects_take_all_pages_and_keep_them_once_dropped(rt: HostRuntime) {
    let mut calls = kernel();
    for (pages, want) in [
        (64, 10),
        (64, 11),
        (64, 12),
        (64, 13),
        (64, 14),
        (64, 15),
        (64, 16),
        (59, 17),
        (1, Refusal::NoPages.number()),
    ] {
        assert_eq!(rt;
            answer(&mut calls, CALLER, Call::MemNew, [pages, 0, 0]),
            Some(want)
        );
    }
    assert_eq!(rt;
        answer(&mut calls, CALLER, Call::CapDrop, [0, 10, 0]),
        Some(0)
    );
    assert_eq!(rt;
        answer(&mut calls, CALLER, Call::MemNew, [1, 0, 0]),
        Some(Refusal::NoPages.number())
    );
}

#[test]
fn a_group_has_room_for_what_it_has_slots_for(rt: HostRuntime) {
    let mut calls = kernel();
    for want in 10..32 {
        assert_eq!(rt;
            answer(&mut calls, CALLER, Call::GroupNew, [0; 3]),
            Some(want)
        );
    }
    assert_eq!(rt;
        answer(&mut calls, CALLER, Call::GroupNew, [0; 3]),
        Some(Refusal::NoSlot.number())
    );
    assert_eq!(rt; calls.made, Some(31));
    assert_eq!(rt; calls.numbers.uses_object(31), true);
    assert_eq!(rt; calls.numbers.uses_object(32), false);
}

#[test]
fn waiters_wake_in_order_without_one_that_left_and_then_the_count_rises(rt: HostRuntime) {
    let mut calls = kernel();
    assert_eq!(rt; answer(&mut calls, CALLER, Call::NoteNew, [0; 3]), Some(10));
    for me in [20, 21, 22] {
        calls.objects.set_thread(me, caller([10, 0, 0]));
        assert!(rt; answer(&mut calls, me, Call::Wait, [10, 0, 0]).is_some());
    }
    calls.objects.leave(21);
    for _ in 0..3 {
        assert_eq!(rt;
            answer(&mut calls, CALLER, Call::Signal, [10, 0, 0]),
            Some(0)
        );
    }
    assert_eq!(rt; calls.objects.first(RUN_QUEUE as ObjId), Some(20));
    assert_eq!(rt; calls.objects.next(20), Some(22));
    assert_eq!(rt; calls.objects.next(22), None);
    assert_eq!(rt; calls.objects.thread_or_zeros(22).state, ThreadState::Ready);
    assert_eq!(rt;
        calls.objects.notification(10).map(|note| note.count),
        Some(1)
    );
}

#[test]
fn a_copy_has_the_rights_asked_for_and_no_more_than_are_held(rt: HostRuntime) {
    let mut calls = kernel();
    assert_eq!(rt;
        answer(&mut calls, CALLER, Call::CapCopy, [3, 0, 5]),
        Some(10)
    );
    let copy = calls.objects.group(GROUP).and_then(|group| group.find(10));
    assert_eq!(rt;
        copy,
        Some(Cap {
            object: GROUP,
            rights: 5,
        })
    );
    assert_eq!(rt;
        answer(&mut calls, CALLER, Call::CapCopy, [10, 0, 4]),
        Some(Refusal::NoRight.number())
    );
    assert_eq!(rt;
        answer(&mut calls, CALLER, Call::CapCopy, [11, 0, 4]),
        Some(Refusal::NoCap.number())
    );
}
