//! Calls on a small kernel, each refused or not, and the pages that ticks of it need.

ghost use Rattle.std.specs.Prelude.{◌≡◌, ◌≤◌, length};
ghost use Rattle.kobj_table.specs.Slots.{cores_of};

use super::*;
use crate::need::need_of_thread;
use cap_group::{Cap, Group};
use ipc_note::{Connection, Notification};
use kobj_table::{Cores, Objects, Slot};
use mem_space::{MemPage, Memory, Region, Space};
use plain_model::Call;
use pmem_layout::{frame_at, runtime_frame};
use pmem_model::Pmem;
use sls_base::{
    ALL_RIGHTS, CORES, CoreNo, EXECUTE, OBJECTS, OUTPUT_CHANNELS, ObjId, PAGES, PageNo, READ, Ring,
    SCHEDULER, Thread, ThreadState, WORDS, WRITE,
};
use std::alloc::{AllocError, Global};
use std::test::Fail;

// The objects behind the fixed ones.
const GROUP: ObjId = 7;

const SPACE: ObjId = 8;

const MEMORY: ObjId = 9;

const THREAD: ObjId = 10;

const OWN_CONNECTION: ObjId = 11;

const NOTE: ObjId = 12;

const OTHER_CONNECTION: ObjId = 13;

const FULL_NOTE: ObjId = 14;

const FULL_GROUP: ObjId = 15;

const FULL_SPACE: ObjId = 16;

// The slots of the thread's group. Those from 16 on are empty.
const TO_GROUP: u32 = 0;

const TO_SPACE: u32 = 1;

const TO_SPACE_TO_READ: u32 = 2;

const TO_MEMORY: u32 = 3;

const TO_OUTPUT: u32 = 4;

const TO_OUTPUT_TO_READ: u32 = 5;

const TO_FULL_OUTPUT: u32 = 6;

const TO_INPUT: u32 = 7;

const TO_NOTE: u32 = 8;

const TO_FULL_NOTE: u32 = 9;

const TO_OWN_CONNECTION: u32 = 10;

const TO_OTHER_CONNECTION: u32 = 11;

const TO_FULL_GROUP: u32 = 12;

const TO_FULL_SPACE: u32 = 13;

const TO_MEMORY_TO_READ: u32 = 14;

const TO_NOTE_TO_READ: u32 = 15;

const EMPTY: u32 = 16;

// What stands where among the addresses: code at 0, two pages of data, and one page of data twice. Nothing stands at
// 0x6000.
const DATA: u32 = 0x2000;

const TWICE: u32 = 0x4000;

const NOWHERE: u32 = 0x6000;

// Their pages.
const CODE_PAGE: PageNo = 20;

const FIRST_PAGE: PageNo = 21;

const SECOND_PAGE: PageNo = 22;

/// What is to be read.
#[derive(Drop)]
struct Kernel {
    objects: Objects,
    numbers: NumbersInUse,
    devices: Devices,
}

fn ring(channel: u8, count: u64) -> Slot {
    Slot::Ring(Ring {
        channel,
        fresh: false,
        count,
        page: PageNo::from(channel),
    })
}

fn group() -> Group {
    let mut group = Group::new();
    for (slot, (object, rights)) in [
        (GROUP, ALL_RIGHTS),
        (SPACE, ALL_RIGHTS),
        (SPACE, READ),
        (MEMORY, ALL_RIGHTS),
        (2, WRITE),
        (2, READ),
        (3, WRITE),
        (6, READ),
        (NOTE, ALL_RIGHTS),
        (FULL_NOTE, ALL_RIGHTS),
        (OWN_CONNECTION, ALL_RIGHTS),
        (OTHER_CONNECTION, ALL_RIGHTS),
        (FULL_GROUP, ALL_RIGHTS),
        (FULL_SPACE, ALL_RIGHTS),
        (MEMORY, READ),
        (NOTE, READ),
    ]
    .iter()
    .enumerate()
    {
        if let Some(held) = group.slots.get_mut(slot) {
            *held = Some(Cap {
                object: *object,
                rights: *rights,
            });
        }
    }
    group
}

fn region(base: u32, count: u8, first: u8, rights: u8) -> Region {
    Region {
        base,
        count,
        first,
        memory: MEMORY,
        rights,
    }
}

fn space(regions: &[Region]) -> Space {
    let mut space = Space::new();
    for region in regions {
        if !space.regions.is_full() {
            space.regions.push(*region);
        }
    }
    space
}

/// A space with as many regions as there can be: each page from 16 on.
fn full_space() -> Space {
    let mut space = Space::new();
    for base in 16..32u32 {
        if !space.regions.is_full() {
            space.regions.push(region(base, 1, 0, READ));
        }
    }
    space
}

fn memory() -> Memory {
    let mut memory = Memory::new();
    for page in [CODE_PAGE, FIRST_PAGE, SECOND_PAGE] {
        if !memory.pages.is_full() {
            memory.pages.push(MemPage { page, fresh: false });
        }
    }
    memory
}

/// A thread that names a call, with its arguments.
fn caller(call: u32, arguments: [u32; 6], pc: u32) -> Thread {
    let mut x = [0; 32];
    for (i, argument) in arguments.iter().enumerate() {
        if let Some(register) = x.get_mut(i + 10) {
            *register = *argument;
        }
    }
    x[17] = call;
    Thread {
        group: GROUP,
        space: SPACE,
        state: ThreadState::Ready,
        pc,
        x,
    }
}

/// The objects of a kernel of two cores in which nobody runs.
fn small_objects() -> Objects {
    let mut objects = Objects::new();
    objects.put(0, Slot::Group(Group::new()));
    objects.put(
        SCHEDULER,
        Slot::Scheduler(Cores {
            cores: 2,
            running: [None; 8],
        }),
    );
    objects.put(2, ring(0, 5));
    objects.put(3, ring(1, 70));
    objects.put(4, ring(2, 0));
    objects.put(5, ring(3, 0));
    objects.put(6, ring(OUTPUT_CHANNELS as u8, 0));
    objects.put(GROUP, Slot::Group(group()));
    let code = region(0, 1, 0, READ | EXECUTE);
    let data = region(2, 2, 1, READ | WRITE);
    let again = region(4, 1, 1, READ | WRITE);
    let twice = region(5, 1, 1, READ | WRITE);
    objects.put(SPACE, Slot::Space(space(&[code, data, again, twice])));
    objects.put(MEMORY, Slot::Memory(memory()));
    objects.put(
        OWN_CONNECTION,
        Slot::Connection(Connection {
            server: THREAD,
            client: None,
        }),
    );
    objects.put(
        OTHER_CONNECTION,
        Slot::Connection(Connection {
            server: 99,
            client: None,
        }),
    );
    objects.put(NOTE, Slot::Notification(Notification { count: 3 }));
    objects.put(
        FULL_NOTE,
        Slot::Notification(Notification { count: u32::MAX }),
    );
    let cap = Some(Cap {
        object: NOTE,
        rights: READ,
    });
    objects.put(FULL_GROUP, Slot::Group(Group { slots: [cap; 32] }));
    objects.put(FULL_SPACE, Slot::Space(full_space()));
    objects
}

/// A kernel with these objects, and with an input of 8 bytes.
fn small_kernel() -> Kernel {
    let mut numbers = NumbersInUse::new();
    for id in 0..17u8 {
        numbers.take_object(id);
    }
    for page in [0, 1, 2, 3, CODE_PAGE, FIRST_PAGE, SECOND_PAGE] {
        if usize::from(page) < PAGES {
            numbers.take_page(page);
        }
    }
    Kernel {
        objects: small_objects(),
        numbers,
        devices: Devices {
            accepted: [5, 6, 0, 0],
            first_input: Some(8),
        },
    }
}

impl Kernel {
    /// The place in the order of the refusal that a call of the thread gets; 0 where it isn't refused.
    fn refused(&self, call: Call, arguments: [u32; 6]) -> u32 {
        let thread = caller(0, arguments, 0);
        let refusal = refusal_of(
            &self.objects,
            &self.numbers,
            &self.devices,
            THREAD,
            &thread,
            call,
        );
        match refusal {
            Some(refusal) => refusal.number().wrapping_neg(),
            None => 0,
        }
    }
}

// The places of the refusals in their order.
const NO_CAP: u32 = 2;

const WRONG_KIND: u32 = 3;

const NO_RIGHT: u32 = 4;

const BAD_ADDRESS: u32 = 5;

const BAD_SIZE: u32 = 6;

const OVERLAP: u32 = 7;

const NO_SLOT: u32 = 8;

const NO_OBJECTS: u32 = 9;

const NO_PAGES: u32 = 10;

const NO_REGIONS: u32 = 11;

const FULL: u32 = 12;

const NO_INPUT: u32 = 13;

const TAKEN: u32 = 14;

#[test]
fn each_call_can_be_made(rt: HostRuntime) {
    let kernel = small_kernel();
    for (row, (call, arguments)) in [
        (Call::Yield, [0; 6]),
        (Call::Halt, [0; 6]),
        (Call::Put, [TO_OUTPUT, DATA, 56, 0, 0, 0]),
        (Call::Get, [TO_INPUT, DATA, 1, 0, 0, 0]),
        (Call::MemNew, [64, 0, 0, 0, 0, 0]),
        (Call::Map, [TO_SPACE, TO_MEMORY, NOWHERE, 1, 2, 7]),
        (Call::Unmap, [TO_SPACE, DATA, 0, 0, 0, 0]),
        (Call::SpaceNew, [0; 6]),
        (Call::GroupNew, [0; 6]),
        (Call::CapCopy, [TO_NOTE, TO_GROUP, 15, 0, 0, 0]),
        (Call::CapDrop, [TO_GROUP, 15, 0, 0, 0, 0]),
        (Call::ThreadNew, [TO_GROUP, TO_SPACE, 4, 0, 0, 0]),
        (Call::NoteNew, [0; 6]),
        (Call::Signal, [TO_NOTE, 0, 0, 0, 0, 0]),
        (Call::Wait, [TO_NOTE_TO_READ, 0, 0, 0, 0, 0]),
        (Call::ConnNew, [0; 6]),
        (Call::ConnCall, [TO_OTHER_CONNECTION, 0, 0, 0, 0, 0]),
        (Call::Serve, [TO_OWN_CONNECTION, 0, 0, 0, 0, 0]),
        (Call::Checkpoint, [0; 6]),
    ]
    .iter()
    .enumerate()
    {
        assert_eq!(rt; kernel.refused(*call, *arguments), 0, "call {row}");
    }
}

#[test]
fn each_refusal_comes_for_its_own_cause(rt: HostRuntime) {
    let kernel = small_kernel();
    for (row, (call, arguments, refusal)) in [
        (Call::Signal, [EMPTY, 0, 0, 0, 0, 0], NO_CAP),
        (Call::Signal, [32, 0, 0, 0, 0, 0], NO_CAP),
        (Call::CapDrop, [TO_GROUP, EMPTY, 0, 0, 0, 0], NO_CAP),
        (Call::CapDrop, [TO_GROUP, 32, 0, 0, 0, 0], NO_CAP),
        (Call::Signal, [TO_GROUP, 0, 0, 0, 0, 0], WRONG_KIND),
        (Call::Put, [TO_INPUT, DATA, 8, 0, 0, 0], WRONG_KIND),
        (Call::Get, [TO_OUTPUT, DATA, 8, 0, 0, 0], WRONG_KIND),
        (Call::Put, [TO_OUTPUT_TO_READ, DATA, 8, 0, 0, 0], NO_RIGHT),
        (
            Call::Map,
            [TO_SPACE, TO_MEMORY_TO_READ, NOWHERE, 1, 2, 3],
            NO_RIGHT,
        ),
        (Call::CapCopy, [TO_NOTE, TO_GROUP, 16, 0, 0, 0], NO_RIGHT),
        (Call::Put, [TO_OUTPUT, NOWHERE - 7, 8, 0, 0, 0], BAD_ADDRESS),
        (Call::Put, [TO_OUTPUT, u32::MAX, 8, 0, 0, 0], BAD_ADDRESS),
        (Call::Get, [TO_INPUT, 0, 8, 0, 0, 0], BAD_ADDRESS),
        (
            Call::Map,
            [TO_SPACE, TO_MEMORY, NOWHERE + 4, 1, 2, 7],
            BAD_ADDRESS,
        ),
        (
            Call::Map,
            [TO_SPACE, TO_MEMORY, 0xffff_f000, 1, 2, 7],
            BAD_ADDRESS,
        ),
        (
            Call::Unmap,
            [TO_SPACE, DATA + 4096, 0, 0, 0, 0],
            BAD_ADDRESS,
        ),
        (
            Call::ThreadNew,
            [TO_GROUP, TO_SPACE, 6, 0, 0, 0],
            BAD_ADDRESS,
        ),
        (Call::Put, [TO_OUTPUT, DATA, 57, 0, 0, 0], BAD_SIZE),
        (Call::Put, [TO_OUTPUT, NOWHERE, 0, 0, 0, 0], BAD_SIZE),
        (Call::MemNew, [65, 0, 0, 0, 0, 0], BAD_SIZE),
        (Call::Map, [TO_SPACE, TO_MEMORY, NOWHERE, 2, 2, 7], BAD_SIZE),
        (Call::Map, [TO_SPACE, TO_MEMORY, NOWHERE, 1, 2, 8], BAD_SIZE),
        (
            Call::Map,
            [TO_SPACE, TO_MEMORY, DATA + 4096, 1, 2, 7],
            OVERLAP,
        ),
        (Call::CapCopy, [TO_NOTE, TO_FULL_GROUP, 1, 0, 0, 0], NO_SLOT),
        (
            Call::Map,
            [TO_FULL_SPACE, TO_MEMORY, 0, 0, 1, 1],
            NO_REGIONS,
        ),
        (Call::Put, [TO_FULL_OUTPUT, DATA, 8, 0, 0, 0], FULL),
        (Call::Signal, [TO_FULL_NOTE, 0, 0, 0, 0, 0], FULL),
        (Call::ConnCall, [TO_OWN_CONNECTION, 0, 0, 0, 0, 0], TAKEN),
        (Call::Serve, [TO_OTHER_CONNECTION, 0, 0, 0, 0, 0], TAKEN),
    ]
    .iter()
    .enumerate()
    {
        assert_eq!(rt; kernel.refused(*call, *arguments), *refusal, "row {row}");
    }
}

#[test]
fn of_two_refusals_the_earlier_in_their_order_comes(rt: HostRuntime) {
    let kernel = small_kernel();
    for (row, (call, arguments, refusal)) in [
        (Call::Map, [TO_GROUP, EMPTY, NOWHERE, 1, 2, 7], NO_CAP),
        (
            Call::Map,
            [TO_SPACE_TO_READ, TO_GROUP, NOWHERE, 1, 2, 7],
            WRONG_KIND,
        ),
        (
            Call::Put,
            [TO_OUTPUT_TO_READ, NOWHERE, 8, 0, 0, 0],
            NO_RIGHT,
        ),
        (Call::Put, [TO_OUTPUT, NOWHERE, 57, 0, 0, 0], BAD_ADDRESS),
        (Call::Map, [TO_SPACE, TO_MEMORY, DATA, 1, 2, 0], BAD_SIZE),
        (
            Call::Map,
            [TO_FULL_SPACE, TO_MEMORY, 0x1_0000, 0, 1, 1],
            OVERLAP,
        ),
        (Call::Put, [TO_FULL_OUTPUT, DATA, 57, 0, 0, 0], BAD_SIZE),
        (Call::Signal, [TO_NOTE_TO_READ, 0, 0, 0, 0, 0], NO_RIGHT),
    ]
    .iter()
    .enumerate()
    {
        assert_eq!(rt; kernel.refused(*call, *arguments), *refusal, "row {row}");
    }
}

#[test]
fn what_is_made_needs_a_slot_then_a_number_then_pages(rt: HostRuntime) {
    let mut kernel = small_kernel();
    for page in 23..=482u16 {
        kernel.numbers.take_page(page);
    }
    assert_eq!(rt; kernel.numbers.free_page_count(), 45);
    assert_eq!(rt; kernel.refused(Call::MemNew, [45, 0, 0, 0, 0, 0]), 0);
    assert_eq!(rt; kernel.refused(Call::MemNew, [46, 0, 0, 0, 0, 0]), NO_PAGES);
    for id in 17..128u8 {
        kernel.numbers.take_object(id);
    }
    assert_eq!(rt;
        kernel.refused(Call::MemNew, [46, 0, 0, 0, 0, 0]),
        NO_OBJECTS
    );
    let cap = Some(Cap {
        object: NOTE,
        rights: READ,
    });
    kernel
        .objects
        .put(GROUP, Slot::Group(Group { slots: [cap; 32] }));
    for call in [
        Call::MemNew,
        Call::SpaceNew,
        Call::GroupNew,
        Call::NoteNew,
        Call::ConnNew,
    ] {
        assert_eq!(rt; kernel.refused(call, [46, 0, 0, 0, 0, 0]), NO_SLOT);
    }
    assert_eq!(rt; kernel.refused(Call::MemNew, [0; 6]), BAD_SIZE);
}

#[test]
fn without_an_input_there_is_nothing_to_get(rt: HostRuntime) {
    let mut kernel = small_kernel();
    kernel.devices.first_input = None;
    for (length, refusal) in [(8, NO_INPUT), (57, BAD_SIZE)] {
        let arguments = [TO_INPUT, DATA, length, 0, 0, 0];
        assert_eq!(rt; kernel.refused(Call::Get, arguments), refusal);
    }
}

#[test]
fn objects_use_their_numbers_and_those_of_their_pages(rt: HostRuntime) {
    let numbers = NumbersInUse::of(&small_objects());
    for id in 0..128u8 {
        assert_eq!(rt;
            numbers.uses_object(id),
            id < 17 && id != THREAD,
            "object {id}"
        );
    }
    for page in 0..512u16 {
        let is_used = page < 4 || page >= CODE_PAGE && page <= SECOND_PAGE;
        assert_eq!(rt; numbers.uses_page(page), is_used, "page {page}");
    }
}

#[test]
fn the_least_number_that_is_free_comes_first(rt: HostRuntime) {
    let mut numbers = NumbersInUse::new();
    for id in 0..128u8 {
        assert_eq!(rt; numbers.least_free_object(), Some(id));
        numbers.take_object(id);
    }
    assert_eq!(rt; numbers.least_free_object(), None);
    for page in 0..512u16 {
        if page != 300 && page != 511 {
            numbers.take_page(page);
        }
    }
    for (count, page) in [(2, 300), (1, 511)] {
        assert_eq!(rt; numbers.free_page_count(), count);
        assert_eq!(rt; numbers.least_free_page(), Some(page));
        if usize::from(page) < PAGES {
            numbers.take_page(page);
        }
    }
    assert_eq!(rt; numbers.least_free_page(), None);
}

// The code: a load from the address in x6, a store to it, and a call.
const LOAD: u64 = 0x0003_2283;

const STORE: u64 = 0x0053_2023;

const ECALL: u64 = 0x0000_0073;

/// Where they stand.
const AT_LOAD: u32 = 0;

const AT_STORE: u32 = 4;

const AT_CALL: u32 = 8;

/// A memory with the code on its page.
fn memory_with_code(alloc: Global) -> Result<Pmem, AllocError> {
    let mut words = vec![in alloc; 0u64; WORDS]?;
    let at = frame_at(runtime_frame(CODE_PAGE));
    words[at] = STORE << 32 | LOAD;
    words[at + 1] = ECALL;
    Pmem::from_words(alloc, &words)
}

/// The pages that a thread needs next, with an address in x6.
fn needed(kernel: &Kernel, nvm: &Pmem, mut thread: Thread, address: u32) -> Need {
    thread.x[6] = address;
    need_of_thread(
        &kernel.objects,
        &kernel.numbers,
        &kernel.devices,
        nvm,
        THREAD,
        &thread,
    )
}

#[test]
fn loads_and_stores_need_their_page_and_that_of_the_code(rt: HostRuntime) -> Result<(), Fail> {
    let nvm = memory_with_code(rt.alloc())?;
    let kernel = small_kernel();
    let rows: [(u32, u32, &[PageNo], &[PageNo]); 8] = [
        (AT_LOAD, DATA, &[CODE_PAGE, FIRST_PAGE], &[]),
        (
            AT_STORE,
            DATA + 4096,
            &[CODE_PAGE, SECOND_PAGE],
            &[SECOND_PAGE],
        ),
        (
            AT_STORE,
            TWICE + 4096,
            &[CODE_PAGE, FIRST_PAGE],
            &[FIRST_PAGE],
        ),
        (AT_LOAD, 0, &[CODE_PAGE], &[]),
        (AT_LOAD, DATA + 2, &[CODE_PAGE], &[]),
        (AT_STORE, 0, &[CODE_PAGE], &[]),
        (12, DATA, &[CODE_PAGE], &[]),
        (NOWHERE, DATA, &[], &[]),
    ];
    for (row, (pc, address, touched, stored)) in rows.iter().enumerate() {
        let need = needed(&kernel, &nvm, caller(0, [0; 6], *pc), *address);
        assert_eq!(rt; need.touched.as_slice(), *touched, "row {row}");
        assert_eq!(rt; need.stored.as_slice(), *stored, "row {row}");
    }
    Ok(())
}

#[test]
fn a_put_needs_its_buffer_and_its_ring_and_a_get_the_bytes_it_stores(
    rt: HostRuntime,
) -> Result<(), Fail> {
    let nvm = memory_with_code(rt.alloc())?;
    let kernel = small_kernel();
    let end = DATA + 4090;
    let rows: [(u32, [u32; 6], &[PageNo], &[PageNo]); 7] = [
        (
            2,
            [TO_OUTPUT, end, 12, 0, 0, 0],
            &[CODE_PAGE, FIRST_PAGE, SECOND_PAGE, 0],
            &[0],
        ),
        (
            2,
            [TO_OUTPUT, TWICE + 4090, 12, 0, 0, 0],
            &[CODE_PAGE, FIRST_PAGE, 0],
            &[0],
        ),
        (2, [TO_OUTPUT, end, 57, 0, 0, 0], &[CODE_PAGE], &[]),
        (
            3,
            [TO_INPUT, end, 56, 0, 0, 0],
            &[CODE_PAGE, FIRST_PAGE, SECOND_PAGE],
            &[FIRST_PAGE, SECOND_PAGE],
        ),
        (
            3,
            [TO_INPUT, end, 6, 0, 0, 0],
            &[CODE_PAGE, FIRST_PAGE],
            &[FIRST_PAGE],
        ),
        (18, [0; 6], &[CODE_PAGE], &[]),
        (19, [0; 6], &[CODE_PAGE], &[]),
    ];
    for (row, (call, arguments, touched, stored)) in rows.iter().enumerate() {
        let need = needed(&kernel, &nvm, caller(*call, *arguments, AT_CALL), 0);
        assert_eq!(rt; need.touched.as_slice(), *touched, "row {row}");
        assert_eq!(rt; need.stored.as_slice(), *stored, "row {row}");
    }
    Ok(())
}

#[test]
fn code_that_is_away_is_needed_alone_and_fresh_code_is_no_instruction(
    rt: HostRuntime,
) -> Result<(), Fail> {
    let mut nvm = memory_with_code(rt.alloc())?;
    let mut kernel = small_kernel();
    let frame = runtime_frame(CODE_PAGE);
    if nvm.is_home(frame) {
        let part = nvm.lend(frame);
        let need = needed(&kernel, &nvm, caller(0, [0; 6], AT_STORE), DATA);
        assert_eq!(rt; need.touched.as_slice(), [CODE_PAGE].as_slice());
        assert_eq!(rt; need.stored.as_slice(), [].as_slice());
        nvm.give_back(frame, part);
    }
    let need = needed(&kernel, &nvm, caller(0, [0; 6], AT_STORE), DATA);
    assert_eq!(rt; need.stored.as_slice(), [FIRST_PAGE].as_slice());
    let mut fresh = Memory::new();
    for page in [CODE_PAGE, FIRST_PAGE, SECOND_PAGE] {
        if !fresh.pages.is_full() {
            fresh.pages.push(MemPage { page, fresh: true });
        }
    }
    kernel.objects.put(MEMORY, Slot::Memory(fresh));
    let need = needed(&kernel, &nvm, caller(0, [0; 6], AT_STORE), DATA);
    assert_eq!(rt; need.touched.as_slice(), [CODE_PAGE].as_slice());
    assert_eq!(rt; need.stored.as_slice(), [].as_slice());
    Ok(())
}

/// How many cores there are.
fn core_count(cores: Cores) -> usize
    ensures count { result ≡ length (cores_of (Slot.Scheduler cores)) }
    ensures most { result ≤ CORES }
{
    usize::from(cores.cores).min(CORES)
}

/// The pages that a core needs next, if there is such a core.
fn needed_by(kernel: &Kernel, nvm: &Pmem, core: CoreNo) -> Option<Need> {
    match kernel.objects.slot(SCHEDULER) {
        Some(Slot::Scheduler(cores)) if usize::from(core) < core_count(*cores) => {
            Some(need_of_core(&kernel.objects, &kernel.numbers, &kernel.devices, nvm, core))
        }
        _ => None,
    }
}

/// How many pages a core touches and how many it stores to.
fn counts(kernel: &Kernel, nvm: &Pmem, core: CoreNo) -> Option<(usize, usize)> {
    let need = needed_by(kernel, nvm, core)?;
    Some((need.touched.len(), need.stored.len()))
}

#[test]
fn a_core_needs_the_pages_of_its_own_thread_else_of_the_front_of_the_queue(
    rt: HostRuntime,
) -> Result<(), Fail> {
    let nvm = memory_with_code(rt.alloc())?;
    let mut kernel = small_kernel();
    for core in [0, 1] {
        assert_eq!(rt; counts(&kernel, &nvm, core), Some((0, 0)));
    }
    let mut storing = caller(0, [0; 6], AT_STORE);
    storing.x[6] = DATA;
    kernel.objects.set_thread(THREAD, storing);
    kernel
        .objects
        .set_thread(THREAD + 80, caller(0, [0; 6], NOWHERE));
    kernel.objects.run(1, Some((THREAD, 3)));
    assert_eq!(rt; counts(&kernel, &nvm, 0), Some((0, 0)));
    assert_eq!(rt; counts(&kernel, &nvm, 1), Some((2, 1)));
    assert_eq!(rt; counts(&kernel, &nvm, 2), None);
    if !kernel.objects.links.is_linked(usize::from(THREAD)) {
        kernel.objects.enqueue(THREAD);
    }
    kernel.objects.run(1, Some((THREAD + 80, 3)));
    assert_eq!(rt; counts(&kernel, &nvm, 0), Some((2, 1)));
    assert_eq!(rt; counts(&kernel, &nvm, 1), Some((0, 0)));
    Ok(())
}
