//! When a call is refused: the first refusal, in the stated order, that holds for any of its arguments.

ghost use Rattle.std.specs.Prelude.{◌≡◌, ◌<◌, ◌≤◌, ◌==◌, ℕ, length, slice_index, Some};
ghost use Rattle.std.specs.List.{list_any};
ghost use Rattle.sls_base.specs.declared.limits.TheConstants.{PAGE_BYTES};
ghost use Rattle.plain_model.specs.Worlds.{World, accepted_count};
ghost use Rattle.plain_model.specs.Objects as plain_objects;
ghost use Rattle.plain_model.specs.CallRefusals as plain;
ghost use Rattle.kobj_table.specs.Slots.{ring_of};
ghost use Rattle.kobj_table.specs.Objects.{Rest, object_at, state_of};
ghost use Rattle.call_readings.specs.Kernel.{IsCounted, IsAttached, CountsEntries, world_of};

use crate::devices::Devices;
use crate::named::{id_named, is_any_unmet};
use crate::numbers::NumbersInUse;
use crate::regions::{has_region_from, is_covered, overlaps, region_count};
use kobj_table::{Objects, Slot};
use plain_model::{
    Call, REFUSAL_ORDER, Refusal, arg, is_bad_part, is_bad_range, is_entry_length, is_memory_size,
    needs,
};
use sls_base::{
    ENTRY_BYTES, GROUP_SLOTS, INSTRUCTION_BYTES, OUTPUT_CHANNELS, ObjId, PAGE_BYTES, READ,
    RING_ENTRIES, Ring, SPACE_REGIONS, Thread, WRITE,
};

/// Whether the group of a number has no free slot.
fn no_slot(objects: &Objects, id: ObjId) -> bool
    ensures { (content : ℕ → ℕ → ℕ) → result ≡ plain.no_slot (object_at content objects.now id) }
{
    match objects.slot(id) {
        Some(Slot::Group(group)) => group.lowest_free().is_none(),
        _ => true,
    }
}

/// Whether there is no room for an object that a call makes.
#[tactic(auto, unfolding(crate::specs::Kernel::world_of, kobj_table::specs::Objects::state_of))]
fn no_room(objects: &Objects, numbers: &NumbersInUse, thread: &Thread, refusal: Refusal) -> bool
    ensures { (w : World) (rest : Rest) → IsCounted numbers.now (world_of objects.now rest w)
        → result ≡ plain.no_room (world_of objects.now rest w) thread.now refusal }
{
    match refusal {
        Refusal::NoSlot => no_slot(objects, thread.group),
        Refusal::NoObjects => numbers.least_free_object().is_none(),
        _ => false,
    }
}

/// Whether the slot that cap_drop names is none that a group has, or is empty.
fn no_cap_there(objects: &Objects, id: ObjId, place: u32) -> bool
    ensures { (content : ℕ → ℕ → ℕ) → result ≡ plain.no_cap_there (object_at content objects.now id) place }
{
    let is_none = GROUP_SLOTS <= place as usize;
    match objects.slot(id) {
        Some(Slot::Group(group)) => is_none || group.find(place).is_none(),
        _ => is_none,
    }
}

/// Whether nobody waits on the notification of a number, and its count is the greatest.
fn is_full_count(objects: &Objects, id: ObjId) -> bool
    ensures { (content : ℕ → ℕ → ℕ) → result ≡ plain.is_full_count (object_at content objects.now id) }
{
    match objects.slot(id) {
        Some(Slot::Notification(note)) => {
            objects.links.first(usize::from(id)).is_none() && note.count == u32::MAX
        }
        _ => false,
    }
}

/// Whether a thread is the server of the connection of a number.
fn is_server(objects: &Objects, me: ObjId, id: ObjId) -> bool
    ensures { (content : ℕ → ℕ → ℕ) → result ≡ plain.is_server me (object_at content objects.now id) }
{
    match objects.slot(id) {
        Some(Slot::Connection(connection)) => connection.server == me,
        _ => false,
    }
}

/// How many pages the memory object of a number has.
fn page_count(objects: &Objects, id: ObjId) -> usize
    ensures { (content : ℕ → ℕ → ℕ) → result
        ≡ length (plain_objects.pages_of (object_at content objects.now id)) }
{
    match objects.slot(id) {
        Some(Slot::Memory(memory)) => memory.pages.len(),
        _ => 0,
    }
}

/// Whether an output ring has as many entries that wait to be accepted as it can hold, or its count is the greatest.
fn is_full(ring: &Ring, devices: &Devices) -> bool
    ensures { (w : World) → CountsEntries (Slot.Ring ring.now) w → ((channel : ℕ) → channel < OUTPUT_CHANNELS
        → slice_index devices.now.accepted channel ≡ accepted_count w channel)
        → result ≡ plain.is_full_ring w (Some (ring_of ring.now.channel)) }
{
    match devices.accepted.get(usize::from(ring.channel)) {
        Some(accepted) => {
            ring.count.checked_sub(*accepted) == Some(RING_ENTRIES) || ring.count == u64::MAX
        }
        None => false,
    }
}

/// Whether the output ring of a number is full.
#[tactic(auto, unfolding(crate::specs::Kernel::world_of, kobj_table::specs::Objects::state_of))]
fn is_full_ring(objects: &Objects, devices: &Devices, id: ObjId) -> bool
    ensures { (w : World) (rest : Rest) → IsAttached objects.now devices.now (world_of objects.now rest w)
        → result ≡ plain.is_full_ring (world_of objects.now rest w) (object_at rest.content objects.now id) }
{
    match objects.slot(id) {
        Some(Slot::Ring(ring)) => is_full(ring, devices),
        _ => false,
    }
}

/// Whether one of the first bytes of a thread's buffer, as many as an entry can have, isn't there with a right.
#[tactic(auto, unfolding(kobj_table::specs::Objects::state_of))]
fn is_bad_buffer(objects: &Objects, thread: &Thread, right: u8) -> bool
    ensures { (rest : Rest) → result ≡ plain.is_bad_buffer (state_of objects.now rest) thread.now right }
{
    let count = arg(thread, 2).min(ENTRY_BYTES as u32);
    !is_covered(objects, thread.space, right, arg(thread, 1), count)
}

/// Whether a refusal holds for a call beside what it needs.
#[tactic(auto, unfolding(crate::specs::Kernel::world_of, kobj_table::specs::Objects::state_of))]
fn is_refused_besides(
    objects: &Objects,
    numbers: &NumbersInUse,
    devices: &Devices,
    me: ObjId,
    thread: &Thread,
    call: Call,
    refusal: Refusal,
) -> bool
    ensures { (w : World) (rest : Rest) → IsCounted numbers.now (world_of objects.now rest w)
        → IsAttached objects.now devices.now (world_of objects.now rest w)
        → result ≡ plain.is_refused_besides (world_of objects.now rest w) me thread.now call refusal }
{
    let first = id_named(objects, thread, 0);
    match (call, refusal) {
        (Call::Put, Refusal::BadAddress) => is_bad_buffer(objects, thread, READ),
        (Call::Get, Refusal::BadAddress) => is_bad_buffer(objects, thread, WRITE),
        (Call::Put | Call::Get, Refusal::BadSize) => !is_entry_length(arg(thread, 2)),
        (Call::Put, Refusal::Full) => is_full_ring(objects, devices, first),
        (Call::Get, Refusal::Empty) => devices.first_input.is_none(),
        (Call::MemNew, Refusal::BadSize) => !is_memory_size(arg(thread, 0)),
        (Call::MemNew, Refusal::NoPages) => numbers.free_page_count() < arg(thread, 0) as usize,
        (Call::Map, Refusal::BadAddress) => is_bad_range(arg(thread, 2), arg(thread, 4)),
        (Call::Map, Refusal::BadSize) => is_bad_part(
            page_count(objects, id_named(objects, thread, 1)),
            arg(thread, 3),
            arg(thread, 4),
            arg(thread, 5),
        ),
        (Call::Map, Refusal::Overlap) => overlaps(
            objects,
            first,
            arg(thread, 2) / PAGE_BYTES as u32,
            arg(thread, 4),
        ),
        (Call::Map, Refusal::NoRegions) => SPACE_REGIONS <= region_count(objects, first),
        (Call::Unmap, Refusal::BadAddress) => !has_region_from(objects, first, arg(thread, 1)),
        (Call::CapCopy, Refusal::NoSlot) => no_slot(objects, id_named(objects, thread, 1)),
        (Call::CapDrop, Refusal::NoCap) => no_cap_there(objects, first, arg(thread, 1)),
        (Call::ThreadNew, Refusal::BadAddress) => arg(thread, 2) % INSTRUCTION_BYTES != 0,
        (Call::Signal, Refusal::Full) => is_full_count(objects, first),
        (Call::ConnCall, Refusal::Taken) => is_server(objects, me, first),
        (Call::Serve, Refusal::Taken) => !is_server(objects, me, first),
        (
            Call::MemNew
            | Call::SpaceNew
            | Call::GroupNew
            | Call::ThreadNew
            | Call::NoteNew
            | Call::ConnNew,
            refusal,
        ) => no_room(objects, numbers, thread, refusal),
        _ => false,
    }
}

/// Whether a refusal holds for an argument of a call.
#[tactic(auto, unfolding(crate::specs::Kernel::world_of))]
fn is_refused_by(
    objects: &Objects,
    numbers: &NumbersInUse,
    devices: &Devices,
    me: ObjId,
    thread: &Thread,
    call: Call,
    refusal: Refusal,
) -> bool
    ensures { (w : World) (rest : Rest) → IsCounted numbers.now (world_of objects.now rest w)
        → IsAttached objects.now devices.now (world_of objects.now rest w)
        → result ≡ plain.is_refused_by (world_of objects.now rest w) me thread.now call refusal }
{
    let needs = needs(thread, call);
    is_any_unmet(objects, thread, refusal, needs.as_slice())
        || is_refused_besides(objects, numbers, devices, me, thread, call, refusal)
}

/// The refusal of a call of thread `me`, if it is refused: the first, in the order of refusals, that holds for any of
/// its arguments.
pub fn refusal_of(
    objects: &Objects,
    numbers: &NumbersInUse,
    devices: &Devices,
    me: ObjId,
    thread: &Thread,
    call: Call,
) -> Option<Refusal>
    ensures { (w : World) (rest : Rest) → IsCounted numbers.now (world_of objects.now rest w)
        → IsAttached objects.now devices.now (world_of objects.now rest w)
        → result ≡ plain.refusal_of (world_of objects.now rest w) me thread.now call }
{
    REFUSAL_ORDER
        .iter()
        .find(|refusal| { is_refused_by(objects, numbers, devices, me, thread, call, **refusal) })
        .copied()
}
