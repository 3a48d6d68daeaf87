//! When a call is refused: the first refusal, in the stated order, that holds for any of its arguments.

ghost use Rattle.std.specs.Prelude.{◌≡◌, ◌==◌, length};
ghost use Rattle.std.specs.List.{list_any};
ghost use Rattle.plain_state.specs.CallRefusals as plain;
ghost use Rattle.plain_state.specs.Worlds.{free_pages};
ghost use Rattle.plain_state.specs.Slow.{slot_of, state_of};
ghost use Rattle.plain_model.specs.SlowWorld.{world_of};

use crate::world::World;
use plain_state::{
    Call, Object, PAGE, PAGE_END, REFUSAL_ORDER, Refusal, Region, arg, cap_in, free_slot, needs,
    pages_of, regions_of, slots_of,
};
use sls_base::{
    ADDRESSES, ENTRY_BYTES, GROUP_SLOTS, INSTRUCTION_BYTES, MEMORY_PAGES, ObjId, READ,
    REGION_RIGHTS, SPACE_REGIONS, Thread, WRITE,
};

/// Whether a buffer has as many bytes as an entry may have.
pub fn is_entry_length(length: u32) -> bool
    ensures { result ≡ plain.is_entry_length length }
{
    1 <= length && length as usize <= ENTRY_BYTES
}

/// Whether a memory object may have so many pages.
pub fn is_memory_size(pages: u32) -> bool
    ensures { result ≡ plain.is_memory_size pages }
{
    1 <= pages && pages as usize <= MEMORY_PAGES
}

/// Whether a region has one of so many pages of addresses from one on.
pub fn meets(base: u32, count: u32, region: &Region) -> bool
    ensures { result ≡ plain.meets base count region.now }
{
    let (base, count) = (u64::from(base), u64::from(count));
    base < u64::from(region.base) + u64::from(region.count) && u64::from(region.base) < base + count
}

/// Whether a page of a range is in one of the regions.
fn overlaps(base: u32, count: u32, regions: &[Region]) -> bool
    ensures { result ≡ list_any (plain.meets base count) regions.now }
{
    regions.iter().any(|region| meets(base, count, region))
}

/// Whether a base is no page's, or so many pages from it on end past the addresses.
pub fn is_bad_range(base: u32, count: u32) -> bool
    ensures { result ≡ plain.is_bad_range base count }
{
    let base = u64::from(base);
    base % PAGE != 0 || ADDRESSES < base + PAGE * u64::from(count)
}

/// Whether a part of a memory object of so many pages is empty or goes past its end, or its rights are none or more
/// than a region may have.
pub fn is_bad_part(pages: usize, first: u32, count: u32, rights: u32) -> bool
    ensures { result ≡ plain.is_bad_part pages first count rights }
{
    count == 0
        || (pages as u64) < u64::from(first) + u64::from(count)
        || rights == 0
        || u32::from(REGION_RIGHTS) < rights
}

fn no_region_at(regions: &[Region], base: u32) -> bool
    ensures { result ≡ plain.no_region_at regions.now base }
{
    !regions
        .iter()
        .any(|region| PAGE * u64::from(region.base) == u64::from(base))
}

fn no_slot(group: &Option<Object>) -> bool
    ensures { result ≡ plain.no_slot (slot_of group.now) }
{
    free_slot(slots_of(group)).is_none()
}

fn is_full_count(object: &Option<Object>) -> bool
    ensures { result ≡ plain.is_full_count (slot_of object.now) }
{
    match object {
        Some(Object::Notification(count, waiters)) => waiters.is_empty() && *count == u32::MAX,
        _ => false,
    }
}

fn is_server(id: ObjId, object: &Option<Object>) -> bool
    ensures { result ≡ plain.is_server id (slot_of object.now) }
{
    match object {
        Some(Object::Connection(server, _, _)) => *server == id,
        _ => false,
    }
}

fn no_cap_there(object: &Option<Object>, place: u32) -> bool
    ensures { result ≡ plain.no_cap_there (slot_of object.now) place }
{
    let is_none = GROUP_SLOTS <= place as usize;
    match object {
        Some(Object::Group(slots)) => is_none || cap_in(slots.as_slice(), place).is_none(),
        _ => is_none,
    }
}

#[tactic(auto, unfolding(crate::specs::SlowWorld::world_of))]
impl World {
    /// Whether there is no room for an object that a call makes.
    fn no_room(&self, thread: &Thread, refusal: Refusal) -> bool
        ensures { result ≡ plain.no_room (world_of self.now) thread.now refusal }
    {
        match refusal {
            Refusal::NoSlot => no_slot(self.running.object(thread.group)),
            Refusal::NoObjects => self.free_object().is_none(),
            _ => false,
        }
    }

    fn is_full_ring(&self, object: &Option<Object>) -> bool
        ensures { result ≡ plain.is_full_ring (world_of self.now) (slot_of object.now) }
    {
        match object {
            Some(Object::OutputRing(channel)) => self.is_ring_full(*channel),
            _ => false,
        }
    }

    /// How many page numbers are free.
    fn free_page_count(&self) -> usize
        ensures { result ≡ length (free_pages (world_of self.now)) }
    {
        (0..PAGE_END)
            .filter(|page| !self.running.has_page(*page) && !self.saved.has_page(*page))
            .count()
    }

    /// What is asked by each call beside the capabilities.
    fn is_refused_besides(&self, id: ObjId, thread: &Thread, call: Call, refusal: Refusal) -> bool
        ensures { result ≡ plain.is_refused_besides (world_of self.now) id thread.now call refusal }
    {
        let now = &self.running;
        let first = now.named(thread, 0);
        match (call, refusal) {
            (Call::Put, Refusal::BadAddress) => now.is_bad_buffer(thread, READ),
            (Call::Get, Refusal::BadAddress) => now.is_bad_buffer(thread, WRITE),
            (Call::Put | Call::Get, Refusal::BadSize) => !is_entry_length(arg(thread, 2)),
            (Call::Put, Refusal::Full) => self.is_full_ring(first),
            (Call::Get, Refusal::Empty) => now.has_no_input(),
            (Call::MemNew, Refusal::BadSize) => !is_memory_size(arg(thread, 0)),
            (Call::MemNew, Refusal::NoPages) => self.free_page_count() < arg(thread, 0) as usize,
            (Call::Map, Refusal::BadAddress) => is_bad_range(arg(thread, 2), arg(thread, 4)),
            (Call::Map, Refusal::BadSize) => is_bad_part(
                pages_of(now.named(thread, 1)).len(),
                arg(thread, 3),
                arg(thread, 4),
                arg(thread, 5),
            ),
            (Call::Map, Refusal::Overlap) => overlaps(
                arg(thread, 2) / PAGE as u32,
                arg(thread, 4),
                regions_of(first),
            ),
            (Call::Map, Refusal::NoRegions) => SPACE_REGIONS <= regions_of(first).len(),
            (Call::Unmap, Refusal::BadAddress) => no_region_at(regions_of(first), arg(thread, 1)),
            (Call::CapCopy, Refusal::NoSlot) => no_slot(now.named(thread, 1)),
            (Call::CapDrop, Refusal::NoCap) => no_cap_there(first, arg(thread, 1)),
            (Call::ThreadNew, Refusal::BadAddress) => arg(thread, 2) % INSTRUCTION_BYTES != 0,
            (Call::Signal, Refusal::Full) => is_full_count(first),
            (Call::ConnCall, Refusal::Taken) => is_server(id, first),
            (Call::Serve, Refusal::Taken) => !is_server(id, first),
            (
                Call::MemNew
                | Call::SpaceNew
                | Call::GroupNew
                | Call::ThreadNew
                | Call::NoteNew
                | Call::ConnNew,
                refusal,
            ) => self.no_room(thread, refusal),
            _ => false,
        }
    }

    /// Whether a refusal holds for an argument of a call.
    fn is_refused_by(&self, id: ObjId, thread: &Thread, call: Call, refusal: Refusal) -> bool
        ensures { result ≡ plain.is_refused_by (world_of self.now) id thread.now call refusal }
    {
        let needs = needs(thread, call);
        self.running.is_any_unmet(thread, refusal, needs.as_slice())
            || self.is_refused_besides(id, thread, call, refusal)
    }

    /// The refusal of a call, if it is refused.
    pub(crate) fn refusal_of(&self, id: ObjId, thread: &Thread, call: Call) -> Option<Refusal>
        ensures { result ≡ plain.refusal_of (world_of self.now) id thread.now call }
    {
        REFUSAL_ORDER
            .iter()
            .find(|refusal| self.is_refused_by(id, thread, call, **refusal))
            .copied()
    }
}
