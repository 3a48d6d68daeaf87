//! The marks that say which pages are fresh.

ghost use Rattle.std.specs.Prelude.{◌≡◌, ◌≢◌, ◌<◌, ◌≤◌, ℕ, map};
ghost use Rattle.sls_base.specs.declared.limits.TheConstants.{OBJECTS};
ghost use Rattle.kobj_table.specs.Objects.{Rest, slot_at, state_of};
ghost use Rattle.object_records.specs.Marks as marks;

use kobj_table::{Objects, Slot};
use mem_space::{MemPage, Memory};
use sls_base::{OBJECTS, OUTPUT_CHANNELS, ObjId, PageNo, Ring};

/// Marks a page as fresh, or as one that has content, wherever an object has it. The page of an output ring is marked at
/// the ring. To the plain machine nothing changes where the page is zero.
pub fn mark_page(objects: &mut Objects, page: PageNo, fresh: bool)
    ensures slots { (i : ℕ) → i < OBJECTS → slot_at objects.new i ≡ marks.marked page fresh (slot_at objects.old i) }
    ensures past { (i : ℕ) → OBJECTS ≤ i → slot_at objects.new i ≡ slot_at objects.old i }
    ensures links { objects.new.links ≡ objects.old.links }
    ensures state { (rest : Rest) → ((offset : ℕ) → rest.content page offset ≡ 0)
        → state_of objects.new rest ≡ state_of objects.old rest }
{
    for id in 0..OBJECTS {
        mark_at(objects, id as ObjId, page, fresh);
    }
}

/// Marks a page where the object of a number has it.
fn mark_at(objects: &mut Objects, id: ObjId, page: PageNo, fresh: bool)
    requires { id < OBJECTS }
    ensures marked { slot_at objects.new id ≡ marks.marked page fresh (slot_at objects.old id) }
    ensures others { (i : ℕ) → i ≢ id → slot_at objects.new i ≡ slot_at objects.old i }
    ensures links { objects.new.links ≡ objects.old.links }
{
    match objects.slot(id) {
        Some(Slot::Memory(_)) | Some(Slot::Ring(_)) => {
            let slot = objects.take(id);
            objects.put(id, marked(slot, page, fresh));
        }
        _ => {}
    }
}

/// What stands in a slot, where it has the mark.
fn marked(slot: Slot, page: PageNo, fresh: bool) -> Slot
    ensures { result ≡ marks.marked page fresh slot }
{
    match slot {
        Slot::Memory(mut memory) => {
            mark_memory(&mut memory, page, fresh);
            Slot::Memory(memory)
        }
        Slot::Ring(ring) if ring.page == page && usize::from(ring.channel) < OUTPUT_CHANNELS => {
            Slot::Ring(Ring { fresh, ..ring })
        }
        slot => slot,
    }
}

/// Marks a page of a memory object.
fn mark_memory(memory: &mut Memory, page: PageNo, fresh: bool)
    ensures { memory.new.pages.items ≡ map (marks.page_marked page fresh) memory.old.pages.items }
{
    for p in memory.pages.iter_mut() {
        *p = page_marked(*p, page, fresh);
    }
}

/// A page of a memory object, with the mark if it is that page.
fn page_marked(p: MemPage, page: PageNo, fresh: bool) -> MemPage
    ensures { result ≡ marks.page_marked page fresh p }
{
    if p.page == page {
        MemPage { fresh, ..p }
    } else {
        p
    }
}
