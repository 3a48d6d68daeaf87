//! The call get.

ghost use Rattle.std.specs.Prelude.{◌≡◌, ℕ, ◌+◌, ◌%◌, ◌≤◌, true, length};
ghost use Rattle.sls_base.specs.declared.limits.TheConstants.{ENTRY_BYTES, PAGE_BYTES};
ghost use Rattle.sls_base.specs.declared.rights.TheConstants.{WRITE};
ghost use Rattle.plain_state.specs.declared.calls.Call.{Call};
ghost use Rattle.plain_state.specs.Objects.{regions_of};
ghost use Rattle.plain_state.specs.Memory.{is_covered};
ghost use Rattle.plain_laws.specs.Sound.{AreApart};
ghost use Rattle.kobj_table.specs.Objects.{Rest, object_at, state_of};
ghost use Rattle.call_readings.specs.Content.{Reads};
ghost use Rattle.kernel_calls.specs.Instructions.{HasRings, ShowsStored, StoresPages};
ghost use Rattle.kernel_calls.specs.Needed.{MayMove};
ghost use Rattle.kernel_calls.specs.Moves.{is_stored_on, stores_from, HasStored, ObeysCall, ShowsAllStored, StoresOfCall, StoresOn};

use crate::done::Done;
use crate::runtime::Runtime;
use call_readings::page_at;
use kobj_table::Objects;
use page_bytes::store_bytes;
use plain_state::arg;
use pmem_model::Pmem;
use sls_base::{ObjId, PAGE_BYTES, Thread, WRITE};

/// Stores bytes from an address of a space on, which stand on one page.
fn store_on_page(objects: &Objects, nvm: &mut Pmem, space: ObjId, at: u64, bytes: &[u8])
    requires covered { (content : ℕ → ℕ → ℕ) → is_covered (regions_of (object_at content objects.now space)) WRITE at
        (length bytes.now) ≡ true }
    requires page { ShowsStored objects.now nvm.old space at }
    requires apart { (rest : Rest) → AreApart (state_of objects.now rest) }
    requires rings { HasRings objects.now }
    requires some { 1 ≤ length bytes.now }
    requires most { length bytes.now ≤ ENTRY_BYTES }
    requires within { at % PAGE_BYTES + length bytes.now ≤ PAGE_BYTES }
    ensures stored { (rest : Rest) → Reads rest.content nvm.old
        → HasStored objects.now rest space at bytes.now nvm.new }
    ensures words { StoresOn objects.now space at (length bytes.now) nvm.old nvm.new }
{
    plain_laws::calls::bytes_on_one_page();
    page_bytes::stores_at_addresses();
    page_bytes::pages_of_rings_are_apart();
    let Some(page) = page_at(objects, space, WRITE, at) else {
        return;
    };
    store_bytes(nvm, page.page, (at % PAGE_BYTES as u64) as u32, bytes);
}

/// Stores bytes from an address of a space on, which stand on one page or on two.
fn store_run(objects: &Objects, nvm: &mut Pmem, space: ObjId, at: u32, bytes: &[u8])
    requires covered { (content : ℕ → ℕ → ℕ) → is_covered (regions_of (object_at content objects.now space)) WRITE at
        (length bytes.now) ≡ true }
    requires pages { ShowsAllStored objects.now nvm.old space at (length bytes.now) }
    requires apart { (rest : Rest) → AreApart (state_of objects.now rest) }
    requires rings { HasRings objects.now }
    requires some { 1 ≤ length bytes.now }
    requires most { length bytes.now ≤ ENTRY_BYTES }
    ensures stored { (rest : Rest) → Reads rest.content nvm.old
        → HasStored objects.now rest space at bytes.now nvm.new }
    ensures words { (rest : Rest) → StoresPages (is_stored_on (object_at rest.content objects.now)
        (stores_from (object_at rest.content objects.now) space at bytes.now)) nvm.old nvm.new }
{
    page_bytes::stores_in_parts();
    page_bytes::stores_at_addresses();
    let begin = u64::from(at);
    let room = PAGE_BYTES - at as usize % PAGE_BYTES;
    if bytes.len() <= room {
        store_on_page(objects, nvm, space, begin, bytes);
    } else {
        let behind = begin + room as u64;
        store_on_page(objects, nvm, space, begin, &bytes[..room]);
        store_on_page(objects, nvm, space, behind, &bytes[room..]);
    }
}

impl Runtime {
    /// Stores the input that waits first where the caller may write, as far as there is room for it. The answer is its
    /// length.
    pub(crate) fn get(&self, nvm: &mut Pmem, input: &[u8], me: ObjId, thread: &Thread) -> Done
        requires may { MayMove self.now input.now nvm.old me thread.now Call.Get }
        ensures obeys { ObeysCall self.now self.now input.now nvm.old nvm.new me thread.now Call.Get result }
        ensures words { StoresOfCall self.now input.now nvm.old nvm.new me thread.now Call.Get }
    {
        // Their contracts say what a call that isn't refused meets, that each page is of one object alone whatever the
        // content of pages is, and which entries stand on the pages of rings.
        plain_laws::calls::unrefused_call_meets_all();
        page_bytes::stores_in_parts();
        out_gate::waiting_entries_stand();
        let room = arg(thread, 2) as usize;
        let stored = &input[..input.len().min(room)];
        store_run(&self.objects, nvm, thread.space, arg(thread, 1), stored);
        Done::takes(thread, input.len() as u32)
    }
}
