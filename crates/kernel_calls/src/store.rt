//! Stores of threads.

ghost use Rattle.std.specs.Prelude.{◌≡◌, ◌%◌};
ghost use Rattle.rv_table.specs.Table.{IsOneOf, store_ops};
ghost use Rattle.rv_core.specs.Effect.{size_of};
ghost use Rattle.plain_laws.specs.Sound.{AreApart};
ghost use Rattle.plain_state.specs.Instructions as plain;
ghost use Rattle.plain_state.specs.Ticks.{stores_to};
ghost use Rattle.kobj_table.specs.Objects.{Rest, state_of};
ghost use Rattle.call_readings.specs.Content.{Reads};
ghost use Rattle.kernel_calls.specs.Does.{Tells};
ghost use Rattle.kernel_calls.specs.Instructions.{HasRings, ShowsStored, Stored, StoresPages};

use crate::done::Done;
use call_readings::page_at;
use kobj_table::Objects;
use page_bytes::store_number;
use pmem_model::Pmem;
use rv_core::access_size;
use sls_base::{NO_ACCESS, PAGE_BYTES, Thread, WRITE};

/// Stores the lowest bytes of a value at an address, at a multiple of the store's size. The thread stops where it may
/// not.
pub(crate) fn store(
    objects: &Objects,
    nvm: &mut Pmem,
    thread: &Thread,
    op: u8,
    at: u32,
    value: u32,
) -> Done
    requires op { IsOneOf op store_ops }
    requires aligned { at % size_of op ≡ 0 }
    requires page { ShowsStored objects.now nvm.old thread.now.space at }
    requires rings { HasRings objects.now }
    requires apart { (rest : Rest) → AreApart (state_of objects.now rest) }
    ensures stored { (rest : Rest) → Reads rest.content nvm.old → Stored objects.now rest
        (plain.store_effect (state_of objects.now rest) thread.now op at value) nvm.new }
    ensures tells { (rest : Rest) → Tells result
        (plain.store_effect (state_of objects.now rest) thread.now op at value) }
    ensures words { (rest : Rest) → StoresPages (stores_to (state_of objects.now rest)
        (plain.store_effect (state_of objects.now rest) thread.now op at value)) nvm.old nvm.new }
{
    plain_laws::calls::bytes_on_one_page();
    page_bytes::stores_at_addresses();
    page_bytes::pages_of_rings_are_apart();
    let Some(page) = page_at(objects, thread.space, WRITE, u64::from(at)) else {
        return Done::stops(thread, NO_ACCESS);
    };
    let offset = at % PAGE_BYTES as u32;
    store_number(nvm, page.page, offset, access_size(op), value);
    Done::goes_on(thread)
}
