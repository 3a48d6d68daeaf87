//! Bytes that are stored.

ghost use Rattle.std.specs.Prelude.{◌≡◌, ◌<◌, All, length, map, slice_index_or, slice_set};
ghost use Rattle.sls_base.specs.declared.limits.TheConstants.{PAGE_BYTES};
ghost use Rattle.plain_state.specs.Memory.{no_page, with_store, with_stores, memory_with, page_with};
ghost use Rattle.plain_state.specs.States.{with_object};
ghost use Rattle.plain_state.specs.Ticks.{with_changes};
ghost use Rattle.plain_state.specs.InPages.{StoresInPage};
ghost use Rattle.plain_state.specs.Slow.{change_of, object_of, page_of, slot_of, objects_of};
ghost use Rattle.plain_state.specs.declared.state.TheConstants.{NUMBERS};

use crate::effect::ByteStore;
use crate::object::Object;
use crate::page::Page;
use crate::slow_effect::Change;

/// Stores a byte on a page.
fn store_on_page(page: &mut Page, at: u32, value: u8)
    requires { at < PAGE_BYTES }
    ensures { page_of page.new ≡ page_with (page_of page.old) at value }
{
    if let Some(byte) = page.bytes.get_mut(at as usize) {
        *byte = value;
    }
}

/// Stores a byte on one of the pages, where it is there.
fn store_on_pages(pages: &mut [Page], store: ByteStore)
    requires { store.place.offset < PAGE_BYTES }
    ensures { map page_of pages.new
        ≡ slice_set (map page_of pages.old) store.place.page
        (page_with (slice_index_or (map page_of pages.old) store.place.page no_page) store.place.offset store.value) }
{
    let at = store.place.page as usize;
    if at < pages.len() {
        store_on_page(&mut pages[at], store.place.offset, store.value);
    }
}

/// Stores a byte in an object, where it has the page.
fn store_in_object(object: &mut Option<Object>, store: ByteStore)
    requires { store.place.offset < PAGE_BYTES }
    ensures { slot_of object.new ≡ memory_with (slot_of object.old) store.place store.value }
{
    if let Some(Object::Memory(pages)) = object {
        store_on_pages(pages.as_mut_slice(), store);
    }
}

/// Stores a byte.
pub fn store(objects: &mut [Option<Object>], store: ByteStore)
    requires sized { length objects.old ≡ NUMBERS }
    requires in_page { store.place.offset < PAGE_BYTES }
    ensures { objects_of objects.new ≡ with_store (objects_of objects.old) store }
{
    store_in_object(&mut objects[usize::from(store.place.memory)], store);
}

/// Stores bytes, one after another.
pub fn store_all(objects: &mut [Option<Object>], stores: &[ByteStore])
    requires sized { length objects.old ≡ NUMBERS }
    requires in_page { All StoresInPage stores.now }
    ensures sized { length objects.new ≡ NUMBERS }
    ensures stored { objects_of objects.new ≡ with_stores (objects_of objects.old) stores.now }
{
    for byte in stores {
        store(objects, *byte);
    }
}

/// Makes a change of an object.
pub fn make_change(objects: &mut [Option<Object>], change: Change)
    requires { length objects.old ≡ NUMBERS }
    ensures sized { length objects.new ≡ NUMBERS }
    ensures changed { objects_of objects.new
        ≡ with_object (objects_of objects.old) change.id (object_of change.object) }
{
    let Change { id, object } = change;
    objects[usize::from(id)] = Some(object);
}

/// Makes changes of objects, one after another.
pub fn make_changes(objects: &mut [Option<Object>], changes: Vec<Change>)
    requires { length objects.old ≡ NUMBERS }
    ensures sized { length objects.new ≡ NUMBERS }
    ensures changed { objects_of objects.new ≡ with_changes (objects_of objects.old) (map change_of changes.items) }
{
    for change in changes {
        make_change(objects, change);
    }
}
