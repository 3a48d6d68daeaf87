//! What of pages a test finds before it ticks.

ghost use Rattle.std.specs.Prelude.{◌≡◌, ◌<◌, ℕ, true, Some, All, length, slice_index};
ghost use Rattle.sls_base.specs.declared.limits.TheConstants.{OBJECTS, PAGES};
ghost use Rattle.plain_state.specs.Objects.{page_numbers};
ghost use Rattle.kobj_table.specs.Slots.{ring_of};
ghost use Rattle.kobj_table.specs.Objects.{slot_at};
ghost use Rattle.call_readings.specs.Content.{is_page_home, Reads};
ghost use Rattle.call_readings.specs.Need.{has_page};
ghost use Rattle.kernel_calls.specs.Needed.{has_fresh, IsFreshPage};

use kobj_table::{Objects, Slot};
use mem_space::MemPage;
use page_bytes::{byte_on_page, store_bytes};
use pmem_layout::runtime_frame;
use pmem_model::Pmem;
use sls_base::{OBJECTS, OUTPUT_CHANNELS, ObjId, PAGE_BYTES, PAGES, PageNo};

/// The most bytes of a page that are filled at once.
const FILLED: usize = 64;

/// Whether there is a page, at home.
pub fn is_there(nvm: &Pmem, page: PageNo) -> bool
    ensures { result ≡ true → (page < PAGES) × (is_page_home nvm.now page ≡ true) }
{
    usize::from(page) < PAGES && nvm.is_home(runtime_frame(page))
}

/// Whether all of some pages are there, at home.
pub fn are_home(nvm: &Pmem, pages: &[PageNo]) -> bool
    ensures { result ≡ true → All (λ page. is_page_home nvm.now page ≡ true) pages.now }
{
    for page in pages {
        if !is_there(nvm, *page) {
            return false;
        }
    }
    true
}

/// The byte at a place, which is zero behind the bytes' end.
fn byte_at(bytes: &[u8], at: usize) -> u8
    ensures { result ≡ slice_index bytes.now at }
{
    bytes.get(at).copied().unwrap_or(0)
}

/// Whether a page has these bytes, with zeros behind.
pub fn has_bytes(nvm: &Pmem, page: PageNo, bytes: &[u8]) -> bool
    requires page { page < PAGES }
    requires home { is_page_home nvm.now page ≡ true }
    ensures { result ≡ true → (content : ℕ → ℕ → ℕ) → Reads content nvm.now → (offset : ℕ)
        → content page offset ≡ slice_index bytes.now offset }
{
    if bytes.len() > PAGE_BYTES {
        return false;
    }
    let page = MemPage { page, fresh: false };
    for offset in 0..PAGE_BYTES {
        if byte_on_page(nvm, page, offset as u32) != byte_at(bytes, offset) {
            return false;
        }
    }
    true
}

/// Fills a page with bytes from its begin on, where it is there.
pub fn fill(nvm: &mut Pmem, page: PageNo, bytes: &[u8]) {
    for block in 0..PAGE_BYTES / FILLED {
        let begin = block * FILLED;
        let end = bytes.len().min(begin + FILLED);
        if begin < end && end <= PAGE_BYTES && is_there(nvm, page) {
            store_bytes(nvm, page, begin as u32, &bytes[begin..end]);
        }
    }
}

// Fresh pages.

/// Whether a page is that of a channel's ring. The ring of the inputs has none.
fn is_page_of(channel: u8, page: PageNo) -> bool
    ensures { result ≡ has_page (page_numbers (Some (ring_of channel))) page }
{
    usize::from(channel) != OUTPUT_CHANNELS && u16::from(channel) == page
}

/// Whether the object of a number has a page that is fresh.
fn is_fresh(objects: &Objects, id: ObjId, page: PageNo) -> bool
    ensures { result ≡ has_fresh (slot_at objects.now id) page }
{
    match objects.slot(id) {
        Some(Slot::Memory(memory)) => memory.pages.iter().any(|p| p.page == page && p.fresh),
        Some(Slot::Ring(ring)) => ring.fresh && is_page_of(ring.channel, page),
        _ => false,
    }
}

/// Whether the table has all its places, as it always does.
pub fn is_whole(objects: &Objects) -> bool
    ensures { result ≡ true → length objects.now.slots ≡ OBJECTS }
{
    objects.slots.as_slice().len() == OBJECTS
}

/// Whether no object has a page that is fresh.
pub fn is_stored(objects: &Objects, page: PageNo) -> bool
    ensures { result ≡ true → ¬ IsFreshPage objects.now page }
{
    if !is_whole(objects) {
        return false;
    }
    for id in 0..OBJECTS {
        if is_fresh(objects, id as ObjId, page) {
            return false;
        }
    }
    true
}

/// Whether so it is of all of some pages.
pub fn are_stored(objects: &Objects, pages: &[PageNo]) -> bool
    ensures { result ≡ true → All (λ page. ¬ IsFreshPage objects.now page) pages.now }
{
    for page in pages {
        if !is_stored(objects, *page) {
            return false;
        }
    }
    true
}
