//! The pages on which objects have content.

ghost use Rattle.std.specs.Prelude.{◌≡◌, ◌==◌, Some};
ghost use Rattle.std.specs.List.{list_any};
ghost use Rattle.plain_model.specs.Objects.{page_numbers};
ghost use Rattle.kobj_table.specs.Slots.{ring_of};
ghost use Rattle.object_records.specs.Records as records;
ghost use Rattle.object_records.specs.Pages as pages;

use kobj_table::{Objects, Slot};
use sls_base::{OBJECTS, OUTPUT_CHANNELS, ObjId, PageNo};

/// Whether an object has content on a page: it is one of a memory object, or that of an output ring, and isn't fresh.
pub fn is_content(objects: &Objects, page: PageNo) -> bool
    ensures { result ≡ pages.is_content (records.record_at objects.now) page }
{
    (0..OBJECTS).any(|id| has_content(objects, id as ObjId, page))
}

/// Whether the object of a number has content on a page.
fn has_content(objects: &Objects, id: ObjId, page: PageNo) -> bool
    ensures { result ≡ pages.has_content_in (records.record_at objects.now id) page }
{
    match objects.slot(id) {
        Some(Slot::Memory(memory)) => memory.pages.iter().any(|p| p.page == page && !p.fresh),
        Some(Slot::Ring(ring)) => !ring.fresh && is_page_of(ring.channel, page),
        _ => false,
    }
}

/// Whether a page is that of a channel's ring. The ring of the inputs has none.
fn is_page_of(channel: u8, page: PageNo) -> bool
    ensures { result ≡ list_any (λ number. number == page) (page_numbers (Some (ring_of channel))) }
{
    usize::from(channel) != OUTPUT_CHANNELS && u16::from(channel) == page
}
