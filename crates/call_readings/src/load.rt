//! Numbers in the memory that a thread sees.

ghost use Rattle.std.specs.Prelude.{◌≡◌, ℕ, ◌+◌, ◌%◌, ◌≤◌};
ghost use Rattle.plain_model.specs.Objects.{regions_of};
ghost use Rattle.kobj_table.specs.Objects.{object_at};
ghost use Rattle.call_readings.specs.Content.{Reads, number_seen};
ghost use Rattle.call_readings.specs.Need.{IsAtHome, page_seen};

use crate::content::{WORD_BYTES, number_on_page};
use crate::pages::page_at;
use kobj_table::Objects;
use pmem_model::Pmem;
use sls_base::{ObjId, PAGE_BYTES};

/// The number in so many bytes from an address on, the lowest first, which a space has with a right. They stand in one
/// word. It is None exactly where they aren't there.
pub fn number_at(
    objects: &Objects,
    nvm: &Pmem,
    space: ObjId,
    right: u8,
    at: u32,
    size: u32,
) -> Option<u32>
    requires size { (1 ≤ size) × (size ≤ 4) }
    requires home { (content : ℕ → ℕ → ℕ) → IsAtHome nvm.now
        (page_seen (object_at content objects.now) (regions_of (object_at content objects.now space)) right at) }
    ensures { (content : ℕ → ℕ → ℕ) → Reads content nvm.now → at % WORD_BYTES + size ≤ WORD_BYTES → result
        ≡ number_seen (object_at content objects.now) (regions_of (object_at content objects.now space)) right at size }
{
    let page = page_at(objects, space, right, u64::from(at))?;
    Some(number_on_page(nvm, page, at % PAGE_BYTES as u32, size))
}
