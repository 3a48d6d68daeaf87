//! Loads from pages.

ghost use Rattle.std.specs.Prelude.{◌≡◌, ℕ, ◌+◌, ◌<◌, ◌≤◌, true, option_map};
ghost use Rattle.sls_base.specs.declared.limits.TheConstants.{ENTRY_BYTES, PAGE_BYTES, PAGES};
ghost use Rattle.plain_model.specs.Objects.{regions_of};
ghost use Rattle.plain_model.specs.Memory as memory;
ghost use Rattle.plain_model.specs.Memory.{place_of};
ghost use Rattle.kobj_table.specs.Slots.{bytes_of};
ghost use Rattle.kobj_table.specs.Objects.{object_at};
ghost use Rattle.call_readings.specs.Content.{is_page_home, Reads};
ghost use Rattle.call_readings.specs.Need.{page_seen, IsAtHome};
ghost use Rattle.page_bytes.specs.Bytes.{bytes_seen};

use crate::store::WORD_BYTES;
use arrayvec::ArrayVec;
use call_readings::page_at;
use kobj_table::Objects;
use mem_space::MemPage;
use pmem_layout::{frame_at, runtime_frame};
use pmem_model::Pmem;
use sls_base::{ObjId, PAGE_BYTES, PAGES};

/// A byte of a page. It is 0 where the page is fresh, or where there is no page of its number.
pub fn byte_on_page(nvm: &Pmem, page: MemPage, offset: u32) -> u8
    requires offset { offset < PAGE_BYTES }
    requires home { page.page < PAGES → is_page_home nvm.now page.page ≡ true }
    ensures { (content : ℕ → ℕ → ℕ) → Reads content nvm.now
        → result ≡ bytes_of content page.page page.fresh offset }
{
    if page.fresh || usize::from(page.page) >= PAGES {
        return 0;
    }
    let at = offset as usize;
    let word = nvm.read(frame_at(runtime_frame(page.page)) + at / WORD_BYTES);
    word.to_le_bytes()[at % WORD_BYTES]
}

/// The byte at an address, as a space has it with a right. It is None exactly where it isn't there.
fn byte_at(objects: &Objects, nvm: &Pmem, space: ObjId, right: u8, at: u64) -> Option<u8>
    requires home { (content : ℕ → ℕ → ℕ) → IsAtHome nvm.now
        (page_seen (object_at content objects.now) (regions_of (object_at content objects.now space)) right at) }
    ensures { (content : ℕ → ℕ → ℕ) → Reads content nvm.now
        → result ≡ option_map (memory.byte_at (object_at content objects.now))
        (place_of (regions_of (object_at content objects.now space)) right at) }
{
    let page = page_at(objects, space, right, at)?;
    Some(byte_on_page(nvm, page, (at % PAGE_BYTES as u64) as u32))
}

/// So many bytes from an address on, as a space has them with a right. It is None exactly where one of them isn't
/// there.
pub fn bytes_at(
    objects: &Objects,
    nvm: &Pmem,
    space: ObjId,
    right: u8,
    at: u32,
    count: u32,
) -> Option<ArrayVec<u8, 56>>
    requires count { count ≤ ENTRY_BYTES }
    requires home { (content : ℕ → ℕ → ℕ) (k : ℕ) → k < count → IsAtHome nvm.now
        (page_seen (object_at content objects.now) (regions_of (object_at content objects.now space)) right (at + k)) }
    ensures { (content : ℕ → ℕ → ℕ) → Reads content nvm.now → option_map (λ bytes. bytes.items) result
        ≡ bytes_seen (object_at content objects.now) (regions_of (object_at content objects.now space)) right at count }
{
    let mut bytes = ArrayVec::new();
    for k in 0..count {
        let address = u64::from(at) + u64::from(k);
        bytes.push(byte_at(objects, nvm, space, right, address)?);
    }
    Some(bytes)
}
