//! The record of a memory object.

ghost use Rattle.std.specs.Prelude.{◌≡◌, ◌+◌, ◌<◌, ◌≤◌, ◌↔◌, IsTrue, IfSome, ℕ, Some, slice_index, slice_get};
ghost use Rattle.mem_space.specs.declared.memory.MemPage.{MemPage};
ghost use Rattle.mem_space.specs.declared.memory.Memory.{Memory};
ghost use Rattle.kobj_codec.specs.declared.obj.Obj.TheVariants as objs;
ghost use Rattle.kobj_codec.specs.Objects.{IsMemory, IsPage};
ghost use Rattle.kobj_codec.specs.Records as records;
ghost use Rattle.kobj_codec.specs.Records.{IsRecord};

use crate::kinds::MEMORY_KIND;
use crate::packing::{short_at, shorts};
use arrayvec::ArrayVec;
use mem_space::{MemPage, Memory};
use pmem_layout::SLOT_WORDS;
use sls_base::{MEMORY_PAGES, PAGES};

/// The mark of a page that is fresh.
const FRESH_MARK: u16 = 0x8000;

/// Whether a memory object has a record.
pub fn is_memory(memory: &Memory) -> bool
    ensures { IsTrue result ↔ IsMemory memory.now }
{
    !memory.pages.is_empty()
        && memory
            .pages
            .iter()
            .all(|page| usize::from(page.page) < PAGES)
}

/// Word 0 of a memory object's record.
pub fn memory_head(memory: &Memory) -> u64
    requires { IsMemory memory.now }
    ensures { result ≡ records.head_word (objs.Memory memory.now) }
{
    let pages = memory.pages.len() as u8;
    u64::from_le_bytes([MEMORY_KIND, pages, 0, 0, 0, 0, 0, 0])
}

/// Word i + 1 of a memory object's record.
pub fn memory_word(memory: &Memory, i: usize) -> u64
    requires memory { IsMemory memory.now }
    requires in_slot { i + 1 < SLOT_WORDS }
    ensures { result ≡ records.word_behind (objs.Memory memory.now) i }
{
    shorts(
        number_at(memory, 4 * i),
        number_at(memory, 4 * i + 1),
        number_at(memory, 4 * i + 2),
        number_at(memory, 4 * i + 3),
    )
}

fn number_at(memory: &Memory, index: usize) -> u16
    requires { IsMemory memory.now }
    ensures { result ≡ records.page_number (slice_get memory.now.pages.items index) }
{
    match memory.pages.get(index) {
        Some(page) => page_number(*page),
        None => 0,
    }
}

fn page_number(page: MemPage) -> u16
    requires { IsPage page }
    ensures { result ≡ records.page_number (Some page) }
{
    if page.fresh {
        page.page + FRESH_MARK
    } else {
        page.page
    }
}

/// What a number tells of a page.
fn page_of(number: u16) -> MemPage
    ensures { (page : MemPage) → IsPage page → number ≡ records.page_number (Some page) → result ≡ page }
{
    MemPage {
        page: number % FRESH_MARK,
        fresh: number >= FRESH_MARK,
    }
}

/// The memory object of a record.
pub fn read_memory(words: &[u64; SLOT_WORDS]) -> Memory
    ensures { (memory : Memory) → IsMemory memory → IsRecord (slice_index words.now) (objs.Memory memory)
        → result ≡ memory }
{
    let [_, count, _, _, _, _, _, _] = words[0].to_le_bytes();
    let count = usize::from(count).min(MEMORY_PAGES);
    let mut pages = ArrayVec::new();
    for j in 0..count {
        pages.push(page_of(short_at(words, j)));
    }
    Memory { pages }
}
