//! The bytes of pages in the persistent memory.

ghost use Rattle.std.specs.Prelude.{◌≡◌, ℕ, ◌+◌, ◌%◌, ◌<◌, ◌≤◌, true};
ghost use Rattle.sls_base.specs.declared.limits.TheConstants.{PAGE_BYTES, PAGES};
ghost use Rattle.kobj_table.specs.Slots.{bytes_of};
ghost use Rattle.call_readings.specs.Content.{byte_of, is_page_home, number_in, Reads};

use mem_space::MemPage;
use pmem_layout::{frame_at, runtime_frame};
use pmem_model::Pmem;
use sls_base::{PAGES, PageNo};

/// The bytes of a word of the memory.
pub const WORD_BYTES: u32 = 8;

/// Whether the runtime frame of a page is at home. One that there isn't has none that could be away.
pub(crate) fn is_home(nvm: &Pmem, page: PageNo) -> bool
    ensures home { page < PAGES → result ≡ is_page_home nvm.now page }
    ensures past { PAGES ≤ page → result ≡ true }
{
    usize::from(page) >= PAGES || nvm.is_home(runtime_frame(page))
}

/// The number in so many bytes of a word from byte `k` on.
fn number_in_word(word: u64, k: u32, size: u32) -> u32
    requires k { k < WORD_BYTES }
    requires size { (1 ≤ size) × (size ≤ 4) }
    ensures { k + size ≤ WORD_BYTES → result ≡ number_in (byte_of word) k size }
{
    (word >> (8 * k) & u64::MAX >> (64 - 8 * size)) as u32
}

/// The number in so many bytes of a page from an offset on, the lowest first. They stand in one word.
pub fn number_on_page(nvm: &Pmem, page: MemPage, offset: u32, size: u32) -> u32
    requires size { (1 ≤ size) × (size ≤ 4) }
    requires offset { offset < PAGE_BYTES }
    requires home { page.page < PAGES → is_page_home nvm.now page.page ≡ true }
    ensures { (content : ℕ → ℕ → ℕ) → Reads content nvm.now → offset % WORD_BYTES + size ≤ WORD_BYTES
        → result ≡ number_in (bytes_of content page.page page.fresh) offset size }
{
    if page.fresh || usize::from(page.page) >= PAGES {
        return 0;
    }
    let word = nvm.read(frame_at(runtime_frame(page.page)) + (offset / WORD_BYTES) as usize);
    number_in_word(word, offset % WORD_BYTES, size)
}
