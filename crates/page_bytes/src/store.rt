//! Stores to a page, each by one burst.

ghost use Rattle.std.specs.Prelude.{◌≡◌, ℕ, ◌+◌, ◌*◌, ◌/◌, ◌%◌, ◌<◌, ◌≤◌, true, length, slice_index};
ghost use Rattle.sls_base.specs.declared.limits.TheConstants.{FRAME_WORDS, PAGE_BYTES, PAGES};
ghost use Rattle.pmem_model.specs.Memory.{word_at};
ghost use Rattle.plain_model.specs.Memory.{bytes_of_number};
ghost use Rattle.call_readings.specs.Content.{byte_of, is_page_home, Reads};
ghost use Rattle.page_bytes.specs.Bytes.{overwritten, with_bytes, word_of_page, words_of, StoresWords};

use pmem_layout::{frame_at, runtime_frame};
use pmem_model::Pmem;
use sls_base::{ENTRY_BYTES, PageNo};

/// The bytes of a word of the memory.
pub(crate) const WORD_BYTES: usize = call_readings::WORD_BYTES as usize;

/// The most bytes that are stored at once: those of an entry behind a word.
pub const MOST_BYTES: usize = WORD_BYTES + ENTRY_BYTES;

/// The most words in which they stand.
const MOST_WORDS: usize = MOST_BYTES / WORD_BYTES + 1;

/// The byte at an offset, where bytes stand from another on: the one of them that is there, or else its own.
fn byte_with(own: u8, at: usize, offset: usize, bytes: &[u8]) -> u8
    ensures { result ≡ overwritten (λ other. own) offset bytes.now at }
{
    if offset <= at && at - offset < bytes.len() {
        bytes[at - offset]
    } else {
        own
    }
}

/// The word that begins at an offset, where bytes stand from another on.
fn word_with(word: u64, begin: usize, offset: usize, bytes: &[u8]) -> u64
    requires { begin < PAGE_BYTES }
    ensures { (k : ℕ) → k < WORD_BYTES → byte_of result k
        ≡ overwritten (λ other. byte_of word k) offset bytes.now (begin + k) }
{
    let mut merged = word.to_le_bytes();
    for k in 0..WORD_BYTES {
        merged[k] = byte_with(merged[k], begin + k, offset, bytes);
    }
    u64::from_le_bytes(merged)
}

/// So many words of a page from one on, where bytes stand from an offset on, and zeros behind.
fn words_with(
    nvm: &Pmem,
    page: PageNo,
    first: usize,
    count: usize,
    offset: usize,
    bytes: &[u8],
) -> [u64; MOST_WORDS]
    requires page { page < PAGES }
    requires home { is_page_home nvm.now page ≡ true }
    requires most { count ≤ MOST_WORDS }
    requires within { first + count ≤ FRAME_WORDS }
    ensures { (i k : ℕ) → i < count → k < WORD_BYTES → byte_of (slice_index result i) k
        ≡ overwritten (λ other. byte_of (word_at nvm.now (word_of_page page first + i)).cached k) offset bytes.now
        (WORD_BYTES * (first + i) + k) }
{
    let at = frame_at(runtime_frame(page)) + first;
    let mut words = [0; MOST_WORDS];
    for i in 0..count {
        words[i] = word_with(nvm.read(at + i), WORD_BYTES * (first + i), offset, bytes);
    }
    words
}

/// Stores a number in so many bytes of a page from an offset on, the lowest first. They stand in one word.
pub fn store_number(nvm: &mut Pmem, page: PageNo, offset: u32, size: u32, value: u32)
    requires page { page < PAGES }
    requires home { is_page_home nvm.old page ≡ true }
    requires size { (1 ≤ size) × (size ≤ 4) }
    requires offset { offset < PAGE_BYTES }
    requires within { offset % WORD_BYTES + size ≤ WORD_BYTES }
    ensures stores { StoresWords page (offset / WORD_BYTES) 1 nvm.old nvm.new }
    ensures content { (content : ℕ → ℕ → ℕ) → Reads content nvm.old
        → Reads (with_bytes content page offset (bytes_of_number size value)) nvm.new }
{
    let bytes = value.to_le_bytes();
    let word = offset as usize / WORD_BYTES;
    let at = frame_at(runtime_frame(page)) + word;
    let merged = word_with(
        nvm.read(at),
        WORD_BYTES * word,
        offset as usize,
        &bytes[..size as usize],
    );
    nvm.burst(at, &[merged]);
}

/// Stores 1 to 64 bytes of a page from an offset on. The other bytes of the words that they stand in are as they were.
pub fn store_bytes(nvm: &mut Pmem, page: PageNo, offset: u32, bytes: &[u8])
    requires page { page < PAGES }
    requires home { is_page_home nvm.old page ≡ true }
    requires some { 1 ≤ length bytes.now }
    requires most { length bytes.now ≤ MOST_BYTES }
    requires within { offset + length bytes.now ≤ PAGE_BYTES }
    ensures stores { StoresWords page (offset / WORD_BYTES) (words_of offset (length bytes.now)) nvm.old nvm.new }
    ensures content { (content : ℕ → ℕ → ℕ) → Reads content nvm.old
        → Reads (with_bytes content page offset bytes.now) nvm.new }
{
    let begin = offset as usize;
    let first = begin / WORD_BYTES;
    let count = (begin + bytes.len() - 1) / WORD_BYTES + 1 - first;
    let words = words_with(nvm, page, first, count, begin, bytes);
    nvm.burst(frame_at(runtime_frame(page)) + first, &words[..count]);
}
