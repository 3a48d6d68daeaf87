//! An entry in its place on the page of its ring.

ghost use Rattle.std.specs.Prelude.{◌≡◌, ℕ, ◌/◌, ◌<◌, ◌≤◌, true, List, length};
ghost use Rattle.plain_model.specs.Objects.{page_of_channel};
ghost use Rattle.call_readings.specs.Content.{is_page_home, Reads};
ghost use Rattle.page_bytes.specs.Bytes.{StoresWords};
ghost use Rattle.out_gate.specs.Entries as entries;
ghost use Rattle.out_gate.specs.Entries.{with_entry, EntryStands};

use arrayvec::ArrayVec;
use call_readings::WORD_BYTES;
use mem_space::MemPage;
use page_bytes::{byte_on_page, store_bytes};
use pmem_model::Pmem;
use sls_base::{ENTRY_BYTES, Entry, OUTPUT_CHANNELS, PageNo, RING_ENTRIES};

/// The bytes of an entry's length.
const LENGTH_BYTES: usize = WORD_BYTES as usize;

/// The bytes of an entry's place: those of its length, and the most that it may have.
pub const PLACE_BYTES: usize = LENGTH_BYTES + ENTRY_BYTES;

/// The words of an entry's place.
pub const PLACE_WORDS: usize = PLACE_BYTES / LENGTH_BYTES;

/// Where the place of an entry begins on the page of its ring.
fn entry_at(number: u64) -> u32
    ensures { result ≡ entries.entry_at number }
{
    PLACE_BYTES as u32 * (number % RING_ENTRIES) as u32
}

/// The bytes of a place that has an entry: its length in a word, its bytes, and zeros behind.
fn place_bytes(entry: &[u8]) -> [u8; PLACE_BYTES]
    requires { length entry.now ≤ ENTRY_BYTES }
    ensures { result ≡ entries.place_bytes entry.now }
{
    let mut place = [0; PLACE_BYTES];
    place[..LENGTH_BYTES].copy_from_slice(&(entry.len() as u64).to_le_bytes());
    place[LENGTH_BYTES..LENGTH_BYTES + entry.len()].copy_from_slice(entry);
    place
}

/// Puts an entry of 1 to 56 bytes into the place of its number on its channel's page, by one burst.
pub fn place(nvm: &mut Pmem, channel: u8, number: u64, bytes: &[u8])
    requires channel { channel < OUTPUT_CHANNELS }
    requires home { is_page_home nvm.old (page_of_channel channel) ≡ true }
    requires some { 1 ≤ length bytes.now }
    requires most { length bytes.now ≤ ENTRY_BYTES }
    ensures stores { StoresWords (page_of_channel channel) (entries.entry_at number / WORD_BYTES) PLACE_WORDS
        nvm.old nvm.new }
    ensures content { (content : ℕ → ℕ → ℕ) → Reads content nvm.old
        → Reads (with_entry content channel number bytes.now) nvm.new }
    ensures stands { EntryStands nvm.new channel number bytes.now }
{
    store_bytes(
        nvm,
        PageNo::from(channel),
        entry_at(number),
        &place_bytes(bytes),
    );
}

/// The entry of a number that stands on its channel's page.
pub fn offer(nvm: &Pmem, channel: u8, number: u64) -> Entry
    requires channel { channel < OUTPUT_CHANNELS }
    requires home { is_page_home nvm.now (page_of_channel channel) ≡ true }
    requires there { (entry : List ℕ) × EntryStands nvm.now channel number entry }
    ensures { (entry : List ℕ) → EntryStands nvm.now channel number entry
        → result ≡ record { number = number; bytes = record { items = entry } } }
{
    let page = MemPage {
        page: PageNo::from(channel),
        fresh: false,
    };
    let at = entry_at(number);
    // A length is at most 56, so the first byte of its word has it.
    let count = byte_on_page(nvm, page, at);
    let mut bytes = ArrayVec::new();
    for k in 0..count {
        bytes.push(byte_on_page(nvm, page, at + WORD_BYTES + u32::from(k)));
    }
    Entry { number, bytes }
}
