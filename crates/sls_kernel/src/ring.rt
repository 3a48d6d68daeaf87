//! Entries on a ring's page.

ghost use Rattle.std.specs.Prelude.{◌≡◌, ℕ, ◌+◌, ◌*◌, ◌/◌, ◌%◌, ◌<◌, ◌≤◌, List};
ghost use Rattle.pmem_model.specs.Memory.{word_at, AllHome};
ghost use Rattle.sls_kernel.specs.Words.{frame_place, byte_of, IsEntry};

use crate::memory::{self, WORD_BYTES};
use arrayvec::ArrayVec;
use pmem_model::Pmem;
use sls_base::{ENTRY_BYTES, FRAMES, RING_ENTRIES};

/// The words of an entry's place: its length, and then its bytes.
const PLACE_WORDS: usize = 8;

/// Where the place of an entry begins on the ring's page.
fn place(number: u64) -> usize
    ensures { result ≡ PLACE_WORDS * (number % RING_ENTRIES) }
{
    PLACE_WORDS * (number % RING_ENTRIES) as usize
}

/// Byte `k` of the entry of a number.
fn durable_byte(nvm: &Pmem, frame: usize, number: u64, k: usize) -> u8
    requires frame { frame < FRAMES }
    requires inside { k < ENTRY_BYTES }
    requires home { AllHome nvm.now }
    ensures { let at = PLACE_WORDS * (number % RING_ENTRIES) + 1 + k / WORD_BYTES in
        result ≡ byte_of (word_at nvm.now (frame_place frame + at)).durable (k % WORD_BYTES) }
{
    let word = memory::durable(nvm, frame, place(number) + 1 + k / WORD_BYTES);
    word.to_le_bytes()[k % WORD_BYTES]
}

/// The bytes that the entry of a number has, cut to those that there is room for.
fn durable_length(nvm: &Pmem, frame: usize, number: u64) -> usize
    requires frame { frame < FRAMES }
    requires home { AllHome nvm.now }
    ensures most { result ≤ ENTRY_BYTES }
    ensures whole { let size = (word_at nvm.now (frame_place frame + PLACE_WORDS * (number % RING_ENTRIES))).durable in
        size ≤ ENTRY_BYTES → result ≡ size }
{
    let length = memory::durable(nvm, frame, place(number));
    length.min(ENTRY_BYTES as u64) as usize
}

/// The bytes of the entry of a number, from the durable words of a ring's page in a frame. Words that are no entry give
/// some bytes.
pub fn durable_entry(nvm: &Pmem, frame: usize, number: u64) -> ArrayVec<u8, 56>
    requires frame { frame < FRAMES }
    requires home { AllHome nvm.now }
    ensures { (entry : List ℕ) → IsEntry (λ i. (word_at nvm.now (frame_place frame + i)).durable) number entry
        → result.items ≡ entry }
{
    let mut entry = ArrayVec::new();
    for k in 0..durable_length(nvm, frame, number) {
        entry.push(durable_byte(nvm, frame, number, k));
    }
    entry
}
