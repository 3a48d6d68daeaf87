//! The call put: some bytes of the page become the next entry of a channel.

ghost use Rattle.std.specs.Prelude.{◌≡◌, ℕ, ◌+◌, ◌-◌, ◌*◌, ◌/◌, ◌%◌, ◌^◌, ◌<◌, ◌≤◌, ◌==◌, not, if◌then◌else◌, length, slice_index, slice_set, List};
ghost use Rattle.pmem_model.specs.Memory.{word_at, AllHome};
ghost use Rattle.pmem_model.specs.Words.{is_within};
ghost use Rattle.sls_kernel.specs.Plain;
ghost use Rattle.sls_kernel.specs.Plain.{State};
ghost use Rattle.sls_kernel.specs.Words.{RunsAs, Tells, IsPage, IsOffPages, byte_of, running_words};
ghost use Rattle.sls_kernel.specs.Counts.{SameCounts};
ghost use Rattle.sls_kernel.specs.Steps.{AreEntry, HasPut, SameOutside, SlotFound};

use crate::calls::Refusal;
use crate::memory::WORD_BYTES;
use crate::thread::RunThread;
use crate::{memory, page};
use pmem_model::Pmem;
use sls_base::{ENTRY_BYTES, OUTPUT_CHANNELS, PAGE_BYTES, RING_ENTRIES};

/// The slot of channel 0's ring; those of the others follow.
const FIRST_OUTPUT: u32 = 2;
/// The slot behind those of the rings.
const OUTPUTS_END: u32 = 6;
/// The first slot of those that are empty.
const SLOTS_END: u32 = 10;

/// The register of the slot.
const SLOT: usize = 10;
/// The register of the address of the bytes.
const ADDRESS: usize = 11;
/// The register of their number.
const LENGTH: usize = 12;

/// The words of an entry's bytes.
const CONTENT_WORDS: usize = 7;
/// The words of an entry: its length, then its bytes.
const ENTRY_WORDS: usize = 1 + CONTENT_WORDS;

/// The channel of a slot.
fn channel_of(slot: u32) -> Result<usize, Refusal>
    ensures { SlotFound result slot }
{
    if slot >= SLOTS_END {
        return Err(Refusal::NoCap);
    }
    if !(FIRST_OUTPUT..OUTPUTS_END).contains(&slot) {
        return Err(Refusal::WrongKind);
    }
    Ok((slot - FIRST_OUTPUT) as usize)
}

/// Whether a ring can hold no more entries, or no number is left.
fn is_full(put: u64, accepted: u64) -> bool
    ensures { result ≡ Plain.is_full put accepted }
{
    put == accepted.saturating_add(RING_ENTRIES) || put == u64::MAX
}

/// Word `i` of bytes.
fn word_of(bytes: &[u8; ENTRY_BYTES], i: usize) -> u64
    requires { i < CONTENT_WORDS }
    ensures { (j : ℕ) → j < 8 → byte_of result j ≡ slice_index bytes.now (8 * i + j) }
{
    let mut word = [0; WORD_BYTES];
    word.copy_from_slice(&bytes[WORD_BYTES * i..WORD_BYTES * i + WORD_BYTES]);
    u64::from_le_bytes(word)
}

/// So many bytes of the page from an address on, with zeros behind.
fn bytes_of(nvm: &Pmem, at: u32, count: u32) -> [u8; ENTRY_BYTES]
    requires most { count ≤ ENTRY_BYTES }
    requires covered { at + count ≤ PAGE_BYTES }
    requires home { AllHome nvm.now }
    ensures { (byte : ℕ → ℕ) → IsPage (running_words (word_at nvm.now) 4) byte
        → (k : ℕ) → slice_index result k ≡ slice_index (Plain.bytes_at byte at count) k }
{
    let mut bytes = [0; ENTRY_BYTES];
    for k in 0..count {
        bytes[k as usize] = page::byte(nvm, at + k);
    }
    bytes
}

/// The words of an entry of so many bytes of the page from an address on.
fn entry_words(nvm: &Pmem, at: u32, count: u32) -> [u64; ENTRY_WORDS]
    requires most { count ≤ ENTRY_BYTES }
    requires covered { at + count ≤ PAGE_BYTES }
    requires home { AllHome nvm.now }
    ensures { (byte : ℕ → ℕ) → IsPage (running_words (word_at nvm.now) 4) byte → AreEntry result byte at count }
{
    let bytes = bytes_of(nvm, at, count);
    let mut words = [0; ENTRY_WORDS];
    words[0] = u64::from(count);
    for i in 0..CONTENT_WORDS {
        words[1 + i] = word_of(&bytes, i);
    }
    words
}

/// Stores the words of an entry in its place in a ring.
fn append(nvm: &mut Pmem, channel: usize, number: u64, words: &[u64; ENTRY_WORDS])
    requires channel { channel < OUTPUT_CHANNELS }
    requires home { AllHome nvm.old }
    ensures words { (i : ℕ) → running_words (word_at nvm.new) channel i
        ≡ (if is_within (ENTRY_WORDS * (number % RING_ENTRIES)) ENTRY_WORDS i
        then slice_index words.now (i - ENTRY_WORDS * (number % RING_ENTRIES))
        else running_words (word_at nvm.old) channel i) }
    ensures outside { SameOutside (2 * channel) nvm.old nvm.new }
    ensures home { AllHome nvm.new }
    ensures counts { SameCounts nvm.old nvm.new }
{
    let place = ENTRY_WORDS * (number % RING_ENTRIES) as usize;
    memory::store(nvm, 2 * channel, place, words);
}

/// Puts bytes of the page on a channel, or refuses: x10 is the slot, x11 the address and x12 the length.
pub fn put(
    thread: &RunThread,
    counts: &mut [u64; OUTPUT_CHANNELS],
    nvm: &mut Pmem,
    accepted: &[u64; OUTPUT_CHANNELS],
) -> Result<(), Refusal>
    requires { AllHome nvm.old }
    ensures home { AllHome nvm.new }
    ensures rest { (i : ℕ) → IsOffPages i → word_at nvm.new i ≡ word_at nvm.old i }
    ensures counts { SameCounts nvm.old nvm.new }
    ensures state { (s : State) (count : ℕ → ℕ) → Tells accepted.now count
        → RunsAs thread.now counts.old (word_at nvm.old) count s
        → HasPut result thread.now counts.new (word_at nvm.new) count s }
{
    let channel = channel_of(thread.regs.x[SLOT])?;
    let at = thread.regs.x[ADDRESS];
    let count = thread.regs.x[LENGTH];
    if !page::covers(at, count.min(ENTRY_BYTES as u32)) {
        return Err(Refusal::BadAddress);
    }
    if count == 0 || count > ENTRY_BYTES as u32 {
        return Err(Refusal::BadSize);
    }
    let number = counts[channel];
    if is_full(number, accepted[channel]) {
        return Err(Refusal::Full);
    }
    append(nvm, channel, number, &entry_words(nvm, at, count));
    counts[channel] = number + 1;
    Ok(())
}
