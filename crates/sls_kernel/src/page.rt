//! The program's page: numbers in its bytes.

ghost use Rattle.std.specs.Prelude.{◌≡◌, ℕ, ◌+◌, ◌*◌, ◌/◌, ◌%◌, ◌^◌, ◌<◌, ◌≤◌, IsTrue, length, slice_index};
ghost use Rattle.pmem_model.specs.Memory.{word_at, AllHome};
ghost use Rattle.sls_kernel.specs.Plain;
ghost use Rattle.sls_kernel.specs.Plain.{number_at, stored_at};
ghost use Rattle.sls_kernel.specs.Words.{IsPage, byte_of, running_words};
ghost use Rattle.sls_kernel.specs.Counts.{SameCounts};
ghost use Rattle.sls_kernel.specs.Steps.{IsSize, SameOutside};

use crate::memory;
use pmem_model::Pmem;
use sls_base::PAGE_BYTES;

/// The frame of the program's page.
const PROGRAM: usize = 8;

/// Whether the page has so many bytes from an address on.
pub fn covers(at: u32, count: u32) -> bool
    ensures { result ≡ Plain.covers at count }
{
    count == 0 || at as usize + count as usize <= PAGE_BYTES
}

/// The number in so many bytes of a word from byte `k` on.
fn number_in(word: u64, k: u32, size: u32) -> u32
    requires size { IsSize size }
    requires inside { k + size ≤ 8 }
    ensures { result ≡ number_at (byte_of word) k size }
{
    (word >> (8 * k) & u64::MAX >> (64 - 8 * size)) as u32
}

/// The word with a number in so many of its bytes from byte `k` on.
fn with_number(word: u64, k: u32, size: u32, value: u32) -> u64
    requires size { IsSize size }
    requires inside { k + size ≤ 8 }
    ensures { (j : ℕ) → j < 8 → byte_of result j ≡ stored_at (byte_of word) k size value j }
{
    let mut bytes = word.to_le_bytes();
    let number = value.to_le_bytes();
    let k = k as usize;
    bytes[k] = number[0];
    if size == 1 {
        return u64::from_le_bytes(bytes);
    }
    bytes[k + 1] = number[1];
    if size == 2 {
        return u64::from_le_bytes(bytes);
    }
    bytes[k + 2] = number[2];
    bytes[k + 3] = number[3];
    u64::from_le_bytes(bytes)
}

/// The number in so many bytes of the page from an address on.
pub fn load(nvm: &Pmem, at: u32, size: u32) -> u32
    requires size { IsSize size }
    requires aligned { at % size ≡ 0 }
    requires covered { at + size ≤ PAGE_BYTES }
    requires home { AllHome nvm.now }
    ensures { (byte : ℕ → ℕ) → IsPage (running_words (word_at nvm.now) 4) byte → result ≡ number_at byte at size }
{
    number_in(memory::read(nvm, PROGRAM, (at / 8) as usize), at % 8, size)
}

/// Stores a number in so many bytes of the page from an address on.
pub fn store(nvm: &mut Pmem, at: u32, size: u32, value: u32)
    requires size { IsSize size }
    requires aligned { at % size ≡ 0 }
    requires covered { at + size ≤ PAGE_BYTES }
    requires home { AllHome nvm.old }
    ensures page { (byte : ℕ → ℕ) → IsPage (running_words (word_at nvm.old) 4) byte
        → IsPage (running_words (word_at nvm.new) 4) (stored_at byte at size value) }
    ensures outside { SameOutside PROGRAM nvm.old nvm.new }
    ensures home { AllHome nvm.new }
    ensures counts { SameCounts nvm.old nvm.new }
{
    let i = (at / 8) as usize;
    let word = with_number(memory::read(nvm, PROGRAM, i), at % 8, size, value);
    memory::store(nvm, PROGRAM, i, &[word]);
}

/// The byte of the page at an address.
pub fn byte(nvm: &Pmem, at: u32) -> u8
    requires covered { at < PAGE_BYTES }
    requires home { AllHome nvm.now }
    ensures { (byte : ℕ → ℕ) → IsPage (running_words (word_at nvm.now) 4) byte → result ≡ byte at }
{
    memory::read(nvm, PROGRAM, (at / 8) as usize).to_le_bytes()[(at % 8) as usize]
}
