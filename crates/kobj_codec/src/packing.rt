//! Numbers that are packed in words, the lowest first.

ghost use Rattle.std.specs.Prelude.{◌≡◌, ◌+◌, ◌*◌, ◌/◌, ◌%◌, ◌<◌, ◌^◌, slice_index, [], ◌∷◌};
ghost use Rattle.pmem_layout.specs.Bits as field;

use pmem_layout::{SLOT_WORDS, bits};

/// A word of four numbers.
pub fn shorts(a: u16, b: u16, c: u16, d: u16) -> u64
    ensures { result ≡ field.fields ((16, a) ∷ (16, b) ∷ (16, c) ∷ (16, d) ∷ []) }
{
    u64::from(a) | u64::from(b) << 16 | u64::from(c) << 32 | u64::from(d) << 48
}

/// A word of two numbers.
pub fn halves(low: u32, high: u32) -> u64
    ensures { result ≡ field.fields ((32, low) ∷ (32, high) ∷ []) }
{
    u64::from(low) | u64::from(high) << 32
}

/// Number j of those of 8 bits that stand from a word on.
pub fn byte_at(words: &[u64; SLOT_WORDS], first: usize, j: usize) -> u8
    requires { first + j / 8 < SLOT_WORDS }
    ensures { result ≡ field.bits (8 * (j % 8)) 8 (slice_index words.now (first + j / 8)) }
{
    bits(words[first + j / 8], 8 * (j % 8) as u32, 8) as u8
}

/// Number j of those of 16 bits that stand from word 1 on.
pub fn short_at(words: &[u64; SLOT_WORDS], j: usize) -> u16
    requires { j / 4 + 1 < SLOT_WORDS }
    ensures { result ≡ field.bits (16 * (j % 4)) 16 (slice_index words.now (j / 4 + 1)) }
{
    bits(words[j / 4 + 1], 16 * (j % 4) as u32, 16) as u16
}

/// Number j of those of 32 bits that stand from word 1 on.
pub fn half_at(words: &[u64; SLOT_WORDS], j: usize) -> u32
    requires { j / 2 + 1 < SLOT_WORDS }
    ensures { result ≡ field.bits (32 * (j % 2)) 32 (slice_index words.now (j / 2 + 1)) }
{
    bits(words[j / 2 + 1], 32 * (j % 2) as u32, 32) as u32
}
