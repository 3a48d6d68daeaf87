//! The bits of a word.

ghost use Rattle.std.specs.Prelude.{◌≡◌, ◌+◌, ◌≤◌, ◌<◌, ◌^◌};
ghost use Rattle.pmem_layout.specs.Bits as fields;

/// The `count` bits of a word from bit `low` up, as a number.
pub fn bits(word: u64, low: u32, count: u32) -> u64
    requires some { 1 ≤ count }
    requires in_word { low + count ≤ 64 }
    ensures { result ≡ fields.bits low count word }
{
    (word >> low) & (u64::MAX >> (64 - count))
}
