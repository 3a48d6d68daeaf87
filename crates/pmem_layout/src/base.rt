//! The words of the allocation base.

ghost use Rattle.std.specs.Prelude.{◌≡◌, ◌≢◌, ◌<◌, ◌↔◌, ℕ, IsTrue, if◌then◌else◌};
ghost use Rattle.std.specs.Int.{bit_at};

use crate::places::BASE_BITS;

/// Whether a bit of a word is set, which is to say that its number is in use.
pub fn is_in_base(word: u64, bit: u32) -> bool
    requires { bit < BASE_BITS }
    ensures { IsTrue result ↔ (bit_at word bit ≡ 1) }
{
    word >> bit & 1 == 1
}

/// The word with one bit set or cleared, and all others as they are.
pub fn with_bit(word: u64, bit: u32, in_use: bool) -> u64
    requires { bit < BASE_BITS }
    ensures changed { bit_at result bit ≡ (if in_use then 1 else 0) }
    ensures others { (other : ℕ) → other < BASE_BITS → other ≢ bit → bit_at result other ≡ bit_at word other }
{
    if in_use {
        word | 1 << bit
    } else {
        word & !(1 << bit)
    }
}
