//! The parts of a bank, and sets of them as bits.

ghost use Rattle.std.specs.Prelude.{◌≡◌, ℕ, ◌+◌, ◌-◌, ◌<◌, ◌≤◌, ◌≢◌, true, false, IsTrue, ◌||◌, ◌&&◌, nat_le};
ghost use Rattle.pmem_model.specs.Parts.{part_of, part_start, has_part};

use sls_base::{FRAME_WORDS, LINE_WORDS, TABLE_WORDS};

/// How many words a part of the table has.
const TABLE_PART_WORDS: usize = TABLE_WORDS / 64;

/// The part that a place is in, in a bank of `len` words.
#[tactic(auto, unfolding(crate::specs::Parts::part_of))]
pub fn number(len: usize, at: usize) -> usize
    ensures { result ≡ part_of len at }
{
    if len == FRAME_WORDS {
        at / LINE_WORDS
    } else {
        at / TABLE_PART_WORDS
    }
}

/// Where a part begins, in a bank of `len` words.
#[tactic(auto, unfolding(crate::specs::Parts::part_start))]
pub fn start(len: usize, part: usize) -> usize
    requires { part ≤ 64 }
    ensures { result ≡ part_start len part }
{
    if len == FRAME_WORDS {
        LINE_WORDS * part
    } else {
        TABLE_PART_WORDS * part
    }
}

/// Whether a part is in the set.
pub fn has(parts: u64, part: usize) -> bool
    requires { part < 64 }
    ensures { result ≡ has_part parts part }
{
    (parts >> part) & 1 == 1
}

/// The set with the parts from `first` up to `last`.
fn with(parts: u64, first: usize, last: usize) -> u64
    requires order { first ≤ last }
    requires range { last < 64 }
    ensures { (part : ℕ) → has_part result part ≡ (has_part parts part || (nat_le first part && nat_le part last)) }
{
    parts | (u64::MAX << first) & (u64::MAX >> (63 - last))
}

/// The set with the parts of `count` words from `at` on.
#[tactic(auto, using(crate::proofs::PartLemmas::parts))]
pub fn with_words(parts: u64, len: usize, at: usize, count: usize) -> u64
    requires parts { part_start len 64 ≡ len }
    requires some { 0 < count }
    requires fits { at + count ≤ len }
    ensures { (part : ℕ) → has_part result part ≡ (has_part parts part ||
        (nat_le (part_of len at) part && nat_le part (part_of len (at + count - 1)))) }
{
    with(parts, number(len, at), number(len, at + count - 1))
}

/// The set without a part that is in it.
#[tactic(auto, using(crate::specs::Marks::core_le))]
pub fn without(parts: u64, part: usize) -> u64
    requires range { part < 64 }
    requires member { IsTrue (has_part parts part) }
    ensures gone { has_part result part ≡ false }
    ensures others { (other : ℕ) → other ≢ part → has_part result other ≡ has_part parts other }
    ensures less { result < parts }
{
    parts - (1 << part)
}

/// The least part in the set.
pub fn first(parts: u64) -> usize
    requires { 0 < parts }
    ensures range { result < 64 }
    ensures member { has_part parts result ≡ true }
    ensures least { (part : ℕ) → part < result → has_part parts part ≡ false }
{
    parts.trailing_zeros() as usize
}
