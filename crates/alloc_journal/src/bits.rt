//! Sets of numbers, a bit each.

ghost use Rattle.std.specs.Prelude.{◌≡◌, ◌≢◌, ◌*◌, ◌/◌, ◌<◌, ◌≤◌, ℕ, Bool, true, false, not, ◌||◌, IfSome, IsNone};
ghost use Rattle.std.specs.Int.{bit_at};
ghost use Rattle.alloc_journal.specs.Sets as sets;

use pmem_layout::{BASE_BITS, NUMBERS, is_in_base, with_bit};

/// The words of a set.
pub const BASE_WORDS: usize = NUMBERS / BASE_BITS;

/// A set of numbers: bit i mod 64 of word i div 64 tells whether number i is in it.
pub type Bits = [u64; BASE_WORDS];

/// Whether a set has a number.
pub fn has(bits: &Bits, number: usize) -> bool
    requires { number < NUMBERS }
    ensures { result ≡ sets.has bits.now number }
{
    is_in_base(bits[number / BASE_BITS], (number % BASE_BITS) as u32)
}

/// Puts a number into a set, or takes it out.
pub fn put(bits: &mut Bits, number: usize, in_set: bool)
    requires { number < NUMBERS }
    ensures changed { sets.has bits.new number ≡ in_set }
    ensures others { sets.SameBut number bits.old bits.new }
{
    let word = number / BASE_BITS;
    bits[word] = with_bit(bits[word], (number % BASE_BITS) as u32, in_set);
}

/// The numbers that neither set has.
pub fn neither(a: &Bits, b: &Bits) -> Bits
    ensures { (n : ℕ) → n < NUMBERS → sets.has result n ≡ not (sets.has a.now n || sets.has b.now n) }
{
    let mut bits = [0; BASE_WORDS];
    for word in 0..BASE_WORDS {
        bits[word] = in_neither(a[word], b[word]);
    }
    bits
}

fn in_neither(a: u64, b: u64) -> u64
    ensures { (n : ℕ) → sets.bit_of result n ≡ not (sets.bit_of a n || sets.bit_of b n) }
{
    !a & !b
}

/// The numbers that one set has and the other doesn't.
pub fn differing(a: &Bits, b: &Bits) -> Bits
    ensures { (n : ℕ) → n < NUMBERS → sets.has result n ≡ sets.differ (sets.has a.now n) (sets.has b.now n) }
{
    let mut bits = [0; BASE_WORDS];
    for word in 0..BASE_WORDS {
        bits[word] = in_one(a[word], b[word]);
    }
    bits
}

fn in_one(a: u64, b: u64) -> u64
    ensures { (n : ℕ) → sets.bit_of result n ≡ sets.differ (sets.bit_of a n) (sets.bit_of b n) }
{
    a ^ b
}

/// The least number that some words of a set have: those from the first up to the past one.
pub fn least(bits: &Bits, first: usize, past: usize) -> Option<usize>
    requires { past ≤ BASE_WORDS }
    ensures inside { IfSome result (λ n. (BASE_BITS * first ≤ n) × (n < BASE_BITS * past)) }
    ensures found { IfSome result (λ n. sets.has bits.now n ≡ true) }
    ensures least { IfSome result (λ n. (m : ℕ) → BASE_BITS * first ≤ m → m < n → sets.has bits.now m ≡ false) }
    ensures none { IsNone result → (m : ℕ) → BASE_BITS * first ≤ m → m < BASE_BITS * past
        → sets.has bits.now m ≡ false }
{
    for word in first..past {
        if bits[word] != 0 {
            return Some(word * BASE_BITS + lowest_bit(bits[word]));
        }
    }
    None
}

fn lowest_bit(word: u64) -> usize
    requires { word ≢ 0 }
    ensures in_word { result < BASE_BITS }
    ensures set { bit_at word result ≡ 1 }
    ensures below { (i : ℕ) → i < result → bit_at word i ≡ 0 }
{
    word.trailing_zeros() as usize
}
