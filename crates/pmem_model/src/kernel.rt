//! The events on slices.

ghost use Rattle.std.specs.Prelude.{◌≡◌, ◌≢◌, ℕ, ◌+◌, ◌-◌, ◌<◌, ◌≤◌, length, slice_index, if◌then◌else◌, IfSome, IfNone, IsTrue, true, false};
ghost use Rattle.pmem_model.specs.Words.{is_within, has_core, with_core, without_core};
ghost use Rattle.pmem_model.specs.Kept.{is_between, IsKept};
ghost use Rattle.pmem_model.specs.Parts.{part_start, is_touched};

use crate::parts;
use sls_base::CoreNo;

pub fn is_marked(marks: u8, core: CoreNo) -> bool
    requires { core < 8 }
    ensures { result ≡ has_core marks core }
{
    (marks >> core) & 1 == 1
}

fn marked(marks: u8, core: CoreNo) -> u8
    requires { core < 8 }
    ensures { result ≡ with_core marks core }
{
    marks | 1 << core
}

#[tactic(auto, using(crate::specs::Marks::core_le))]
fn unmarked(marks: u8, core: CoreNo) -> u8
    requires core { core < 8 }
    requires marked { IsTrue (has_core marks core) }
    ensures { result ≡ without_core marks core }
{
    marks - (1 << core)
}

/// What a fence by a core makes of a durable value and of its marks.
fn fenced(cached: u64, durable: u64, marks: u8, core: CoreNo) -> (u64, u8)
    requires { core < 8 }
    ensures durable { result.0 ≡ (if has_core marks core then cached else durable) }
    ensures marks { result.1 ≡ (if has_core marks core then without_core marks core else marks) }
{
    if is_marked(marks, core) {
        (cached, unmarked(marks, core))
    } else {
        (durable, marks)
    }
}

/// Stores words from `at` on.
pub fn store(cached: &mut [u64], at: usize, words: &[u64])
    requires { at + length words.now ≤ length cached.old }
    ensures { (i : ℕ) → slice_index cached.new i
        ≡ (if is_within at (length words.now) i then slice_index words.now (i - at) else slice_index cached.old i) }
{
    for k in 0..words.len() {
        cached[at + k] = words[k];
    }
}

/// Takes the marks of the words from `first` on and before `past` away.
pub fn clear(marks: &mut [u8], first: usize, past: usize)
    requires { past ≤ length marks.old }
    ensures { (i : ℕ) → slice_index marks.new i ≡ (if is_between first past i then 0 else slice_index marks.old i) }
{
    for i in first..past {
        marks[i] = 0;
    }
}

/// Marks `count` words from `at` on as in flight for a core.
pub fn mark(marks: &mut [u8], core: CoreNo, at: usize, count: usize)
    requires core { core < 8 }
    requires fits { at + count ≤ length marks.old }
    ensures { (i : ℕ) → slice_index marks.new i
        ≡ (if is_within at count i then with_core (slice_index marks.old i) core else slice_index marks.old i) }
{
    for k in 0..count {
        marks[at + k] = marked(marks[at + k], core);
    }
}

/// Makes the words that are marked for a core durable, of those from `first` on and before `past`.
pub fn settle(
    cached: &[u64],
    durable: &mut [u64],
    marks: &mut [u8],
    core: CoreNo,
    first: usize,
    past: usize,
)
    requires core { core < 8 }
    requires cached_fits { past ≤ length cached.now }
    requires durable_fits { past ≤ length durable.old }
    requires marks_fit { past ≤ length marks.old }
    ensures durable { (i : ℕ) → slice_index durable.new i
        ≡ (if is_between first past i then (if has_core (slice_index marks.old i) core then slice_index cached.now i
        else slice_index durable.old i) else slice_index durable.old i) }
    ensures marks { (i : ℕ) → slice_index marks.new i
        ≡ (if is_between first past i then (if has_core (slice_index marks.old i) core
        then without_core (slice_index marks.old i) core else slice_index marks.old i)
        else slice_index marks.old i) }
{
    for i in first..past {
        let (value, left) = fenced(cached[i], durable[i], marks[i], core);
        durable[i] = value;
        marks[i] = left;
    }
}

/// Sets each cached value to the durable one, of the words from `first` on and before `past`.
pub fn revert(cached: &mut [u64], durable: &[u64], first: usize, past: usize)
    requires cached_fits { past ≤ length cached.old }
    requires durable_fits { past ≤ length durable.now }
    ensures { (i : ℕ) → slice_index cached.new i ≡ (if is_between first past i then slice_index durable.now i
        else slice_index cached.old i) }
{
    for i in first..past {
        cached[i] = durable[i];
    }
}

/// Sets each cached value to the durable one and takes the marks away, in the parts of a set.
#[tactic(auto, using(crate::proofs::PartLemmas::parts))]
pub fn cut(cached: &mut [u64], durable: &[u64], marks: &mut [u8], touched: u64)
    requires parts { part_start (length cached.old) 64 ≡ length cached.old }
    requires durable_len { length durable.now ≡ length cached.old }
    requires marks_len { length marks.old ≡ length cached.old }
    ensures cached { (i : ℕ) → slice_index cached.new i
        ≡ (if is_touched (length cached.old) touched i then slice_index durable.now i else slice_index cached.old i) }
    ensures marks { (i : ℕ) → slice_index marks.new i ≡ (if is_touched (length cached.old) touched i then 0
        else slice_index marks.old i) }
{
    let mut rest = touched;
    while rest != 0 {
        let part = parts::first(rest);
        let first = parts::start(cached.len(), part);
        let past = parts::start(cached.len(), part + 1);
        revert(cached, durable, first, past);
        clear(marks, first, past);
        rest = parts::without(rest, part);
    }
}

/// Whether each word from `first` on and before `past` is clean and has no mark.
pub fn is_calm(cached: &[u64], durable: &[u64], marks: &[u8], first: usize, past: usize) -> bool
    requires cached_fits { past ≤ length cached.now }
    requires durable_fits { past ≤ length durable.now }
    requires marks_fit { past ≤ length marks.now }
    ensures clean { IsTrue result → (i : ℕ) → is_between first past i ≡ true
        → slice_index cached.now i ≡ slice_index durable.now i }
    ensures unmarked { IsTrue result → (i : ℕ) → is_between first past i ≡ true → slice_index marks.now i ≡ 0 }
{
    for i in first..past {
        if cached[i] != durable[i] || marks[i] != 0 {
            return false;
        }
    }
    true
}

/// The touched parts without a part that is clean and has no mark.
#[tactic(auto, using(crate::proofs::PartLemmas::parts))]
fn without_calm(cached: &[u64], durable: &[u64], marks: &[u8], touched: u64, part: usize) -> u64
    requires kept { IsKept cached.now durable.now marks.now touched }
    requires part { part < 64 }
    ensures { IsKept cached.now durable.now marks.now result }
{
    let first = parts::start(cached.len(), part);
    let past = parts::start(cached.len(), part + 1);
    if parts::has(touched, part) && is_calm(cached, durable, marks, first, past) {
        parts::without(touched, part)
    } else {
        touched
    }
}

/// The touched parts without those that end between two places, are clean and have no mark.
#[tactic(auto, using(crate::proofs::PartLemmas::parts))]
pub fn still_touched(
    cached: &[u64],
    durable: &[u64],
    marks: &[u8],
    touched: u64,
    first: usize,
    past: usize,
) -> u64
    requires kept { IsKept cached.now durable.now marks.now touched }
    requires fits { past ≤ length cached.now }
    ensures { IsKept cached.now durable.now marks.now result }
{
    let mut left = touched;
    for part in parts::number(cached.len(), first)..parts::number(cached.len(), past) {
        left = without_calm(cached, durable, marks, left, part);
    }
    left
}

/// The least index from `first` on and before `past` where the values differ.
fn difference_between(cached: &[u64], durable: &[u64], first: usize, past: usize) -> Option<usize>
    requires cached_fits { past ≤ length cached.now }
    requires durable_fits { past ≤ length durable.now }
    ensures found { IfSome result (λ at. (first ≤ at) × (at < past)
        × (slice_index cached.now at ≢ slice_index durable.now at)) }
    ensures before { IfSome result (λ at. (i : ℕ) → first ≤ i → i < at
        → slice_index cached.now i ≡ slice_index durable.now i) }
    ensures none { IfNone result ((i : ℕ) → first ≤ i → i < past
        → slice_index cached.now i ≡ slice_index durable.now i) }
{
    for i in first..past {
        if cached[i] != durable[i] {
            return Some(i);
        }
    }
    None
}

/// The least index from `from` on where the values differ. They differ in touched parts alone.
#[tactic(auto, using(crate::proofs::PartLemmas::parts))]
pub fn first_difference(cached: &[u64], durable: &[u64], touched: u64, from: usize) -> Option<usize>
    requires parts { part_start (length cached.now) 64 ≡ length cached.now }
    requires durable_len { length durable.now ≡ length cached.now }
    requires clean { (i : ℕ) → is_touched (length cached.now) touched i ≡ false
        → slice_index cached.now i ≡ slice_index durable.now i }
    ensures found { IfSome result (λ at. (from ≤ at) × (at < length cached.now)
        × (slice_index cached.now at ≢ slice_index durable.now at)) }
    ensures before { IfSome result (λ at. (i : ℕ) → from ≤ i → i < at
        → slice_index cached.now i ≡ slice_index durable.now i) }
    ensures none { IfNone result ((i : ℕ) → from ≤ i → slice_index cached.now i ≡ slice_index durable.now i) }
{
    let mut rest = touched;
    while rest != 0 {
        let part = parts::first(rest);
        let first = parts::start(cached.len(), part).max(from);
        let past = parts::start(cached.len(), part + 1);
        if let Some(at) = difference_between(cached, durable, first, past) {
            return Some(at);
        }
        rest = parts::without(rest, part);
    }
    None
}

/// The cores that are in one of the sets.
#[tactic(auto, using(crate::specs::Marks::unions))]
pub fn union(marks: &[u8]) -> u8
    ensures { (core i : ℕ) → has_core (slice_index marks.now i) core ≡ true → has_core result core ≡ true }
{
    let mut all = 0;
    for set in marks {
        all |= *set;
    }
    all
}
