//! The events on the banks.

ghost use Rattle.std.specs.Prelude.{◌≡◌, ◌≢◌, ℕ, ◌+◌, ◌-◌, ◌<◌, ◌≤◌, ◌==◌, None, Some, IsTrue, is_some, length, slice_index, if◌then◌else◌, IfSome, IfNone, IfOk, true};
ghost use Rattle.pmem_model.specs.Words.{is_within, bursts, stored, flushed, fenced, written_back, lost};
ghost use Rattle.pmem_model.specs.Places.{bank_of, offset_of, bank_size, bank_start, word_among, bank_at, AreBanks};

use crate::bank::Bank;
use sls_base::{CoreNo, FRAME_WORDS, FRAMES, TABLE_WORDS, WORDS};
use std::alloc::{AllocError, Global};

/// The table, and behind it the frames at home.
pub type Banks = Vec<Option<Bank>>;

/// The bank of a word.
#[tactic(auto, unfolding(crate::specs::Places::bank_of))]
pub fn bank_number(at: usize) -> usize
    ensures { result ≡ bank_of at }
{
    if at < TABLE_WORDS {
        0
    } else {
        1 + (at - TABLE_WORDS) / FRAME_WORDS
    }
}

/// The place of a word in its bank.
#[tactic(auto, unfolding(crate::specs::Places::offset_of))]
pub fn offset(at: usize) -> usize
    ensures { result ≡ offset_of at }
{
    if at < TABLE_WORDS {
        at
    } else {
        (at - TABLE_WORDS) % FRAME_WORDS
    }
}

/// The cached and the durable value of a word, zeros where its frame is away.
#[tactic(auto, using(crate::proofs::PlaceLemmas::places))]
pub fn values(banks: &Banks, at: usize) -> (u64, u64)
    requires banks { AreBanks banks.now.items }
    requires range { at < WORDS }
    ensures cached { result.0 ≡ (word_among banks.now.items at).cached }
    ensures durable { result.1 ≡ (word_among banks.now.items at).durable }
{
    match &banks[bank_number(at)] {
        Some(bank) => (bank.read(offset(at)), bank.durable(offset(at))),
        None => (0, 0),
    }
}

/// Stores words from `at` on, inside one bank.
#[tactic(auto, using(crate::proofs::PlaceLemmas::places))]
pub fn store(banks: &mut Banks, at: usize, words: &[u64])
    requires banks { AreBanks banks.old.items }
    requires range { at < WORDS }
    requires some { 0 < length words.now }
    requires inside { offset_of at + length words.now ≤ bank_size (bank_of at) }
    requires home { IsTrue (is_some (bank_at banks.old.items (bank_of at))) }
    ensures words { (i : ℕ) → word_among banks.new.items i
        ≡ (if is_within at (length words.now) i then stored (slice_index words.now (i - at))
        (word_among banks.old.items i) else word_among banks.old.items i) }
    ensures home { (k : ℕ) → is_some (bank_at banks.new.items k) ≡ is_some (bank_at banks.old.items k) }
    ensures banks { AreBanks banks.new.items }
{
    match &mut banks[bank_number(at)] {
        Some(bank) => bank.store(offset(at), words),
        None => unreachable!(),
    }
}

/// Marks `count` words from `at` on, inside one bank, as in flight for a core.
#[tactic(auto, using(crate::proofs::PlaceLemmas::places))]
pub fn mark(banks: &mut Banks, core: CoreNo, at: usize, count: usize)
    requires banks { AreBanks banks.old.items }
    requires core { core < 8 }
    requires range { at < WORDS }
    requires some { 0 < count }
    requires inside { offset_of at + count ≤ bank_size (bank_of at) }
    requires home { IsTrue (is_some (bank_at banks.old.items (bank_of at))) }
    ensures words { (i : ℕ) → word_among banks.new.items i
        ≡ (if is_within at count i then flushed core (word_among banks.old.items i) else word_among banks.old.items i) }
    ensures home { (k : ℕ) → is_some (bank_at banks.new.items k) ≡ is_some (bank_at banks.old.items k) }
    ensures banks { AreBanks banks.new.items }
{
    match &mut banks[bank_number(at)] {
        Some(bank) => bank.mark(core, offset(at), count),
        None => unreachable!(),
    }
}

/// Makes a word's cached value durable.
#[tactic(auto, using(crate::proofs::PlaceLemmas::places))]
pub fn write_back(banks: &mut Banks, at: usize)
    requires banks { AreBanks banks.old.items }
    requires range { at < WORDS }
    requires home { IsTrue (is_some (bank_at banks.old.items (bank_of at))) }
    ensures words { (i : ℕ) → word_among banks.new.items i
        ≡ (if is_within at 1 i then written_back (word_among banks.old.items i) else word_among banks.old.items i) }
    ensures home { (k : ℕ) → is_some (bank_at banks.new.items k) ≡ is_some (bank_at banks.old.items k) }
    ensures banks { AreBanks banks.new.items }
{
    match &mut banks[bank_number(at)] {
        Some(bank) => bank.write_back(offset(at)),
        None => unreachable!(),
    }
}

/// A fence by a core on `count` words from `at` on, inside one bank. Of a bank that is away nothing is changed.
#[tactic(auto, using(crate::proofs::PlaceLemmas::places, crate::proofs::PlaceLemmas::size_most))]
pub fn settle(banks: &mut Banks, core: CoreNo, at: usize, count: usize)
    requires banks { AreBanks banks.old.items }
    requires core { core < 8 }
    requires range { at < WORDS }
    requires inside { offset_of at + count ≤ bank_size (bank_of at) }
    ensures words { (i : ℕ) → word_among banks.new.items i
        ≡ (if is_within at count i then fenced core (word_among banks.old.items i) else word_among banks.old.items i) }
    ensures home { (k : ℕ) → is_some (bank_at banks.new.items k) ≡ is_some (bank_at banks.old.items k) }
    ensures banks { AreBanks banks.new.items }
{
    match &mut banks[bank_number(at)] {
        Some(bank) => {
            let first = offset(at);
            bank.settle(core, first, first + count);
        }
        None => {}
    }
}

/// A fence by a core on all banks at home.
#[tactic(auto, using(crate::specs::Marks::zero_has))]
pub fn settle_all(banks: &mut Banks, core: CoreNo)
    requires banks { AreBanks banks.old.items }
    requires core { core < 8 }
    ensures words { (i : ℕ) → word_among banks.new.items i ≡ fenced core (word_among banks.old.items i) }
    ensures home { (k : ℕ) → is_some (bank_at banks.new.items k) ≡ is_some (bank_at banks.old.items k) }
    ensures banks { AreBanks banks.new.items }
{
    for k in 0..banks.len() {
        if let Some(bank) = &mut banks[k] {
            bank.settle_all(core);
        }
    }
}

/// A power cut.
pub fn cut(banks: &mut Banks)
    requires { AreBanks banks.old.items }
    ensures words { (i : ℕ) → word_among banks.new.items i ≡ lost (word_among banks.old.items i) }
    ensures home { (k : ℕ) → is_some (bank_at banks.new.items k) ≡ is_some (bank_at banks.old.items k) }
    ensures banks { AreBanks banks.new.items }
{
    for k in 0..banks.len() {
        if let Some(bank) = &mut banks[k] {
            bank.cut();
        }
    }
}

/// How many words a bank has.
#[tactic(auto, unfolding(crate::specs::Places::bank_size))]
pub fn size(bank: usize) -> usize
    ensures { result ≡ bank_size bank }
{
    if bank == 0 { TABLE_WORDS } else { FRAME_WORDS }
}

/// Where a bank begins.
#[tactic(auto, unfolding(crate::specs::Places::bank_start))]
pub fn start(bank: usize) -> usize
    requires { bank < 1 + FRAMES }
    ensures { result ≡ bank_start bank }
{
    if bank == 0 {
        0
    } else {
        TABLE_WORDS + FRAME_WORDS * (bank - 1)
    }
}

/// The first place in a bank that is not before a word.
fn first_place(bank: usize, at: usize) -> usize
    ensures { result ≡ (if bank == bank_of at then offset_of at else 0) }
{
    if bank == bank_number(at) {
        offset(at)
    } else {
        0
    }
}

/// The least word from `at` on, in banks at home, whose cached and durable values differ.
#[tactic(auto, using(crate::proofs::PlaceLemmas::walks))]
pub fn dirty_from(banks: &Banks, at: usize) -> Option<usize>
    requires { AreBanks banks.now.items }
    ensures found { IfSome result (λ w. (at ≤ w) × (w < WORDS)
        × ((word_among banks.now.items w).cached ≢ (word_among banks.now.items w).durable)) }
    ensures before { IfSome result (λ w. (i : ℕ) → at ≤ i → i < w
        → (word_among banks.now.items i).cached ≡ (word_among banks.now.items i).durable) }
    ensures none { IfNone result ((i : ℕ) → at ≤ i → i < WORDS
        → (word_among banks.now.items i).cached ≡ (word_among banks.now.items i).durable) }
{
    let first = bank_number(at);
    for k in first..banks.len() {
        if let Some(bank) = &banks[k] {
            let from = first_place(k, at);
            if let Some(place) = bank.dirty_from(from) {
                return Some(start(k) + place);
            }
        }
    }
    None
}

/// Stores the cached words of one frame into another.
pub fn copy(banks: &mut Banks, from: usize, to: usize)
    requires banks { AreBanks banks.old.items }
    requires from_frame { from < FRAMES }
    requires to_frame { to < FRAMES }
    requires other { from ≢ to }
    requires from_home { IsTrue (is_some (bank_at banks.old.items (1 + from))) }
    requires to_home { IsTrue (is_some (bank_at banks.old.items (1 + to))) }
    ensures words { (i : ℕ) → word_among banks.new.items i
        ≡ bursts (bank_start (1 + to)) 512 (λ k. (word_among banks.old.items (bank_start (1 + from) + k)).cached)
        (word_among banks.old.items) i }
    ensures home { (k : ℕ) → is_some (bank_at banks.new.items k) ≡ is_some (bank_at banks.old.items k) }
    ensures banks { AreBanks banks.new.items }
{
    match banks[1 + to].take() {
        Some(mut target) => {
            match &banks[1 + from] {
                Some(source) => target.store(0, source.cached_words()),
                None => unreachable!(),
            }
            banks[1 + to] = Some(target);
        }
        None => unreachable!(),
    }
}

/// The banks of a memory with these words, cached and durable.
#[tactic(auto, using(crate::proofs::PlaceLemmas::parts))]
pub fn from_words(alloc: Global, words: &[u64]) -> Result<Banks, AllocError>
    requires { length words.now ≡ WORDS }
    ensures words { IfOk result (λ banks. (i : ℕ) → word_among banks.items i
        ≡ record { cached = slice_index words.now i; durable = slice_index words.now i; marks = 0 }) }
    ensures home { IfOk result (λ banks. (k : ℕ) → k < 1 + FRAMES → is_some (bank_at banks.items k) ≡ true) }
    ensures banks { IfOk result (λ banks. AreBanks banks.items) }
{
    let mut banks = Vec::with_capacity(alloc, 1 + FRAMES)?;
    for k in 0..1 + FRAMES {
        let from = start(k);
        banks.push(Some(Bank::from_words(alloc, &words[from..from + size(k)])?))?;
    }
    Ok(banks)
}
