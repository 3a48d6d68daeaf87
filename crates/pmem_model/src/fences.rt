//! A fence goes over what its core has flushed.

ghost use Rattle.std.specs.Prelude.{◌≡◌, ◌≢◌, ℕ, ◌+◌, ◌-◌, ◌*◌, ◌<◌, ◌≤◌, true, false, length, slice_index_or, None, Some, slice_set, is_some, IsTrue, if◌then◌else◌};
ghost use Rattle.pmem_model.specs.Words.{bank_len, word_in, fenced, flushed, has_core, is_within};
ghost use Rattle.pmem_model.specs.Kept.{IsSound};
ghost use Rattle.pmem_model.specs.Places.{word_among, bank_of, offset_of, bank_size, bank_start, bank_at, zero_word, AreBanks};
ghost use Rattle.pmem_model.specs.declared.flushes.Flushes.{Flushes};
ghost use Rattle.pmem_model.specs.Flushes.{may_be_flushed, in_ranges};

use crate::bank::Bank;
use crate::banks::Banks;
use crate::flushes::{FlushRange, Flushes, FlushesByCore};
use crate::{banks, kernel};
use sls_base::{CoreNo, FRAME_WORDS, FRAMES, LINE_WORDS, WORDS};

/// A fence by a core whose words in flight are all in the ranges.
fn settle_ranges(banks: &mut Banks, ranges: &[FlushRange], core: CoreNo)
    requires banks { AreBanks banks.old.items }
    requires core { core < 8 }
    requires flushed { (i : ℕ) → has_core (word_among banks.old.items i).marks core ≡ true
        → in_ranges ranges.now i ≡ true }
    ensures words { (i : ℕ) → word_among banks.new.items i ≡ fenced core (word_among banks.old.items i) }
    ensures home { (k : ℕ) → is_some (bank_at banks.new.items k) ≡ is_some (bank_at banks.old.items k) }
    ensures banks { AreBanks banks.new.items }
{
    for range in ranges {
        banks::settle(banks, core, range.at, range.count);
    }
}

/// A fence by a core.
fn settle_flushed(banks: &mut Banks, flushes: &mut Flushes, core: CoreNo)
    requires banks { AreBanks banks.old.items }
    requires core { core < 8 }
    requires flushed { (i : ℕ) → has_core (word_among banks.old.items i).marks core ≡ true
        → may_be_flushed flushes.old i ≡ true }
    ensures words { (i : ℕ) → word_among banks.new.items i ≡ fenced core (word_among banks.old.items i) }
    ensures home { (k : ℕ) → is_some (bank_at banks.new.items k) ≡ is_some (bank_at banks.old.items k) }
    ensures banks { AreBanks banks.new.items }
{
    if flushes.is_full() {
        banks::settle_all(banks, core);
    } else {
        settle_ranges(banks, flushes.ranges(), core);
    }
    flushes.clear();
}

/// A fence by a core.
pub fn fence(banks: &mut Banks, flushes: &mut FlushesByCore, core: CoreNo)
    requires sound { IsSound banks.old.items flushes.old.items }
    requires core { core < 8 }
    ensures words { (i : ℕ) → word_among banks.new.items i ≡ fenced core (word_among banks.old.items i) }
    ensures home { (k : ℕ) → is_some (bank_at banks.new.items k) ≡ is_some (bank_at banks.old.items k) }
    ensures sound { IsSound banks.new.items flushes.new.items }
{
    settle_flushed(banks, &mut flushes[core as usize], core);
}

/// Marks the words of lines as in flight for a core.
#[tactic(auto, using(crate::proofs::PlaceLemmas::lines_fit))]
pub fn flush(banks: &mut Banks, flushes: &mut FlushesByCore, core: CoreNo, at: usize, lines: usize)
    requires sound { IsSound banks.old.items flushes.old.items }
    requires core { core < 8 }
    requires range { at < WORDS }
    requires some { 0 < lines }
    requires inside { offset_of at + 8 * lines ≤ bank_size (bank_of at) }
    requires home { IsTrue (is_some (bank_at banks.old.items (bank_of at))) }
    ensures words { (i : ℕ) → word_among banks.new.items i
        ≡ (if is_within at (8 * lines) i then flushed core (word_among banks.old.items i)
        else word_among banks.old.items i) }
    ensures home { (k : ℕ) → is_some (bank_at banks.new.items k) ≡ is_some (bank_at banks.old.items k) }
    ensures sound { IsSound banks.new.items flushes.new.items }
{
    let count = LINE_WORDS * lines;
    banks::mark(banks, core, at, count);
    flushes[core as usize].add(at, count);
}

/// Adds the words of a frame for a core, if it is in the set.
fn add_if_marked(flushes: &mut Flushes, marks: u8, core: CoreNo, at: usize)
    requires core { core < 8 }
    requires range { at < WORDS }
    requires inside { offset_of at + 512 ≤ bank_size (bank_of at) }
    ensures had { (i : ℕ) → may_be_flushed flushes.old i ≡ true → may_be_flushed flushes.new i ≡ true }
    ensures added { (i : ℕ) → has_core marks core ≡ true → is_within at 512 i ≡ true
        → may_be_flushed flushes.new i ≡ true }
{
    if kernel::is_marked(marks, core) {
        flushes.add(at, FRAME_WORDS);
    }
}

/// Adds the words of a frame for each core of the set.
fn add_for_all(flushes: &mut FlushesByCore, marks: u8, at: usize)
    requires cores { length flushes.old.items ≡ 8 }
    requires range { at < WORDS }
    requires inside { offset_of at + 512 ≤ bank_size (bank_of at) }
    ensures cores { length flushes.new.items ≡ 8 }
    ensures had { (core i : ℕ) (d : Flushes) → core < 8 → may_be_flushed (slice_index_or flushes.old.items core d) i
        ≡ true → may_be_flushed (slice_index_or flushes.new.items core d) i ≡ true }
    ensures added { (core i : ℕ) (d : Flushes) → core < 8 → has_core marks core ≡ true → is_within at 512 i ≡ true
        → may_be_flushed (slice_index_or flushes.new.items core d) i ≡ true }
{
    for core in 0..8u8 {
        add_if_marked(&mut flushes[core as usize], marks, core, at);
    }
}

/// A bank that was away comes back.
#[tactic(auto, using(crate::proofs::PlaceLemmas::frames))]
pub fn put_back(banks: &mut Banks, flushes: &mut FlushesByCore, frame: usize, bank: Bank)
    requires sound { IsSound banks.old.items flushes.old.items }
    requires frame { frame < FRAMES }
    requires away { is_some (bank_at banks.old.items (1 + frame)) ≡ false }
    requires size { bank_len bank ≡ 512 }
    ensures banks { banks.new.items ≡ slice_set banks.old.items (1 + frame) (Some bank) }
    ensures words { (i : ℕ) → word_among banks.new.items i
        ≡ (if is_within (bank_start (1 + frame)) 512 i then word_in bank (i - bank_start (1 + frame))
        else word_among banks.old.items i) }
    ensures homes { (k : ℕ) → k ≢ 1 + frame → is_some (bank_at banks.new.items k)
        ≡ is_some (bank_at banks.old.items k) }
    ensures back { is_some (bank_at banks.new.items (1 + frame)) ≡ true }
    ensures sound { IsSound banks.new.items flushes.new.items }
{
    add_for_all(flushes, bank.marks_of_all(), banks::start(1 + frame));
    banks[1 + frame] = Some(bank);
}

/// Takes a frame's bank out.
#[tactic(auto, using(crate::proofs::PlaceLemmas::frames))]
pub fn take(banks: &mut Banks, flushes: &FlushesByCore, frame: usize) -> Bank
    requires sound { IsSound banks.old.items flushes.now.items }
    requires frame { frame < FRAMES }
    requires home { IsTrue (is_some (bank_at banks.old.items (1 + frame))) }
    ensures taken { bank_at banks.old.items (1 + frame) ≡ Some result }
    ensures size { bank_len result ≡ 512 }
    ensures banks { banks.new.items ≡ slice_set banks.old.items (1 + frame) None }
    ensures lent { (o : ℕ) → o < 512 → word_in result o ≡ word_among banks.old.items (bank_start (1 + frame) + o) }
    ensures words { (i : ℕ) → word_among banks.new.items i
        ≡ (if is_within (bank_start (1 + frame)) 512 i then zero_word else word_among banks.old.items i) }
    ensures homes { (k : ℕ) → k ≢ 1 + frame → is_some (bank_at banks.new.items k)
        ≡ is_some (bank_at banks.old.items k) }
    ensures away { is_some (bank_at banks.new.items (1 + frame)) ≡ false }
    ensures sound { IsSound banks.new.items flushes.now.items }
{
    match banks[1 + frame].take() {
        Some(bank) => bank,
        None => unreachable!(),
    }
}
