//! The work on the memory: the log of the next version is written, and that of the committed one is redone.

ghost use Rattle.std.specs.Prelude.{◌≡◌, ◌≢◌, ◌+◌, ◌*◌, ◌^◌, ◌<◌, ◌≤◌, ◌↔◌, ℕ, Bool, IsTrue, true, false, min, slice_index};
ghost use Rattle.pmem_model.specs.Words.{Word};
ghost use Rattle.pmem_model.specs.Memory.{word_at, SameHomes, KeepsCounts};
ghost use Rattle.pmem_model.specs.Events.{WordIs, Clean};
ghost use Rattle.pmem_layout.specs.Owners.{Numbers, owner};
ghost use Rattle.pmem_layout.specs.Rooms.{StoresOnlyIn};
ghost use Rattle.pmem_layout.specs.Fields.{log_count};
ghost use Rattle.alloc_journal.specs.declared.journal.Stage.TheVariants.{Unformatted, Rest, StoringEntries, Logged, Redoing};
ghost use Rattle.pmem_layout.specs.Places as places;
ghost use Rattle.alloc_journal.specs.Format.{NumbersStand};
ghost use Rattle.alloc_journal.specs.Work.{work_of, once_committed, is_redo, is_logging, is_formatting, log_left, redo_left, IsKept, IsExact};
ghost use Rattle.alloc_journal.specs.Formatting.{FormatShows};
ghost use Rattle.alloc_journal.specs.Operations.{AtMostOne};
ghost use Rattle.pmem_operations.specs.Operations.{IsAtMostOne};
ghost use Rattle.alloc_journal.specs.Shows.{NumbersShow};
ghost use Rattle.alloc_journal.specs.Sets as sets;
ghost use Rattle.alloc_journal.specs.Sets.{changes};
ghost use Rattle.alloc_journal.specs.Says.{Says};
ghost use Rattle.alloc_journal.specs.Steps.{Begins, StoresOrFlushes, RedoesOrFlushes, RedoesEntry, Logs, Redoes, Recovers, lines_of};

use crate::bits::{BASE_WORDS, Bits, differing, has, least, put};
use crate::entry::{Change, change_of, entry_word};
use crate::memory::{fence, flush, read, store, store_words};
use pmem_layout::{
    BASE_BITS, EMPTY_WORD, LOG_ENTRIES_AT, LOG_HEAD_AT, LogHead, NUMBERS, OBJECT_BASE_AT,
    log_entry_at,
};
use pmem_model::Pmem;
use sls_base::{LAST_VERSION, LEADER, LINE_WORDS, Version};

/// The lines that the base stands in.
const BASE_LINES: usize = (BASE_WORDS + LINE_WORDS - 1) / LINE_WORDS;

/// How far the work on the memory has come.
#[derive(Clone, Copy, PartialEq, Eq)]
pub enum Stage {
    /// Nothing is stored yet: the memory isn't formatted.
    Unformatted,
    /// The first base is stored.
    FirstStored,
    FirstInFlight,
    /// There is no log: the base tells the numbers.
    Rest,
    /// The entries of the next version's log are stored, one by one.
    StoringEntries,
    EntriesInFlight,
    EntriesDurable,
    /// The head that names the next version is stored.
    HeadStored,
    HeadInFlight,
    /// The log is durable, and the next version may be committed.
    Logged,
    /// The entries of the committed version's log are redone on the base, one by one.
    Redoing,
    BaseInFlight,
    BaseDurable,
    /// The head is cleared.
    HeadCleared,
    ClearInFlight,
}

/// The numbers of the committed and of the next version, and the work on them.
#[derive(Drop)]
pub struct Journal {
    pub version: Version,
    /// The numbers in use at the committed version.
    pub committed: Bits,
    /// Those in use at the next version, as its log tells.
    pub logged: Bits,
    /// Those whose entries are still to be stored.
    pub pending: Bits,
    pub stage: Stage,
    /// How many entries the log has.
    pub entries: usize,
    /// How many of them are redone.
    pub redone: usize,
}

impl Journal {
    /// What there is before a memory is formatted: no number is in use.
    pub fn unformatted() -> Journal
        ensures kept { IsKept (work_of result) }
        ensures none { (n : ℕ) → n < NUMBERS → sets.has result.committed n ≡ false }
        ensures stage { result.stage ≡ Unformatted }
        ensures shows { (f : ℕ → Word) → WordIs LEADER Clean (f LOG_HEAD_AT) 0 → FormatShows (work_of result) f }
    {
        Journal {
            version: 0,
            committed: [0; BASE_WORDS],
            logged: [0; BASE_WORDS],
            pending: [0; BASE_WORDS],
            stage: Stage::Unformatted,
            entries: 0,
            redone: 0,
        }
    }

    /// Stores these numbers as the first base. One operation; true at the last, and where there is a base already.
    pub fn format_step(&mut self, nvm: &mut Pmem, running: &Bits) -> bool
        requires kept { IsKept (work_of self.old) }
        ensures kept { IsKept (work_of self.new) }
        ensures homes { SameHomes nvm.old nvm.new }
        ensures counts { KeepsCounts nvm.old nvm.new }
        ensures one { AtMostOne nvm.old nvm.new }
        ensures operation { IsAtMostOne LEADER (word_at nvm.old) (word_at nvm.new) }
        ensures rest { StoresOnlyIn Numbers (word_at nvm.old) (word_at nvm.new) }
        ensures last { IsTrue result ↔ (is_formatting self.new.stage ≡ false) }
        ensures begun { self.old.stage ≡ Unformatted → self.new.committed ≡ running.now }
        ensures committed { self.old.stage ≢ Unformatted → self.new.committed ≡ self.old.committed }
        ensures none { is_formatting self.old.stage ≡ false → self.new ≡ self.old }
        ensures shows { FormatShows (work_of self.old) (word_at nvm.old)
            → FormatShows (work_of self.new) (word_at nvm.new) }
    {
        match self.stage {
            Stage::Unformatted => {
                self.committed = *running;
                store_words(nvm, OBJECT_BASE_AT, running);
                self.stage = Stage::FirstStored;
                false
            }
            Stage::FirstStored => {
                flush(nvm, OBJECT_BASE_AT, BASE_LINES);
                self.stage = Stage::FirstInFlight;
                false
            }
            Stage::FirstInFlight => {
                fence(nvm);
                self.stage = Stage::Rest;
                true
            }
            _ => true,
        }
    }

    /// The work that is left to do on a memory after a cut: what its log says is to be redone.
    pub fn recover(nvm: &Pmem, version: Version) -> Journal
        requires version { version ≤ LAST_VERSION }
        ensures kept { IsKept (work_of result) }
        ensures version { result.version ≡ version }
        ensures redo { is_redo result.stage ≡ true }
        ensures recovers { Recovers version (word_at nvm.now) (work_of result) }
        ensures shows { (saved : ℕ → Bool)
            → ((i : ℕ) → owner i ≡ Numbers → WordIs LEADER Clean (word_at nvm.now i) ((word_at nvm.now i).durable))
            → NumbersStand (λ i. (word_at nvm.now i).durable) version saved
            → NumbersShow (work_of result) (word_at nvm.now) version saved }
    {
        let base = read_base(nvm);
        Journal {
            version,
            committed: base,
            logged: base,
            pending: [0; BASE_WORDS],
            stage: Stage::Redoing,
            entries: entries_at(read(nvm, LOG_HEAD_AT), version),
            redone: 0,
        }
    }

    /// Takes it that the version that was logged is committed.
    pub fn commit(&mut self)
        requires { IsKept (work_of self.old) }
        ensures kept { IsKept (work_of self.new) }
        ensures work { work_of self.new ≡ once_committed (work_of self.old) }
    {
        if self.stage == Stage::Logged {
            self.version += 1;
            self.committed = self.logged;
            self.stage = Stage::Redoing;
            self.redone = 0;
        }
    }

    /// Writes the log of the next version, in which these numbers are in use. One operation; true at the last.
    pub fn log_step(&mut self, nvm: &mut Pmem, running: &Bits) -> bool
        requires kept { IsKept (work_of self.old) }
        requires version { self.old.version < LAST_VERSION }
        ensures kept { IsKept (work_of self.new) }
        ensures homes { SameHomes nvm.old nvm.new }
        ensures counts { KeepsCounts nvm.old nvm.new }
        ensures one { AtMostOne nvm.old nvm.new }
        ensures operation { IsAtMostOne LEADER (word_at nvm.old) (word_at nvm.new) }
        ensures rest { StoresOnlyIn Numbers (word_at nvm.old) (word_at nvm.new) }
        ensures last { IsTrue result ↔ (self.new.stage ≡ Logged) }
        ensures logs { Logs running.now (work_of self.old) (word_at nvm.old) (work_of self.new) (word_at nvm.new) }
        ensures first { self.old.stage ≡ Rest
            → log_left (work_of self.new) ≡ changes self.old.committed running.now + 4 }
        ensures left { is_logging self.old.stage ≡ true → self.old.stage ≢ Logged
            → log_left (work_of self.old) ≡ log_left (work_of self.new) + 1 }
        ensures entries { IsTrue result → self.new.entries ≡ changes self.new.committed self.new.logged }
        ensures version { self.new.version ≡ self.old.version }
        ensures begun { self.old.stage ≡ Rest → self.new.logged ≡ running.now }
        ensures logged { self.old.stage ≢ Rest → self.new.logged ≡ self.old.logged }
        ensures shows { (v : ℕ) (saved : ℕ → Bool) → NumbersShow (work_of self.old) (word_at nvm.old) v saved
            → NumbersShow (work_of self.new) (word_at nvm.new) v saved }
        ensures exact { (v : ℕ) (saved : ℕ → Bool) → NumbersShow (work_of self.old) (word_at nvm.old) v saved
            → IsExact (work_of self.old) saved → IsExact (work_of self.new) saved }
    {
        match self.stage {
            Stage::Rest => {
                self.begin(running);
                self.log_entry(nvm);
                false
            }
            Stage::StoringEntries => {
                self.log_entry(nvm);
                false
            }
            Stage::EntriesInFlight => {
                fence(nvm);
                self.stage = Stage::EntriesDurable;
                false
            }
            Stage::EntriesDurable => {
                store(nvm, LOG_HEAD_AT, self.next_head());
                self.stage = Stage::HeadStored;
                false
            }
            Stage::HeadStored => {
                flush(nvm, LOG_HEAD_AT, 1);
                self.stage = Stage::HeadInFlight;
                false
            }
            Stage::HeadInFlight => {
                fence(nvm);
                self.stage = Stage::Logged;
                true
            }
            Stage::Logged => true,
            _ => {
                self.redo_step(nvm);
                false
            }
        }
    }

    /// Begins the log of the next version.
    fn begin(&mut self, running: &Bits)
        requires kept { IsKept (work_of self.old) }
        requires version { self.old.version < LAST_VERSION }
        requires rest { self.old.stage ≡ Rest }
        ensures kept { IsKept (work_of self.new) }
        ensures begins { Begins running.now (work_of self.old) (work_of self.new) }
        ensures stage { self.new.stage ≡ StoringEntries }
        ensures version { self.new.version ≡ self.old.version }
        ensures committed { self.new.committed ≡ self.old.committed }
        ensures logged { self.new.logged ≡ running.now }
        ensures left { log_left (work_of self.new) ≡ changes self.old.committed running.now + 5 }
        ensures shows { (f : ℕ → Word) (v : ℕ) (saved : ℕ → Bool) → NumbersShow (work_of self.old) f v saved
            → NumbersShow (work_of self.new) f v saved }
    {
        self.logged = *running;
        self.pending = differing(&self.committed, running);
        self.stage = Stage::StoringEntries;
        self.entries = 0;
    }

    /// Stores the entry of the least number that has changed and has none yet, or flushes all entries.
    fn log_entry(&mut self, nvm: &mut Pmem)
        requires kept { IsKept (work_of self.old) }
        requires stage { self.old.stage ≡ StoringEntries }
        ensures kept { IsKept (work_of self.new) }
        ensures homes { SameHomes nvm.old nvm.new }
        ensures counts { KeepsCounts nvm.old nvm.new }
        ensures one { AtMostOne nvm.old nvm.new }
        ensures operation { IsAtMostOne LEADER (word_at nvm.old) (word_at nvm.new) }
        ensures rest { StoresOnlyIn Numbers (word_at nvm.old) (word_at nvm.new) }
        ensures stage { self.new.stage ≢ Logged }
        ensures stores { StoresOrFlushes (work_of self.old) (word_at nvm.old) (work_of self.new) (word_at nvm.new) }
        ensures left { log_left (work_of self.old) ≡ log_left (work_of self.new) + 1 }
        ensures version { self.new.version ≡ self.old.version }
        ensures committed { self.new.committed ≡ self.old.committed }
        ensures logged { self.new.logged ≡ self.old.logged }
        ensures shows { (v : ℕ) (saved : ℕ → Bool) → NumbersShow (work_of self.old) (word_at nvm.old) v saved
            → NumbersShow (work_of self.new) (word_at nvm.new) v saved }
    {
        match least(&self.pending, 0, BASE_WORDS) {
            Some(number) => {
                let comes = has(&self.logged, number);
                store(nvm, log_entry_at(self.entries), entry_word(number, comes));
                put(&mut self.pending, number, false);
                self.entries += 1;
            }
            None => {
                flush(nvm, LOG_ENTRIES_AT, entry_lines(self.entries));
                self.stage = Stage::EntriesInFlight;
            }
        }
    }

    /// The head that names the next version.
    fn next_head(&self) -> u64
        requires entries { self.now.entries ≤ NUMBERS }
        requires version { self.now.version < LAST_VERSION }
        ensures { result ≡ (self.now.version + 1) * 2 ^ 16 + self.now.entries }
    {
        LogHead {
            version: self.version + 1,
            entries: self.entries as u16,
        }
        .to_word()
    }

    /// Redoes the log of the committed version on the base, and then clears its head. One operation; true at the last,
    /// and where there is nothing to redo.
    pub fn redo_step(&mut self, nvm: &mut Pmem) -> bool
        requires kept { IsKept (work_of self.old) }
        ensures kept { IsKept (work_of self.new) }
        ensures homes { SameHomes nvm.old nvm.new }
        ensures counts { KeepsCounts nvm.old nvm.new }
        ensures one { AtMostOne nvm.old nvm.new }
        ensures operation { IsAtMostOne LEADER (word_at nvm.old) (word_at nvm.new) }
        ensures rest { StoresOnlyIn Numbers (word_at nvm.old) (word_at nvm.new) }
        ensures last { IsTrue result ↔ (is_redo self.new.stage ≡ false) }
        ensures redoes { Redoes (work_of self.old) (word_at nvm.old) (work_of self.new) (word_at nvm.new) }
        ensures left { is_redo self.old.stage ≡ true → redo_left (work_of self.old) ≡ redo_left (work_of self.new) + 1 }
        ensures version { self.new.version ≡ self.old.version }
        ensures logged { self.new.logged ≡ self.old.logged }
        ensures not_logged { self.old.stage ≢ Logged → self.new.stage ≢ Logged }
        ensures none { is_redo self.old.stage ≡ false → self.new ≡ self.old }
        ensures shows { (v : ℕ) (saved : ℕ → Bool) → NumbersShow (work_of self.old) (word_at nvm.old) v saved
            → NumbersShow (work_of self.new) (word_at nvm.new) v saved }
        ensures exact { (v : ℕ) (saved : ℕ → Bool) → NumbersShow (work_of self.old) (word_at nvm.old) v saved
            → IsExact (work_of self.old) saved → IsExact (work_of self.new) saved }
    {
        match self.stage {
            Stage::Redoing => {
                self.redo_entry(nvm);
                false
            }
            Stage::BaseInFlight => {
                fence(nvm);
                self.stage = Stage::BaseDurable;
                false
            }
            Stage::BaseDurable => {
                store(nvm, LOG_HEAD_AT, EMPTY_WORD);
                self.stage = Stage::HeadCleared;
                false
            }
            Stage::HeadCleared => {
                flush(nvm, LOG_HEAD_AT, 1);
                self.stage = Stage::ClearInFlight;
                false
            }
            Stage::ClearInFlight => {
                fence(nvm);
                self.stage = Stage::Rest;
                self.entries = 0;
                true
            }
            _ => true,
        }
    }

    /// Redoes the next entry on the base, or flushes the base behind the last one.
    fn redo_entry(&mut self, nvm: &mut Pmem)
        requires kept { IsKept (work_of self.old) }
        requires stage { self.old.stage ≡ Redoing }
        ensures kept { IsKept (work_of self.new) }
        ensures homes { SameHomes nvm.old nvm.new }
        ensures counts { KeepsCounts nvm.old nvm.new }
        ensures one { AtMostOne nvm.old nvm.new }
        ensures operation { IsAtMostOne LEADER (word_at nvm.old) (word_at nvm.new) }
        ensures rest { StoresOnlyIn Numbers (word_at nvm.old) (word_at nvm.new) }
        ensures redo { is_redo self.new.stage ≡ true }
        ensures redoes { RedoesOrFlushes (work_of self.old) (word_at nvm.old) (work_of self.new) (word_at nvm.new) }
        ensures left { redo_left (work_of self.old) ≡ redo_left (work_of self.new) + 1 }
        ensures version { self.new.version ≡ self.old.version }
        ensures logged { self.new.logged ≡ self.old.logged }
        ensures shows { (v : ℕ) (saved : ℕ → Bool) → NumbersShow (work_of self.old) (word_at nvm.old) v saved
            → NumbersShow (work_of self.new) (word_at nvm.new) v saved }
        ensures exact { (v : ℕ) (saved : ℕ → Bool) → NumbersShow (work_of self.old) (word_at nvm.old) v saved
            → IsExact (work_of self.old) saved → IsExact (work_of self.new) saved }
    {
        if self.redone < self.entries {
            match change_of(read(nvm, log_entry_at(self.redone))) {
                Some(change) => self.redo_change(nvm, change),
                None => self.redone += 1,
            }
        } else {
            flush(nvm, OBJECT_BASE_AT, BASE_LINES);
            self.stage = Stage::BaseInFlight;
        }
    }

    /// Redoes what the next entry says.
    fn redo_change(&mut self, nvm: &mut Pmem, change: Change)
        requires kept { IsKept (work_of self.old) }
        requires stage { self.old.stage ≡ Redoing }
        requires some { self.old.redone < self.old.entries }
        requires number { change.number < NUMBERS }
        ensures kept { IsKept (work_of self.new) }
        ensures homes { SameHomes nvm.old nvm.new }
        ensures counts { KeepsCounts nvm.old nvm.new }
        ensures one { AtMostOne nvm.old nvm.new }
        ensures operation { IsAtMostOne LEADER (word_at nvm.old) (word_at nvm.new) }
        ensures rest { StoresOnlyIn Numbers (word_at nvm.old) (word_at nvm.new) }
        ensures stage { self.new.stage ≡ Redoing }
        ensures redoes { (entry : ℕ) → Says change entry
            → RedoesEntry entry (work_of self.old) (word_at nvm.old) (work_of self.new) (word_at nvm.new) }
        ensures left { redo_left (work_of self.old) ≡ redo_left (work_of self.new) + 1 }
        ensures version { self.new.version ≡ self.old.version }
        ensures logged { self.new.logged ≡ self.old.logged }
        ensures shows { (v : ℕ) (saved : ℕ → Bool)
            → Says change (word_at nvm.old (places.log_entry_at self.old.redone)).cached
            → NumbersShow (work_of self.old) (word_at nvm.old) v saved
            → NumbersShow (work_of self.new) (word_at nvm.new) v saved }
        ensures exact { (v : ℕ) (saved : ℕ → Bool)
            → Says change (word_at nvm.old (places.log_entry_at self.old.redone)).cached
            → NumbersShow (work_of self.old) (word_at nvm.old) v saved
            → IsExact (work_of self.old) saved → IsExact (work_of self.new) saved }
    {
        let word = change.number / BASE_BITS;
        put(&mut self.committed, change.number, change.comes);
        store(nvm, OBJECT_BASE_AT + word, self.committed[word]);
        self.redone += 1;
    }
}

/// The words of the base.
fn read_base(nvm: &Pmem) -> Bits
    ensures { (k : ℕ) → k < BASE_WORDS → slice_index result k ≡ (word_at nvm.now (OBJECT_BASE_AT + k)).cached }
{
    let mut base = [0; BASE_WORDS];
    for word in 0..BASE_WORDS {
        base[word] = read(nvm, OBJECT_BASE_AT + word);
    }
    base
}

/// How many entries of a log count at a version, by its head.
fn entries_at(head: u64, version: Version) -> usize
    ensures { result ≡ min (log_count head version) NUMBERS }
{
    match LogHead::from_word(head) {
        Some(head) if head.version == version => usize::from(head.entries).min(NUMBERS),
        _ => 0,
    }
}

/// The lines that some entries stand in, at least one.
fn entry_lines(entries: usize) -> usize
    requires { entries ≤ NUMBERS }
    ensures lines { result ≡ lines_of entries }
    ensures some { 0 < result }
    ensures all { entries ≤ LINE_WORDS * result }
    ensures in_log { LINE_WORDS * result ≤ NUMBERS }
{
    entries.max(1).div_ceil(LINE_WORDS)
}
