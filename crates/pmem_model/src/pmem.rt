//! The memory.

ghost use Rattle.std.specs.Prelude.{◌≡◌, ◌≢◌, ℕ, ◌+◌, ◌-◌, ◌*◌, ◌%◌, ◌<◌, ◌≤◌, ◌==◌, IsTrue, length, slice_index, if◌then◌else◌, IfSome, IfNone, IfOk, false, Some, None, slice_set};
ghost use Rattle.pmem_model.specs.Words.{is_within, word_in, bursts, flushes, fences, writes_back, cuts};
ghost use Rattle.pmem_model.specs.Places.{bank_of, offset_of, bank_size, bank_at, zero_word};
ghost use Rattle.pmem_model.specs.Memory.{word_at, is_at_home, is_frame_home, frame_begin, AllHome, SameHomes, SameHomesBut, count_up, count_by, commits_behind, KeepsCounts};

use crate::banks::Banks;
use crate::flushes::FlushesByCore;
use crate::frame::Frame;
use crate::{banks, fences, flushes};
use sls_base::{CoreNo, FRAME_WORDS, FRAMES, VERSION_AT, WORDS};
use std::alloc::{AllocError, Global};
use std::marker::Model;

/// A persistent memory of 558,592 words: the table, words 0 to 17,919, and behind it 1,056 frames of 512 words. A line
/// is 8 words and begins at a multiple of 8. Cores are numbered from 0 to 7. The table is always at home, a frame until
/// it is lent.
///
/// Only `new` and `from_words` take memory. No other call is refused.
#[derive(Drop)]
pub struct Pmem {
    banks: Banks,
    flushes: FlushesByCore,
    ops: u64,
    commits: u64,
    cuts: u64,
}

impl Model for Pmem {
    ghost use Rattle.pmem_model.specs.Memory.{Memory};

    ghost Value = { Memory };

    ghost use Rattle.pmem_model.specs.Kept.{IsSound};

    ghost view = { λ p. record { banks = p.banks.items; ops = p.ops; commits = p.commits; cuts = p.cuts } };

    ghost invariant = { λ p. IsSound p.banks.items p.flushes.items };
}

/// The count of commits after an event that may have changed the durable version word.
fn commits_after(commits: u64, before: u64, after: u64) -> u64
    ensures { result ≡ (if after == before then commits else count_up commits) }
{
    if after == before {
        commits
    } else {
        commits.saturating_add(1)
    }
}

/// As many zeros.
fn zero_words(alloc: Global, len: usize) -> Result<Vec<u64>, AllocError>
    ensures len { IfOk result (λ words. length words.items ≡ len) }
    ensures zero { IfOk result (λ words. (i : ℕ) → slice_index words.items i ≡ 0) }
{
    vec![in alloc; 0; len]
}

impl Pmem {
    /// Zero words with no marks, all at home, and counts of 0. Ok, or there is no memory.
    pub fn new(alloc: Global) -> Result<Pmem, AllocError>
        ensures words { IfOk result (λ m. (i : ℕ) → word_at m i ≡ zero_word) }
        ensures homes { IfOk result AllHome }
        ensures counts { IfOk result (λ m. (m.ops ≡ 0) × (m.commits ≡ 0) × (m.cuts ≡ 0)) }
    {
        let words = zero_words(alloc, WORDS)?;
        let nvm = Pmem::from_words(alloc, &words)?;
        Ok(nvm)
    }

    /// These 558,592 words, cached and durable, with no marks, all at home, and counts of 0. Ok, or there is no memory.
    pub fn from_words(alloc: Global, words: &[u64]) -> Result<Pmem, AllocError>
        requires { length words.now ≡ WORDS }
        ensures words { IfOk result (λ m. (i : ℕ) → word_at m i
            ≡ record { cached = slice_index words.now i; durable = slice_index words.now i; marks = 0 }) }
        ensures homes { IfOk result AllHome }
        ensures counts { IfOk result (λ m. (m.ops ≡ 0) × (m.commits ≡ 0) × (m.cuts ≡ 0)) }
    {
        let banks = banks::from_words(alloc, words)?;
        let flushes = flushes::new_for_cores(alloc)?;
        Ok(Pmem {
            banks,
            flushes,
            ops: 0,
            commits: 0,
            cuts: 0,
        })
    }

    /// The cached value of a word.
    pub fn read(&self, at: usize) -> u64
        requires range { at < WORDS }
        requires home { IsTrue (is_at_home self.now at) }
        ensures { result ≡ (word_at self.now at).cached }
    {
        banks::values(&self.banks, at).0
    }

    /// The durable value of a word.
    pub fn durable(&self, at: usize) -> u64
        requires range { at < WORDS }
        requires home { IsTrue (is_at_home self.now at) }
        ensures { result ≡ (word_at self.now at).durable }
    {
        banks::values(&self.banks, at).1
    }

    /// Stores 1 to 512 words from `at` on, of one frame or of the table, and takes their marks away.
    pub fn burst(&mut self, at: usize, words: &[u64])
        requires range { at < WORDS }
        requires some { 0 < length words.now }
        requires most { length words.now ≤ FRAME_WORDS }
        requires inside { offset_of at + length words.now ≤ bank_size (bank_of at) }
        requires home { IsTrue (is_at_home self.old at) }
        ensures words { (i : ℕ) → word_at self.new i ≡ bursts at (length words.now) (slice_index words.now)
            (word_at self.old) i }
        ensures homes { SameHomes self.old self.new }
        ensures counts { self.new ≡ record self.old { banks = self.new.banks; ops = count_up self.old.ops } }
        ensures kept { KeepsCounts self.old self.new }
    {
        banks::store(&mut self.banks, at, words);
        self.ops = self.ops.saturating_add(1);
    }

    /// Stores the cached words of frame `from` in frame `to`, which is another, and takes the marks there away.
    pub fn copy(&mut self, from: usize, to: usize)
        requires from_frame { from < FRAMES }
        requires to_frame { to < FRAMES }
        requires other { from ≢ to }
        requires from_home { IsTrue (is_frame_home self.old from) }
        requires to_home { IsTrue (is_frame_home self.old to) }
        ensures words { (i : ℕ) → word_at self.new i
            ≡ bursts (frame_begin to) 512 (λ k. (word_at self.old (frame_begin from + k)).cached) (word_at self.old) i }
        ensures homes { SameHomes self.old self.new }
        ensures counts { self.new ≡ record self.old { banks = self.new.banks; ops = count_up self.old.ops } }
        ensures kept { KeepsCounts self.old self.new }
    {
        banks::copy(&mut self.banks, from, to);
        self.ops = self.ops.saturating_add(1);
    }

    /// Marks the words of `lines` lines from `at` on, a multiple of 8, as in flight for a core.
    pub fn flush(&mut self, core: CoreNo, at: usize, lines: usize)
        requires core { core < 8 }
        requires range { at < WORDS }
        requires line { at % 8 ≡ 0 }
        requires some { 0 < lines }
        requires inside { offset_of at + 8 * lines ≤ bank_size (bank_of at) }
        requires home { IsTrue (is_at_home self.old at) }
        ensures words { (i : ℕ) → word_at self.new i ≡ flushes core at (8 * lines) (word_at self.old) i }
        ensures homes { SameHomes self.old self.new }
        ensures counts { self.new ≡ record self.old { banks = self.new.banks; ops = count_up self.old.ops } }
        ensures kept { KeepsCounts self.old self.new }
    {
        fences::flush(&mut self.banks, &mut self.flushes, core, at, lines);
        self.ops = self.ops.saturating_add(1);
    }

    /// Makes the cached value of each word that is in flight for a core durable, and takes these marks away.
    pub fn fence(&mut self, core: CoreNo)
        requires { core < 8 }
        ensures words { (i : ℕ) → word_at self.new i ≡ fences core (word_at self.old) i }
        ensures homes { SameHomes self.old self.new }
        ensures counts { self.new ≡ record self.old {
          banks = self.new.banks;
          ops = count_up self.old.ops;
          commits = commits_behind self.old self.new;
        } }
        ensures kept { KeepsCounts self.old self.new }
    {
        let before = banks::values(&self.banks, VERSION_AT).1;
        fences::fence(&mut self.banks, &mut self.flushes, core);
        let after = banks::values(&self.banks, VERSION_AT).1;
        self.commits = commits_after(self.commits, before, after);
        self.ops = self.ops.saturating_add(1);
    }

    /// Makes a word's cached value durable. Its marks stay.
    pub fn write_back(&mut self, at: usize)
        requires range { at < WORDS }
        requires home { IsTrue (is_at_home self.old at) }
        ensures words { (i : ℕ) → word_at self.new i ≡ writes_back (is_within at 1) (word_at self.old) i }
        ensures homes { SameHomes self.old self.new }
        ensures counts { self.new ≡ record self.old {
          banks = self.new.banks;
          commits = commits_behind self.old self.new;
        } }
        ensures kept { KeepsCounts self.old self.new }
    {
        let before = banks::values(&self.banks, VERSION_AT).1;
        banks::write_back(&mut self.banks, at);
        let after = banks::values(&self.banks, VERSION_AT).1;
        self.commits = commits_after(self.commits, before, after);
    }

    /// A power cut: every cached value is the durable one, and no word has a mark. All frames are at home.
    pub fn cut(&mut self)
        requires { AllHome self.old }
        ensures words { (i : ℕ) → word_at self.new i ≡ cuts (word_at self.old) i }
        ensures homes { SameHomes self.old self.new }
        ensures counts { self.new ≡ record self.old { banks = self.new.banks; cuts = count_up self.old.cuts } }
    {
        banks::cut(&mut self.banks);
        self.cuts = self.cuts.saturating_add(1);
    }

    /// The least word from `at` on, in the table or a frame at home, whose cached and durable values differ.
    pub fn dirty_from(&self, at: usize) -> Option<usize>
        ensures found { IfSome result (λ w. (at ≤ w) × (w < WORDS)
            × ((word_at self.now w).cached ≢ (word_at self.now w).durable)) }
        ensures before { IfSome result (λ w. (i : ℕ) → at ≤ i → i < w
            → (word_at self.now i).cached ≡ (word_at self.now i).durable) }
        ensures none { IfNone result ((i : ℕ) → at ≤ i → i < WORDS
            → (word_at self.now i).cached ≡ (word_at self.now i).durable) }
    {
        banks::dirty_from(&self.banks, at)
    }

    /// Moves a frame out, with its values and marks, and with a count of its own that is 0.
    pub fn lend(&mut self, frame: usize) -> Frame
        requires range { frame < FRAMES }
        requires home { IsTrue (is_frame_home self.old frame) }
        ensures part { bank_at self.old.banks (1 + frame) ≡ Some result.bank }
        ensures count { result.ops ≡ 0 }
        ensures rest { self.new ≡ record self.old { banks = slice_set self.old.banks (1 + frame) None } }

        // The same word by word.
        ensures lent { (o : ℕ) → o < 512 → word_in result.bank o ≡ word_at self.old (frame_begin frame + o) }
        ensures words { (i : ℕ) → word_at self.new i ≡ (if is_within (frame_begin frame) 512 i then zero_word
            else word_at self.old i) }
        ensures homes { SameHomesBut frame self.old self.new }
        ensures away { is_frame_home self.new frame ≡ false }
    {
        let bank = fences::take(&mut self.banks, &self.flushes, frame);
        Frame { bank, ops: 0 }
    }

    /// Puts a frame that is out back, with its values and marks, and adds its count.
    pub fn give_back(&mut self, frame: usize, part: Frame)
        requires range { frame < FRAMES }
        requires away { is_frame_home self.old frame ≡ false }
        ensures rest { self.new ≡ record self.old {
          banks = slice_set self.old.banks (1 + frame) (Some part.bank);
          ops = count_by self.old.ops part.ops;
        } }

        // The same word by word.
        ensures words { (i : ℕ) → word_at self.new i
            ≡ (if is_within (frame_begin frame) 512 i then word_in part.bank (i - frame_begin frame)
            else word_at self.old i) }
        ensures homes { SameHomesBut frame self.old self.new }
        ensures back { IsTrue (is_frame_home self.new frame) }
    {
        let Frame { bank, ops } = part;
        fences::put_back(&mut self.banks, &mut self.flushes, frame, bank);
        self.ops = self.ops.saturating_add(ops);
    }

    /// Whether a frame is at home.
    pub fn is_home(&self, frame: usize) -> bool
        requires { frame < FRAMES }
        ensures { result ≡ is_frame_home self.now frame }
    {
        self.banks[1 + frame].is_some()
    }

    /// How many bursts, copies, flushes and fences there were, with those of the frames given back. At the greatest
    /// number it stays.
    pub fn ops(&self) -> u64
        ensures { result ≡ self.now.ops }
    {
        self.ops
    }

    /// How many events changed the durable value of word 1. At the greatest number it stays.
    pub fn commits(&self) -> u64
        ensures { result ≡ self.now.commits }
    {
        self.commits
    }

    /// How many cuts there were. At the greatest number it stays.
    pub fn cuts(&self) -> u64
        ensures { result ≡ self.now.cuts }
    {
        self.cuts
    }
}
