//! The words of the table or of one frame.

ghost use Rattle.std.specs.Prelude.{◌≡◌, ◌≢◌, ℕ, ◌+◌, ◌-◌, ◌<◌, ◌≤◌, true, length, slice_index, if◌then◌else◌, IfSome, IfNone, IfOk};
ghost use Rattle.pmem_model.specs.Kept.{is_between};
ghost use Rattle.pmem_model.specs.Parts.{part_start};
ghost use Rattle.pmem_model.specs.Words.{is_within, has_core, stored, flushed, fenced, written_back, lost, word_in, bank_len};

use crate::{kernel, parts};
use sls_base::CoreNo;
use std::alloc::{AllocError, Global};
use std::marker::Model;

/// Words with their cached values, their durable values, and the sets of cores for which they are in flight.
#[derive(Drop)]
pub struct Bank {
    cached: Vec<u64>,
    durable: Vec<u64>,
    marks: Vec<u8>,
    /// The parts where words were stored or marked since the last cut, at least those that aren't clean or have marks.
    touched: u64,
}

impl Model for Bank {
    ghost use Rattle.pmem_model.specs.Words.{BankWords};
    ghost use Rattle.pmem_model.specs.Kept.{IsKept};

    ghost Value = { BankWords };

    ghost view = { λ b. record { cached = b.cached.items; durable = b.durable.items; marks = b.marks.items } };

    ghost invariant = { λ b. IsKept b.cached.items b.durable.items b.marks.items b.touched };
}

impl Bank {
    /// These words, cached and durable.
    pub fn from_words(alloc: Global, words: &[u64]) -> Result<Bank, AllocError>
        requires { part_start (length words.now) 64 ≡ length words.now }
        ensures len { IfOk result (λ b. bank_len b ≡ length words.now) }
        ensures words { IfOk result (λ b. (i : ℕ) → word_in b i
            ≡ record { cached = slice_index words.now i; durable = slice_index words.now i; marks = 0 }) }
    {
        Ok(Bank {
            cached: Vec::from_slice(alloc, words)?,
            durable: Vec::from_slice(alloc, words)?,
            marks: vec![in alloc; 0; words.len()]?,
            touched: 0,
        })
    }

    /// The cached value of a word.
    pub fn read(&self, at: usize) -> u64
        requires { at < bank_len self.now }
        ensures { result ≡ (word_in self.now at).cached }
    {
        self.cached[at]
    }

    /// The durable value of a word.
    pub fn durable(&self, at: usize) -> u64
        requires { at < bank_len self.now }
        ensures { result ≡ (word_in self.now at).durable }
    {
        self.durable[at]
    }

    /// The cached values.
    pub fn cached_words(&self) -> &[u64]
        ensures value { result.now ≡ self.now.cached }
    {
        &self.cached
    }

    /// The cores for which some word is in flight.
    pub fn marks_of_all(&self) -> u8
        ensures { (core i : ℕ) → has_core (word_in self.now i).marks core ≡ true → has_core result core ≡ true }
    {
        kernel::union(&self.marks)
    }

    /// Stores words from `at` on.
    pub fn store(&mut self, at: usize, words: &[u64])
        requires some { 0 < length words.now }
        requires fits { at + length words.now ≤ bank_len self.old }
        ensures words { (i : ℕ) → word_in self.new i
            ≡ (if is_within at (length words.now) i then stored (slice_index words.now (i - at)) (word_in self.old i)
            else word_in self.old i) }
        ensures len { bank_len self.new ≡ bank_len self.old }
    {
        kernel::store(&mut self.cached, at, words);
        kernel::clear(&mut self.marks, at, at + words.len());
        self.touched = parts::with_words(self.touched, self.cached.len(), at, words.len());
    }

    /// Marks `count` words from `at` on as in flight for a core.
    pub fn mark(&mut self, core: CoreNo, at: usize, count: usize)
        requires core { core < 8 }
        requires some { 0 < count }
        requires fits { at + count ≤ bank_len self.old }
        ensures words { (i : ℕ) → word_in self.new i ≡ (if is_within at count i then flushed core (word_in self.old i)
            else word_in self.old i) }
        ensures len { bank_len self.new ≡ bank_len self.old }
    {
        kernel::mark(&mut self.marks, core, at, count);
        self.touched = parts::with_words(self.touched, self.cached.len(), at, count);
    }

    /// A fence by a core on the words from `first` on and before `past`.
    pub fn settle(&mut self, core: CoreNo, first: usize, past: usize)
        requires core { core < 8 }
        requires fits { past ≤ bank_len self.old }
        ensures words { (i : ℕ) → word_in self.new i ≡ (if is_between first past i then fenced core (word_in self.old i)
            else word_in self.old i) }
        ensures len { bank_len self.new ≡ bank_len self.old }
    {
        kernel::settle(
            &self.cached,
            &mut self.durable,
            &mut self.marks,
            core,
            first,
            past,
        );
        self.forget_calm(first, past);
    }

    /// A fence by a core on all words: no word has a mark but in touched parts.
    #[tactic(auto, using(crate::proofs::PartLemmas::parts))]
    pub fn settle_all(&mut self, core: CoreNo)
        requires { core < 8 }
        ensures words { (i : ℕ) → word_in self.new i ≡ fenced core (word_in self.old i) }
        ensures len { bank_len self.new ≡ bank_len self.old }
    {
        let len = self.cached.len();
        let mut rest = self.touched;
        while rest != 0 {
            let part = parts::first(rest);
            self.settle(core, parts::start(len, part), parts::start(len, part + 1));
            rest = parts::without(rest, part);
        }
    }

    /// Forgets the touched parts that end between two places, are clean and have no mark.
    fn forget_calm(&mut self, first: usize, past: usize)
        requires { past ≤ bank_len self.old }
        ensures { self.new ≡ self.old }
    {
        self.touched = kernel::still_touched(
            &self.cached,
            &self.durable,
            &self.marks,
            self.touched,
            first,
            past,
        );
    }

    /// Makes a word's cached value durable.
    pub fn write_back(&mut self, at: usize)
        requires { at < bank_len self.old }
        ensures words { (i : ℕ) → word_in self.new i ≡ (if is_within at 1 i then written_back (word_in self.old i)
            else word_in self.old i) }
        ensures len { bank_len self.new ≡ bank_len self.old }
    {
        self.durable[at] = self.cached[at];
    }

    /// A power cut.
    pub fn cut(&mut self)
        ensures words { (i : ℕ) → word_in self.new i ≡ lost (word_in self.old i) }
        ensures len { bank_len self.new ≡ bank_len self.old }
    {
        kernel::cut(
            &mut self.cached,
            &self.durable,
            &mut self.marks,
            self.touched,
        );
        self.touched = 0;
    }

    /// The least word from `from` on whose cached and durable values differ.
    pub fn dirty_from(&self, from: usize) -> Option<usize>
        ensures found { IfSome result (λ at. (from ≤ at) × (at < bank_len self.now)
            × ((word_in self.now at).cached ≢ (word_in self.now at).durable)) }
        ensures before { IfSome result (λ at. (i : ℕ) → from ≤ i → i < at
            → (word_in self.now i).cached ≡ (word_in self.now i).durable) }
        ensures none { IfNone result ((i : ℕ) → from ≤ i → (word_in self.now i).cached ≡ (word_in self.now i).durable) }
    {
        kernel::first_difference(&self.cached, &self.durable, self.touched, from)
    }
}
