//! A frame that was lent.

ghost use Rattle.std.specs.Prelude.{◌≡◌, ◌≢◌, ℕ, ◌<◌, ◌≤◌, IfSome, IfNone};
ghost use Rattle.pmem_model.specs.Words.{is_within, bursts, flushes, fences, writes_back, word_in, bank_len};
ghost use Rattle.pmem_model.specs.Memory.{count_up};

use crate::bank::Bank;
use sls_base::{CoreNo, FRAME_WORDS};
use std::marker::Model;

/// A frame that is away from its memory: its 512 words, numbered from 0, and a count of its own.
///
/// No call takes memory or is refused.
#[derive(Drop)]
pub struct Frame {
    pub(crate) bank: Bank,
    pub(crate) ops: u64,
}

impl Model for Frame {
    ghost use Rattle.std.specs.Prelude.{◌≡◌};
    ghost use Rattle.pmem_model.specs.Words.{bank_len};
    ghost use Rattle.pmem_model.specs.Memory.{LentFrame};

    ghost Value = { LentFrame };

    ghost view = { λ f. record { bank = f.bank; ops = f.ops } };

    ghost invariant = { λ f. bank_len f.bank ≡ 512 };
}

impl Frame {
    /// The cached value of a word.
    pub fn read(&self, at: usize) -> u64
        requires { at < 512 }
        ensures { result ≡ (word_in self.now.bank at).cached }
    {
        self.bank.read(at)
    }

    /// The durable value of a word.
    pub fn durable(&self, at: usize) -> u64
        requires { at < 512 }
        ensures { result ≡ (word_in self.now.bank at).durable }
    {
        self.bank.durable(at)
    }

    /// Stores the cached words of another frame, and takes all marks away.
    pub fn copy_from(&mut self, source: &Frame)
        ensures words { (i : ℕ) → word_in self.new.bank i
            ≡ bursts 0 512 (λ k. (word_in source.now.bank k).cached) (word_in self.old.bank) i }
        ensures ops { self.new.ops ≡ count_up self.old.ops }
    {
        self.bank.store(0, source.bank.cached_words());
        self.ops = self.ops.saturating_add(1);
    }

    /// Marks all words as in flight for a core.
    pub fn flush(&mut self, core: CoreNo)
        requires { core < 8 }
        ensures words { (i : ℕ) → word_in self.new.bank i ≡ flushes core 0 512 (word_in self.old.bank) i }
        ensures ops { self.new.ops ≡ count_up self.old.ops }
    {
        self.bank.mark(core, 0, FRAME_WORDS);
        self.ops = self.ops.saturating_add(1);
    }

    /// Makes the cached value of each word that is in flight for a core durable, and takes these marks away.
    pub fn fence(&mut self, core: CoreNo)
        requires { core < 8 }
        ensures words { (i : ℕ) → word_in self.new.bank i ≡ fences core (word_in self.old.bank) i }
        ensures ops { self.new.ops ≡ count_up self.old.ops }
    {
        self.bank.settle_all(core);
        self.ops = self.ops.saturating_add(1);
    }

    /// Makes a word's cached value durable. Its marks stay.
    pub fn write_back(&mut self, at: usize)
        requires { at < 512 }
        ensures words { (i : ℕ) → word_in self.new.bank i ≡ writes_back (is_within at 1) (word_in self.old.bank) i }
        ensures ops { self.new.ops ≡ self.old.ops }
    {
        self.bank.write_back(at);
    }

    /// The least word from `at` on whose cached and durable values differ.
    pub fn dirty_from(&self, at: usize) -> Option<usize>
        ensures found { IfSome result (λ w. (at ≤ w) × (w < 512)
            × ((word_in self.now.bank w).cached ≢ (word_in self.now.bank w).durable)) }
        ensures before { IfSome result (λ w. (i : ℕ) → at ≤ i → i < w
            → (word_in self.now.bank i).cached ≡ (word_in self.now.bank i).durable) }
        ensures none { IfNone result ((i : ℕ) → at ≤ i → (word_in self.now.bank i).cached
            ≡ (word_in self.now.bank i).durable) }
    {
        self.bank.dirty_from(at)
    }

    /// How many copies, flushes and fences there were since it was lent. At the greatest number it stays.
    pub fn ops(&self) -> u64
        ensures { result ≡ self.now.ops }
    {
        self.ops
    }
}
