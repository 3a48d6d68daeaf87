//! What a core has flushed since its last fence.

ghost use Rattle.std.specs.Prelude.{IfOk, length, ◌≡◌, ℕ, ◌+◌, ◌<◌, ◌≤◌, true, false, []};
ghost use Rattle.pmem_model.specs.Places.{bank_of, offset_of, bank_size};
ghost use Rattle.sls_base.specs.declared.limits.TheConstants.{WORDS};

use arrayvec::ArrayVec;
use sls_base::WORDS;
use std::alloc::{AllocError, Global};

/// Words inside one bank.
#[derive(Clone, Copy)]
pub struct FlushRange {
    pub at: usize,
    pub count: usize,
    ghost range: { at < WORDS },
    ghost inside: { offset_of at + count ≤ bank_size (bank_of at) },
}

impl Default for FlushRange {
    #[tactic(auto, using(crate::proofs::PlaceLemmas::empty_place))]
    fn default() -> Self {
        FlushRange { at: 0, count: 0 }
    }
}

/// The ranges that a core has flushed since its last fence. Where they were too many, any word may be in flight.
#[derive(Drop)]
pub struct Flushes {
    ranges: ArrayVec<FlushRange, 64>,
    is_full: bool,
}

impl Flushes {
    ghost use Rattle.pmem_model.specs.Words.{is_within};
    ghost use Rattle.pmem_model.specs.Flushes.{may_be_flushed};

    /// Nothing flushed.
    pub fn new() -> Flushes
        ensures full { result.is_full ≡ false }
        ensures ranges { result.ranges.items ≡ [] }
    {
        Flushes {
            ranges: ArrayVec::new(),
            is_full: false,
        }
    }

    /// Adds words inside one bank.
    pub fn add(&mut self, at: usize, count: usize)
        requires range { at < WORDS }
        requires inside { offset_of at + count ≤ bank_size (bank_of at) }
        ensures had { (i : ℕ) → may_be_flushed self.old i ≡ true → may_be_flushed self.new i ≡ true }
        ensures added { (i : ℕ) → is_within at count i ≡ true → may_be_flushed self.new i ≡ true }
    {
        if self.ranges.try_push(FlushRange { at, count }).is_err() {
            self.is_full = true;
        }
    }

    /// Whether any word may be in flight.
    pub fn is_full(&self) -> bool
        ensures { result ≡ self.now.is_full }
    {
        self.is_full
    }

    /// The ranges.
    pub fn ranges(&self) -> &[FlushRange]
        ensures { result.now ≡ self.now.ranges.items }
    {
        self.ranges.as_slice()
    }

    /// After a fence nothing is flushed.
    pub fn clear(&mut self)
        ensures full { self.new.is_full ≡ false }
        ensures ranges { self.new.ranges.items ≡ [] }
    {
        self.ranges.clear();
        self.is_full = false;
    }
}

/// What each of the eight cores has flushed since its last fence.
pub type FlushesByCore = Vec<Flushes>;

/// Nothing flushed by any of the eight cores.
pub fn new_for_cores(alloc: Global) -> Result<FlushesByCore, AllocError>
    ensures { IfOk result (λ v. length v.items ≡ 8) }
{
    let mut flushes = Vec::with_capacity(alloc, 8)?;
    for _ in 0..8u8 {
        flushes.push(Flushes::new())?;
    }
    Ok(flushes)
}
