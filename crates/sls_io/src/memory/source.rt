//! A source in memory.

ghost use Rattle.std.specs.Prelude.{◌≡◌, ◌≤◌, ◌<◌, ◌+◌, ◌-◌, ◌↔◌, ℕ, [], length, take, drop, min, Some, IfOk, OnOk, OnErr, IsErr, Contains, ◌++◌};
ghost use Rattle.sls_base.specs.Counts.{one_more};
ghost use Rattle.sls_io.specs.Faults.{Rose};

use crate::faults::{fails_now, raise};
use crate::{Failed, Source};

/// A source in memory, which tells the bytes left: those of `bytes` from the place `at` on.
///
/// `calls` counts the reads, and `faults` those that failed. A read fails exactly where its number, from 1, stands in
/// `fails`; both counts stop at `u64::MAX`.
#[derive(Drop)]
pub struct MemSource {
    pub bytes: Vec<u8>,
    pub at: usize,
    pub calls: u64,
    pub fails: Vec<u64>,
    pub faults: u64,
}

impl MemSource {
    /// A source of `bytes` whose reads don't fail.
    pub fn new(bytes: Vec<u8>) -> Self
        ensures bytes { result.bytes ≡ bytes }
        ensures fails { result.fails.items ≡ [] }
        ensures start { (result.at ≡ 0) × (result.calls ≡ 0) × (result.faults ≡ 0) }
    {
        let fails = Vec::new(*bytes.allocator());
        MemSource::failing(bytes, fails)
    }

    /// A source of `bytes` that fails the reads with the numbers `fails`, from 1.
    pub fn failing(bytes: Vec<u8>, fails: Vec<u64>) -> Self
        ensures bytes { result.bytes ≡ bytes }
        ensures fails { result.fails ≡ fails }
        ensures start { (result.at ≡ 0) × (result.calls ≡ 0) × (result.faults ≡ 0) }
    {
        MemSource {
            bytes,
            at: 0,
            calls: 0,
            fails,
            faults: 0,
        }
    }
}

impl Source for MemSource {
    ghost left = { λ s. Some (drop s.at s.bytes.items) };

    ghost faults = { λ s. s.faults };

    ghost ended = { λ s. length s.bytes.items ≤ s.at };

    fn read(&mut self, buf: &mut [u8]) -> Result<usize, Failed>
        ensures count { IfOk result (λ count.
            count ≡ min (length self.old.bytes.items - self.old.at) (length buf.old)) }
        ensures given { IfOk result (λ count.
            buf.new ≡ take count (drop self.old.at self.old.bytes.items) ++ drop count buf.old) }
        ensures at { IfOk result (λ count. self.new.at ≡ self.old.at + count) }
        ensures err { OnErr result ((self.new.at ≡ self.old.at) × (buf.new ≡ buf.old)) }
        ensures stays { (self.new.bytes ≡ self.old.bytes) × (self.new.fails ≡ self.old.fails) }

        // The read fails exactly where its number stands in `fails`.
        ensures calls { self.new.calls ≡ one_more self.old.calls }
        ensures fails { IsErr result ↔ Contains self.old.fails.items self.new.calls }

        // The faults are the reads that failed.
        ensures quiet { OnOk result (self.new.faults ≡ self.old.faults) }
        ensures raised { OnErr result (self.new.faults ≡ one_more self.old.faults) }
        ensures never_falls { self.old.faults ≤ self.new.faults }
        ensures none_fails { self.old.fails.items ≡ [] → self.new.faults ≡ self.old.faults }
    {
        if fails_now(&mut self.calls, &self.fails) {
            raise(&mut self.faults);
            return Err(Failed);
        }
        let count = copy_front(self.bytes.get(self.at..).unwrap_or_default(), buf);
        self.at += count;
        Ok(count)
    }
}

/// Copies as many bytes as `from` has and `to` has room for, and gives how many.
fn copy_front(from: &[u8], to: &mut [u8]) -> usize
    ensures count { result ≡ min (length from.now) (length to.old) }
    ensures copied { to.new ≡ take result from.now ++ drop result to.old }
{
    let count = from.len().min(to.len());
    to[..count].copy_from_slice(&from[..count]);
    count
}
