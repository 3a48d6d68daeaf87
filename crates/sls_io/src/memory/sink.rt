//! A sink in memory.

ghost use Rattle.std.specs.Prelude.{◌≡◌, ◌≤◌, ◌/◌, ◌++◌, [], length, take, Some, OnOk, IsErr, IsErrOf, Contains};
ghost use Rattle.sls_base.specs.Counts.{one_more};
ghost use Rattle.sls_io.specs.Sink.{wants_after};

use crate::faults::{fails_now, raise};
use crate::{Sink, SinkError};
use std::alloc::Global;

/// A sink in memory, which tells the bytes written: they are `bytes`.
///
/// `calls` counts the writes, `faults` those that failed, and `wants` those for which there was no memory; each count
/// stops at `u64::MAX`. A write fails exactly where its number, from 1, stands in `fails`, unless there is no memory, and
/// appends the first half of its bytes then, rounded down.
#[derive(Drop)]
pub struct MemSink {
    pub bytes: Vec<u8>,
    pub calls: u64,
    pub fails: Vec<u64>,
    pub faults: u64,
    pub wants: u64,
}

impl MemSink {
    /// An empty sink whose writes don't fail.
    pub fn new(alloc: Global) -> Self
        ensures empty { result.bytes.items ≡ [] }
        ensures fails { result.fails.items ≡ [] }
        ensures start { (result.calls ≡ 0) × (result.faults ≡ 0) × (result.wants ≡ 0) }
    {
        MemSink::failing(Vec::new(alloc))
    }

    /// An empty sink that fails the writes with the numbers `fails`, from 1.
    pub fn failing(fails: Vec<u64>) -> Self
        ensures empty { result.bytes.items ≡ [] }
        ensures fails { result.fails ≡ fails }
        ensures start { (result.calls ≡ 0) × (result.faults ≡ 0) × (result.wants ≡ 0) }
    {
        MemSink {
            bytes: Vec::new(*fails.allocator()),
            calls: 0,
            fails,
            faults: 0,
            wants: 0,
        }
    }
}

impl Sink for MemSink {
    ghost written = { λ s. Some s.bytes.items };

    ghost faults = { λ s. s.faults };

    ghost wants = { λ s. s.wants };

    fn write(&mut self, bytes: &[u8]) -> Result<(), SinkError>
        ensures appends { OnOk result (self.new.bytes.items ≡ self.old.bytes.items ++ bytes.now) }
        ensures half { IsErrOf result SinkError.Failed →
            self.new.bytes.items ≡ self.old.bytes.items ++ take (length bytes.now / 2) bytes.now }
        ensures memory { IsErrOf result SinkError.Memory →
            (self.new.bytes.items ≡ self.old.bytes.items) × (self.new.faults ≡ self.old.faults) }
        ensures stays { self.new.fails ≡ self.old.fails }

        // The write fails exactly where its number stands in `fails`, unless there is no memory.
        ensures calls { self.new.calls ≡ one_more self.old.calls }
        ensures fails { Contains self.old.fails.items self.new.calls → IsErr result }
        ensures fails_only { IsErrOf result SinkError.Failed →
            Contains self.old.fails.items self.new.calls }

        // The faults are the writes that failed.
        ensures quiet { OnOk result (self.new.faults ≡ self.old.faults) }
        ensures raised { IsErrOf result SinkError.Failed →
            self.new.faults ≡ one_more self.old.faults }
        ensures never_falls { self.old.faults ≤ self.new.faults }
        ensures none_fails { self.old.fails.items ≡ [] → self.new.faults ≡ self.old.faults }

        // The wants are the writes for which there was no memory.
        ensures wants { self.new.wants ≡ wants_after result self.old.wants }
    {
        let fails = fails_now(&mut self.calls, &self.fails);
        let taken = if fails { bytes.len() / 2 } else { bytes.len() };
        let Ok(()) = self.bytes.extend_from_slice(&bytes[..taken]) else {
            raise(&mut self.wants);
            return Err(SinkError::Memory);
        };
        if fails {
            raise(&mut self.faults);
            return Err(SinkError::Failed);
        }
        Ok(())
    }
}
