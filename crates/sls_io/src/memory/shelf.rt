//! A shelf in memory.

ghost use Rattle.std.specs.Prelude.{◌≡◌, ◌≢◌, ◌≤◌, ◌↔◌, ℕ, List, [], Some, IfOk, OnOk, OnErr, IsErrOf, Contains};
ghost use Rattle.std.specs.BTreeMap.{IsEmpty, IsUnchanged};
ghost use Rattle.sls_base.specs.Counts.{one_more};
ghost use Rattle.sls_io.specs.Shelf.{entry_of, IsFoundFor, IsWithin};
ghost use Rattle.sls_io.specs.MemShelf.{names_of};

use crate::faults::{fails_now, raise};
use crate::{Found, Shelf, ShelfError};
use std::alloc::Global;
use std::collections::BTreeMap;

/// A shelf in memory, which tells what stands under each name: the bytes in `names`.
///
/// `calls` counts the calls of `get` and `put` together, and `faults` those that failed. A call fails exactly where
/// its number, from 1, stands in `fails`; both counts stop at `u64::MAX`. A `put` that fails leaves what stood there.
#[derive(Drop)]
pub struct MemShelf {
    pub names: BTreeMap<String, Vec<u8>>,
    pub calls: u64,
    pub fails: Vec<u64>,
    pub faults: u64,
}

impl MemShelf {
    /// An empty shelf whose calls don't fail.
    pub fn new(alloc: Global) -> Self
        ensures empty { IsEmpty result.names }
        ensures fails { result.fails.items ≡ [] }
        ensures start { (result.calls ≡ 0) × (result.faults ≡ 0) }
    {
        MemShelf::failing(Vec::new(alloc))
    }

    /// An empty shelf that fails the calls with the numbers `fails`, from 1.
    pub fn failing(fails: Vec<u64>) -> Self
        ensures empty { IsEmpty result.names }
        ensures fails { result.fails ≡ fails }
        ensures start { (result.calls ≡ 0) × (result.faults ≡ 0) }
    {
        MemShelf {
            names: BTreeMap::new(*fails.allocator()),
            calls: 0,
            fails,
            faults: 0,
        }
    }
}

impl Shelf for MemShelf {
    ghost names = { λ s. Some (names_of s.names) };

    ghost faults = { λ s. s.faults };

    fn get(&mut self, name: &str, limit: usize) -> Result<Found, ShelfError>
        ensures found { IfOk result (
            IsFoundFor (entry_of (Some (names_of self.old.names)) name.now) limit) }
        ensures bound { IfOk result (IsWithin limit) }
        ensures stays { (self.new.names ≡ self.old.names) × (self.new.fails ≡ self.old.fails) }

        // The call fails exactly where its number stands in `fails`.
        ensures calls { self.new.calls ≡ one_more self.old.calls }
        ensures fails { IsErrOf result ShelfError.Failed ↔ Contains self.old.fails.items self.new.calls }

        // The faults are the calls that failed.
        ensures quiet { OnOk result (self.new.faults ≡ self.old.faults) }
        ensures memory { IsErrOf result ShelfError.Memory → self.new.faults ≡ self.old.faults }
        ensures raised { IsErrOf result ShelfError.Failed →
            self.new.faults ≡ one_more self.old.faults }
        ensures never_falls { self.old.faults ≤ self.new.faults }
        ensures none_fails { self.old.fails.items ≡ [] → self.new.faults ≡ self.old.faults }
    {
        if fails_now(&mut self.calls, &self.fails) {
            raise(&mut self.faults);
            return Err(ShelfError::Failed);
        }
        match self.names.get(name) {
            None => Ok(Found::Missing),
            Some(bytes) if bytes.len() > limit => Ok(Found::Long),
            Some(bytes) => Ok(Found::Bytes(Vec::from_slice(*bytes.allocator(), bytes)?)),
        }
    }

    fn put(&mut self, name: &str, bytes: &[u8]) -> Result<(), ShelfError>
        ensures puts { OnOk result (entry_of (Some (names_of self.new.names)) name.now ≡ Some bytes.now) }
        ensures others { (other : List ℕ) → other ≢ name.now →
            entry_of (Some (names_of self.new.names)) other
            ≡ entry_of (Some (names_of self.old.names)) other }
        ensures err { OnErr result (IsUnchanged self.old.names self.new.names) }
        ensures stays { self.new.fails ≡ self.old.fails }

        // The call fails exactly where its number stands in `fails`.
        ensures calls { self.new.calls ≡ one_more self.old.calls }
        ensures fails { IsErrOf result ShelfError.Failed ↔ Contains self.old.fails.items self.new.calls }

        // The faults are the calls that failed.
        ensures quiet { OnOk result (self.new.faults ≡ self.old.faults) }
        ensures memory { IsErrOf result ShelfError.Memory → self.new.faults ≡ self.old.faults }
        ensures raised { IsErrOf result ShelfError.Failed →
            self.new.faults ≡ one_more self.old.faults }
        ensures never_falls { self.old.faults ≤ self.new.faults }
        ensures none_fails { self.old.fails.items ≡ [] → self.new.faults ≡ self.old.faults }
    {
        if fails_now(&mut self.calls, &self.fails) {
            raise(&mut self.faults);
            return Err(ShelfError::Failed);
        }
        let alloc = *self.fails.allocator();
        let key = String::from_str(alloc, name)?;
        let value = Vec::from_slice(alloc, bytes)?;
        self.names.insert(key, value)?;
        Ok(())
    }
}
