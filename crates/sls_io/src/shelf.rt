//! A shelf of named bytes.

ghost use Rattle.std.specs.Prelude.{◌≡◌, ◌≢◌, ◌≤◌, ℕ, List, is_some, IsSome, Some, IfOk, OnOk, IsErrOf};
ghost use Rattle.std.specs.declared.option.Option.{Option};
ghost use Rattle.sls_io.specs.Faults.{Rose};
ghost use Rattle.sls_io.specs.Shelf.{Names, entry_of, IsFoundFor, IsWithin};

use std::alloc::{AllocError, AllocFailed};
use thiserror::Error;

/// What a shelf has under a name: bytes, nothing, or more bytes than were wanted.
#[derive(Drop)]
pub enum Found {
    Bytes(Vec<u8>),
    Missing,
    Long,
}

/// Why a shelf didn't answer: a call failed outside, or there was no memory for the bytes.
#[derive(Clone, Copy, Debug, PartialEq, Eq, Error)]
pub enum ShelfError {
    #[error("the shelf failed")]
    Failed,
    #[error("no memory for the bytes of the shelf")]
    Memory,
}

impl From<AllocError> for ShelfError {
    ghost use Rattle.sls_io.specs.declared.shelf.ShelfError.{ShelfError};

    ghost from_gives = { λ _ e. e ≡ ShelfError.Memory };

    fn from(_no_memory: AllocError) -> ShelfError {
        ShelfError::Memory
    }
}

impl<T: Drop> From<AllocFailed<T>> for ShelfError {
    ghost use Rattle.sls_io.specs.declared.shelf.ShelfError.{ShelfError};

    ghost from_gives = { λ _ e. e ≡ ShelfError.Memory };

    fn from(_no_memory: AllocFailed<T>) -> ShelfError {
        ShelfError::Memory
    }
}

/// A shelf of named bytes, which counts its faults.
///
/// It may tell what stands under each name. Where it does, it goes on to tell it, and where it doesn't, it never does.
pub trait Shelf {
    // What stands under each name, where it is told.
    ghost names: { Self → Option Names };

    // The faults so far.
    ghost faults: { Self → ℕ };

    /// Gives the bytes under `name`: `Missing` where there are none, `Long` where they are more than `limit`.
    fn get(&mut self, name: &str, limit: usize) -> Result<Found, ShelfError>
        ensures found { IfOk result (λ found. IsSome (names self.old) →
            IsFoundFor (entry_of (names self.old) name.now) limit found) }
        ensures bound { IfOk result (IsWithin limit) }
        ensures kept { names self.new ≡ names self.old }
        ensures memory { IsErrOf result ShelfError.Memory → faults self.new ≡ faults self.old }

        // The count of faults never falls, and a failure shows in it.
        ensures never_falls { faults self.old ≤ faults self.new }
        ensures failed { IsErrOf result ShelfError.Failed → Rose (faults self.old) (faults self.new) };

    /// Puts `bytes` under `name`, in place of what stood there. Where it failed, any bytes or none stand there.
    fn put(&mut self, name: &str, bytes: &[u8]) -> Result<(), ShelfError>
        ensures puts { OnOk result (IsSome (names self.old) →
            entry_of (names self.new) name.now ≡ Some bytes.now) }
        ensures others { (other : List ℕ) → other ≢ name.now →
            entry_of (names self.new) other ≡ entry_of (names self.old) other }
        ensures memory { IsErrOf result ShelfError.Memory →
            (names self.new ≡ names self.old) × (faults self.new ≡ faults self.old) }
        ensures told { is_some (names self.new) ≡ is_some (names self.old) }

        // The count of faults never falls, and a failure shows in it.
        ensures never_falls { faults self.old ≤ faults self.new }
        ensures failed { IsErrOf result ShelfError.Failed → Rose (faults self.old) (faults self.new) };
}
