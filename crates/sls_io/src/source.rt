//! Where bytes come from.

ghost use Rattle.std.specs.Prelude.{◌≡◌, ◌≤◌, ◌<◌, ◌+◌, ℕ, List, length, take, drop, is_some, Some};
ghost use Rattle.std.specs.Prelude.{IfOk, OnOk, OnErr, IsErrOf, IfSome};
ghost use Rattle.std.specs.declared.option.Option.{Option};
ghost use Rattle.std.specs.Io.{ReadsAtMost};
ghost use Rattle.std.specs.Io.KnownBytes.{prepend_known, IsAtEnd};
ghost use Rattle.sls_io.specs.Faults.{Rose};
ghost use Rattle.sls_io.specs.Source.{TakesAtMost};

use std::alloc::{AllocError, Global};
use thiserror::Error;

/// A call failed outside; the count of faults tells so too.
#[derive(Clone, Copy, Debug, PartialEq, Eq, Error)]
#[error("a read failed")]
pub struct Failed;

/// A source of bytes, which counts its faults.
///
/// It may tell the bytes that are left. Where it does, it goes on to tell them, and where it doesn't, it never does.
pub trait Source {
    // The bytes left, where they are told.
    ghost left: { Self → Option (List ℕ) };

    // The faults so far.
    ghost faults: { Self → ℕ };

    // What holds once a read has met the end; a source that doesn't keep it claims nothing.
    ghost ended: { Self → Type 0 } = { λ _. Unit {0} };

    /// Reads into the front of `buf`, and gives how many bytes were read: 0 only at the end, or where `buf` is empty.
    /// The rest of `buf` may be anything.
    fn read(&mut self, buf: &mut [u8]) -> Result<usize, Failed>
        ensures bound { ReadsAtMost result buf.new }
        ensures bytes { IfOk result (λ count.
            left self.old ≡ prepend_known (take count buf.new) (left self.new)) }
        ensures end { IfOk result (λ count.
            count ≡ 0 → 0 < length buf.new → IsAtEnd (left self.new) × ended self.new) }
        ensures kept { OnErr result (left self.new ≡ left self.old) }
        ensures told { is_some (left self.new) ≡ is_some (left self.old) }

        // The count of faults never falls, and a failure shows in it.
        ensures never_falls { faults self.old ≤ faults self.new }
        ensures failed { OnErr result (Rose (faults self.old) (faults self.new)) };
}

/// Why a source wasn't read to its end.
#[derive(Clone, Copy, Debug, PartialEq, Eq, Error)]
pub enum ReadError {
    #[error("a read failed")]
    Failed,
    #[error("no memory for the bytes read")]
    Memory,
}

impl From<Failed> for ReadError {
    ghost use Rattle.sls_io.specs.declared.source.ReadError.{ReadError};

    ghost from_gives = { λ _ e. e ≡ ReadError.Failed };

    fn from(_failed: Failed) -> ReadError {
        ReadError::Failed
    }
}

impl From<AllocError> for ReadError {
    ghost use Rattle.sls_io.specs.declared.source.ReadError.{ReadError};

    ghost from_gives = { λ _ e. e ≡ ReadError.Memory };

    fn from(_no_memory: AllocError) -> ReadError {
        ReadError::Memory
    }
}

/// The bytes that are read at a time.
const PIECE: usize = 512;

/// Reads `source` to its end, or to the first byte past `limit`: more than `limit` bytes tell that there are too many.
///
/// At an error the bytes that were read before it are lost, at most `limit + 1`.
pub fn read_to_end<S: Source>(
    alloc: Global,
    source: &mut S,
    limit: usize,
) -> Result<Vec<u8>, ReadError>
    ensures bound { IfOk result (λ bytes. length bytes.items ≤ limit + 1) }
    ensures first { IfOk result (λ bytes.
        IfSome (S.left source.old) (λ all. bytes.items ≡ take (limit + 1) all)) }
    ensures rest { OnOk result (
        IfSome (S.left source.old) (λ all. S.left source.new ≡ Some (drop (limit + 1) all))) }
    ensures end { IfOk result (λ bytes.
        length bytes.items ≤ limit → IsAtEnd (S.left source.new) × S.ended source.new) }
    ensures lost { OnErr result (TakesAtMost (limit + 1) (S.left source.old) (S.left source.new)) }
    ensures told { is_some (S.left source.new) ≡ is_some (S.left source.old) }

    // The count of faults never falls, and a failure shows in it.
    ensures never_falls { S.faults source.old ≤ S.faults source.new }
    ensures failed { IsErrOf result ReadError.Failed →
        Rose (S.faults source.old) (S.faults source.new) }
{
    let mut bytes = Vec::new(alloc);
    let mut piece = [0; PIECE];
    while bytes.len() <= limit {
        let wanted = (limit - bytes.len()).min(PIECE - 1) + 1;
        let count = source.read(&mut piece[..wanted])?;
        if count == 0 {
            break;
        }
        bytes.extend_from_slice(&piece[..count])?;
    }
    Ok(bytes)
}
