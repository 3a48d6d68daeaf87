//! Inputs that wait for threads to take them.

ghost use Rattle.std.specs.Prelude.{◌≡◌, ◌≤◌, length};
ghost use Rattle.sls_base.specs.declared.limits.TheConstants.{ENTRY_BYTES};
ghost use Rattle.plain_laws.specs.Bounds.{AreBytes};

use arrayvec::ArrayVec;
use circular_buffer::HeapCircularBuffer;
use sls_base::{Full, WAITING_INPUTS};
use std::alloc::{AllocError, Global};
use std::marker::Model;

/// The bytes in a place of their own.
fn copy_of(bytes: &[u8]) -> ArrayVec<u8, 56>
    requires { length bytes.now ≤ ENTRY_BYTES }
    ensures items { result.items ≡ bytes.now }
    ensures bytes { AreBytes bytes.now }
{
    let mut copy = ArrayVec::new();
    for i in 0..bytes.len() {
        copy.push(bytes[i]);
    }
    copy
}

/// Inputs of at most 56 bytes, in the order in which they came. At most 64 wait. A clause sees the list of their bytes.
#[derive(Drop)]
pub struct Inputs {
    waiting: HeapCircularBuffer<ArrayVec<u8, 56>>,
}

impl Model for Inputs {
    ghost use Rattle.std.specs.Prelude.{◌≡◌, ℕ, List, map};
    ghost use Rattle.sls_base.specs.declared.limits.TheConstants.{WAITING_INPUTS};

    ghost Value = { List (List ℕ) };

    ghost view = { λ inputs. map (λ bytes. bytes.items) inputs.waiting.items };

    ghost invariant = { λ inputs. inputs.waiting.capacity ≡ WAITING_INPUTS };
}

impl Inputs {
    ghost use Rattle.std.specs.Prelude.{◌≡◌, ◌≤◌, ◌↔◌, if◌then◌else◌, [], ◌∷◌, ◌++◌, drop, length, option_map, slice_get, slice_index_or, IfOk, OnOk, OnErr, IsErr};
    ghost use Rattle.sls_base.specs.declared.limits.TheConstants.{ENTRY_BYTES};
    ghost use Rattle.plain_laws.specs.Bounds.{AreBytes};

    /// No input waits. This takes the memory for all that may.
    pub fn new(alloc: Global) -> Result<Self, AllocError>
        ensures { IfOk result (λ inputs. inputs ≡ []) }
    {
        Ok(Inputs {
            waiting: HeapCircularBuffer::with_capacity(alloc, WAITING_INPUTS)?,
        })
    }

    /// The bytes of the input that waits first; none where no input waits.
    pub fn first(&self) -> &[u8]
        ensures bytes { result.now ≡ slice_index_or self.now 0 [] }
        ensures most { length result.now ≤ ENTRY_BYTES }
    {
        match self.waiting.front() {
            Some(bytes) => bytes.as_slice(),
            None => &[],
        }
    }

    /// The length of the input that waits first, if one waits.
    pub fn first_length(&self) -> Option<u8>
        ensures { result ≡ option_map length (slice_get self.now 0) }
    {
        match self.waiting.front() {
            Some(bytes) => Some(bytes.len() as u8),
            None => None,
        }
    }

    /// An input waits behind the others, where there is room for one more.
    pub fn push(&mut self, bytes: &[u8]) -> Result<(), Full>
        requires { length bytes.now ≤ ENTRY_BYTES }
        ensures full { IsErr result ↔ (length self.old ≡ WAITING_INPUTS) }
        ensures err { OnErr result (self.new ≡ self.old) }
        ensures ok { OnOk result (self.new ≡ self.old ++ bytes.now ∷ []) }
        ensures bytes { AreBytes bytes.now }
    {
        let input = copy_of(bytes);
        if self.waiting.len() == WAITING_INPUTS {
            return Err(Full);
        }
        self.waiting.push_back(input);
        Ok(())
    }

    /// Takes the first input, where that is said.
    pub fn take_first_if(&mut self, takes: bool)
        ensures { self.new ≡ (if takes then drop 1 self.old else self.old) }
    {
        if takes {
            self.waiting.pop_front();
        }
    }

    /// No input waits afterwards.
    pub fn clear(&mut self)
        ensures { self.new ≡ [] }
    {
        self.waiting.clear();
    }
}
