//! What a program puts out and what it is given.

use arrayvec::ArrayVec;

/// An entry of an output channel: its number on the channel, from 0, and its 1 to 56 bytes.
#[derive(Drop)]
pub struct Entry {
    pub number: u64,
    pub bytes: ArrayVec<u8, 56>,
}

/// There is no room for one more.
#[derive(Clone, Copy, Debug, PartialEq, Eq)]
pub struct Full;
