//! Parts of what an instruction or a call does, as plain values.

use arrayvec::ArrayVec;
use sls_base::{ObjId, ThreadState};

/// Where a byte stands: the memory object, its page there, and the byte's offset in that page.
#[derive(Clone, Copy)]
pub struct Place {
    pub memory: ObjId,
    pub page: u64,
    pub offset: u32,
}

/// A byte that is stored.
#[derive(Clone, Copy)]
pub struct ByteStore {
    pub place: Place,
    pub value: u8,
}

/// The bytes of an entry that is put on a channel.
#[derive(Drop)]
pub struct Output {
    pub channel: u8,
    pub bytes: ArrayVec<u8, 56>,
}

/// What becomes of a thread: it goes on, goes to the queue's back, leaves its core and waits as a state says, or stops with a
/// cause.
#[derive(Clone, Copy)]
pub enum Goes {
    On,
    Back,
    Asleep(ThreadState),
    Stop(u8),
}
