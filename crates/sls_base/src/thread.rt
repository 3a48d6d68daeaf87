//! Threads and rings.

use crate::{CoreNo, ObjId, PageNo};

/// What a thread does: it stands in the run queue, runs on a core, waits on a notification, waits in a connection's
/// list of clients, is served as a connection's client, waits for clients, or has stopped with a cause.
#[derive(Clone, Copy, Debug, PartialEq, Eq)]
pub enum ThreadState {
    Ready,
    Running(CoreNo),
    Waiting(ObjId),
    Calling(ObjId),
    Served(ObjId),
    Serving(ObjId),
    Stopped(u8),
}

/// A thread. Register x0 is 0.
#[derive(Clone, Copy, Debug, PartialEq, Eq)]
pub struct Thread {
    pub group: ObjId,
    pub space: ObjId,
    pub state: ThreadState,
    pub pc: u32,
    pub x: [u32; 32],
}

/// What is told of a thread: what it does, its pc, and register x10, which has a call's first argument and its answer.
#[derive(Clone, Copy, Debug, PartialEq, Eq)]
pub struct ThreadView {
    pub state: ThreadState,
    pub pc: u32,
    pub x10: u32,
}

/// The ring of a channel: its number, whether its page is fresh, the entries that were put, and its page.
#[derive(Clone, Copy, Debug, PartialEq, Eq)]
pub struct Ring {
    pub channel: u8,
    pub fresh: bool,
    pub count: u64,
    pub page: PageNo,
}
