//! Objects with the lists of threads that stand at them.

use arrayvec::ArrayVec;
use cap_group::Group;
use mem_space::{Memory, Space};
use sls_base::{CORES, OBJECTS, ObjId, Ring, Thread};

/// A connection: its server, the client that it serves, and the clients that wait, in order.
#[derive(Drop)]
pub struct ConnectionRec {
    pub server: ObjId,
    pub client: Option<ObjId>,
    pub clients: ArrayVec<ObjId, OBJECTS>,
}

/// A notification: its count, and the threads that wait, in order.
#[derive(Drop)]
pub struct NotificationRec {
    pub count: u32,
    pub waiters: ArrayVec<ObjId, OBJECTS>,
}

/// The scheduler: the number of cores, the thread of each core with what is left of its slice, and the run queue.
#[derive(Drop)]
pub struct Scheduler {
    pub cores: u8,
    pub running: [Option<(ObjId, u8)>; CORES],
    pub queue: ArrayVec<ObjId, OBJECTS>,
}

/// An object as its record has it.
#[derive(Drop)]
pub enum Obj {
    Group(Group),
    Thread(Thread),
    Space(Space),
    Memory(Memory),
    Connection(ConnectionRec),
    Notification(NotificationRec),
    Ring(Ring),
    Scheduler(Scheduler),
}
