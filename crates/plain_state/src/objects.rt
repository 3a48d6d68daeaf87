//! Parts of the kernel's objects, as plain values.

use sls_base::ObjId;

/// A capability: an object, and the rights to it.
#[derive(Clone, Copy)]
pub struct Capability {
    pub object: ObjId,
    pub rights: u32,
}

/// A region of a space: `count` pages of a memory object, from page `first` on, at the addresses from page `base` on, with
/// some of the rights read, write and execute.
#[derive(Clone, Copy)]
pub struct Region {
    pub base: u32,
    pub count: u32,
    pub first: u32,
    pub memory: ObjId,
    pub rights: u32,
}

/// A core's thread, and what is left of its slice.
#[derive(Clone, Copy)]
pub struct Occupant {
    pub thread: ObjId,
    pub slice: u8,
}

/// What a call may want of an object that it names.
#[derive(Clone, Copy)]
pub enum Kind {
    AnyKind,
    GroupKind,
    SpaceKind,
    MemoryKind,
    ConnectionKind,
    NotificationKind,
    OutputKind,
    InputKind,
}
