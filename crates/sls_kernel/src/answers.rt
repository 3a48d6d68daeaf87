//! What the machine answers.

use crate::machine::Off;
use pmem_model::Pmem;
use sls_base::{CoreNo, ObjId, PageNo, Version};

/// What an inner turn did, of which the program sees nothing.
#[derive(Clone, Copy, Debug, PartialEq, Eq)]
pub enum Why {
    Format,
    Recover,
    Prepare(PageNo),
    Home(PageNo),
    Wait(PageNo, CoreNo),
    Copy(u8),
    Lead,
    Help,
    Paused,
}

/// What a turn of a core did.
#[derive(Clone, Copy, Debug, PartialEq, Eq)]
pub enum Did {
    /// An instruction or a call of the core's thread.
    Retired,
    /// Nothing: no thread was there to run.
    Idle,
    /// A step of the machine's own.
    Inner(Why),
    /// The last step by which a checkpoint became the one to go back to.
    Committed(Version),
    /// The last step of formatting or recovery; the machine runs from this version on.
    Up(Version),
}

/// What came of asking for a checkpoint.
#[derive(Clone, Copy, Debug, PartialEq, Eq)]
pub enum Asked {
    Started,
    /// One is in flight.
    InFlight,
    /// No version is left after this one.
    VersionSpent(Version),
    /// There was no memory for it, and nothing changed.
    Memory,
}

/// There was no memory to boot with; the persistent memory comes back as it was.
#[derive(Drop)]
pub struct BootRefused {
    pub nvm: Pmem,
}

/// Why a memory is not lit.
#[derive(Clone, Copy)]
pub enum LightCause {
    Memory,
    NotFormatted,
    BadGeometry,
    BadLog,
    BadObject(ObjId),
    BadDangling(ObjId),
    BadPage(PageNo),
    BadAccepted(u8),
}

/// A refused light gives back what it was given.
#[derive(Drop)]
pub struct LightRefused {
    pub cause: LightCause,
    pub off: Off,
}
