//! What befalls a machine, and what it answers.

use arrayvec::ArrayVec;
use pmem_model::Pmem;
use sls_base::{CoreNo, Entry, Full, ObjId, PageNo, Version};

/// A machine without power: its memory, and how many entries of each channel the device has accepted.
#[derive(Drop)]
pub struct Off {
    pub nvm: Pmem,
    pub accepted: [u64; 4],
}

/// What a turn did of which a program sees nothing.
#[derive(Clone, Copy, Debug, PartialEq, Eq)]
pub enum Why {
    /// One step of formatting the memory.
    Format,
    /// One step of recovery.
    Recover,
    /// One step of preparing this page, so that it may be stored to.
    Prepare(PageNo),
    /// This page came home from the board.
    Home(PageNo),
    /// Nothing: this page is in the hands of that core.
    Wait(PageNo, CoreNo),
    /// One step of the core's helper with this entry of the board, while the machine runs.
    Copy(u8),
    /// One step of the leader in a checkpoint.
    Lead,
    /// One step of the core's helper in a checkpoint.
    Help,
    /// Nothing: there is nothing for this core to do.
    Paused,
}

/// What a turn of a core did.
#[derive(Clone, Copy, Debug, PartialEq, Eq)]
pub enum Did {
    /// An instruction or a call of a thread, whole.
    Retired,
    /// Nothing: the core has no thread to run.
    Idle,
    Inner(Why),
    /// The fence that made this version durable.
    Committed(Version),
    /// The last step of formatting or recovery: the machine is up at this version.
    Up(Version),
}

/// What came of asking for a checkpoint.
#[derive(Clone, Copy, Debug, PartialEq, Eq)]
pub enum Asked {
    Started,
    /// One is in flight already.
    InFlight,
    /// This version is the last.
    VersionSpent(Version),
    /// There was no memory, and nothing has changed.
    Memory,
}

/// There was no memory to boot with; the persistent memory comes back as it was.
#[derive(Drop)]
pub struct BootRefused {
    pub nvm: Pmem,
}

/// Why a memory is not lit.
#[derive(Clone, Copy, Debug, PartialEq, Eq)]
pub enum LightCause {
    Memory,
    NotFormatted,
    BadGeometry,
    BadLog,
    BadObject(ObjId),
    BadDangling(ObjId),
    BadPage(PageNo),
    BadAccepted(u8),
}

/// A memory that is not lit comes back as it was.
#[derive(Drop)]
pub struct LightRefused {
    pub cause: LightCause,
    pub off: Off,
}

/// What befalls a machine.
#[derive(Drop)]
pub enum Event {
    /// A core takes a turn.
    Turn(CoreNo),
    /// A checkpoint is asked for.
    Ask,
    /// The wish for a checkpoint is asked for, and forgotten.
    TakeWish,
    /// The cached value of this word becomes durable.
    WriteBack(usize),
    /// An input of these bytes is given.
    Input(ArrayVec<u8, 56>),
    /// The device accepts the next entry of this channel.
    Accept(u8),
    /// The power goes, and comes back.
    Cut,
}

/// What a machine answers to an event.
#[derive(Drop)]
pub enum Answer {
    Did(Did),
    Asked(Asked),
    /// Whether a checkpoint was wished for.
    Wish(bool),
    /// The version, where that committed a checkpoint.
    WroteBack(Option<Version>),
    Given(Result<(), Full>),
    Accepted(Option<Entry>),
    /// Nothing was done, since the machine formats or recovers.
    NotUp,
    /// It formats or recovers again, from this version.
    Restarted(Version),
}
