//! The calls of the kernel, their refusals, and what each needs.

use crate::objects::Kind;

/// The register that names a call, by its number.
pub const CALL_NUMBER: usize = 17;
/// The register that has a call's first argument; the registers after it have the others.
pub const FIRST_ARGUMENT: usize = 10;
/// The register that gets a call's answer.
pub const ANSWER: usize = 10;

/// Why a call is refused.
#[derive(Clone, Copy)]
pub enum Refusal {
    BadCall,
    NoCap,
    WrongKind,
    NoRight,
    BadAddress,
    BadSize,
    Overlap,
    NoSlot,
    NoObjects,
    NoPages,
    NoRegions,
    Full,
    Empty,
    Taken,
}

/// The calls, by their numbers from 0 on.
#[derive(Clone, Copy)]
pub enum Call {
    Yield,
    Halt,
    Put,
    Get,
    MemNew,
    Map,
    Unmap,
    SpaceNew,
    GroupNew,
    CapCopy,
    CapDrop,
    ThreadNew,
    NoteNew,
    Signal,
    Wait,
    ConnNew,
    ConnCall,
    Serve,
    Checkpoint,
}

/// What a call needs: that an argument names an object of a kind by a capability with some rights.
#[derive(Clone, Copy)]
pub struct Need {
    pub argument: u8,
    pub kind: Kind,
    pub rights: u32,
}
