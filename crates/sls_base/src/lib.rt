//! What every crate of the kernel speaks of: the numbers of objects, pages and cores, the limits, the places of the
//! memory, the generator of random words, and the plain data that passes between the crates.
#![tactic(auto)]

mod causes;
mod entry;
mod fixed;
mod image;
pub mod laws;
mod lcg;
mod limits;
mod rights;
mod texts;
mod thread;

pub use causes::{
    BAD_TARGET, BREAKPOINT, HALTED, ILLEGAL_WORD, LOST_OBJECT, MISALIGNED, NO_ACCESS,
};
pub use entry::{Entry, Full};
pub use fixed::{
    FIRST_OUTPUT_RING, FIRST_PROGRAM_OBJECT, FIRST_PROGRAM_PAGE, INPUT_RING, LEADER, ROOT_GROUP,
    SCHEDULER,
};
pub use image::{Image, Program, RegionSpec};
pub use lcg::Lcg;
pub use limits::{
    ADDRESS_PAGES, ADDRESSES, CORE_SLICE, CORES, ENTRY_BYTES, FRAME_WORDS, FRAMES, GROUP_SLOTS,
    INSTRUCTION_BYTES, LAST_VERSION, LINE_WORDS, MEMORY_PAGES, OBJECTS, OUTPUT_CHANNELS,
    PAGE_BYTES, PAGE_WORDS, PAGES, REGISTERS, RING_ENTRIES, SPACE_REGIONS, TABLE_WORDS, VERSION_AT,
    WAITING_INPUTS, WORDS,
};
pub use rights::{ALL_RIGHTS, EXECUTE, GRANT, READ, REGION_RIGHTS, WRITE, has_rights};
pub use texts::{PROGRAM_WORDS, TEXT_BYTES};
pub use thread::{Ring, Thread, ThreadState, ThreadView};

/// The number of an object.
pub type ObjId = u8;
/// The number of a page.
pub type PageNo = u16;
/// The number of a core.
pub type CoreNo = u8;
/// The number of a checkpoint; 0 is the state that the machine was formatted with.
pub type Version = u64;
