//! The limits, and the sizes of the memory.

/// The words of the table, which stands before the frames.
pub const TABLE_WORDS: usize = 17_920;
/// The words of a frame.
pub const FRAME_WORDS: usize = 512;
/// The frames.
pub const FRAMES: usize = 1_056;
/// The words of the whole memory: the table and the frames.
pub const WORDS: usize = 558_592;
/// The words of a line, which a flush names.
pub const LINE_WORDS: usize = 8;
/// The word of the memory that holds the version, whose change is a commit.
pub const VERSION_AT: usize = 1;

/// The cores that a machine may have.
pub const CORES: usize = 8;
/// The instructions that a thread runs before it goes to the back of the queue.
pub const CORE_SLICE: u8 = 16;
/// The registers of a thread.
pub const REGISTERS: usize = 32;
/// The bytes of an instruction, all of which have one word.
pub const INSTRUCTION_BYTES: u32 = 4;
/// The bytes of a page.
pub const PAGE_BYTES: usize = 4_096;
/// The words of a page, which are those of a frame.
pub const PAGE_WORDS: usize = 512;

/// The output channels.
pub const OUTPUT_CHANNELS: usize = 4;
/// The entries of a channel that may wait to be accepted.
pub const RING_ENTRIES: u64 = 64;
/// The bytes that an entry may have.
pub const ENTRY_BYTES: usize = 56;

/// The greatest version, at which no checkpoint begins.
pub const LAST_VERSION: u64 = 0xffff_ffff_ffff;

/// The objects: their numbers are below this.
pub const OBJECTS: usize = 128;
/// The pages: their numbers are below this.
pub const PAGES: usize = 512;
/// The slots of a group.
pub const GROUP_SLOTS: usize = 32;
/// The regions of a space.
pub const SPACE_REGIONS: usize = 16;
/// The pages of a memory object.
pub const MEMORY_PAGES: usize = 64;
/// The addresses that a program may name: those of 32 bits.
pub const ADDRESSES: u64 = 1 << 32;
/// The pages of all addresses.
pub const ADDRESS_PAGES: u32 = 1_048_576;
/// The inputs that may wait.
pub const WAITING_INPUTS: usize = 64;
