//! The numbers of the format.

/// The most bytes of an image.
pub const IMAGE_BYTES: usize = 8_388_608;

/// The word that an image begins with: the bytes `SLSI`.
pub const MAGIC: u32 = 0x4953_4c53;
/// The format that is read and written.
pub const FORMAT: u32 = 1;

/// The bytes of a number.
pub const WORD_BYTES: usize = 4;
/// The bytes before the programs: the magic word, the format and the number of programs.
pub const HEADER_BYTES: usize = 12;
/// The bytes of a program before its regions: its entry, threads, channels and the number of regions.
pub const PROGRAM_HEADER_BYTES: usize = 16;
/// The bytes of a region before its content: its base, pages, rights and the length of the content.
pub const REGION_HEADER_BYTES: usize = 16;

/// All channels of a program: the outputs, the input and the root group.
pub const ALL_CHANNELS: u8 = 63;
