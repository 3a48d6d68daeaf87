//! The limits of texts: of a job, and of a program in source.

/// The bytes of a text.
pub const TEXT_BYTES: usize = 65_536;
/// The words of a program.
pub const PROGRAM_WORDS: usize = 1_024;
