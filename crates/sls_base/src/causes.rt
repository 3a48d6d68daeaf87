//! Why a thread has stopped.

/// It called halt.
pub const HALTED: u8 = 0;
/// The word at pc is no instruction.
pub const ILLEGAL_WORD: u8 = 1;
/// The target of a branch that is taken, or of a jump, isn't a multiple of 4.
pub const BAD_TARGET: u8 = 2;
/// The address of a load or store isn't a multiple of its size.
pub const MISALIGNED: u8 = 3;
/// A fetch, load or store where no region gives the right.
pub const NO_ACCESS: u8 = 4;
/// It did EBREAK.
pub const BREAKPOINT: u8 = 5;
/// The object that it waited on, called, served or was served by has vanished.
pub const LOST_OBJECT: u8 = 6;
