//! Words that have one value.

/// The word that tells a formatted memory from another: the bytes `TREESLS1`.
pub const FORMAT_WORD: u64 = 0x3153_4C53_4545_5254;
/// What stands where nothing is told: no tag, no hot page, no log.
pub const EMPTY_WORD: u64 = 0;
