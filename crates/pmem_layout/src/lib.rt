//! Where each thing stands in the persistent memory, and what its words mean.
#![tactic(auto)]

mod base;
mod field;
mod format;
mod hot;
pub mod laws;
mod log;
mod number;
mod places;
mod tag;

pub use base::{is_in_base, with_bit};
pub use field::bits;
pub use format::{EMPTY_WORD, FORMAT_WORD};
pub use hot::HotWord;
pub use log::{LogEntry, LogHead};
pub use number::{BaseBit, Number};
pub use places::{
    BACKUP_TAGS_AT, BASE_BITS, CORES_AT, FIRST_SPARE_FRAME, FORMAT_AT, FRAME_LINES, HOT_WORDS_AT,
    LOG_ENTRIES_AT, LOG_HEAD_AT, NUMBERS, OBJECT_BASE_AT, OBJECT_SLOTS_AT, OBJECT_TAGS_AT,
    OBJECT_TAGS_END, PAGE_BASE_AT, PAGE_BASE_END, SLOT_LINES, SLOT_WORDS, SLOTS, SPARES,
    backup_frame, backup_tag_at, frame_at, hot_word_at, is_unused, line_at, log_entry_at,
    object_slot_at, object_tag_at, runtime_frame, spare_frame,
};
pub use tag::Tag;

#[cfg(test)]
mod tests;
