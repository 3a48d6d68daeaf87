//! The places of the memory: the words of the table, and the frames behind it.

ghost use Rattle.std.specs.Prelude.{◌≡◌, ◌+◌, ◌*◌, ◌<◌, ◌≤◌, ◌↔◌, IsTrue};
ghost use Rattle.pmem_layout.specs.Places as places;
ghost use Rattle.pmem_layout.specs.Places.{IsUnused};

use sls_base::{
    FRAME_WORDS, FRAMES, LINE_WORDS, OBJECTS, ObjId, PAGES, PageNo, TABLE_WORDS, WORDS,
};

/// The numbers that there are: those of the objects and those of the pages.
pub const NUMBERS: usize = OBJECTS + PAGES;
/// The numbers that a word of the allocation base has a bit for.
pub const BASE_BITS: usize = 64;
/// The slots of an object.
pub const SLOTS: usize = 2;
/// The words of a slot, in which an object's record stands.
pub const SLOT_WORDS: usize = 64;
/// The lines of a slot.
pub const SLOT_LINES: usize = SLOT_WORDS / LINE_WORDS;
/// The lines of a frame.
pub const FRAME_LINES: usize = FRAME_WORDS / LINE_WORDS;
/// The spares: frames that are given to pages.
pub const SPARES: usize = 32;

/// The format word.
pub const FORMAT_AT: usize = 0;
/// The number of cores.
pub const CORES_AT: usize = 2;
/// The head of the log.
pub const LOG_HEAD_AT: usize = 8;
/// The allocation base of the objects.
pub const OBJECT_BASE_AT: usize = 16;
/// The allocation base of the pages.
pub const PAGE_BASE_AT: usize = OBJECT_BASE_AT + OBJECTS / BASE_BITS;
/// The first word behind the allocation base.
pub const PAGE_BASE_END: usize = PAGE_BASE_AT + PAGES / BASE_BITS;
/// The entries of the log.
pub const LOG_ENTRIES_AT: usize = 32;
/// The tags of the backup frames, by page.
pub const BACKUP_TAGS_AT: usize = LOG_ENTRIES_AT + NUMBERS;
/// The hot words, by spare.
pub const HOT_WORDS_AT: usize = BACKUP_TAGS_AT + PAGES;
/// The tags of the objects' slots.
pub const OBJECT_TAGS_AT: usize = HOT_WORDS_AT + SPARES;
/// The first word behind the tags of the objects' slots.
pub const OBJECT_TAGS_END: usize = OBJECT_TAGS_AT + SLOTS * OBJECTS;
/// The objects' slots.
pub const OBJECT_SLOTS_AT: usize = 1_536;
/// The first spare's frame, behind those of all pages.
pub const FIRST_SPARE_FRAME: usize = 2 * PAGES;

/// The word of a log entry.
pub fn log_entry_at(entry: usize) -> usize
    requires { entry < NUMBERS }
    ensures at { result ≡ places.log_entry_at entry }
    ensures in_table { result < TABLE_WORDS }
{
    LOG_ENTRIES_AT + entry
}

/// The word with the tag of a page's backup frame.
pub fn backup_tag_at(page: PageNo) -> usize
    requires { page < PAGES }
    ensures at { result ≡ places.backup_tag_at page }
    ensures in_table { result < TABLE_WORDS }
{
    BACKUP_TAGS_AT + page as usize
}

/// The hot word of a spare.
pub fn hot_word_at(spare: u8) -> usize
    requires { spare < SPARES }
    ensures at { result ≡ places.hot_word_at spare }
    ensures in_table { result < TABLE_WORDS }
{
    HOT_WORDS_AT + spare as usize
}

/// The word with the tag of an object's slot.
pub fn object_tag_at(id: ObjId, slot: u8) -> usize
    requires object { id < OBJECTS }
    requires slot { slot < SLOTS }
    ensures at { result ≡ places.object_tag_at id slot }
    ensures in_table { result < TABLE_WORDS }
{
    OBJECT_TAGS_AT + SLOTS * id as usize + slot as usize
}

/// Where the words of an object's slot begin.
pub fn object_slot_at(id: ObjId, slot: u8) -> usize
    requires object { id < OBJECTS }
    requires slot { slot < SLOTS }
    ensures at { result ≡ places.object_slot_at id slot }
    ensures in_table { result + SLOT_WORDS ≤ TABLE_WORDS }
{
    OBJECT_SLOTS_AT + SLOT_WORDS * (SLOTS * id as usize + slot as usize)
}

/// The frame that a page's content is loaded from and stored to.
pub fn runtime_frame(page: PageNo) -> usize
    requires { page < PAGES }
    ensures frame { result ≡ places.runtime_frame page }
    ensures in_memory { result < FRAMES }
{
    2 * page as usize
}

/// The frame of a page in which its content of a committed version is kept.
pub fn backup_frame(page: PageNo) -> usize
    requires { page < PAGES }
    ensures frame { result ≡ places.backup_frame page }
    ensures in_memory { result < FRAMES }
{
    2 * page as usize + 1
}

/// The frame of a spare.
pub fn spare_frame(spare: u8) -> usize
    requires { spare < SPARES }
    ensures frame { result ≡ places.spare_frame spare }
    ensures in_memory { result < FRAMES }
{
    FIRST_SPARE_FRAME + spare as usize
}

/// Where the words of a frame begin.
pub fn frame_at(frame: usize) -> usize
    requires { frame < FRAMES }
    ensures at { result ≡ places.frame_at frame }
    ensures in_memory { result + FRAME_WORDS ≤ WORDS }
{
    TABLE_WORDS + FRAME_WORDS * frame
}

/// Where the line of a word begins.
pub fn line_at(word: usize) -> usize
    ensures { result ≡ places.line_at word }
{
    word / LINE_WORDS * LINE_WORDS
}

/// Whether a word of the table has no use. It is 0.
pub fn is_unused(word: usize) -> bool
    ensures { IsTrue result ↔ IsUnused word }
{
    CORES_AT < word && word < LOG_HEAD_AT
        || LOG_HEAD_AT < word && word < OBJECT_BASE_AT
        || PAGE_BASE_END <= word && word < LOG_ENTRIES_AT
        || OBJECT_TAGS_END <= word && word < OBJECT_SLOTS_AT
}
