//! Laws. Each of these functions does nothing: its contract is the law.

ghost use Rattle.std.specs.Prelude.{◌≡◌, ◌≢◌, ◌+◌, ◌*◌, ◌/◌, ◌%◌, ◌^◌, ◌<◌, ◌≤◌, ◌⊎◌, ◌↔◌, ℕ, true, None, IsNone, codes};
ghost use Rattle.std.specs.Int.{w64, from_le_bytes, bit_at};
ghost use Rattle.pmem_model.specs.Words.{Word};
ghost use Rattle.pmem_model.specs.Events.{IsBurst, IsCalm, IsFenced, Left};
ghost use Rattle.pmem_layout.specs.declared.tag.Tag.{Tag};
ghost use Rattle.pmem_layout.specs.declared.tag.Tag.TheVariants.{Empty, Of};
ghost use Rattle.pmem_layout.specs.declared.hot.HotWord.{HotWord};
ghost use Rattle.pmem_layout.specs.declared.log.LogEntry.{LogEntry};
ghost use Rattle.pmem_layout.specs.declared.log.LogHead.{LogHead};
ghost use Rattle.pmem_layout.specs.declared.number.Number.{Number};
ghost use Rattle.pmem_layout.specs.declared.number.Number.TheVariants.{Object, Page};
ghost use Rattle.pmem_layout.specs.Places.{log_entry_at, backup_tag_at, hot_word_at, object_tag_at, object_slot_at, frame_at, runtime_frame, backup_frame, spare_frame, line_at, IsUnused};
ghost use Rattle.pmem_layout.specs.Numbers.{IsNumber, index_of, base_at, base_bit, in_base};
ghost use Rattle.pmem_layout.specs.Fields.{tag_word, hot_word, entry_word, head_word, log_count, IsHotWord, IsEntry, IsHead, HasTag, TagUpTo};
ghost use Rattle.pmem_layout.specs.Owners.{Owner, Format, Fixed, Version, Numbers, Objects, Pages, owner};
ghost use Rattle.pmem_layout.specs.Rooms.{StoresOnlyIn, CalmIn, FencedIn, LeftIn, SameIn, with_word, is_other};

use crate::format::{EMPTY_WORD, FORMAT_WORD};
use crate::places::{
    BACKUP_TAGS_AT, BASE_BITS, CORES_AT, FIRST_SPARE_FRAME, FORMAT_AT, FRAME_LINES, HOT_WORDS_AT,
    LOG_ENTRIES_AT, LOG_HEAD_AT, NUMBERS, OBJECT_BASE_AT, OBJECT_SLOTS_AT, OBJECT_TAGS_AT,
    OBJECT_TAGS_END, PAGE_BASE_AT, PAGE_BASE_END, SLOT_LINES, SLOT_WORDS, SLOTS, SPARES,
};
use sls_base::{FRAME_WORDS, FRAMES, LINE_WORDS, OBJECTS, PAGES, TABLE_WORDS, VERSION_AT};

/// The format word is the bytes `TREESLS1`.
pub fn format_bytes()
    ensures { from_le_bytes w64 (codes "TREESLS1") ≡ FORMAT_WORD }
{}

/// Which word each thing begins at.
pub fn first_words()
    ensures format { FORMAT_AT ≡ 0 }
    ensures version { VERSION_AT ≡ 1 }
    ensures cores { CORES_AT ≡ 2 }
    ensures log_head { LOG_HEAD_AT ≡ 8 }
    ensures object_base { OBJECT_BASE_AT ≡ 16 }
    ensures page_base { PAGE_BASE_AT ≡ 18 }
    ensures log_entries { LOG_ENTRIES_AT ≡ 32 }
    ensures backup_tags { BACKUP_TAGS_AT ≡ 672 }
    ensures hot_words { HOT_WORDS_AT ≡ 1184 }
    ensures object_tags { OBJECT_TAGS_AT ≡ 1216 }
    ensures object_slots { OBJECT_SLOTS_AT ≡ 1536 }
    ensures first_spare { FIRST_SPARE_FRAME ≡ 1024 }
{}

/// How many there are of each thing, and how large they are.
pub fn sizes()
    ensures numbers { NUMBERS ≡ 640 }
    ensures base_bits { BASE_BITS ≡ 64 }
    ensures slots { SLOTS ≡ 2 }
    ensures slot_words { SLOT_WORDS ≡ 64 }
    ensures slot_lines { SLOT_LINES * LINE_WORDS ≡ SLOT_WORDS }
    ensures frame_lines { FRAME_LINES * LINE_WORDS ≡ FRAME_WORDS }
    ensures spares { SPARES ≡ 32 }
{}

/// Each thing ends where the next one begins, or where unused words do.
pub fn ends()
    ensures object_base { OBJECT_BASE_AT + OBJECTS / BASE_BITS ≡ PAGE_BASE_AT }
    ensures page_base { PAGE_BASE_AT + PAGES / BASE_BITS ≡ PAGE_BASE_END }
    ensures log_entries { LOG_ENTRIES_AT + NUMBERS ≡ BACKUP_TAGS_AT }
    ensures backup_tags { BACKUP_TAGS_AT + PAGES ≡ HOT_WORDS_AT }
    ensures hot_words { HOT_WORDS_AT + SPARES ≡ OBJECT_TAGS_AT }
    ensures object_tags { OBJECT_TAGS_AT + SLOTS * OBJECTS ≡ OBJECT_TAGS_END }
    ensures object_slots { OBJECT_SLOTS_AT + SLOT_WORDS * (SLOTS * OBJECTS) ≡ TABLE_WORDS }
    ensures page_frames { 2 * PAGES ≡ FIRST_SPARE_FRAME }
    ensures spare_frames { FIRST_SPARE_FRAME + SPARES ≡ FRAMES }
{}

/// What the empty word tells where a tag, a hot word or the head of the log stands.
pub fn empty_word()
    ensures tag { tag_word Empty ≡ EMPTY_WORD }
    ensures hot_word { (hot : HotWord) → hot_word hot ≢ EMPTY_WORD }
    ensures log_head { (head : LogHead) → IsHead head → head_word head ≢ EMPTY_WORD }
{}

/// A word is that of one value alone.
pub fn words_are_of_one()
    ensures tags { (a b : Tag) → tag_word a ≡ tag_word b → a ≡ b }
    ensures hot_words { (a b : HotWord) → IsHotWord a → IsHotWord b → hot_word a ≡ hot_word b → a ≡ b }
    ensures entries { (a b : LogEntry) → IsEntry a → IsEntry b → entry_word a ≡ entry_word b → a ≡ b }
    ensures heads { (a b : LogHead) → IsHead a → IsHead b → head_word a ≡ head_word b → a ≡ b }
{}

/// What tags and heads tell at a version.
pub fn at_a_version()
    ensures has_tag { (tag : Tag) (version : ℕ) → HasTag (tag_word tag) version ↔ (tag ≡ Of version) }
    ensures tag_up_to { (tag : Tag) (version : ℕ) → TagUpTo (tag_word tag) version
        ↔ ((tagged : ℕ) × (tag ≡ Of tagged) × (tagged ≤ version)) }
    ensures log { (head : LogHead) → IsHead head → log_count (head_word head) head.version ≡ head.entries }
    ensures other_log { (head : LogHead) (version : ℕ) → IsHead head → head.version ≢ version
        → log_count (head_word head) version ≡ 0 }
    ensures no_log { (version : ℕ) → log_count EMPTY_WORD version ≡ 0 }
{}

/// Whose each place is.
pub fn owners()
    ensures format { owner FORMAT_AT ≡ Format }
    ensures version { owner VERSION_AT ≡ Version }
    ensures cores { owner CORES_AT ≡ Fixed }
    ensures unused { (word : ℕ) → IsUnused word → owner word ≡ Fixed }
    ensures log_head { owner LOG_HEAD_AT ≡ Numbers }
    ensures base { (index : ℕ) → index < NUMBERS → owner (base_at index) ≡ Numbers }
    ensures log_entry { (entry : ℕ) → entry < NUMBERS → owner (log_entry_at entry) ≡ Numbers }
    ensures backup_tag { (page : ℕ) → page < PAGES → owner (backup_tag_at page) ≡ Pages }
    ensures hot_word { (spare : ℕ) → spare < SPARES → owner (hot_word_at spare) ≡ Pages }
    ensures object_tag { (id slot : ℕ) → id < OBJECTS → slot < SLOTS → owner (object_tag_at id slot) ≡ Objects }
    ensures object_slot { (id slot j : ℕ) → id < OBJECTS → slot < SLOTS → j < SLOT_WORDS
        → owner (object_slot_at id slot + j) ≡ Objects }
    ensures frame { (frame j : ℕ) → owner (frame_at frame + j) ≡ Pages }
{}

/// Which places an owner has. A word has one owner, so a place is used by that owner alone.
pub fn places_of_owners()
    ensures format { (word : ℕ) → owner word ≡ Format → word ≡ FORMAT_AT }
    ensures version { (word : ℕ) → owner word ≡ Version → word ≡ VERSION_AT }
    ensures fixed { (word : ℕ) → owner word ≡ Fixed → (word ≡ CORES_AT) ⊎ IsUnused word }
    ensures numbers { (word : ℕ) → owner word ≡ Numbers → (word ≡ LOG_HEAD_AT)
        ⊎ (((index : ℕ) × (index < NUMBERS) × (word ≡ base_at index))
        ⊎ ((entry : ℕ) × (entry < NUMBERS) × (word ≡ log_entry_at entry))) }
    ensures objects { (word : ℕ) → owner word ≡ Objects
        → ((id slot : ℕ) × (id < OBJECTS) × (slot < SLOTS) × (word ≡ object_tag_at id slot))
        ⊎ ((id slot j : ℕ) × (id < OBJECTS) × (slot < SLOTS) × (j < SLOT_WORDS) × (word ≡ object_slot_at id slot + j)) }
    ensures pages { (word : ℕ) → owner word ≡ Pages → ((page : ℕ) × (page < PAGES) × (word ≡ backup_tag_at page))
        ⊎ (((spare : ℕ) × (spare < SPARES) × (word ≡ hot_word_at spare))
        ⊎ ((frame j : ℕ) × (j < FRAME_WORDS) × (word ≡ frame_at frame + j))) }
{}

/// The bits of the allocation base: those of the objects, and those of the pages. No two numbers have one.
pub fn base_bits()
    ensures index { (a b : Number) → IsNumber a → IsNumber b → index_of a ≡ index_of b → a ≡ b }
    ensures object { (id : ℕ) → (base_at (index_of (Object id)) ≡ OBJECT_BASE_AT + id / 64)
        × (base_bit (index_of (Object id)) ≡ id % 64) }
    ensures page { (page : ℕ) → (base_at (index_of (Page page)) ≡ PAGE_BASE_AT + page / 64)
        × (base_bit (index_of (Page page)) ≡ page % 64) }
    ensures apart { (a b : ℕ) → base_at a ≡ base_at b → base_bit a ≡ base_bit b → a ≡ b }
{}

/// The numbers in use after one word of the base became another: the bits of that word are the new ones, and a number
/// whose bit is as before is in use as before.
pub fn base_with_word()
    ensures set { (words : ℕ → ℕ) (index value : ℕ) → in_base (with_word words (base_at index) value) index
        ≡ bit_at value (base_bit index) }
    ensures others { (words : ℕ → ℕ) (index value other : ℕ) → other ≢ index
        → ((bit : ℕ) → bit < BASE_BITS → bit ≢ base_bit index → bit_at value bit ≡ bit_at (words (base_at index)) bit)
        → in_base (with_word words (base_at index) value) other ≡ in_base words other }
{}

/// The log's words and the base's are apart.
pub fn numbers_are_apart()
    ensures head_base { (index : ℕ) → LOG_HEAD_AT ≢ base_at index }
    ensures head_entry { (entry : ℕ) → LOG_HEAD_AT ≢ log_entry_at entry }
    ensures base_entry { (index entry : ℕ) → index < NUMBERS → base_at index ≢ log_entry_at entry }
    ensures entries { (a b : ℕ) → log_entry_at a ≡ log_entry_at b → a ≡ b }
{}

/// The words of two slots are apart, and so are their tags, and tags and slots.
pub fn slots_are_apart()
    ensures tags { (a b s t : ℕ) → s < SLOTS → t < SLOTS
        → object_tag_at a s ≡ object_tag_at b t → (a ≡ b) × (s ≡ t) }
    ensures slots { (a b s t i j : ℕ) → s < SLOTS → t < SLOTS → i < SLOT_WORDS → j < SLOT_WORDS
        → object_slot_at a s + i ≡ object_slot_at b t + j → (a ≡ b) × (s ≡ t) × (i ≡ j) }
    ensures tag_slot { (a b s t j : ℕ) → a < OBJECTS → s < SLOTS → object_tag_at a s ≢ object_slot_at b t + j }
    ensures lines { (id slot : ℕ) → object_slot_at id slot % LINE_WORDS ≡ 0 }
{}

/// The words of two frames are apart, and so are the pages' tags, the hot words, and these and the frames.
pub fn frames_are_apart()
    ensures frames { (f g i j : ℕ) → i < FRAME_WORDS → j < FRAME_WORDS
        → frame_at f + i ≡ frame_at g + j → (f ≡ g) × (i ≡ j) }
    ensures backup_tags { (a b : ℕ) → backup_tag_at a ≡ backup_tag_at b → a ≡ b }
    ensures hot_words { (a b : ℕ) → hot_word_at a ≡ hot_word_at b → a ≡ b }
    ensures backup_tag_hot_word { (page spare : ℕ) → page < PAGES → backup_tag_at page ≢ hot_word_at spare }
    ensures backup_tag_frame { (page frame j : ℕ) → page < PAGES → backup_tag_at page ≢ frame_at frame + j }
    ensures hot_word_frame { (spare frame j : ℕ) → spare < SPARES → hot_word_at spare ≢ frame_at frame + j }
    ensures lines { (frame : ℕ) → frame_at frame % LINE_WORDS ≡ 0 }
{}

/// A frame is a page's runtime frame, its backup frame or a spare's, and of one alone.
pub fn frames_are_of_one()
    ensures each { (frame : ℕ) → frame < FRAMES → ((page : ℕ) × (page < PAGES) × (frame ≡ runtime_frame page))
        ⊎ (((page : ℕ) × (page < PAGES) × (frame ≡ backup_frame page))
        ⊎ ((spare : ℕ) × (spare < SPARES) × (frame ≡ spare_frame spare))) }
    ensures runtimes { (a b : ℕ) → runtime_frame a ≡ runtime_frame b → a ≡ b }
    ensures backups { (a b : ℕ) → backup_frame a ≡ backup_frame b → a ≡ b }
    ensures spares { (a b : ℕ) → spare_frame a ≡ spare_frame b → a ≡ b }
    ensures runtime_backup { (a b : ℕ) → runtime_frame a ≢ backup_frame b }
    ensures runtime_spare { (page spare : ℕ) → page < PAGES → runtime_frame page ≢ spare_frame spare }
    ensures backup_spare { (page spare : ℕ) → page < PAGES → backup_frame page ≢ spare_frame spare }
{}

/// The line of a word has it, and begins at a multiple of its length.
pub fn lines()
    ensures begins { (word : ℕ) → line_at word % LINE_WORDS ≡ 0 }
    ensures has { (word : ℕ) → (line_at word ≤ word) × (word < line_at word + LINE_WORDS) }
{}

/// What stores in the words of one owner alone is calm at those of each other, and the owners of a burst's words tell
/// where it stores.
pub fn owners_are_apart()
    ensures spared { (o p : Owner) (f g : ℕ → Word) → StoresOnlyIn o f g → is_other p o ≡ true → CalmIn p f g }
    ensures other { (o p : Owner) → is_other p o ≡ true → p ≢ o }
    ensures burst { (o : Owner) (f g : ℕ → Word) (at n : ℕ) (value : ℕ → ℕ) → IsBurst f g at n value
        → ((j : ℕ) → j < n → owner (at + j) ≡ o) → StoresOnlyIn o f g }
    ensures calm { (o : Owner) (f g : ℕ → Word) → IsCalm f g → StoresOnlyIn o f g }
    ensures both { (o : Owner) (f g h : ℕ → Word) → StoresOnlyIn o f g → StoresOnlyIn o g h → StoresOnlyIn o f h }
    ensures word { (o p : Owner) (words : ℕ → ℕ) (at value : ℕ) → owner at ≡ o → is_other p o ≡ true
        → SameIn p words (with_word words at value) }
{}

/// What is so of all words is so of those of each owner.
pub fn owners_take_part()
    ensures calm { (o : Owner) (f g : ℕ → Word) → IsCalm f g → CalmIn o f g }
    ensures fenced { (o : Owner) (core : ℕ) (f g : ℕ → Word) → IsFenced core f g → FencedIn o core f g }
    ensures left { (o : Owner) (f : ℕ → Word) (left : ℕ → ℕ) → ((i : ℕ) → Left (f i) (left i)) → LeftIn o f left }
    ensures fence_is_calm { (o : Owner) (core : ℕ) (f g : ℕ → Word) → FencedIn o core f g → CalmIn o f g }
    ensures left_before { (o : Owner) (f g : ℕ → Word) (left : ℕ → ℕ) → CalmIn o f g → LeftIn o g left
        → LeftIn o f left }
{}
