//! Laws. Each of these functions does nothing: its contract is the law.

ghost use Rattle.std.specs.Prelude.{◌≡◌, ℕ, ◌+◌, ◌-◌, ◌*◌, ◌^◌, ◌≤◌, ◌↔◌, IsTrue};
ghost use Rattle.sls_base.specs.Rights.{HasRights, has_rights};

use crate::causes::{
    BAD_TARGET, BREAKPOINT, HALTED, ILLEGAL_WORD, LOST_OBJECT, MISALIGNED, NO_ACCESS,
};
use crate::fixed::{
    FIRST_OUTPUT_RING, FIRST_PROGRAM_OBJECT, FIRST_PROGRAM_PAGE, INPUT_RING, LEADER, ROOT_GROUP,
    SCHEDULER,
};
use crate::limits::{
    ADDRESS_PAGES, ADDRESSES, CORE_SLICE, CORES, ENTRY_BYTES, FRAME_WORDS, FRAMES, GROUP_SLOTS,
    INSTRUCTION_BYTES, LAST_VERSION, LINE_WORDS, MEMORY_PAGES, OBJECTS, OUTPUT_CHANNELS,
    PAGE_BYTES, PAGE_WORDS, PAGES, REGISTERS, RING_ENTRIES, SPACE_REGIONS, TABLE_WORDS, VERSION_AT,
    WAITING_INPUTS, WORDS,
};
use crate::rights::{ALL_RIGHTS, EXECUTE, GRANT, READ, REGION_RIGHTS, WRITE};
use crate::texts::{PROGRAM_WORDS, TEXT_BYTES};

/// How many there are of what the kernel counts.
pub fn limits()
    ensures objects { OBJECTS ≡ 128 }
    ensures pages { PAGES ≡ 512 }
    ensures slots { GROUP_SLOTS ≡ 32 }
    ensures regions { SPACE_REGIONS ≡ 16 }
    ensures memory_pages { MEMORY_PAGES ≡ 64 }
    ensures cores { CORES ≡ 8 }
    ensures slice { CORE_SLICE ≡ 16 }
    ensures registers { REGISTERS ≡ 32 }
    ensures version { LAST_VERSION ≡ 2 ^ 48 - 1 }
{}

/// How many channels there are, and how much may wait on them.
pub fn channel_limits()
    ensures outputs { OUTPUT_CHANNELS ≡ 4 }
    ensures ring { RING_ENTRIES ≡ 64 }
    ensures inputs { WAITING_INPUTS ≡ 64 }
    ensures entry { ENTRY_BYTES ≡ 56 }
{}

/// How large pages, addresses and instructions are.
pub fn page_sizes()
    ensures page { PAGE_BYTES ≡ 4096 }
    ensures page_words { PAGE_WORDS ≡ 512 }
    ensures instruction { INSTRUCTION_BYTES ≡ 4 }
    ensures addresses { ADDRESSES ≡ 2 ^ 32 }
    ensures address_pages { ADDRESS_PAGES * PAGE_BYTES ≡ 2 ^ 32 }
{}

/// How large the persistent memory is, and its parts.
pub fn memory_sizes()
    ensures words { WORDS ≡ 558592 }
    ensures table { TABLE_WORDS ≡ 17920 }
    ensures frames { FRAMES ≡ 1056 }
    ensures frame { FRAME_WORDS ≡ 512 }
    ensures line { LINE_WORDS ≡ 8 }
    ensures version { VERSION_AT ≡ 1 }
    ensures whole { WORDS ≡ TABLE_WORDS + FRAMES * FRAME_WORDS }
{}

/// Which objects are always there, and where a program's begin.
pub fn fixed_numbers()
    ensures root { ROOT_GROUP ≡ 0 }
    ensures scheduler { SCHEDULER ≡ 1 }
    ensures leader { LEADER ≡ 0 }
    ensures outputs { FIRST_OUTPUT_RING ≡ 2 }
    ensures input { INPUT_RING ≡ 6 }
    ensures object { FIRST_PROGRAM_OBJECT ≡ 7 }
    ensures page { FIRST_PROGRAM_PAGE ≡ 4 }
{}

/// Which number each cause of a stop has.
pub fn cause_numbers()
    ensures halt { HALTED ≡ 0 }
    ensures illegal { ILLEGAL_WORD ≡ 1 }
    ensures target { BAD_TARGET ≡ 2 }
    ensures misaligned { MISALIGNED ≡ 3 }
    ensures access { NO_ACCESS ≡ 4 }
    ensures breakpoint { BREAKPOINT ≡ 5 }
    ensures lost { LOST_OBJECT ≡ 6 }
{}

/// Which bit each right is, and which rights there are.
pub fn right_bits()
    ensures read { READ ≡ 1 }
    ensures write { WRITE ≡ 2 }
    ensures execute { EXECUTE ≡ 4 }
    ensures grant { GRANT ≡ 8 }
    ensures region { REGION_RIGHTS ≡ READ + WRITE + EXECUTE }
    ensures all { ALL_RIGHTS ≡ REGION_RIGHTS + GRANT }
{}

/// How large a text may be.
pub fn text_limits()
    ensures bytes { TEXT_BYTES ≡ 65536 }
    ensures words { PROGRAM_WORDS ≡ 1024 }
{}

/// What the test on rights says, bit by bit; and that whoever holds rights that there are lacks every other one.
pub fn rights_by_bits()
    ensures by_bits { (held wanted : ℕ) → IsTrue (has_rights held wanted) ↔ HasRights held wanted }
    ensures beyond { (held wanted : ℕ) → held ≤ ALL_RIGHTS → HasRights held wanted → wanted ≤ ALL_RIGHTS }
{}
