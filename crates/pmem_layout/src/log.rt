//! The log's entries and its head.

ghost use Rattle.std.specs.Prelude.{◌≡◌, ◌*◌, ◌<◌, ◌≤◌, ◌^◌, ◌↔◌, Some, IfSome, IsNone};

use crate::field::bits;
use crate::format::EMPTY_WORD;
use crate::number::Number;
use crate::places::NUMBERS;
use sls_base::Version;

/// The bits below the version in the head.
const COUNT_BITS: u32 = 16;

/// An entry of the log: a number that comes into use, or goes out of it.
#[derive(Clone, Copy, PartialEq, Eq, Debug)]
pub struct LogEntry {
    pub number: Number,
    pub comes: bool,
}

/// The head of a log: the version at which its entries count, and how many there are.
#[derive(Clone, Copy, PartialEq, Eq, Debug)]
pub struct LogHead {
    pub version: Version,
    pub entries: u16,
}

impl LogEntry {
    ghost use Rattle.pmem_layout.specs.declared.log.LogEntry.{LogEntry};
    ghost use Rattle.pmem_layout.specs.Fields.{entry_word, IsEntry};

    /// The word of an entry.
    pub fn to_word(self) -> u64
        requires { IsEntry self }
        ensures { result ≡ entry_word self }
    {
        self.number.index() as u64 * 2 + u64::from(self.comes)
    }

    /// The entry of a word. It is None exactly where its number is out of range.
    pub fn from_word(word: u64) -> Option<LogEntry>
        ensures found { IfSome result (λ entry. IsEntry entry × (entry_word entry ≡ word)) }
        ensures only { (entry : LogEntry) → IsEntry entry → entry_word entry ≡ word → result ≡ Some entry }
        ensures none { IsNone result ↔ (2 * NUMBERS ≤ word) }
    {
        Some(LogEntry {
            number: Number::from_index((word / 2) as usize)?,
            comes: word % 2 == 1,
        })
    }
}

impl LogHead {
    ghost use Rattle.pmem_layout.specs.declared.log.LogHead.{LogHead};
    ghost use Rattle.pmem_layout.specs.Fields.{head_word, IsHead};

    /// The word of a head.
    pub fn to_word(self) -> u64
        requires { IsHead self }
        ensures { result ≡ head_word self }
    {
        (self.version << COUNT_BITS) + u64::from(self.entries)
    }

    /// The head of a word. It is None exactly for the empty word, which tells of no log.
    pub fn from_word(word: u64) -> Option<LogHead>
        ensures found { IfSome result (λ head. IsHead head × (head_word head ≡ word)) }
        ensures only { (head : LogHead) → IsHead head → head_word head ≡ word → result ≡ Some head }
        ensures none { IsNone result ↔ (word ≡ EMPTY_WORD) }
    {
        if word == EMPTY_WORD {
            return None;
        }
        Some(LogHead {
            version: word >> COUNT_BITS,
            entries: bits(word, 0, COUNT_BITS) as u16,
        })
    }
}
