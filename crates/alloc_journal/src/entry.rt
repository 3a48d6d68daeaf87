//! Entries of the log by the index of their number.

ghost use Rattle.std.specs.Prelude.{◌≡◌, ◌<◌, ◌≤◌, IfSome, IsNone};
ghost use Rattle.alloc_journal.specs.Format as format;
ghost use Rattle.alloc_journal.specs.Says.{Says};

use pmem_layout::{EMPTY_WORD, LogEntry, NUMBERS, Number};

/// What an entry says of a number.
#[derive(Clone, Copy)]
pub struct Change {
    /// The number's index among all.
    pub number: usize,
    /// Whether it is in use from then on.
    pub comes: bool,
}

/// The word of an entry.
pub fn entry_word(number: usize, comes: bool) -> u64
    requires { number < NUMBERS }
    ensures number { format.number_of result ≡ number }
    ensures comes { format.comes result ≡ comes }
{
    match Number::from_index(number) {
        Some(number) => LogEntry { number, comes }.to_word(),
        None => EMPTY_WORD,
    }
}

/// What the word of an entry says. It is None where its number is out of range.
pub fn change_of(word: u64) -> Option<Change>
    ensures found { IfSome result (λ change. Says change word) }
    ensures in_range { IfSome result (λ change. change.number < NUMBERS) }
    ensures none { IsNone result → NUMBERS ≤ format.number_of word }
{
    let entry = LogEntry::from_word(word)?;
    Some(Change {
        number: entry.number.index(),
        comes: entry.comes,
    })
}
