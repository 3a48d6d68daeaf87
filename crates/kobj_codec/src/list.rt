//! Lists of threads in records.

ghost use Rattle.std.specs.Prelude.{◌≡◌, ◌+◌, ◌<◌, ◌≤◌, ◌↔◌, IsTrue, ℕ, List, length, slice_index};
ghost use Rattle.kobj_codec.specs.Objects.{IsList};
ghost use Rattle.kobj_codec.specs.Records as records;

use crate::packing::byte_at;
use arrayvec::ArrayVec;
use pmem_layout::SLOT_WORDS;
use sls_base::{OBJECTS, ObjId};

/// The words of a list: its length, and its numbers.
pub const LIST_WORDS: usize = 1 + OBJECTS / 8;

/// Whether a list has a record.
pub fn is_list(ids: &[ObjId]) -> bool
    requires { length ids.now ≤ OBJECTS }
    ensures { IsTrue result ↔ IsList ids.now }
{
    for (i, id) in ids.iter().enumerate() {
        if usize::from(*id) >= OBJECTS || ids[..i].contains(id) {
            return false;
        }
    }
    true
}

/// Word i of a list.
pub fn list_word(ids: &[ObjId], i: usize) -> u64
    requires { i < SLOT_WORDS }
    ensures { result ≡ records.listed_word ids.now i }
{
    if i == 0 {
        ids.len() as u64
    } else {
        eight_at(ids, 8 * (i - 1))
    }
}

/// Eight numbers of a list from a place on.
fn eight_at(ids: &[ObjId], at: usize) -> u64
    requires { at < 512 }
    ensures { result ≡ records.packed 8 8 (slice_index ids.now) at }
{
    u64::from_le_bytes([
        number_at(ids, at),
        number_at(ids, at + 1),
        number_at(ids, at + 2),
        number_at(ids, at + 3),
        number_at(ids, at + 4),
        number_at(ids, at + 5),
        number_at(ids, at + 6),
        number_at(ids, at + 7),
    ])
}

fn number_at(ids: &[ObjId], at: usize) -> u8
    ensures { result ≡ slice_index ids.now at }
{
    ids.get(at).copied().unwrap_or(0)
}

/// The list whose words begin at a word of the record.
pub fn read_list(words: &[u64; SLOT_WORDS], first: usize) -> ArrayVec<ObjId, OBJECTS>
    requires { first + LIST_WORDS ≤ SLOT_WORDS }
    ensures { (ids : List ℕ) → IsList ids
        → ((i : ℕ) → i < LIST_WORDS → slice_index words.now (i + first) ≡ records.listed_word ids i)
        → result.items ≡ ids }
{
    let count = words[first].min(OBJECTS as u64) as usize;
    let mut ids = ArrayVec::new();
    for j in 0..count {
        ids.push(byte_at(words, first + 1, j));
    }
    ids
}
