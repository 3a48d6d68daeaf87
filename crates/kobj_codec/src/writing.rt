//! From an object to its record.

ghost use Rattle.std.specs.Prelude.{◌≡◌, ◌+◌, ◌<◌, ℕ, List, length, slice_index};
ghost use Rattle.kobj_codec.specs.Objects.{IsObj};
ghost use Rattle.kobj_codec.specs.Records as records;
ghost use Rattle.kobj_codec.specs.Records.{IsRecord};

use crate::connection::{connection_head, connection_word};
use crate::group::group_word;
use crate::kinds::{GROUP_KIND, SPACE_KIND};
use crate::memory::{memory_head, memory_word};
use crate::notification::{notification_head, notification_word};
use crate::obj::Obj;
use crate::ring::{ring_head, ring_word};
use crate::scheduler::{scheduler_head, scheduler_word};
use crate::space::space_word;
use crate::thread::{thread_head, thread_word};
use pmem_layout::{EMPTY_WORD, SLOT_WORDS};

/// The record of an object.
pub fn encode(obj: &Obj) -> [u64; SLOT_WORDS]
    requires { IsObj obj.now }
    ensures record { IsRecord (slice_index result) obj.now }
    // No other words are its record.
    ensures only { (words : List ℕ) → length words ≡ SLOT_WORDS → IsRecord (slice_index words) obj.now
        → words ≡ result }
{
    let mut words = empty_words();
    words[0] = head_word(obj);
    for i in 0..SLOT_WORDS - 1 {
        words[i + 1] = word_behind(obj, i);
    }
    words
}

fn empty_words() -> [u64; SLOT_WORDS]
    ensures { length result ≡ SLOT_WORDS }
{
    [EMPTY_WORD; SLOT_WORDS]
}

fn head_word(obj: &Obj) -> u64
    requires { IsObj obj.now }
    ensures { result ≡ records.head_word obj.now }
{
    match obj {
        Obj::Group(_) => u64::from(GROUP_KIND),
        Obj::Thread(thread) => thread_head(thread),
        Obj::Space(_) => u64::from(SPACE_KIND),
        Obj::Memory(memory) => memory_head(memory),
        Obj::Connection(connection) => connection_head(connection),
        Obj::Notification(notification) => notification_head(notification),
        Obj::Ring(ring) => ring_head(ring),
        Obj::Scheduler(scheduler) => scheduler_head(scheduler),
    }
}

/// Word i + 1 of an object's record.
fn word_behind(obj: &Obj, i: usize) -> u64
    requires obj { IsObj obj.now }
    requires in_slot { i + 1 < SLOT_WORDS }
    ensures { result ≡ records.word_behind obj.now i }
{
    match obj {
        Obj::Group(group) => group_word(group, i),
        Obj::Thread(thread) => thread_word(thread, i),
        Obj::Space(space) => space_word(space, i),
        Obj::Memory(memory) => memory_word(memory, i),
        Obj::Connection(connection) => connection_word(connection, i),
        Obj::Notification(notification) => notification_word(notification, i),
        Obj::Ring(ring) => ring_word(ring, i),
        Obj::Scheduler(scheduler) => scheduler_word(scheduler, i),
    }
}
