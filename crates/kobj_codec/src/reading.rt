//! From a record to its object.

ghost use Rattle.std.specs.Prelude.{◌≡◌, Some, IfSome, slice_index};
ghost use Rattle.kobj_codec.specs.declared.obj.Obj.{Obj};
ghost use Rattle.kobj_codec.specs.Objects.{IsObj};
ghost use Rattle.kobj_codec.specs.Records.{IsRecord};

use crate::connection::read_connection;
use crate::group::read_group;
use crate::kinds::{
    CONNECTION_KIND, GROUP_KIND, MEMORY_KIND, NOTIFICATION_KIND, RING_KIND, SCHEDULER_KIND,
    SPACE_KIND, THREAD_KIND,
};
use crate::memory::read_memory;
use crate::notification::read_notification;
use crate::obj::Obj;
use crate::ring::read_ring;
use crate::scheduler::read_scheduler;
use crate::space::read_space;
use crate::thread::read_thread;
use crate::writing::encode;
use pmem_layout::SLOT_WORDS;

/// The object of a record. It is None exactly where the words are no object's record.
pub fn decode(words: &[u64; SLOT_WORDS]) -> Option<Obj>
    ensures found { IfSome result (λ obj. IsObj obj × IsRecord (slice_index words.now) obj) }
    ensures only { (obj : Obj) → IsObj obj → IsRecord (slice_index words.now) obj → result ≡ Some obj }
{
    let obj = read(words)?;
    // What is read counts where it is written as these words again.
    if obj.is_in_range() && encode(&obj) == *words {
        Some(obj)
    } else {
        None
    }
}

/// The object of words that are a record.
fn read(words: &[u64; SLOT_WORDS]) -> Option<Obj>
    ensures { (obj : Obj) → IsObj obj → IsRecord (slice_index words.now) obj → result ≡ Some obj }
{
    let [kind, _, _, _, _, _, _, _] = words[0].to_le_bytes();
    match kind {
        GROUP_KIND => Some(Obj::Group(read_group(words))),
        THREAD_KIND => Some(Obj::Thread(read_thread(words))),
        SPACE_KIND => Some(Obj::Space(read_space(words))),
        MEMORY_KIND => Some(Obj::Memory(read_memory(words))),
        CONNECTION_KIND => Some(Obj::Connection(read_connection(words))),
        NOTIFICATION_KIND => Some(Obj::Notification(read_notification(words))),
        RING_KIND => Some(Obj::Ring(read_ring(words))),
        SCHEDULER_KIND => Some(Obj::Scheduler(read_scheduler(words))),
        _ => None,
    }
}
