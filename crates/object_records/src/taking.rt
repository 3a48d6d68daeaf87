//! The record of an object.

ghost use Rattle.std.specs.Prelude.{◌≡◌, ◌<◌, IsSome, IfSome, length};
ghost use Rattle.link_lists.specs.Lists.{list_at};
ghost use Rattle.kobj_codec.specs.Objects.{IsList};
ghost use Rattle.object_records.specs.Records as records;
ghost use Rattle.object_records.specs.Records.{threads_of};

use crate::copies::copy_of;
use arrayvec::ArrayVec;
use kobj_codec::{ConnectionRec, NotificationRec, Obj, Scheduler};
use kobj_table::{Objects, Slot};
use mem_space::{Memory, Space};
use sls_base::{OBJECTS, ObjId};

/// The record of the object of a number, with its list. It is None exactly where nothing stands at the number.
pub fn record_at(objects: &Objects, id: ObjId) -> Option<Obj>
    ensures record { result ≡ records.record_at objects.now id }
    ensures list { IfSome result (λ obj. IsList (threads_of obj)) }
    ensures range { IsSome result → id < OBJECTS }
{
    match objects.slot(id)? {
        Slot::Empty => None,
        Slot::Group(group) => Some(Obj::Group(*group)),
        Slot::Thread(thread) => Some(Obj::Thread(*thread)),
        Slot::Space(space) => Some(Obj::Space(Space {
            regions: copy_of(&space.regions),
        })),
        Slot::Memory(memory) => Some(Obj::Memory(Memory {
            pages: copy_of(&memory.pages),
        })),
        Slot::Connection(connection) => Some(Obj::Connection(ConnectionRec {
            server: connection.server,
            client: connection.client,
            clients: list_of(objects, id),
        })),
        Slot::Notification(note) => Some(Obj::Notification(NotificationRec {
            count: note.count,
            waiters: list_of(objects, id),
        })),
        Slot::Ring(ring) => Some(Obj::Ring(*ring)),
        Slot::Scheduler(cores) => Some(Obj::Scheduler(Scheduler {
            cores: cores.cores,
            running: cores.running,
            queue: list_of(objects, id),
        })),
    }
}

/// The threads in the list of a number, in order.
fn list_of(objects: &Objects, list: ObjId) -> ArrayVec<ObjId, OBJECTS>
    requires { list < OBJECTS }
    ensures threads { result.items ≡ list_at objects.now.links list }
    ensures list { IsList result.items }
{
    let mut threads = ArrayVec::new();
    let mut next = objects.first(list);
    while let Some(thread) = next {
        threads.push(thread);
        next = objects.next(thread);
    }
    threads
}
