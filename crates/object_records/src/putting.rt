//! An object back from its record.

ghost use Rattle.std.specs.Prelude.{◌≡◌, ◌≢◌, ◌↔◌, ℕ, ◌<◌, true, All, [], IsTrue, Some};
ghost use Rattle.sls_base.specs.declared.fixed.TheConstants.{SCHEDULER};
ghost use Rattle.link_lists.specs.Lists.{list_at, IsFree};
ghost use Rattle.kobj_table.specs.Slots.{is_scheduler};
ghost use Rattle.kobj_table.specs.Objects.{slot_at, HasNoStrays};
ghost use Rattle.kobj_codec.specs.Objects.{IsList};
ghost use Rattle.object_records.specs.Records as records;

use crate::copies::copy_of;
use ipc_note::{Connection, Notification};
use kobj_codec::Obj;
use kobj_table::{Cores, Objects, Slot};
use mem_space::{Memory, Space};
use sls_base::{OBJECTS, ObjId};

/// Whether no thread of a record's list is in a list of the table, so that the record may be put back.
pub fn has_free_threads(objects: &Objects, obj: &Obj) -> bool
    requires { IsList (records.threads_of obj.now) }
    ensures { IsTrue result ↔ All (IsFree objects.now.links) (records.threads_of obj.now) }
{
    for thread in threads_of(obj) {
        if objects.links.is_linked(*thread as usize) {
            return false;
        }
    }
    true
}

/// Puts the object of a record at a number, in the place of what stood there, and its threads in the list of that
/// number.
pub fn put_back(objects: &mut Objects, id: ObjId, obj: &Obj)
    requires id { id < OBJECTS }
    requires list { IsList (records.threads_of obj.now) }
    requires empty { list_at objects.old.links id ≡ [] }
    requires free { All (IsFree objects.old.links) (records.threads_of obj.now) }
    ensures record { records.record_at objects.new id ≡ Some obj.now }
    ensures slot { slot_at objects.new id ≡ records.slot_of obj.now }
    ensures threads { list_at objects.new.links id ≡ records.threads_of obj.now }
    ensures other_slots { (i : ℕ) → i ≢ id → slot_at objects.new i ≡ slot_at objects.old i }
    ensures other_lists { (i : ℕ) → i ≢ id → list_at objects.new.links i ≡ list_at objects.old.links i }
    ensures own { records.HasOwnLists objects.old → records.HasOwnLists objects.new }
    ensures strays { HasNoStrays objects.old → (is_scheduler (records.slot_of obj.now) ≡ true → id ≡ SCHEDULER)
        → HasNoStrays objects.new }
{
    objects.put(id, slot_of(obj));
    for thread in threads_of(obj) {
        objects.links.push_back(id as usize, *thread as usize);
    }
}

/// What stands in the slot of a record's object.
fn slot_of(obj: &Obj) -> Slot
    ensures { result ≡ records.slot_of obj.now }
{
    match obj {
        Obj::Group(group) => Slot::Group(*group),
        Obj::Thread(thread) => Slot::Thread(*thread),
        Obj::Space(space) => Slot::Space(Space {
            regions: copy_of(&space.regions),
        }),
        Obj::Memory(memory) => Slot::Memory(Memory {
            pages: copy_of(&memory.pages),
        }),
        Obj::Connection(connection) => Slot::Connection(Connection {
            server: connection.server,
            client: connection.client,
        }),
        Obj::Notification(note) => Slot::Notification(Notification { count: note.count }),
        Obj::Ring(ring) => Slot::Ring(*ring),
        Obj::Scheduler(scheduler) => Slot::Scheduler(Cores {
            cores: scheduler.cores,
            running: scheduler.running,
        }),
    }
}

/// The threads in the list of a record's object.
fn threads_of(obj: &Obj) -> &[ObjId]
    ensures { result.now ≡ records.threads_of obj.now }
{
    match obj {
        Obj::Connection(connection) => connection.clients.as_slice(),
        Obj::Notification(note) => note.waiters.as_slice(),
        Obj::Scheduler(scheduler) => scheduler.queue.as_slice(),
        _ => &[],
    }
}
