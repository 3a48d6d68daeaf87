//! Calls that make objects.

ghost use Rattle.std.specs.Prelude.{◌≡◌, ◌≢◌, ◌<◌, false, [], Some, IfSome};
ghost use Rattle.link_lists.specs.Lists.{IsFree};
ghost use Rattle.plain_state.specs.declared.calls.Call.{Call};
ghost use Rattle.plain_state.specs.declared.calls.Refusal.{Refusal};
ghost use Rattle.plain_state.specs.Objects.{Object};
ghost use Rattle.plain_state.specs.Worlds.{World};
ghost use Rattle.plain_state.specs.CallRefusals.{no_room};
ghost use Rattle.sls_base.specs.declared.thread.Ring.{Ring};
ghost use Rattle.kobj_table.specs.Objects.{Rest, state_of};
ghost use Rattle.plain_state.specs.CallEffects as plain;
ghost use Rattle.kobj_table.specs.Slots.{object_of};
ghost use Rattle.object_records.specs.Untold.{IsUntoldKept};
ghost use Rattle.call_readings.specs.Kernel.{world_of, IsCounted};
ghost use Rattle.kernel_calls.specs.Kernel.{Allowed, Held};
ghost use Rattle.kernel_calls.specs.Callers.{IsCaller};
ghost use Rattle.kernel_calls.specs.Does.{DoesCall, Keeps, KeepsCall, Makes};

use crate::done::Done;
use crate::runtime::Runtime;
use call_readings::id_named;
use cap_group::{Cap, Group};
use ipc_note::{Connection, Notification};
use kobj_table::{Objects, Slot};
use mem_space::Space;
use plain_state::{ANSWER, arg};
use sls_base::{ALL_RIGHTS, OBJECTS, ObjId, REGISTERS, Thread, ThreadState};

impl Runtime {
    /// Makes an object, to which the caller gets a capability with all rights. It is one that a call can make: no ring,
    /// and no memory object but of fresh pages.
    pub(crate) fn make(&mut self, me: ObjId, thread: &Thread, slot: Slot) -> Done
        requires ring { (ring : Ring) → slot ≢ Slot.Ring ring }
        requires untold { IsUntoldKept Slot.Empty slot }
        ensures makes { (w : World) (rest : Rest) (object : Object)
            → IsCounted self.old.numbers (world_of self.old.objects rest w)
            → no_room (world_of self.old.objects rest w) thread.now Refusal.NoSlot ≡ false
            → no_room (world_of self.old.objects rest w) thread.now Refusal.NoObjects ≡ false
            → object_of rest.content slot [] ≡ Some object → Held self.old
            → Makes self.old self.new rest w thread.now object result }
        ensures keeps { Held self.old → IsCaller self.old.objects me thread.now → Keeps self.old self.new me result }
        ensures fresh { Held self.old → IsCaller self.old.objects me thread.now
            → IfSome self.new.made (λ id. (id < OBJECTS) × (id ≢ me) × IsFree self.new.objects.links id) }
    {
        self.made = None;
        let (Some(id), Some(mut group)) = (
            self.numbers.least_free_object(),
            self.objects.group(thread.group),
        ) else {
            return Done::answers(thread, 0);
        };
        let Some(free) = group.lowest_free() else {
            return Done::answers(thread, 0);
        };
        group.set(
            free,
            Cap {
                object: id,
                rights: ALL_RIGHTS,
            },
        );
        self.objects.put(id, slot);
        self.objects.put(thread.group, Slot::Group(group));
        self.numbers.take_object(id);
        self.made = Some(id);
        Done::answers(thread, u32::from(free))
    }

    /// Makes an empty group.
    pub(crate) fn group_new(&mut self, me: ObjId, thread: &Thread) -> Done
        ensures does { DoesCall self.old self.new me thread.now Call.GroupNew result }
        ensures keeps { KeepsCall self.old self.new me thread.now Call.GroupNew result }
    {
        plain_laws::calls::unrefused_call_meets_all();
        self.make(me, thread, Slot::Group(Group::new()))
    }

    /// Makes an empty space.
    pub(crate) fn space_new(&mut self, me: ObjId, thread: &Thread) -> Done
        ensures does { DoesCall self.old self.new me thread.now Call.SpaceNew result }
        ensures keeps { KeepsCall self.old self.new me thread.now Call.SpaceNew result }
    {
        plain_laws::calls::unrefused_call_meets_all();
        self.make(me, thread, Slot::Space(Space::new()))
    }

    /// Makes a notification that nobody has signalled.
    pub(crate) fn note_new(&mut self, me: ObjId, thread: &Thread) -> Done
        ensures does { DoesCall self.old self.new me thread.now Call.NoteNew result }
        ensures keeps { KeepsCall self.old self.new me thread.now Call.NoteNew result }
    {
        plain_laws::calls::unrefused_call_meets_all();
        self.make(me, thread, Slot::Notification(Notification { count: 0 }))
    }

    /// Makes a connection whose server is the caller.
    pub(crate) fn conn_new(&mut self, me: ObjId, thread: &Thread) -> Done
        ensures does { DoesCall self.old self.new me thread.now Call.ConnNew result }
        ensures keeps { KeepsCall self.old self.new me thread.now Call.ConnNew result }
    {
        plain_laws::calls::unrefused_call_meets_all();
        let connection = Connection {
            server: me,
            client: None,
        };
        self.make(me, thread, Slot::Connection(connection))
    }

    /// Makes a thread that is Ready, at the end of the run queue.
    pub(crate) fn thread_new(&mut self, me: ObjId, thread: &Thread) -> Done
        requires { Allowed self.old me thread.now Call.ThreadNew }
        ensures does { DoesCall self.old self.new me thread.now Call.ThreadNew result }
        ensures keeps { Keeps self.old self.new me result }
    {
        plain_laws::calls::unrefused_call_meets_all();
        kobj_table::lists_alone();
        let new = new_thread(&self.objects, thread);
        let done = self.make(me, thread, Slot::Thread(new));
        if let Some(id) = self.made {
            self.objects.enqueue(id);
        }
        done
    }
}

/// The thread that a call makes: Ready, with a value in x10.
#[tactic(auto, unfolding(plain_state::specs::States::zero_registers))]
fn new_thread(objects: &Objects, thread: &Thread) -> Thread
    ensures { (rest : Rest) → result ≡ plain.new_thread (state_of objects.now rest) thread.now }
{
    let mut x = [0; REGISTERS];
    x[ANSWER] = arg(thread, 3);
    Thread {
        group: id_named(objects, thread, 0),
        space: id_named(objects, thread, 1),
        state: ThreadState::Ready,
        pc: arg(thread, 2),
        x,
    }
}
