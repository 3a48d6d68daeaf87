//! Calls on notifications.

ghost use Rattle.std.specs.Prelude.{◌≡◌, ◌<◌, true};
ghost use Rattle.sls_base.specs.declared.fixed.TheConstants.{SCHEDULER};
ghost use Rattle.sls_base.specs.declared.limits.TheConstants.{OBJECTS};
ghost use Rattle.link_lists.specs.Lists.{IsFree};
ghost use Rattle.kobj_table.specs.Slots.{is_scheduler};
ghost use Rattle.kobj_table.specs.Objects.{slot_at};
ghost use Rattle.plain_state.specs.declared.calls.Call.{Call};
ghost use Rattle.kernel_calls.specs.Does.{DoesCall, KeepsCall};

use crate::done::Done;
use crate::lent::give_back;
use crate::runtime::Runtime;
use call_readings::id_named;
use kobj_table::Slot;
use sls_base::{ObjId, Thread};

impl Runtime {
    /// Makes the first waiter of a notification Ready, or adds one to its count.
    pub(crate) fn signal(&mut self, me: ObjId, thread: &Thread) -> Done
        requires { is_scheduler (slot_at self.old.objects SCHEDULER) ≡ true }
        ensures does { DoesCall self.old self.new me thread.now Call.Signal result }
        ensures keeps { KeepsCall self.old self.new me thread.now Call.Signal result }
    {
        plain_laws::calls::unrefused_call_meets_all();
        kobj_table::lists_alone();
        let id = id_named(&self.objects, thread, 0);
        let Some(mut note) = self.objects.notification(id) else {
            return Done::answers(thread, 0);
        };
        let first = self.objects.first(id);
        let mut caller = *thread;
        let mut waiter = self.objects.thread_or_zeros(first.unwrap_or(me));
        ipc_note::signal(
            &mut note,
            id,
            &mut self.objects.links,
            &mut caller,
            &mut waiter,
        );
        self.objects.put(id, Slot::Notification(note));
        give_back(&mut self.objects, first, waiter);
        Done::of_caller(&caller)
    }

    /// Takes one from the count of a notification, or lets the caller wait on it.
    pub(crate) fn wait(&mut self, me: ObjId, thread: &Thread) -> Done
        requires scheduler { is_scheduler (slot_at self.old.objects SCHEDULER) ≡ true }
        requires me { me < OBJECTS }
        requires free { IsFree self.old.objects.links me }
        ensures does { DoesCall self.old self.new me thread.now Call.Wait result }
        ensures keeps { KeepsCall self.old self.new me thread.now Call.Wait result }
    {
        plain_laws::calls::unrefused_call_meets_all();
        kobj_table::lists_alone();
        let id = id_named(&self.objects, thread, 0);
        let Some(mut note) = self.objects.notification(id) else {
            return Done::answers(thread, 0);
        };
        let mut caller = *thread;
        ipc_note::wait(&mut note, id, &mut self.objects.links, me, &mut caller);
        self.objects.put(id, Slot::Notification(note));
        Done::of_caller(&caller)
    }
}
