//! Calls on groups.

ghost use Rattle.std.specs.Prelude.{◌<◌};
ghost use Rattle.sls_base.specs.declared.limits.TheConstants.{GROUP_SLOTS};
ghost use Rattle.plain_state.specs.Calls.{arg};
ghost use Rattle.plain_state.specs.declared.calls.Call.{Call};
ghost use Rattle.kernel_calls.specs.Does.{DoesCall, KeepsCall};

use crate::done::Done;
use crate::runtime::Runtime;
use call_readings::{cap_named, id_named};
use cap_group::Cap;
use kobj_table::Slot;
use plain_state::arg;
use sls_base::{ObjId, Thread};

impl Runtime {
    /// Copies a capability into a group.
    pub(crate) fn cap_copy(&mut self, me: ObjId, thread: &Thread) -> Done
        ensures does { DoesCall self.old self.new me thread.now Call.CapCopy result }
        ensures keeps { KeepsCall self.old self.new me thread.now Call.CapCopy result }
    {
        plain_laws::calls::unrefused_call_meets_all();
        let objects = &self.objects;
        let id = id_named(objects, thread, 1);
        let (Some(held), Some(mut group)) = (cap_named(objects, thread, 0), objects.group(id))
        else {
            return Done::answers(thread, 0);
        };
        let Some(slot) = group.lowest_free() else {
            return Done::answers(thread, 0);
        };
        // The rights wanted are all held, so these are they.
        let rights = (u32::from(held.rights) & arg(thread, 2)) as u8;
        group.set(
            slot,
            Cap {
                object: held.object,
                rights,
            },
        );
        self.objects.put(id, Slot::Group(group));
        Done::answers(thread, u32::from(slot))
    }

    /// Empties a slot of a group.
    pub(crate) fn cap_drop(&mut self, me: ObjId, thread: &Thread) -> Done
        requires { arg thread.now 1 < GROUP_SLOTS }
        ensures does { DoesCall self.old self.new me thread.now Call.CapDrop result }
        ensures keeps { KeepsCall self.old self.new me thread.now Call.CapDrop result }
    {
        plain_laws::calls::unrefused_call_meets_all();
        let id = id_named(&self.objects, thread, 0);
        let Some(mut group) = self.objects.group(id) else {
            return Done::answers(thread, 0);
        };
        group.clear(arg(thread, 1) as u8);
        self.objects.put(id, Slot::Group(group));
        Done::answers(thread, 0)
    }
}
