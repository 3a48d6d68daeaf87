//! Calls on spaces.

ghost use Rattle.plain_state.specs.declared.calls.Call.{Call};
ghost use Rattle.kernel_calls.specs.Kernel.{Allowed};
ghost use Rattle.kernel_calls.specs.Does.{DoesCall, Keeps};

use crate::done::Done;
use crate::runtime::Runtime;
use call_readings::id_named;
use mem_space::{PageIndex, Region};
use plain_state::arg;
use sls_base::{ObjId, PAGE_BYTES, Thread};

impl Runtime {
    /// Maps pages of a memory object at addresses of a space.
    pub(crate) fn map(&mut self, me: ObjId, thread: &Thread) -> Done
        requires { Allowed self.old me thread.now Call.Map }
        ensures does { DoesCall self.old self.new me thread.now Call.Map result }
        ensures keeps { Keeps self.old self.new me result }
    {
        plain_laws::calls::unrefused_call_meets_all();
        mem_space::region_tests();
        let id = id_named(&self.objects, thread, 0);
        let Some(_) = self.objects.space(id) else {
            return Done::answers(thread, 0);
        };
        let region = Region {
            base: arg(thread, 2) / PAGE_BYTES as u32,
            count: arg(thread, 4) as PageIndex,
            first: arg(thread, 3) as PageIndex,
            memory: id_named(&self.objects, thread, 1),
            rights: arg(thread, 5) as u8,
        };
        self.objects.map_region(id, region);
        Done::answers(thread, 0)
    }

    /// Takes a region out of a space.
    pub(crate) fn unmap(&mut self, me: ObjId, thread: &Thread) -> Done
        requires { Allowed self.old me thread.now Call.Unmap }
        ensures does { DoesCall self.old self.new me thread.now Call.Unmap result }
        ensures keeps { Keeps self.old self.new me result }
    {
        plain_laws::calls::unrefused_call_meets_all();
        let id = id_named(&self.objects, thread, 0);
        let Some(_) = self.objects.space(id) else {
            return Done::answers(thread, 0);
        };
        self.objects
            .unmap_region(id, arg(thread, 1) / PAGE_BYTES as u32);
        Done::answers(thread, 0)
    }
}
