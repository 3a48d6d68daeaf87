//! The call put.

ghost use Rattle.std.specs.Prelude.{ℕ, List};
ghost use Rattle.plain_state.specs.declared.calls.Call.{Call};
ghost use Rattle.kernel_calls.specs.Does.{Leaves};
ghost use Rattle.kernel_calls.specs.Needed.{MayMove};
ghost use Rattle.kernel_calls.specs.Moves.{ObeysCall, StoresOfCall};

use crate::done::Done;
use crate::runtime::Runtime;
use call_readings::id_named;
use kobj_table::Slot;
use page_bytes::bytes_at;
use plain_state::arg;
use pmem_model::Pmem;
use sls_base::{ObjId, READ, Ring, Thread};

impl Runtime {
    /// Puts bytes that the caller may read on a channel, as its next entry.
    pub(crate) fn put(&mut self, nvm: &mut Pmem, me: ObjId, thread: &Thread) -> Done
        requires may { (input : List ℕ) × MayMove self.old input nvm.old me thread.now Call.Put }
        ensures obeys { (input : List ℕ)
            → ObeysCall self.old self.new input nvm.old nvm.new me thread.now Call.Put result }
        ensures words { (input : List ℕ) → StoresOfCall self.old input nvm.old nvm.new me thread.now Call.Put }
        ensures leaves { Leaves self.old self.new me result }
    {
        // Their contracts say what a call that isn't refused meets, that the page of a ring is no part of the state,
        // and which entries stand on it.
        plain_laws::calls::unrefused_call_meets_all();
        page_bytes::stores_in_parts();
        page_bytes::other_pages_are_not_seen();
        out_gate::waiting_entries_stand();
        let id = id_named(&self.objects, thread, 0);
        let Some(ring) = self.objects.ring(id) else {
            return Done::answers(thread, 0);
        };
        let at = arg(thread, 1);
        let length = arg(thread, 2);
        let Some(bytes) = bytes_at(&self.objects, nvm, thread.space, READ, at, length) else {
            return Done::answers(thread, 0);
        };
        out_gate::place(nvm, ring.channel, ring.count, bytes.as_slice());
        let count = ring.count + 1;
        self.objects.put(id, Slot::Ring(Ring { count, ..ring }));
        Done::answers(thread, 0)
    }
}
