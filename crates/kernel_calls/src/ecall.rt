//! The call that a thread names.

ghost use Rattle.std.specs.Prelude.{◌≡◌, Some, false};
ghost use Rattle.plain_state.specs.Worlds.{World};
ghost use Rattle.plain_state.specs.CallEffects as plain;
ghost use Rattle.kobj_table.specs.Objects.{Rest, state_of};
ghost use Rattle.rv_core.specs.declared.registers.Plan.{Plan};
ghost use Rattle.plain_state.specs.Ticks.{stores_to};
ghost use Rattle.call_readings.specs.Kernel.{world_of};
ghost use Rattle.kernel_calls.specs.Kernel.{Allowed};
ghost use Rattle.kernel_calls.specs.Callers.{IsCaller, moves_bytes};
ghost use Rattle.kernel_calls.specs.Does.{DoesCall, Keeps, Leaves, Obeys};
ghost use Rattle.kernel_calls.specs.Instructions.{Finds, StoresPages};
ghost use Rattle.kernel_calls.specs.Needed.{MayDo, MayMove};
ghost use Rattle.kernel_calls.specs.Moves.{ObeysCall, StoresOfCall};

use crate::done::Done;
use crate::runtime::Runtime;
use call_readings::{Devices, refusal_of};
use plain_state::{Call, Refusal};
use pmem_model::Pmem;
use sls_base::{ObjId, Thread};

impl Runtime {
    /// Does a call that isn't refused, and for which all pages are there.
    fn carry_out(
        &mut self,
        input: &[u8],
        nvm: &mut Pmem,
        me: ObjId,
        thread: &Thread,
        call: Call,
    ) -> Done
        requires may { MayMove self.old input.now nvm.old me thread.now call }
        ensures obeys { ObeysCall self.old self.new input.now nvm.old nvm.new me thread.now call result }
        ensures words { StoresOfCall self.old input.now nvm.old nvm.new me thread.now call }
        ensures leaves { Leaves self.old self.new me result }
    {
        match call {
            Call::Put => self.put(nvm, me, thread),
            Call::Get => self.get(nvm, input, me, thread),
            _ => self.change_objects(me, thread, call),
        }
    }

    /// Does a call that isn't refused, and neither loads from pages nor stores to them.
    fn change_objects(&mut self, me: ObjId, thread: &Thread, call: Call) -> Done
        requires allowed { Allowed self.old me thread.now call }
        requires no_bytes { moves_bytes (Some call) ≡ false }
        ensures does { DoesCall self.old self.new me thread.now call result }
        ensures keeps { Keeps self.old self.new me result }
    {
        plain_laws::calls::unrefused_call_meets_all();
        match call {
            Call::Yield => Done::yields(thread),
            Call::Halt => Done::halts(thread),
            Call::MemNew => self.mem_new(me, thread),
            Call::Map => self.map(me, thread),
            Call::Unmap => self.unmap(me, thread),
            Call::SpaceNew => self.space_new(me, thread),
            Call::GroupNew => self.group_new(me, thread),
            Call::CapCopy => self.cap_copy(me, thread),
            Call::CapDrop => self.cap_drop(me, thread),
            Call::ThreadNew => self.thread_new(me, thread),
            Call::NoteNew => self.note_new(me, thread),
            Call::Signal => self.signal(me, thread),
            Call::Wait => self.wait(me, thread),
            Call::ConnNew => self.conn_new(me, thread),
            Call::ConnCall => self.call(me, thread),
            Call::Serve => self.serve(me, thread),
            Call::Checkpoint => Done::wishes(thread),
            // These move bytes, and aren't asked for here.
            Call::Put | Call::Get => Done::answers(thread, 0),
        }
    }

    /// Does the call that a thread names, and for which all pages are there.
    pub(crate) fn ecall(
        &mut self,
        devices: &Devices,
        input: &[u8],
        nvm: &mut Pmem,
        me: ObjId,
        thread: &Thread,
    ) -> Done
        requires may { MayDo self.old devices.now input.now nvm.old me thread.now Plan.Call }
        requires caller { IsCaller self.old.objects me thread.now }
        ensures obeys { (w : World) (rest : Rest) → Finds self.old devices.now input.now nvm.old rest w
            → (after : Rest) × Obeys self.old self.new rest after nvm.new w
            (plain.ecall (world_of self.old.objects rest w) me thread.now) result }
        ensures words { (w : World) (rest : Rest) → Finds self.old devices.now input.now nvm.old rest w
            → StoresPages (stores_to (state_of self.old.objects rest)
            (plain.ecall (world_of self.old.objects rest w) me thread.now)) nvm.old nvm.new }
        ensures leaves { Leaves self.old self.new me result }
    {
        let Some(call) = Call::named(thread) else {
            return Done::answers(thread, Refusal::BadCall.number());
        };
        match refusal_of(&self.objects, &self.numbers, devices, me, thread, call) {
            Some(refusal) => Done::answers(thread, refusal.number()),
            None => self.carry_out(input, nvm, me, thread, call),
        }
    }
}
