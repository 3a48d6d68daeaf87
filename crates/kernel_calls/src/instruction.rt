//! The instruction at a thread's pc, and what becomes of the thread.

ghost use Rattle.std.specs.Prelude.{◌≡◌, ◌%◌, ◌<◌, false};
ghost use Rattle.sls_base.specs.declared.limits.TheConstants.{INSTRUCTION_BYTES, REGISTERS};
ghost use Rattle.sls_base.specs.declared.rights.TheConstants.{READ, EXECUTE};
ghost use Rattle.rv_table.specs.Table.{IsOneOf, load_ops};
ghost use Rattle.rv_core.specs.Effect.{size_of};
ghost use Rattle.rv_core.specs.Ranges.{IsPlan};
ghost use Rattle.plain_state.specs.Worlds.{World};
ghost use Rattle.plain_state.specs.Instructions as plain;
ghost use Rattle.plain_state.specs.Ticks.{stores_to};
ghost use Rattle.kobj_table.specs.Objects.{Rest, state_of};
ghost use Rattle.call_readings.specs.Content.{Reads, number_seen};
ghost use Rattle.call_readings.specs.Kernel.{world_of};
ghost use Rattle.kernel_calls.specs.Callers.{IsCaller};
ghost use Rattle.kernel_calls.specs.Does.{Leaves, Obeys, Tells};
ghost use Rattle.kernel_calls.specs.Instructions.{Finds, ShowsHome, StoresPages};
ghost use Rattle.kernel_calls.specs.Needed.{MayDo, MayRun};

use crate::done::{Done, next_pc};
use crate::runtime::Runtime;
use crate::store::store;
use call_readings::{Devices, number_at};
use kobj_table::Objects;
use pmem_model::Pmem;
use rv_core::{Plan, Regs, access_size, extend, plan};
use rv_table::decode;
use sls_base::{EXECUTE, ILLEGAL_WORD, INSTRUCTION_BYTES, NO_ACCESS, ObjId, READ, Thread};

/// Loads a register from an address, at a multiple of the load's size. The thread stops where it may not.
#[tactic(auto, unfolding(kobj_table::specs::Objects::state_of))]
fn load(objects: &Objects, nvm: &Pmem, thread: &Thread, op: u8, rd: u8, at: u32) -> Done
    requires op { IsOneOf op load_ops }
    requires register { rd < REGISTERS }
    requires aligned { at % size_of op ≡ 0 }
    requires home { ShowsHome objects.now nvm.now thread.now.space READ at }
    ensures { (rest : Rest) → Reads rest.content nvm.now
        → Tells result (plain.load_effect (state_of objects.now rest) thread.now op rd at) }
{
    match number_at(objects, nvm, thread.space, READ, at, access_size(op)) {
        Some(raw) => Done::sets(thread, rd, extend(op, raw), next_pc(thread)),
        None => Done::stops(thread, NO_ACCESS),
    }
}

/// The word at the pc of a thread, if it may execute it.
fn fetch(objects: &Objects, nvm: &Pmem, thread: &Thread) -> Option<u32>
    requires aligned { thread.now.pc % INSTRUCTION_BYTES ≡ 0 }
    requires home { ShowsHome objects.now nvm.now thread.now.space EXECUTE thread.now.pc }
    ensures { (rest : Rest) → Reads rest.content nvm.now → result ≡ number_seen (state_of objects.now rest).objects
        (plain.seen_by (state_of objects.now rest) thread.now) EXECUTE thread.now.pc INSTRUCTION_BYTES }
{
    number_at(
        objects,
        nvm,
        thread.space,
        EXECUTE,
        thread.pc,
        INSTRUCTION_BYTES,
    )
}

impl Runtime {
    /// Carries out what an instruction of a thread comes to, which may be carried out.
    fn carry_out_plan(
        &mut self,
        devices: &Devices,
        input: &[u8],
        nvm: &mut Pmem,
        me: ObjId,
        thread: &Thread,
        plan: Plan,
    ) -> Done
        requires may { MayDo self.old devices.now input.now nvm.old me thread.now plan }
        requires caller { IsCaller self.old.objects me thread.now }
        requires in_range { IsPlan plan }
        ensures obeys { (w : World) (rest : Rest)
            → Finds self.old devices.now input.now nvm.old rest w
            → (after : Rest) × Obeys self.old self.new rest after nvm.new w
            (plain.carried_out (world_of self.old.objects rest w) me thread.now plan) result }
        ensures words { (w : World) (rest : Rest)
            → Finds self.old devices.now input.now nvm.old rest w
            → StoresPages (stores_to (state_of self.old.objects rest)
            (plain.carried_out (world_of self.old.objects rest w) me thread.now plan)) nvm.old nvm.new }
        ensures leaves { Leaves self.old self.new me result }
    {
        page_bytes::stores_in_parts();
        out_gate::waiting_entries_stand();
        match plan {
            Plan::Set { rd, value, pc } => Done::sets(thread, rd, value, pc),
            Plan::Load { op, rd, at } => load(&self.objects, nvm, thread, op, rd, at),
            Plan::Store { op, at, value } => store(&self.objects, nvm, thread, op, at, value),
            Plan::Call => self.ecall(devices, input, nvm, me, thread),
            Plan::Stop(cause) => Done::stops(thread, cause),
        }
    }

    /// Does the instruction at the pc of a thread: the call that the thread names, or what it makes of registers, loads
    /// and stores. The thread stops where it can't be fetched, and where its word is in no row of the instruction
    /// table.
    pub(crate) fn obey(
        &mut self,
        devices: &Devices,
        input: &[u8],
        nvm: &mut Pmem,
        me: ObjId,
        thread: &Thread,
    ) -> Done
        requires may { MayRun self.old devices.now input.now nvm.old me thread.now }
        requires caller { IsCaller self.old.objects me thread.now }
        ensures obeys { (w : World) (rest : Rest)
            → Finds self.old devices.now input.now nvm.old rest w
            → (after : Rest) × Obeys self.old self.new rest after nvm.new w
            (plain.instruction (world_of self.old.objects rest w) me thread.now) result }
        ensures words { (w : World) (rest : Rest)
            → Finds self.old devices.now input.now nvm.old rest w
            → StoresPages (stores_to (state_of self.old.objects rest)
            (plain.instruction (world_of self.old.objects rest w) me thread.now)) nvm.old nvm.new }
        ensures leaves { Leaves self.old self.new me result }
    {
        let Some(word) = fetch(&self.objects, nvm, thread) else {
            return Done::stops(thread, NO_ACCESS);
        };
        let Some(instr) = decode(word) else {
            return Done::stops(thread, ILLEGAL_WORD);
        };
        let regs = Regs {
            pc: thread.pc,
            x: thread.x,
        };
        self.carry_out_plan(devices, input, nvm, me, thread, plan(instr, &regs))
    }
}
