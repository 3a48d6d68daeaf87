//! What the next instruction of a thread reaches in memory, told without carrying it out.

ghost use Rattle.std.specs.Prelude.{◌≡◌, Option, option_map};
ghost use Rattle.rv_table.specs.Decoded.{decoded};
ghost use Rattle.rv_core.specs.Ranges.{IsPlan};
ghost use Rattle.plain_state.specs.States.{thread_at};
ghost use Rattle.plain_state.specs.Effects.{Effect};
ghost use Rattle.plain_state.specs.Ticks as ticks;
ghost use Rattle.plain_state.specs.Ticks.{puts_to_page};
ghost use Rattle.plain_state.specs.declared.effect.Output.{Output};
ghost use Rattle.plain_state.specs.CallEffects as calls;
ghost use Rattle.plain_state.specs.Instructions as plain;
ghost use Rattle.plain_state.specs.SlowReach.{IsReach};
ghost use Rattle.plain_model.specs.SlowWorld.{world_of};

use crate::world::World;
use plain_state::{Call, NO_REACH, Reach, Span, regs_of};
use rv_core::{Plan, plan};
use rv_table::decode;
use sls_base::{CoreNo, EXECUTE, INSTRUCTION_BYTES, ObjId, PageNo, READ, Thread, WRITE};

#[tactic(auto, unfolding(crate::specs::SlowWorld::world_of, plain_state::specs::CallEffects::effect_of_call))]
impl World {
    /// What a call reaches that isn't refused: only a put and a get reach anything.
    fn reach_of_call(&self, id: ObjId, thread: &Thread, call: Call) -> Reach
        ensures { IsReach (world_of self.now).now thread.now result
            (calls.effect_of_call (world_of self.now) id thread.now call) }
    {
        match call {
            Call::Put => self.running.reach_of_put(thread),
            Call::Get => self.running.reach_of_get(thread),
            Call::Yield
            | Call::Halt
            | Call::MemNew
            | Call::Map
            | Call::Unmap
            | Call::SpaceNew
            | Call::GroupNew
            | Call::CapCopy
            | Call::CapDrop
            | Call::ThreadNew
            | Call::NoteNew
            | Call::Signal
            | Call::Wait
            | Call::ConnNew
            | Call::ConnCall
            | Call::Serve
            | Call::Checkpoint => NO_REACH,
        }
    }
}

#[tactic(auto, unfolding(crate::specs::SlowWorld::world_of))]
impl World {
    /// What the call that x17 names reaches.
    fn reach_of_ecall(&self, id: ObjId, thread: &Thread) -> Reach
        ensures { IsReach (world_of self.now).now thread.now result (calls.ecall (world_of self.now) id thread.now) }
    {
        let Some(call) = Call::named(thread) else {
            return NO_REACH;
        };
        match self.refusal_of(id, thread, call) {
            Some(_) => NO_REACH,
            None => self.reach_of_call(id, thread, call),
        }
    }

    /// What a row's effect reaches.
    fn reach_of_plan(&self, id: ObjId, thread: &Thread, plan: Plan) -> Reach
        requires { IsPlan plan }
        ensures { IsReach (world_of self.now).now thread.now result
            (plain.carried_out (world_of self.now) id thread.now plan) }
    {
        match plan {
            Plan::Load { op, at, .. } => self.running.reach_of_load(thread, op, at),
            Plan::Store { op, at, .. } => self.running.reach_of_store(thread, op, at),
            Plan::Call => self.reach_of_ecall(id, thread),
            Plan::Set { .. } | Plan::Stop(_) => NO_REACH,
        }
    }

    /// What the instruction of a word reaches.
    pub(crate) fn reach(&self, id: ObjId, thread: &Thread, word: u32) -> Reach
        ensures { IsReach (world_of self.now).now thread.now result
            (plain.obeyed (world_of self.now) id thread.now (decoded word)) }
    {
        match decode(word) {
            Some(instr) => self.reach_of_plan(id, thread, plan(instr, &regs_of(thread))),
            None => NO_REACH,
        }
    }
}

/// Whether an entry on a channel, if there is one, is stored to a page.
fn is_ring_page(channel: Option<u8>, page: PageNo) -> bool
    ensures { (output : Option Output) → option_map (λ o. o.channel) output ≡ channel → result
        ≡ puts_to_page output page }
{
    match channel {
        Some(channel) => PageNo::from(channel) == page,
        None => false,
    }
}

#[tactic(auto, unfolding(crate::specs::SlowWorld::world_of))]
impl World {
    /// Whether what an instruction reaches has it store to a page.
    fn stores_to(&self, thread: &Thread, reach: &Reach, page: PageNo) -> bool
        ensures { (e : Effect) → IsReach (world_of self.now).now thread.now reach.now e → result
            ≡ ticks.stores_to (world_of self.now).now e page }
    {
        let regions = self.running.seen_by(thread);
        self.running
            .is_on_page(regions, u32::from(WRITE), reach.stores, page)
            || is_ring_page(reach.channel, page)
    }

    /// Whether the next instruction of a thread stores to a page.
    fn stores_by(&self, id: ObjId, page: PageNo) -> bool
        ensures { result ≡ ticks.stores_to (world_of self.now).now
            (plain.instruction (world_of self.now) id (thread_at (world_of self.now).now id)) page }
    {
        let thread = self.running.thread_at(id);
        match self.running.word_at_pc(&thread) {
            Some(word) => self.stores_to(&thread, &self.reach(id, &thread, word), page),
            None => false,
        }
    }

    /// Whether the next instruction of a thread is fetched from a page or loads from it.
    fn loads_by(&self, id: ObjId, page: PageNo) -> bool
        ensures { result ≡ ticks.loads_from (world_of self.now).now
            (plain.instruction (world_of self.now) id (thread_at (world_of self.now).now id)) page }
    {
        let thread = self.running.thread_at(id);
        let Some(word) = self.running.word_at_pc(&thread) else {
            return false;
        };
        let own = Span {
            at: thread.pc,
            count: INSTRUCTION_BYTES,
        };
        let loads = self.reach(id, &thread, word).loads;
        let regions = self.running.seen_by(&thread);
        self.running
            .is_on_page(regions, u32::from(EXECUTE), own, page)
            || self
                .running
                .is_on_page(regions, u32::from(READ), loads, page)
    }

    /// Whether the next tick of a core fetches from, loads from or stores to a page.
    pub fn touches(&self, core: CoreNo, page: PageNo) -> bool
        ensures { result ≡ ticks.touches (world_of self.now) core page }
    {
        match self.running.next_thread(core) {
            Some(id) => self.loads_by(id, page) || self.stores_by(id, page),
            None => false,
        }
    }

    /// Whether the next tick of a core stores to a page.
    pub fn must_store(&self, core: CoreNo, page: PageNo) -> bool
        ensures { result ≡ ticks.must_store (world_of self.now) core page }
    {
        match self.running.next_thread(core) {
            Some(id) => self.stores_by(id, page),
            None => false,
        }
    }
}
