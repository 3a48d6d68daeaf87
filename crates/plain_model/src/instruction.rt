//! One instruction of a thread.

ghost use Rattle.std.specs.Prelude.{◌≡◌, IfOk, OnOk};
ghost use Rattle.rv_table.specs.Decoded.{decoded};
ghost use Rattle.rv_core.specs.Ranges.{IsPlan};
ghost use Rattle.plain_state.specs.Instructions as plain;
ghost use Rattle.plain_state.specs.Slow.{effect_of, StoresInPages};
ghost use Rattle.plain_model.specs.SlowWorld.{world_of};

use crate::world::World;
use plain_state::{Effect, Place, places_of, registers_with, regs_of};
use rv_core::{Plan, plan};
use rv_table::decode;
use sls_base::{EXECUTE, ILLEGAL_WORD, INSTRUCTION_BYTES, NO_ACCESS, ObjId, Thread};
use std::alloc::{AllocError, Global};

/// Has an effect load the bytes of its own instruction first.
#[tactic(auto, unfolding(plain_state::specs::Slow::effect_of))]
fn load_first(effect: &mut Effect, fetched: Vec<Place>) -> Result<(), AllocError>
    ensures effect { OnOk result (effect_of effect.new ≡ plain.with_fetch fetched.items (effect_of effect.old)) }
    ensures stores { OnOk result (effect.new.stores ≡ effect.old.stores) }
{
    let mut loads = fetched;
    loads.extend_from_slice(effect.loads.as_slice())?;
    effect.loads = loads;
    Ok(())
}

#[tactic(auto, unfolding(crate::specs::SlowWorld::world_of, plain_state::specs::Slow::effect_of))]
impl World {
    /// What a row's effect does.
    fn carried_out(
        &self,
        alloc: Global,
        id: ObjId,
        thread: &Thread,
        plan: Plan,
    ) -> Result<Effect, AllocError>
        requires { IsPlan plan }
        ensures { IfOk result (λ e. (effect_of e ≡ plain.carried_out (world_of self.now) id thread.now plan)
            × StoresInPages e) }
    {
        match plan {
            Plan::Set { rd, value, pc } => Ok(Effect::goes_on(
                alloc,
                registers_with(thread, pc, rd, value),
            )),
            Plan::Load { op, rd, at } => self.running.load_effect(alloc, thread, op, rd, at),
            Plan::Store { op, at, value } => self
                .running
                .store_effect(alloc, thread, op, at, value),
            Plan::Call => self.ecall(alloc, id, thread),
            Plan::Stop(cause) => Ok(Effect::stops(alloc, thread, cause)),
        }
    }

    /// The instruction of a word.
    fn obeyed(
        &self,
        alloc: Global,
        id: ObjId,
        thread: &Thread,
        word: u32,
    ) -> Result<Effect, AllocError>
        ensures { IfOk result (λ e. (effect_of e ≡ plain.obeyed (world_of self.now) id thread.now (decoded word))
            × StoresInPages e) }
    {
        match decode(word) {
            Some(instr) => self.carried_out(alloc, id, thread, plan(instr, &regs_of(thread))),
            None => Ok(Effect::stops(alloc, thread, ILLEGAL_WORD)),
        }
    }

    /// The instruction at a thread's pc.
    pub(crate) fn instruction(
        &self,
        alloc: Global,
        id: ObjId,
        thread: &Thread,
    ) -> Result<Effect, AllocError>
        ensures { IfOk result (λ e. (effect_of e ≡ plain.instruction (world_of self.now) id thread.now)
            × StoresInPages e) }
    {
        let Some(word) = self.running.word_at_pc(thread) else {
            return Ok(Effect::stops(alloc, thread, NO_ACCESS));
        };
        let regions = self.running.seen_by(thread);
        let right = u32::from(EXECUTE);
        let fetched = places_of(alloc, regions, right, thread.pc, INSTRUCTION_BYTES)?;
        let mut effect = self.obeyed(alloc, id, thread, word)?;
        load_first(&mut effect, fetched)?;
        Ok(effect)
    }
}
