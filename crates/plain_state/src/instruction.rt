//! What the instructions that load and store do to a state.

ghost use Rattle.std.specs.Prelude.{◌≡◌, ◌<◌, IfOk};
ghost use Rattle.sls_base.specs.declared.limits.TheConstants.{REGISTERS};
ghost use Rattle.rv_table.specs.Table.{IsOneOf, load_ops, store_ops};
ghost use Rattle.rv_core.specs.Effect.{with_register};
ghost use Rattle.plain_state.specs.Instructions as plain;
ghost use Rattle.plain_state.specs.Slow.{state_of, effect_of, StoresInPages};
ghost use Rattle.plain_state.specs.SlowReach.{word_at_pc};

use crate::memory::{is_covered, places_of, stores_at};
use crate::object::regions_of;
use crate::objects::Region;
use crate::slow_effect::{Effect, next_pc};
use crate::state::State;
use rv_core::{Regs, access_size, extend};
use sls_base::{EXECUTE, INSTRUCTION_BYTES, NO_ACCESS, READ, Thread, WRITE};
use std::alloc::{AllocError, Global};

/// A thread's registers after a write, which is lost at register 0.
pub fn registers_with(thread: &Thread, pc: u32, rd: u8, value: u32) -> Regs
    requires { rd < REGISTERS }
    ensures pc { result.pc ≡ pc }
    ensures x { result.x ≡ with_register thread.now.x rd value }
{
    let mut regs = Regs { pc, x: thread.x };
    regs.set(rd, value);
    regs
}

#[tactic(auto, unfolding(crate::specs::Slow::state_of, crate::specs::Slow::effect_of))]
impl State {
    /// The regions of a thread's space.
    pub fn seen_by(&self, thread: &Thread) -> &[Region]
        ensures { result.now ≡ plain.seen_by (state_of self.now) thread.now }
    {
        regions_of(self.object(thread.space))
    }

    /// The word at a thread's pc, if it can be fetched.
    pub fn word_at_pc(&self, thread: &Thread) -> Option<u32>
        ensures { result ≡ word_at_pc (state_of self.now) thread.now }
    {
        let (regions, right) = (self.seen_by(thread), u32::from(EXECUTE));
        if !is_covered(regions, right, thread.pc, INSTRUCTION_BYTES) {
            return None;
        }
        Some(self.value_of(regions, right, u64::from(thread.pc), INSTRUCTION_BYTES))
    }

    /// What a load does.
    pub fn load_effect(
        &self,
        alloc: Global,
        thread: &Thread,
        op: u8,
        rd: u8,
        at: u32,
    ) -> Result<Effect, AllocError>
        requires op { IsOneOf op load_ops }
        requires rd { rd < REGISTERS }
        ensures { IfOk result (λ e. (effect_of e ≡ plain.load_effect (state_of self.now) thread.now op rd at)
            × StoresInPages e) }
    {
        let (regions, right, size) = (self.seen_by(thread), u32::from(READ), access_size(op));
        if !is_covered(regions, right, at, size) {
            return Ok(Effect::stops(alloc, thread, NO_ACCESS));
        }
        let places = places_of(alloc, regions, right, at, size)?;
        let value = extend(op, self.value_of(regions, right, u64::from(at), size));
        let mut effect = Effect::goes_on(alloc, registers_with(thread, next_pc(thread), rd, value));
        effect.loads = places;
        Ok(effect)
    }

    /// What a store does.
    pub fn store_effect(
        &self,
        alloc: Global,
        thread: &Thread,
        op: u8,
        at: u32,
        value: u32,
    ) -> Result<Effect, AllocError>
        requires { IsOneOf op store_ops }
        ensures { IfOk result (λ e. (effect_of e ≡ plain.store_effect (state_of self.now) thread.now op at value)
            × StoresInPages e) }
    {
        let (regions, right, size) = (self.seen_by(thread), u32::from(WRITE), access_size(op));
        if !is_covered(regions, right, at, size) {
            return Ok(Effect::stops(alloc, thread, NO_ACCESS));
        }
        let places = places_of(alloc, regions, right, at, size)?;
        let mut effect = Effect::goes_on(
            alloc,
            Regs {
                pc: next_pc(thread),
                x: thread.x,
            },
        );
        effect.stores = stores_at(
            alloc,
            places.as_slice(),
            &value.to_le_bytes()[..size as usize],
        )?;
        Ok(effect)
    }
}
