//! Effects, of the slow form.

ghost use Rattle.std.specs.Prelude.{◌≡◌};
ghost use Rattle.plain_state.specs.Effects as plain;
ghost use Rattle.plain_state.specs.Slow.{effect_of, StoresInPages};

use crate::calls::ANSWER;
use crate::effect::{ByteStore, Goes, Output, Place};
use crate::object::Object;
use rv_core::Regs;
use sls_base::{INSTRUCTION_BYTES, ObjId, Thread, ThreadState};
use std::alloc::Global;

/// An object that gets another value, or is made.
#[derive(Drop)]
pub struct Change {
    pub id: ObjId,
    pub object: Object,
}

/// What an instruction or a call does: the registers of its thread and what becomes of that, what it loads and stores, which
/// objects it changes, which threads it wakes, what it puts, and whether it takes an input or wishes for a checkpoint.
#[derive(Drop)]
pub struct Effect {
    pub regs: Regs,
    pub goes: Goes,
    pub loads: Vec<Place>,
    pub stores: Vec<ByteStore>,
    pub changes: Vec<Change>,
    pub wakes: Vec<ObjId>,
    pub output: Option<Output>,
    pub takes: bool,
    pub wishes: bool,
}

/// The registers of a thread.
pub fn regs_of(thread: &Thread) -> Regs
    ensures { result ≡ plain.regs_of thread.now }
{
    Regs {
        pc: thread.pc,
        x: thread.x,
    }
}

/// The instruction after a thread's.
pub fn next_pc(thread: &Thread) -> u32
    ensures { result ≡ plain.next_pc thread.now }
{
    thread.pc.wrapping_add(INSTRUCTION_BYTES)
}

#[tactic(auto, unfolding(crate::specs::Slow::effect_of))]
impl Effect {
    /// Registers are set, and the thread goes on.
    pub fn goes_on(alloc: Global, regs: Regs) -> Effect
        ensures effect { effect_of result ≡ plain.goes_on regs }
        ensures in_pages { StoresInPages result }
    {
        Effect {
            regs,
            goes: Goes::On,
            loads: Vec::new(alloc),
            stores: Vec::new(alloc),
            changes: Vec::new(alloc),
            wakes: Vec::new(alloc),
            output: None,
            takes: false,
            wishes: false,
        }
    }

    /// The thread stops, and keeps its registers and its pc.
    pub fn stops(alloc: Global, thread: &Thread, cause: u8) -> Effect
        ensures effect { effect_of result ≡ plain.stops thread.now cause }
        ensures in_pages { StoresInPages result }
    {
        let mut effect = Effect::goes_on(alloc, regs_of(thread));
        effect.goes = Goes::Stop(cause);
        effect
    }

    /// A call is answered in x10.
    pub fn answers(alloc: Global, thread: &Thread, answer: u32) -> Effect
        ensures effect { effect_of result ≡ plain.answers thread.now answer }
        ensures in_pages { StoresInPages result }
    {
        let mut x = thread.x;
        x[ANSWER] = answer;
        Effect::goes_on(
            alloc,
            Regs {
                pc: next_pc(thread),
                x,
            },
        )
    }

    /// A call waits for its answer.
    pub fn waits(alloc: Global, thread: &Thread, state: ThreadState) -> Effect
        ensures effect { effect_of result ≡ plain.waits thread.now state }
        ensures in_pages { StoresInPages result }
    {
        let mut effect = Effect::goes_on(
            alloc,
            Regs {
                pc: next_pc(thread),
                x: thread.x,
            },
        );
        effect.goes = Goes::Asleep(state);
        effect
    }
}
