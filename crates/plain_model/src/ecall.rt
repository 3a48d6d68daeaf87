//! What a call does.

ghost use Rattle.std.specs.Prelude.{◌≡◌, IfOk, None, map, take};
ghost use Rattle.plain_state.specs.Objects as objects;
ghost use Rattle.plain_state.specs.CallRefusals as refusals;
ghost use Rattle.plain_state.specs.CallEffects as plain;
ghost use Rattle.plain_state.specs.Worlds.{free_pages};
ghost use Rattle.plain_state.specs.Slow.{page_of, object_of, state_of, effect_of, StoresInPages};
ghost use Rattle.plain_model.specs.SlowWorld.{world_of};

use crate::world::World;
use plain_state::{
    ANSWER, Call, Capability, Effect, Goes, Object, Page, Refusal, State, arg, change, slot_number,
    slots_of, with_cap,
};
use sls_base::{ALL_RIGHTS, HALTED, ObjId, PageNo, REGISTERS, Thread, ThreadState};
use std::alloc::{AllocError, Global};

/// New pages with these numbers.
fn zero_pages(alloc: Global, numbers: &[PageNo]) -> Result<Vec<Page>, AllocError>
    ensures { IfOk result (λ pages. map page_of pages.items ≡ map objects.new_page numbers.now) }
{
    let mut pages = Vec::new(alloc);
    for number in numbers {
        pages.push(Page::zero(alloc, *number)?)?;
    }
    Ok(pages)
}

/// The thread that a call of a thread makes.
#[tactic(auto, unfolding(plain_state::specs::States::zero_registers))]
fn new_thread(state: &State, thread: &Thread) -> Thread
    ensures { result ≡ plain.new_thread (state_of state.now) thread.now }
{
    let mut x = [0; REGISTERS];
    x[ANSWER] = arg(thread, 3);
    Thread {
        group: state.id_named(thread, 0),
        space: state.id_named(thread, 1),
        state: ThreadState::Ready,
        pc: arg(thread, 2),
        x,
    }
}

#[tactic(auto, unfolding(crate::specs::SlowWorld::world_of, plain_state::specs::Slow::effect_of))]
impl World {
    /// The number of an object that a call makes.
    fn new_id(&self) -> ObjId
        ensures { result ≡ plain.new_id (world_of self.now) }
    {
        self.free_object().unwrap_or(0)
    }

    /// A call that makes an object.
    fn makes(&self, alloc: Global, thread: &Thread, object: Object) -> Result<Effect, AllocError>
        ensures { IfOk result (λ e. (effect_of e ≡ plain.makes (world_of self.now) thread.now (object_of object))
            × StoresInPages e) }
    {
        let id = self.new_id();
        let slots = slots_of(self.running.object(thread.group));
        let cap = Capability {
            object: id,
            rights: u32::from(ALL_RIGHTS),
        };
        let mut effect = Effect::answers(alloc, thread, slot_number(slots));
        effect.changes.push(change(id, object))?;
        effect
            .changes
            .push(change(thread.group, with_cap(slots, cap)))?;
        Ok(effect)
    }

    /// A memory object of so many new pages.
    fn new_memory(&self, alloc: Global, count: u32) -> Result<Object, AllocError>
        ensures { IfOk result (λ object. object_of object
            ≡ objects.new_memory (take count (free_pages (world_of self.now)))) }
    {
        let mut numbers = self.free_pages(alloc)?;
        numbers.truncate(count as usize);
        Ok(Object::Memory(zero_pages(alloc, numbers.as_slice())?))
    }

    fn thread_effect(&self, alloc: Global, thread: &Thread) -> Result<Effect, AllocError>
        ensures { IfOk result (λ e. (effect_of e ≡ plain.thread_effect (world_of self.now) thread.now)
            × StoresInPages e) }
    {
        let new = new_thread(&self.running, thread);
        let mut effect = self.makes(alloc, thread, Object::Thread(new))?;
        effect.wakes.push(self.new_id())?;
        Ok(effect)
    }

    /// What the call of a thread does that isn't refused.
    #[tactic(auto, unfolding(crate::specs::SlowWorld::world_of, plain_state::specs::Slow::effect_of, plain_state::specs::CallEffects::effect_of_call))]
    fn effect_of_call(
        &self,
        alloc: Global,
        id: ObjId,
        thread: &Thread,
        call: Call,
    ) -> Result<Effect, AllocError>
        requires { refusals.refusal_of (world_of self.now) id thread.now call ≡ None }
        ensures { IfOk result (λ e. (effect_of e ≡ plain.effect_of_call (world_of self.now) id thread.now call)
            × StoresInPages e) }
    {
        let now = &self.running;
        match call {
            Call::Yield => {
                let mut effect = Effect::answers(alloc, thread, 0);
                effect.goes = Goes::Back;
                Ok(effect)
            }
            Call::Halt => Ok(Effect::stops(alloc, thread, HALTED)),
            Call::Put => now.put_effect(alloc, thread),
            Call::Get => now.get_effect(alloc, thread),
            Call::MemNew => {
                let memory = self.new_memory(alloc, arg(thread, 0))?;
                self.makes(alloc, thread, memory)
            }
            Call::Map => now.map_effect(alloc, thread),
            Call::Unmap => now.unmap_effect(alloc, thread),
            Call::SpaceNew => self.makes(alloc, thread, Object::Space(Vec::new(alloc))),
            Call::GroupNew => self.makes(alloc, thread, Object::empty_group()),
            Call::CapCopy => now.copy_effect(alloc, thread),
            Call::CapDrop => now.drop_effect(alloc, thread),
            Call::ThreadNew => self.thread_effect(alloc, thread),
            Call::NoteNew => self.makes(alloc, thread, Object::Notification(0, Vec::new(alloc))),
            Call::Signal => now.signal_effect(alloc, thread),
            Call::Wait => now.wait_effect(alloc, id, thread),
            Call::ConnNew => {
                self.makes(alloc, thread, Object::Connection(id, None, Vec::new(alloc)))
            }
            Call::ConnCall => now.call_effect(alloc, id, thread),
            Call::Serve => now.serve_effect(alloc, thread),
            Call::Checkpoint => {
                let mut effect = Effect::answers(alloc, thread, 0);
                effect.wishes = true;
                Ok(effect)
            }
        }
    }

    /// The call that x17 names.
    pub(crate) fn ecall(
        &self,
        alloc: Global,
        id: ObjId,
        thread: &Thread,
    ) -> Result<Effect, AllocError>
        ensures { IfOk result (λ e. (effect_of e ≡ plain.ecall (world_of self.now) id thread.now) × StoresInPages e) }
    {
        let Some(call) = Call::named(thread) else {
            return Ok(Effect::answers(alloc, thread, Refusal::BadCall.number()));
        };
        match self.refusal_of(id, thread, call) {
            Some(refusal) => Ok(Effect::answers(alloc, thread, refusal.number())),
            None => self.effect_of_call(alloc, id, thread, call),
        }
    }
}
