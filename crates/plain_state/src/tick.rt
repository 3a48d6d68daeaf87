//! A tick of a core: who runs, and what becomes of the state.

ghost use Rattle.std.specs.Prelude.{◌≡◌, ◌<◌, ◌++◌, if◌then◌else◌, All, IfOk, OnOk, length, map, option_map};
ghost use Rattle.plain_state.specs.declared.state.TheConstants.{NUMBERS};
ghost use Rattle.plain_state.specs.InPages.{StoresInPage};
ghost use Rattle.plain_state.specs.Objects as plain_objects;
ghost use Rattle.plain_state.specs.States.{with_object};
ghost use Rattle.plain_state.specs.Memory.{with_stores};
ghost use Rattle.plain_state.specs.Ticks as plain;
ghost use Rattle.plain_state.specs.Slow.{change_of, objects_of, entries_of, state_of, effect_of, StoresInPages};
ghost use Rattle.plain_state.specs.SlowChosen.{chosen_of};

use crate::effect::{ByteStore, Goes, Output};
use crate::object::Object;
use crate::objects::Occupant;
use crate::slow_effect::{Change, Effect};
use crate::state::State;
use crate::store::{make_change, make_changes, store_all};
use sls_base::{CORE_SLICE, CoreNo, ObjId, Thread, ThreadState};
use std::alloc::{AllocError, Global};

/// The thread that a core runs next, with its slice, and the queue without it.
#[derive(Drop)]
pub struct Chosen {
    pub occupant: Occupant,
    pub queue: Vec<ObjId>,
}

/// Who runs on a core next, if there is a thread to run.
#[tactic(auto, unfolding(crate::specs::Slow::state_of))]
pub fn choose(alloc: Global, state: &State, core: CoreNo) -> Result<Option<Chosen>, AllocError>
    ensures { IfOk result (λ o. option_map chosen_of o ≡ plain.chosen (state_of state.now) core) }
{
    let on_core = state.cores.get(usize::from(core)).copied().unwrap_or(None);
    if let Some(occupant) = on_core {
        let queue = Vec::from_slice(alloc, state.queue.as_slice())?;
        return Ok(Some(Chosen { occupant, queue }));
    }
    match state.queue.as_slice() {
        [] => Ok(None),
        [thread, rest @ ..] => Ok(Some(Chosen {
            occupant: Occupant {
                thread: *thread,
                slice: CORE_SLICE,
            },
            queue: Vec::from_slice(alloc, rest)?,
        })),
    }
}

/// What becomes of a thread with so much left of its slice: one that would go on goes to the queue's back where nothing is left.
fn at_slice_end(left: u8, goes: Goes) -> Goes
    ensures { result ≡ plain.at_slice_end left goes }
{
    match goes {
        Goes::On if left == 0 => Goes::Back,
        goes => goes,
    }
}

fn state_after(core: CoreNo, goes: Goes) -> ThreadState
    ensures { result ≡ plain.state_after core goes }
{
    match goes {
        Goes::On => ThreadState::Running(core),
        Goes::Back => ThreadState::Ready,
        Goes::Asleep(state) => state,
        Goes::Stop(cause) => ThreadState::Stopped(cause),
    }
}

fn on_core(thread: ObjId, left: u8, goes: Goes) -> Option<Occupant>
    ensures { result ≡ plain.on_core thread left goes }
{
    match goes {
        Goes::On => Some(Occupant {
            thread,
            slice: left,
        }),
        Goes::Back | Goes::Asleep(_) | Goes::Stop(_) => None,
    }
}

#[tactic(auto, unfolding(crate::specs::Slow::effect_of))]
fn thread_after(core: CoreNo, thread: &Thread, goes: Goes, effect: &Effect) -> Thread
    ensures { result ≡ plain.thread_after core thread.now goes (effect_of effect.now) }
{
    Thread {
        group: thread.group,
        space: thread.space,
        state: state_after(core, goes),
        pc: effect.regs.pc,
        x: effect.regs.x,
    }
}

/// From where on inputs are kept: a thread takes the first or none.
fn inputs_from(takes: bool) -> usize
    ensures { result ≡ if takes then 1 else 0 }
{
    if takes { 1 } else { 0 }
}

/// Stores bytes, makes changes of objects, and puts a thread at its number.
fn change_objects(
    objects: &mut [Option<Object>],
    stores: &[ByteStore],
    changes: Vec<Change>,
    id: ObjId,
    thread: Thread,
)
    requires sized { length objects.old ≡ NUMBERS }
    requires in_pages { All StoresInPage stores.now }
    ensures sized { length objects.new ≡ NUMBERS }
    ensures changed { objects_of objects.new
        ≡ with_object (plain.with_changes (with_stores (objects_of objects.old) stores.now)
        (map change_of changes.items)) id (plain_objects.Thread thread) }
{
    store_all(objects, stores);
    make_changes(objects, changes);
    let object = Object::Thread(thread);
    make_change(objects, Change { id, object });
}

/// The queue with the threads that are woken, and then the thread itself, if it goes to the back.
fn queue_after(
    mut queue: Vec<ObjId>,
    wakes: &[ObjId],
    id: ObjId,
    goes: Goes,
) -> Result<Vec<ObjId>, AllocError>
    ensures { IfOk result (λ after. after.items ≡ queue.items ++ wakes.now ++ plain.at_back id goes) }
{
    queue.extend_from_slice(wakes)?;
    match goes {
        Goes::Back => queue.push(id)?,
        Goes::On | Goes::Asleep(_) | Goes::Stop(_) => (),
    }
    Ok(queue)
}

/// Puts an entry on its channel, if there is one.
fn put(out: &mut Vec<Output>, output: Option<Output>) -> Result<(), AllocError>
    ensures { OnOk result (entries_of out.new.items ≡ plain.with_output (entries_of out.old.items) output) }
{
    if let Some(output) = output {
        out.push(output)?;
    }
    Ok(())
}

#[tactic(auto, unfolding(crate::specs::Slow::state_of, crate::specs::Slow::effect_of, crate::specs::Ticks::state_of_effect))]
impl State {
    /// The thread that a core runs next, if there is one.
    pub fn next_thread(&self, core: CoreNo) -> Option<ObjId>
        ensures { result ≡ option_map (λ c. c.occupant.thread) (plain.chosen (state_of self.now) core) }
    {
        match self.cores.get(usize::from(core)).copied().unwrap_or(None) {
            Some(occupant) => Some(occupant.thread),
            None => self.queue.first().copied(),
        }
    }

    /// The state after an effect of the thread that a core runs.
    pub fn after(
        &self,
        alloc: Global,
        core: CoreNo,
        chosen: Chosen,
        effect: Effect,
    ) -> Result<State, AllocError>
        requires core { core < length self.now.cores.items }
        requires in_pages { StoresInPages effect }
        ensures { IfOk result (λ s. state_of s
            ≡ plain.state_of_effect (state_of self.now) core (chosen_of chosen) (effect_of effect)) }
    {
        let Chosen { occupant, queue } = chosen;
        let id = occupant.thread;
        let left = occupant.slice.saturating_sub(1);
        let goes = at_slice_end(left, effect.goes);
        let thread = thread_after(core, &self.thread_at(id), goes, &effect);
        let Effect {
            stores,
            changes,
            wakes,
            output,
            takes,
            ..
        } = effect;
        let mut next = self.copy(alloc, inputs_from(takes))?;
        change_objects(
            next.objects.as_mut_slice(),
            stores.as_slice(),
            changes,
            id,
            thread,
        );
        next.queue = queue_after(queue, wakes.as_slice(), id, goes)?;
        next.cores[usize::from(core)] = on_core(id, left, goes);
        put(&mut next.out, output)?;
        Ok(next)
    }
}
