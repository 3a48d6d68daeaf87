//! Which objects are reached, and what a commit sweeps away.

ghost use Rattle.std.specs.Prelude.{◌≡◌, ℕ, ◌+◌, IfOk, Some, filter, length, map, ◌&&◌};
ghost use Rattle.std.specs.List.{list_any};
ghost use Rattle.plain_state.specs.Objects.{every_object};
ghost use Rattle.plain_state.specs.States as states;
ghost use Rattle.plain_state.specs.Sweep as plain;
ghost use Rattle.plain_state.specs.Sweep.{is_within, is_reached};
ghost use Rattle.plain_state.specs.Slow.{slot_of, object_of, objects_of, state_of};
ghost use Rattle.plain_state.specs.SlowSweep.{has, TellsWithin, TellsReached};
ghost use Rattle.plain_state.specs.declared.state.TheConstants.{NUMBERS};

use crate::copies::{copies_of_inputs, copies_of_outputs};
use crate::object::Object;
use crate::objects::{Capability, Occupant};
use crate::state::{NUMBERS, OBJECT_END, State};
use sls_base::{FIRST_PROGRAM_OBJECT, LOST_OBJECT, OBJECTS, ObjId, Thread, ThreadState};
use std::alloc::{AllocError, Global};

/// Whether objects are reached, by number.
#[derive(Drop)]
pub struct Reached {
    is: [bool; 256],
}

/// Whether the capability in a slot is to an object.
fn is_to(slot: &Option<Capability>, id: ObjId) -> bool
    ensures { result ≡ plain.is_to id slot.now }
{
    match slot {
        Some(cap) => cap.object == id,
        None => false,
    }
}

/// Whether an object has an edge to another.
fn leads_to(object: &Option<Object>, id: ObjId) -> bool
    ensures { result ≡ plain.leads_to (slot_of object.now) id }
{
    match object {
        Some(Object::Group(slots)) => slots.iter().any(|slot| is_to(slot, id)),
        Some(Object::Thread(thread)) => thread.group == id || thread.space == id,
        Some(Object::Space(regions)) => regions.iter().any(|region| region.memory == id),
        Some(Object::Connection(server, _, _)) => *server == id,
        _ => false,
    }
}

/// The thread on a core.
fn thread_on(core: &Option<Occupant>) -> Option<ObjId>
    ensures { result ≡ plain.thread_on core.now }
{
    match core {
        Some(occupant) => Some(occupant.thread),
        None => None,
    }
}

/// What a thread waits on, calls, is served by or serves.
fn waits_for(state: ThreadState) -> Option<ObjId>
    ensures { result ≡ plain.waits_for state }
{
    match state {
        ThreadState::Waiting(id)
        | ThreadState::Calling(id)
        | ThreadState::Served(id)
        | ThreadState::Serving(id) => Some(id),
        ThreadState::Ready | ThreadState::Running(_) | ThreadState::Stopped(_) => None,
    }
}

impl Reached {
    pub fn has(&self, id: ObjId) -> bool
        ensures { result ≡ has self.now id }
    {
        self.is[usize::from(id)]
    }

    /// The objects that are always there.
    fn first() -> Reached
        ensures { (s : states.State) → TellsWithin result s 0 }
    {
        let mut is = [false; NUMBERS];
        for id in 0..FIRST_PROGRAM_OBJECT {
            is[usize::from(id)] = true;
        }
        Reached { is }
    }

    /// Whether an object that is reached leads to another.
    fn any_leads_to(&self, state: &State, id: ObjId) -> bool
        ensures { result ≡ list_any
            (λ from. has self.now from && plain.leads_to ((state_of state.now).objects from) id) every_object }
    {
        (0..OBJECT_END).any(|from| self.has(from) && leads_to(state.object(from), id))
    }

    /// Whether an object is reached, or one edge away from one that is.
    fn is_next(&self, state: &State, id: ObjId) -> bool
        ensures { (n : ℕ) → TellsWithin self.now (state_of state.now) n → result
            ≡ is_within (state_of state.now) (n + 1) id }
    {
        self.has(id) || self.any_leads_to(state, id)
    }

    /// With the objects that are one edge further away.
    fn next(&self, state: &State) -> Reached
        ensures { (n : ℕ) → TellsWithin self.now (state_of state.now) n
            → TellsWithin result (state_of state.now) (n + 1) }
    {
        let mut is = [false; NUMBERS];
        for number in 0..NUMBERS {
            is[number] = self.is_next(state, number as ObjId);
        }
        Reached { is }
    }

    fn is_lost(&self, id: Option<ObjId>) -> bool
        ensures { (s : states.State) → TellsReached self.now s → result ≡ plain.is_lost s id }
    {
        match id {
            Some(id) => !self.has(id),
            None => false,
        }
    }

    fn kept(&self, alloc: Global, ids: &[ObjId]) -> Result<Vec<ObjId>, AllocError>
        ensures { IfOk result (λ kept. (s : states.State) → TellsReached self.now s → kept.items
            ≡ filter (is_reached s) ids.now) }
    {
        let mut kept = Vec::new(alloc);
        for id in ids {
            if self.has(*id) {
                kept.push(*id)?;
            }
        }
        Ok(kept)
    }

    fn settled_state(&self, state: ThreadState) -> ThreadState
        ensures { (s : states.State) → TellsReached self.now s → result ≡ plain.settled_state s state }
    {
        if self.is_lost(waits_for(state)) {
            ThreadState::Stopped(LOST_OBJECT)
        } else {
            state
        }
    }

    /// An object without the threads that have vanished.
    fn settled(&self, alloc: Global, object: &Object) -> Result<Object, AllocError>
        ensures { IfOk result (λ other. (s : states.State) → TellsReached self.now s → object_of other
            ≡ plain.settled s (object_of object.now)) }
    {
        Ok(match object {
            Object::Thread(thread) => Object::Thread(Thread {
                group: thread.group,
                space: thread.space,
                state: self.settled_state(thread.state),
                pc: thread.pc,
                x: thread.x,
            }),
            Object::Connection(server, client, clients) => {
                let client = if self.is_lost(*client) { None } else { *client };
                Object::Connection(*server, client, self.kept(alloc, clients.as_slice())?)
            }
            Object::Notification(count, waiters) => {
                Object::Notification(*count, self.kept(alloc, waiters.as_slice())?)
            }
            other => other.copy(alloc)?,
        })
    }

    /// What a core runs, unless that has vanished.
    fn kept_on_core(&self, core: &Option<Occupant>) -> Option<Occupant>
        ensures { (s : states.State) → TellsReached self.now s → result ≡ plain.kept_on_core s core.now }
    {
        if self.is_lost(thread_on(core)) {
            None
        } else {
            *core
        }
    }

    fn kept_on_cores(
        &self,
        alloc: Global,
        cores: &[Option<Occupant>],
    ) -> Result<Vec<Option<Occupant>>, AllocError>
        ensures { IfOk result (λ kept. (s : states.State) → TellsReached self.now s → kept.items
            ≡ map (plain.kept_on_core s) cores.now) }
    {
        let mut kept = Vec::new(alloc);
        for core in cores {
            kept.push(self.kept_on_core(core))?;
        }
        Ok(kept)
    }

    fn loses_any(&self, ids: &[ObjId]) -> bool
        ensures { (s : states.State) → TellsReached self.now s → result ≡ plain.loses_any s ids.now }
    {
        ids.iter().any(|id| !self.has(*id))
    }

    fn loses_a_core(&self, cores: &[Option<Occupant>]) -> bool
        ensures { (s : states.State) → TellsReached self.now s → result
            ≡ list_any (λ core. plain.is_lost s (plain.thread_on core)) cores.now }
    {
        cores.iter().any(|core| self.is_lost(thread_on(core)))
    }

    #[tactic(auto, unfolding(crate::specs::Slow::state_of))]
    fn is_settled_otherwise(&self, state: &State, object: &Object) -> bool
        ensures { TellsReached self.now (state_of state.now) → result
            ≡ plain.is_settled_otherwise (state_of state.now) (Some (object_of object.now)) }
    {
        match object {
            Object::Thread(thread) => self.is_lost(waits_for(thread.state)),
            Object::Connection(_, client, clients) => {
                self.is_lost(*client) || self.loses_any(clients.as_slice())
            }
            Object::Notification(_, waiters) => self.loses_any(waiters.as_slice()),
            Object::Scheduler => {
                self.loses_any(state.queue.as_slice()) || self.loses_a_core(state.cores.as_slice())
            }
            _ => false,
        }
    }
}

#[tactic(auto, unfolding(crate::specs::Slow::state_of))]
impl State {
    /// The objects that are reached.
    #[tactic(auto, unfolding(crate::specs::Sweep::is_reached))]
    pub fn reached(&self) -> Reached
        ensures { TellsReached result (state_of self.now) }
    {
        let mut reached = Reached::first();
        for _ in 0..OBJECTS {
            reached = reached.next(self);
        }
        reached
    }

    /// What the sweep leaves at a number.
    fn swept_object(
        &self,
        alloc: Global,
        reached: &Reached,
        id: ObjId,
    ) -> Result<Option<Object>, AllocError>
        requires { TellsReached reached.now (state_of self.now) }
        ensures { IfOk result (λ object. slot_of object ≡ (plain.swept (state_of self.now)).objects id) }
    {
        match self.object(id) {
            Some(object) if reached.has(id) => Ok(Some(reached.settled(alloc, object)?)),
            _ => Ok(None),
        }
    }

    fn swept_objects(
        &self,
        alloc: Global,
        reached: &Reached,
    ) -> Result<Vec<Option<Object>>, AllocError>
        requires { TellsReached reached.now (state_of self.now) }
        ensures sized { IfOk result (λ objects. length objects.items ≡ NUMBERS) }
        ensures objects { IfOk result
            (λ objects. objects_of objects.items ≡ (plain.swept (state_of self.now)).objects) }
    {
        let mut objects = Vec::new(alloc);
        for number in 0..NUMBERS {
            objects.push(self.swept_object(alloc, reached, number as ObjId)?)?;
        }
        Ok(objects)
    }

    /// The state without the objects that aren't reached.
    pub fn swept(&self, alloc: Global) -> Result<State, AllocError>
        ensures { IfOk result (λ s. state_of s ≡ plain.swept (state_of self.now)) }
    {
        let reached = self.reached();
        Ok(State {
            objects: self.swept_objects(alloc, &reached)?,
            queue: reached.kept(alloc, self.queue.as_slice())?,
            cores: reached.kept_on_cores(alloc, self.cores.as_slice())?,
            out: copies_of_outputs(alloc, self.out.as_slice())?,
            inputs: copies_of_inputs(alloc, self.inputs.as_slice(), 0)?,
        })
    }

    /// Whether the sweep makes an object another, or takes it away.
    pub fn is_swept_otherwise(&self, reached: &Reached, id: ObjId) -> bool
        ensures { TellsReached reached.now (state_of self.now) → result
            ≡ plain.is_swept_otherwise (state_of self.now) id }
    {
        match self.object(id) {
            Some(object) => !reached.has(id) || reached.is_settled_otherwise(self, object),
            None => false,
        }
    }
}
