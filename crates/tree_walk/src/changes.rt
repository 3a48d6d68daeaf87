//! Which objects the sweep makes others, or takes away.

ghost use Rattle.std.specs.Prelude.{◌≡◌, ◌||◌, ◌<◌, ◌≤◌, ℕ, false, List, option_map, slice_index_or};
ghost use Rattle.std.specs.List.{list_any};
ghost use Rattle.sls_base.specs.declared.limits.TheConstants.{OBJECTS};
ghost use Rattle.sls_base.specs.declared.fixed.TheConstants.{SCHEDULER};
ghost use Rattle.link_lists.specs.Lists.{list_at};
ghost use Rattle.plain_model.specs.States.{State};
ghost use Rattle.plain_model.specs.Sweep as plain;
ghost use Rattle.kobj_table.specs.Slots.{cores_of, object_of, occupant_of};
ghost use Rattle.kobj_table.specs.Objects.{Rest, slot_at, state_of};
ghost use Rattle.tree_walk.specs.Reached.{TellsReached};

use crate::reached::Reached;
use kobj_table::{Cores, Objects, Slot};
use sls_base::{CORES, OBJECTS, ObjId, SCHEDULER, ThreadState};

/// What a thread waits on, calls, is served by or serves.
pub(crate) fn waits_for(state: ThreadState) -> Option<ObjId>
    ensures { result ≡ plain.waits_for state }
{
    match state {
        ThreadState::Waiting(id)
        | ThreadState::Calling(id)
        | ThreadState::Served(id)
        | ThreadState::Serving(id) => Some(id),
        ThreadState::Ready | ThreadState::Running(_) | ThreadState::Stopped(_) => None,
    }
}

impl Reached {
    /// Whether what is named has vanished.
    pub(crate) fn is_lost(&self, id: Option<ObjId>) -> bool
        ensures { (s : State) → TellsReached self.now s → result ≡ plain.is_lost s id }
    {
        match id {
            Some(id) => !self.has(id),
            None => false,
        }
    }

    /// Whether the thread that a core runs has vanished.
    pub(crate) fn is_lost_on(&self, running: Option<(ObjId, u8)>) -> bool
        ensures { (s : State) → TellsReached self.now s → result
            ≡ plain.is_lost s (plain.thread_on (option_map occupant_of running)) }
    {
        match running {
            Some((thread, _)) => !self.has(thread),
            None => false,
        }
    }

    /// Whether a list has a thread that vanishes.
    fn loses_any(&self, objects: &Objects, list: ObjId) -> bool
        requires { list < OBJECTS }
        ensures { (s : State) → TellsReached self.now s → result
            ≡ plain.loses_any s (list_at objects.now.links list) }
    {
        let mut thread = objects.first(list);
        while let Some(id) = thread {
            if !self.has(id) {
                return true;
            }
            thread = objects.next(id);
        }
        false
    }

    /// Whether some core runs a thread that vanishes.
    fn loses_a_core(&self, cores: Cores) -> bool
        ensures { (s : State) → TellsReached self.now s → result
            ≡ list_any (λ core. plain.is_lost s (plain.thread_on core)) (cores_of (Slot.Scheduler cores)) }
    {
        for core in 0..CORES.min(usize::from(cores.cores)) {
            if self.is_lost_on(cores.running[core]) {
                return true;
            }
        }
        false
    }

    /// Whether the run queue or a core has a thread that vanishes.
    fn loses_ready_or_running(&self, objects: &Objects) -> bool
        ensures { (s : State) → TellsReached self.now s → result
            ≡ (plain.loses_any s (list_at objects.now.links SCHEDULER)
            || list_any (λ core. plain.is_lost s (plain.thread_on core)) (cores_of (slot_at objects.now SCHEDULER))) }
    {
        let loses_a_core = match objects.slot(SCHEDULER) {
            Some(Slot::Scheduler(cores)) => self.loses_a_core(*cores),
            _ => false,
        };
        self.loses_any(objects, SCHEDULER) || loses_a_core
    }

    /// Whether an object that is reached loses a thread, or what it waits for.
    #[tactic(auto, unfolding(kobj_table::specs::Objects::state_of))]
    fn settles_otherwise(&self, objects: &Objects, id: ObjId, slot: &Slot) -> bool
        requires { id < OBJECTS }
        ensures { (rest : Rest) → TellsReached self.now (state_of objects.now rest) → result
            ≡ plain.is_settled_otherwise (state_of objects.now rest)
            (object_of rest.content slot.now (list_at objects.now.links id)) }
    {
        match slot {
            Slot::Thread(thread) => self.is_lost(waits_for(thread.state)),
            Slot::Connection(connection) => {
                self.is_lost(connection.client) || self.loses_any(objects, id)
            }
            Slot::Notification(_) => self.loses_any(objects, id),
            Slot::Scheduler(_) => self.loses_ready_or_running(objects),
            _ => false,
        }
    }

    /// Whether the sweep makes what stands at a number another, or takes it away.
    #[tactic(auto, unfolding(kobj_table::specs::Objects::state_of))]
    fn changes_at(&self, objects: &Objects, id: ObjId, slot: &Slot) -> bool
        requires id { id < OBJECTS }
        requires slot { slot.now ≡ slot_at objects.now id }
        ensures { (rest : Rest) → TellsReached self.now (state_of objects.now rest) → result
            ≡ plain.is_swept_otherwise (state_of objects.now rest) id }
    {
        match slot {
            Slot::Empty => false,
            slot => !self.has(id) || self.settles_otherwise(objects, id, slot),
        }
    }

    /// Which objects the sweep makes others, or takes away.
    pub(crate) fn changes(&self, objects: &Objects) -> [bool; OBJECTS]
        ensures told { (rest : Rest) (i : ℕ) → TellsReached self.now (state_of objects.now rest)
            → slice_index_or result i false ≡ plain.is_swept_otherwise (state_of objects.now rest) i }
        ensures past { (i : ℕ) → OBJECTS ≤ i → slot_at objects.now i ≡ Slot.Empty }
    {
        let slots: &[Slot] = &objects.slots;
        let mut changes = [false; OBJECTS];
        for (number, slot) in slots.iter().enumerate() {
            changes[number] = self.changes_at(objects, number as ObjId, slot);
        }
        changes
    }
}
