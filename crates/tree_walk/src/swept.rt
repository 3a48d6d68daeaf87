//! The sweep.

ghost use Rattle.std.specs.Prelude.{◌≡◌, ◌≢◌, ◌<◌, ◌≤◌, ◌&&◌, ℕ, true, false, filter, slice_index_or};
ghost use Rattle.sls_base.specs.declared.limits.TheConstants.{OBJECTS};
ghost use Rattle.sls_base.specs.declared.fixed.TheConstants.{SCHEDULER};
ghost use Rattle.link_lists.specs.Lists.{list_at};
ghost use Rattle.plain_model.specs.States.{State};
ghost use Rattle.plain_model.specs.Sweep as plain;
ghost use Rattle.kobj_table.specs.Slots.{is_scheduler};
ghost use Rattle.kobj_table.specs.Objects.{Rest, slot_at, state_of, HasNoStrays};
ghost use Rattle.tree_walk.specs.Reached.{has, TellsReached};
ghost use Rattle.tree_walk.specs.Sweep as left;
ghost use Rattle.tree_walk.specs.Sweep.{left_at, threads_left};

use crate::changes::waits_for;
use crate::reached::Reached;
use ipc_note::Connection;
use kobj_table::{Cores, Objects, Slot};
use sls_base::{CORES, LOST_OBJECT, OBJECTS, ObjId, SCHEDULER, Thread, ThreadState};

impl Reached {
    /// Whether a thread stays in the list of a number.
    fn stays_in(&self, list: ObjId, id: ObjId) -> bool
        ensures { result ≡ (has self.now list && has self.now id) }
    {
        self.has(list) && self.has(id)
    }

    /// Takes the threads that vanish out of a list, or all where its object vanishes.
    fn sweep_list(&self, objects: &mut Objects, list: ObjId)
        requires { list < OBJECTS }
        ensures swept { list_at objects.new.links list
            ≡ filter (λ id. has self.now list && has self.now id) (list_at objects.old.links list) }
        ensures others { (i : ℕ) → i ≢ list → list_at objects.new.links i ≡ list_at objects.old.links i }
        ensures slots { objects.new.slots ≡ objects.old.slots }
    {
        let mut thread = objects.first(list);
        while let Some(id) = thread {
            thread = objects.next(id);
            if !self.stays_in(list, id) {
                objects.leave(id);
            }
        }
    }

    /// Takes the threads that vanish out of all lists, and out of those of objects that vanish all.
    fn sweep_lists(&self, objects: &mut Objects)
        ensures lists { (s : State) (i : ℕ) → TellsReached self.now s → i < OBJECTS
            → list_at objects.new.links i ≡ threads_left s objects.old i }
        ensures past { (i : ℕ) → OBJECTS ≤ i → list_at objects.new.links i ≡ list_at objects.old.links i }
        ensures slots { objects.new.slots ≡ objects.old.slots }
    {
        for list in 0..OBJECTS {
            self.sweep_list(objects, list as ObjId);
        }
    }

    /// What a thread does, where that it waits for may have vanished.
    fn settled_state(&self, state: ThreadState) -> ThreadState
        ensures { (s : State) → TellsReached self.now s → result ≡ plain.settled_state s state }
    {
        if self.is_lost(waits_for(state)) {
            ThreadState::Stopped(LOST_OBJECT)
        } else {
            state
        }
    }

    /// A thread that is named, unless it has vanished.
    fn kept(&self, id: Option<ObjId>) -> Option<ObjId>
        ensures { (s : State) → TellsReached self.now s → result ≡ plain.kept s id }
    {
        if self.is_lost(id) { None } else { id }
    }

    /// What a core runs, unless that has vanished.
    fn left_on(&self, running: Option<(ObjId, u8)>) -> Option<(ObjId, u8)>
        ensures { (s : State) → TellsReached self.now s → result ≡ left.left_on s running }
    {
        if self.is_lost_on(running) {
            None
        } else {
            running
        }
    }

    /// The cores without the threads that have vanished.
    fn left_cores(&self, cores: Cores) -> Cores
        ensures { (s : State) → TellsReached self.now s → result ≡ left.left_cores s cores }
    {
        let mut left = cores;
        for core in 0..CORES.min(usize::from(cores.cores)) {
            left.running[core] = self.left_on(cores.running[core]);
        }
        left
    }

    /// What is left in the slot of a number that is reached.
    fn left_in(&self, id: ObjId, slot: Slot) -> Slot
        ensures { (s : State) → TellsReached self.now s → result ≡ left.left_in s id slot }
    {
        match slot {
            Slot::Thread(thread) => Slot::Thread(Thread {
                state: self.settled_state(thread.state),
                ..thread
            }),
            Slot::Connection(connection) => Slot::Connection(Connection {
                client: self.kept(connection.client),
                ..connection
            }),
            Slot::Scheduler(cores) if id == SCHEDULER => Slot::Scheduler(self.left_cores(cores)),
            slot => slot,
        }
    }

    /// Takes away what stands at a number that isn't reached, and else settles it.
    fn sweep_slot(&self, objects: &mut Objects, id: ObjId)
        requires { id < OBJECTS }
        ensures left { (s : State) → TellsReached self.now s → slot_at objects.new id ≡ left_at s objects.old id }
        ensures others { (i : ℕ) → i ≢ id → slot_at objects.new i ≡ slot_at objects.old i }
        ensures links { objects.new.links ≡ objects.old.links }
    {
        let slot = objects.take(id);
        if self.has(id) {
            objects.put(id, self.left_in(id, slot));
        }
    }

    /// Takes away the objects that aren't reached, and settles those that are.
    fn sweep_slots(&self, objects: &mut Objects)
        ensures left { (s : State) (i : ℕ) → TellsReached self.now s → i < OBJECTS
            → slot_at objects.new i ≡ left_at s objects.old i }
        ensures past { (i : ℕ) → OBJECTS ≤ i → slot_at objects.new i ≡ slot_at objects.old i }
        ensures links { objects.new.links ≡ objects.old.links }
    {
        for id in 0..OBJECTS {
            self.sweep_slot(objects, id as ObjId);
        }
    }
}

/// Sweeps away the objects that the tree of capabilities doesn't reach. The answer tells which objects that makes
/// others, or takes away.
pub fn sweep(objects: &mut Objects) -> [bool; OBJECTS]
    ensures state { (rest : Rest) → state_of objects.new rest ≡ plain.swept (state_of objects.old rest) }
    ensures told { (rest : Rest) (i : ℕ) → slice_index_or result i false
        ≡ plain.is_swept_otherwise (state_of objects.old rest) i }

    // What isn't told is as before, with what the plain machine doesn't know of it.
    ensures slots { (i : ℕ) → slice_index_or result i false ≡ false → slot_at objects.new i ≡ slot_at objects.old i }
    ensures lists { is_scheduler (slot_at objects.old SCHEDULER) ≡ true → HasNoStrays objects.old → (i : ℕ)
        → slice_index_or result i false ≡ false → list_at objects.new.links i ≡ list_at objects.old.links i }

    // What is left at each number, and of its list.
    ensures left { (rest : Rest) (i : ℕ) → slot_at objects.new i ≡ left_at (state_of objects.old rest) objects.old i }
    ensures threads { (rest : Rest) (i : ℕ) → i < OBJECTS
        → list_at objects.new.links i ≡ threads_left (state_of objects.old rest) objects.old i }
    ensures scheduler { is_scheduler (slot_at objects.new SCHEDULER) ≡ is_scheduler (slot_at objects.old SCHEDULER) }
    ensures strays { HasNoStrays objects.old → HasNoStrays objects.new }
{
    // Its contract says that the scheduler is reached.
    plain_laws::laws::reached_is_least();
    let reached = Reached::of(objects);
    let changes = reached.changes(objects);
    reached.sweep_lists(objects);
    reached.sweep_slots(objects);
    changes
}
