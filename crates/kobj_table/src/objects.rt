//! The objects and their lists.

ghost use Rattle.std.specs.Prelude.{◌≡◌, ◌≢◌, ℕ, ◌+◌, ◌<◌, ◌++◌, ◌↔◌, true, false, slice_set, List, [], ◌∷◌, drop, length, slice_get, slice_index_or, option_map, Some, None, IsSome, IsNone, IfSome, IfNone};
ghost use Rattle.link_lists.specs.Lists.{list_at, without, IsFree, IsLinks};
ghost use Rattle.ipc_note.specs.Lists.{Appends};
ghost use Rattle.mem_space.specs.Memory.{MarksPage};
ghost use Rattle.plain_model.specs.Objects as plain;
ghost use Rattle.plain_model.specs.Objects.{Object, is_thread};
ghost use Rattle.plain_model.specs.States.{thread_at};
ghost use Rattle.plain_state.specs.declared.objects.Kind.TheVariants.{GroupKind, SpaceKind, MemoryKind, ConnectionKind, NotificationKind, OutputKind, InputKind};
ghost use Rattle.kobj_table.specs.declared.slot.Cores.{Cores};
ghost use Rattle.kobj_table.specs.Slots.{object_of, is_scheduler, occupant_of};

use crate::slot::Slot;
use cap_group::Group;
use ipc_note::{Connection, Notification, RUN_QUEUE, ThreadLists};
use link_lists::Links;
use mem_space::{Memory, PageIndex, Region, Space};
use sls_base::{CORES, CoreNo, OBJECTS, ObjId, REGISTERS, Ring, SCHEDULER, Thread, ThreadState};
use std::{array, mem};

/// The objects by number, and the lists of threads: list 1 is the run queue, list i has those that wait on object i.
#[derive(Drop)]
pub struct Objects {
    pub slots: [Slot; OBJECTS],
    pub links: ThreadLists,
}

#[tactic(auto, unfolding(crate::specs::Objects::state_of))]
impl Objects {
    ghost use Rattle.mem_space.specs.declared.memory.MemPage.{MemPage};
    ghost use Rattle.kobj_table.specs.Slots.{memory_in, space_in, is_space, has_list};
    ghost use Rattle.mem_space.specs.Region.{IsRegion};
    ghost use Rattle.mem_space.specs.Space.{IsSpace, Overlaps, inserted, without_base};
    ghost use Rattle.sls_base.specs.declared.limits.TheConstants.{SPACE_REGIONS};
    ghost use Rattle.kobj_table.specs.Objects.{slot_at, object_at, IsOtherThan, Rest, state_of, state_with_object, state_with_at, state_with_queue, state_with_core, Puts, HasNoStrays, HasNoStraysAt};

    /// No objects, and empty lists.
    pub fn new() -> Self
        ensures slots { (i : ℕ) → slot_at result i ≡ Slot.Empty }
        ensures lists { (i : ℕ) → list_at result.links i ≡ [] }
        ensures strays { HasNoStrays result }
    {
        Objects {
            slots: array::from_fn(|_| Slot::Empty),
            links: Links::new(),
        }
    }

    /// What stands at a number. It is None exactly where there is no such number.
    pub fn slot(&self, id: ObjId) -> Option<&Slot>
        ensures some { IfSome result (λ slot. slot.now ≡ slot_at self.now id) }
        ensures none { IfNone result (slot_at self.now id ≡ Slot.Empty) }
        ensures range { IsSome result ↔ (id < OBJECTS) }
    {
        self.slots.get(id as usize)
    }

    /// Puts something at a number, in the place of what stood there.
    pub fn put(&mut self, id: ObjId, slot: Slot)
        requires { id < OBJECTS }
        ensures puts { Puts self.old self.new id slot }
        ensures state { (rest : Rest) (object : Object) → id ≢ SCHEDULER
            → object_of rest.content slot (list_at self.old.links id) ≡ Some object
            → state_of self.new rest ≡ state_with_object (state_of self.old rest) id object }
        ensures whole { (rest : Rest) → id ≢ SCHEDULER → state_of self.new rest
            ≡ state_with_at (state_of self.old rest) id (object_of rest.content slot (list_at self.old.links id)) }
        ensures strays { HasNoStrays self.old → HasNoStraysAt self.old slot id → HasNoStrays self.new }
    {
        self.slots[id as usize] = slot;
    }

    /// Takes what stands at a number away.
    pub fn take(&mut self, id: ObjId) -> Slot
        requires { id < OBJECTS }
        ensures taken { result ≡ slot_at self.old id }
        ensures empty { Puts self.old self.new id Slot.Empty }
        ensures state { (rest : Rest) → id ≢ SCHEDULER
            → state_of self.new rest ≡ state_with_at (state_of self.old rest) id None }
        ensures strays { HasNoStrays self.old → HasNoStraysAt self.old Slot.Empty id → HasNoStrays self.new }
    {
        mem::replace(&mut self.slots[id as usize], Slot::Empty)
    }

    /// The group of a number, if there is one.
    pub fn group(&self, id: ObjId) -> Option<Group>
        ensures some { IfSome result (λ group. slot_at self.now id ≡ Slot.Group group) }
        ensures none { IfNone result (IsOtherThan GroupKind self.now id) }
        ensures range { IsSome result → id < OBJECTS }
    {
        match self.slot(id) {
            Some(Slot::Group(group)) => Some(*group),
            _ => None,
        }
    }

    /// The space of a number, if there is one.
    pub fn space(&self, id: ObjId) -> Option<&Space>
        ensures some { IfSome result (λ space. slot_at self.now id ≡ Slot.Space space.now) }
        ensures none { IfNone result (IsOtherThan SpaceKind self.now id) }
        ensures range { IsSome result → id < OBJECTS }
    {
        match self.slot(id) {
            Some(Slot::Space(space)) => Some(space),
            _ => None,
        }
    }

    /// The memory object of a number, if there is one.
    pub fn memory(&self, id: ObjId) -> Option<&Memory>
        ensures some { IfSome result (λ memory. slot_at self.now id ≡ Slot.Memory memory.now) }
        ensures none { IfNone result (IsOtherThan MemoryKind self.now id) }
        ensures range { IsSome result → id < OBJECTS }
    {
        match self.slot(id) {
            Some(Slot::Memory(memory)) => Some(memory),
            _ => None,
        }
    }

    /// The connection of a number, if there is one.
    pub fn connection(&self, id: ObjId) -> Option<Connection>
        ensures some { IfSome result (λ c. slot_at self.now id ≡ Slot.Connection c) }
        ensures none { IfNone result (IsOtherThan ConnectionKind self.now id) }
        ensures range { IsSome result → id < OBJECTS }
    {
        match self.slot(id) {
            Some(Slot::Connection(connection)) => Some(*connection),
            _ => None,
        }
    }

    /// The notification of a number, if there is one.
    pub fn notification(&self, id: ObjId) -> Option<Notification>
        ensures some { IfSome result (λ note. slot_at self.now id ≡ Slot.Notification note) }
        ensures none { IfNone result (IsOtherThan NotificationKind self.now id) }
        ensures range { IsSome result → id < OBJECTS }
    {
        match self.slot(id) {
            Some(Slot::Notification(note)) => Some(*note),
            _ => None,
        }
    }

    /// The ring of a number, if there is one.
    pub fn ring(&self, id: ObjId) -> Option<Ring>
        ensures some { IfSome result (λ ring. slot_at self.now id ≡ Slot.Ring ring) }
        ensures no_output { IfNone result (IsOtherThan OutputKind self.now id) }
        ensures no_input { IfNone result (IsOtherThan InputKind self.now id) }
        ensures range { IsSome result → id < OBJECTS }
    {
        match self.slot(id) {
            Some(Slot::Ring(ring)) => Some(*ring),
            _ => None,
        }
    }

    /// The thread of a number, if there is one.
    pub fn thread(&self, id: ObjId) -> Option<Thread>
        ensures some { IfSome result (λ thread. slot_at self.now id ≡ Slot.Thread thread) }
        ensures none { IfNone result ((content : ℕ → ℕ → ℕ) → is_thread (object_at content self.now id) ≡ false) }
        ensures range { IsSome result → id < OBJECTS }
    {
        match self.slot(id) {
            Some(Slot::Thread(thread)) => Some(*thread),
            _ => None,
        }
    }

    /// The thread of a number, to be lent; where there is none it is one of zeros.
    #[tactic(auto, unfolding(crate::specs::Objects::state_of, plain_state::specs::States::zero_registers))]
    pub fn thread_or_zeros(&self, id: ObjId) -> Thread
        ensures { (rest : Rest) → result ≡ thread_at (state_of self.now rest) id }
    {
        match self.slot(id) {
            Some(Slot::Thread(thread)) => *thread,
            _ => Thread {
                group: 0,
                space: 0,
                state: ThreadState::Ready,
                pc: 0,
                x: [0; REGISTERS],
            },
        }
    }

    /// Puts a thread at a number.
    pub fn set_thread(&mut self, id: ObjId, thread: Thread)
        requires { id < OBJECTS }
        ensures puts { Puts self.old self.new id (Slot.Thread thread) }
        ensures state { (rest : Rest) → id ≢ SCHEDULER
            → state_of self.new rest ≡ state_with_object (state_of self.old rest) id (plain.Thread thread) }
        ensures strays { HasNoStrays self.old → HasNoStraysAt self.old (Slot.Thread thread) id
            → HasNoStrays self.new }
    {
        self.put(id, Slot::Thread(thread));
    }

    /// Adds a region to the space of a number.
    pub fn map_region(&mut self, id: ObjId, region: Region)
        requires id { id < OBJECTS }
        requires there { is_space (slot_at self.old id) ≡ true }
        requires space { IsSpace (space_in (slot_at self.old id)) }
        requires region { IsRegion region }
        requires apart { ¬ Overlaps (space_in (slot_at self.old id)) region.base region.count }
        requires room { length (space_in (slot_at self.old id)).regions.items < SPACE_REGIONS }
        ensures puts { Puts self.old self.new id (Slot.Space (space_in (slot_at self.new id))) }
        ensures regions { (space_in (slot_at self.new id)).regions.items
            ≡ inserted region (space_in (slot_at self.old id)).regions.items }
        ensures strays { HasNoStrays self.old → HasNoStrays self.new }
    {
        let mut slot = self.take(id);
        slot.map_region(region);
        self.put(id, slot);
    }

    /// Takes the region that begins at a page of addresses out of the space of a number, if there is one.
    pub fn unmap_region(&mut self, id: ObjId, base: u32)
        requires id { id < OBJECTS }
        requires there { is_space (slot_at self.old id) ≡ true }
        ensures puts { Puts self.old self.new id (Slot.Space (space_in (slot_at self.new id))) }
        ensures regions { (space_in (slot_at self.new id)).regions.items
            ≡ without_base (space_in (slot_at self.old id)).regions.items base }
        ensures strays { HasNoStrays self.old → HasNoStrays self.new }
    {
        let mut slot = self.take(id);
        slot.unmap_region(base);
        self.put(id, slot);
    }

    /// Says of a page of a memory object whether it is fresh.
    pub fn set_fresh(&mut self, id: ObjId, index: PageIndex, fresh: bool)
        requires id { id < OBJECTS }
        requires there { index < length (memory_in (slot_at self.old id)).pages.items }
        ensures marked { MarksPage (memory_in (slot_at self.old id)) (memory_in (slot_at self.new id)) index fresh }
        ensures memory { slot_at self.new id ≡ Slot.Memory (memory_in (slot_at self.new id)) }
        ensures others { (i : ℕ) → i ≢ id → slot_at self.new i ≡ slot_at self.old i }
        ensures links { self.new.links ≡ self.old.links }
        // A page that is fresh is zero: where the content of its number is zero, no plain object changes.
        ensures state { (rest : Rest) (page : MemPage)
            → slice_get (memory_in (slot_at self.old id)).pages.items index ≡ Some page
            → ((offset : ℕ) → rest.content page.page offset ≡ 0)
            → state_of self.new rest ≡ state_of self.old rest }
        ensures strays { HasNoStrays self.old → HasNoStrays self.new }
    {
        let mut slot = self.take(id);
        slot.set_fresh(index, fresh);
        self.put(id, slot);
    }

    /// What a core runs: a thread and what is left of its slice.
    pub fn running(&self, core: CoreNo) -> Option<(ObjId, u8)>
        requires { core < CORES }
        ensures state { (rest : Rest) → core < length (state_of self.now rest).cores
            → option_map occupant_of result ≡ slice_index_or (state_of self.now rest).cores core None }
        ensures held { (cores : Cores) → slot_at self.now SCHEDULER ≡ Slot.Scheduler cores
            → result ≡ slice_index_or cores.running core None }
    {
        match self.slot(SCHEDULER) {
            Some(Slot::Scheduler(cores)) => cores.running[core as usize],
            _ => None,
        }
    }

    /// Says what a core runs.
    pub fn run(&mut self, core: CoreNo, running: Option<(ObjId, u8)>)
        requires { core < CORES }
        ensures state { (rest : Rest)
            → state_of self.new rest ≡ state_with_core (state_of self.old rest) core (option_map occupant_of running) }
        ensures ran { (cores : Cores) → slot_at self.old SCHEDULER ≡ Slot.Scheduler cores
            → slot_at self.new SCHEDULER
            ≡ Slot.Scheduler (record cores { running = slice_set cores.running core running }) }
        ensures none { is_scheduler (slot_at self.old SCHEDULER) ≡ false → self.new ≡ self.old }
        ensures others { (i : ℕ) → i ≢ SCHEDULER → slot_at self.new i ≡ slot_at self.old i }
        ensures links { self.new.links ≡ self.old.links }
        ensures strays { HasNoStrays self.old → HasNoStrays self.new }
    {
        let Some(Slot::Scheduler(cores)) = self.slot(SCHEDULER) else {
            return;
        };
        let mut cores = *cores;
        cores.running[core as usize] = running;
        self.put(SCHEDULER, Slot::Scheduler(cores));
    }

    /// The first thread of a list. Each thread is in at most one list, and there once.
    pub fn first(&self, list: ObjId) -> Option<ObjId>
        requires { list < OBJECTS }
        ensures first { result ≡ slice_get (list_at self.now.links list) 0 }
        ensures range { IfSome result (λ thread. thread < OBJECTS) }
        ensures once { IsLinks OBJECTS OBJECTS self.now.links }
    {
        match self.links.first(list as usize) {
            Some(first) => Some(first as ObjId),
            None => None,
        }
    }

    /// The thread behind another in its list.
    pub fn next(&self, thread: ObjId) -> Option<ObjId>
        requires { thread < OBJECTS }
        ensures next { (i k : ℕ) → slice_get (list_at self.now.links i) k ≡ Some thread
            → result ≡ slice_get (list_at self.now.links i) (k + 1) }
        ensures free { IsFree self.now.links thread → result ≡ None }
        ensures range { IfSome result (λ next. next < OBJECTS) }
    {
        match self.links.next(thread as usize) {
            Some(next) => Some(next as ObjId),
            None => None,
        }
    }

    /// Puts a thread that stands in no list at the end of the run queue.
    pub fn enqueue(&mut self, id: ObjId)
        requires id { id < OBJECTS }
        requires free { IsFree self.old.links id }
        ensures state { (rest : Rest) → has_list (slot_at self.old SCHEDULER) ≡ false → state_of self.new rest
            ≡ state_with_queue (state_of self.old rest) ((state_of self.old rest).queue ++ id ∷ []) }
        ensures last { Appends self.old.links self.new.links RUN_QUEUE id }
        ensures slots { self.new.slots ≡ self.old.slots }
        ensures strays { HasNoStrays self.old → HasNoStrays self.new }
    {
        self.links.push_back(RUN_QUEUE, id as usize);
    }

    /// Takes the front of the run queue.
    pub fn dequeue(&mut self) -> Option<ObjId>
        ensures front { result ≡ slice_get (list_at self.old.links RUN_QUEUE) 0 }
        ensures state { (rest : Rest) → has_list (slot_at self.old SCHEDULER) ≡ false → state_of self.new rest
            ≡ state_with_queue (state_of self.old rest) (drop 1 (state_of self.old rest).queue) }
        ensures left { list_at self.new.links RUN_QUEUE ≡ drop 1 (list_at self.old.links RUN_QUEUE) }
        ensures same { IfNone result (self.new ≡ self.old) }
        ensures others { (i : ℕ) → i ≢ RUN_QUEUE → list_at self.new.links i ≡ list_at self.old.links i }
        ensures slots { self.new.slots ≡ self.old.slots }
        ensures range { IfSome result (λ id. id < OBJECTS) }
        ensures freed { IfSome result (IsFree self.new.links) }
        ensures strays { HasNoStrays self.old → HasNoStrays self.new }
    {
        match self.links.pop_front(RUN_QUEUE) {
            Some(front) => Some(front as ObjId),
            None => None,
        }
    }

    /// Takes a thread out of the list that it stands in, if it is in one.
    pub fn leave(&mut self, id: ObjId)
        requires { id < OBJECTS }
        ensures rest { (i : ℕ) → list_at self.new.links i ≡ without id (list_at self.old.links i) }
        ensures freed { IsFree self.new.links id }
        ensures slots { self.new.slots ≡ self.old.slots }
        ensures strays { HasNoStrays self.old → HasNoStrays self.new }
    {
        let thread = id as usize;
        if self.links.is_linked(thread) {
            self.links.unlink(thread);
        }
    }
}
