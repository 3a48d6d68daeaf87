//! What the calls on rings, spaces and groups do that aren't refused.

ghost use Rattle.std.specs.Prelude.{◌≡◌, ◌≤◌, ◌/◌, ◌==◌, IfOk, [], ◌∷◌, filter, length, map, not, slice_index_or, slice_set, unwrap_or};
ghost use Rattle.sls_base.specs.declared.limits.TheConstants.{ENTRY_BYTES, GROUP_SLOTS, PAGE_BYTES};
ghost use Rattle.plain_state.specs.Objects as objects;
ghost use Rattle.plain_state.specs.Calls as calls;
ghost use Rattle.plain_state.specs.CallEffects as plain;
ghost use Rattle.plain_state.specs.Memory.{byte_at};
ghost use Rattle.plain_state.specs.Slow.{object_of, slot_of, change_of, state_of, effect_of, StoresInPages};

use crate::effect::{Output, Place};
use crate::memory::{places_of, stores_at};
use crate::object::{Object, copy_of_slots, regions_of, slots_of};
use crate::objects::{Capability, Region};
use crate::page::PAGE;
use crate::refusals::free_slot;
use crate::slow_calls::arg;
use crate::slow_effect::{Change, Effect};
use crate::state::State;
use arrayvec::ArrayVec;
use sls_base::{ObjId, PAGE_BYTES, READ, Thread, WRITE};
use std::alloc::{AllocError, Global};

/// An object that gets a value, or is made.
pub fn change(id: ObjId, object: Object) -> Change
    ensures { change_of result ≡ plain.change id (object_of object) }
{
    Change { id, object }
}

/// The slot that `free_slot` finds, as a call answers it.
pub fn slot_number(slots: &[Option<Capability>]) -> u32
    requires { length slots.now ≤ GROUP_SLOTS }
    ensures { result ≡ unwrap_or (calls.free_slot slots.now) 0 }
{
    free_slot(slots).unwrap_or(0) as u32
}

/// The slots of a group with one of them changed, if there is one of that number.
fn with_slot(
    slots: &[Option<Capability>],
    slot: usize,
    cap: Option<Capability>,
) -> ArrayVec<Option<Capability>, 32>
    requires { length slots.now ≤ GROUP_SLOTS }
    ensures { result.items ≡ slice_set slots.now slot cap }
{
    let mut copy = copy_of_slots(slots);
    if slot < slots.len() {
        copy.as_mut_slice()[slot] = cap;
    }
    copy
}

/// The group with a capability in its lowest free slot.
pub fn with_cap(slots: &[Option<Capability>], cap: Capability) -> Object
    requires { length slots.now ≤ GROUP_SLOTS }
    ensures { object_of result ≡ plain.with_cap slots.now cap }
{
    Object::Group(with_slot(slots, free_slot(slots).unwrap_or(0), Some(cap)))
}

/// The regions with one more, by rising base.
pub fn inserted(
    alloc: Global,
    region: Region,
    regions: &[Region],
) -> Result<Vec<Region>, AllocError>
    ensures { IfOk result (λ all. all.items ≡ objects.inserted region regions.now) }
{
    let mut all = Vec::new(alloc);
    let mut is_in = false;
    for other in regions {
        if !is_in && region.base < other.base {
            all.push(region)?;
            is_in = true;
        }
        all.push(*other)?;
    }
    if !is_in {
        all.push(region)?;
    }
    Ok(all)
}

fn new_region(state: &State, thread: &Thread) -> Region
    ensures { result ≡ plain.new_region (state_of state.now) thread.now }
{
    Region {
        base: arg(thread, 2) / PAGE as u32,
        count: arg(thread, 4),
        first: arg(thread, 3),
        memory: state.id_named(thread, 1),
        rights: arg(thread, 5),
    }
}

/// The regions that `unmap` leaves.
fn left_by_unmap(
    alloc: Global,
    regions: &[Region],
    thread: &Thread,
) -> Result<Vec<Region>, AllocError>
    ensures { IfOk result (λ left. left.items
        ≡ filter (λ region. not (region.base == calls.arg thread.now 1 / PAGE_BYTES)) regions.now) }
{
    let base = arg(thread, 1) / PAGE as u32;
    let mut left = Vec::new(alloc);
    for region in regions {
        if region.base != base {
            left.push(*region)?;
        }
    }
    Ok(left)
}

/// The channel of an output ring.
pub fn channel_of(object: &Option<Object>) -> u8
    ensures { result ≡ plain.channel_of (slot_of object.now) }
{
    match object {
        Some(Object::OutputRing(channel)) => *channel,
        _ => 0,
    }
}

/// A call is answered and changes one object.
#[tactic(auto, unfolding(crate::specs::Slow::effect_of))]
pub fn answers_with(
    alloc: Global,
    thread: &Thread,
    answer: u32,
    change: Change,
) -> Result<Effect, AllocError>
    ensures { IfOk result (λ e. (effect_of e ≡ plain.answers_with thread.now answer (change_of change ∷ []))
        × StoresInPages e) }
{
    let mut effect = Effect::answers(alloc, thread, answer);
    effect.changes.push(change)?;
    Ok(effect)
}

#[tactic(auto, unfolding(crate::specs::Slow::state_of, crate::specs::Slow::effect_of))]
impl State {
    /// The bytes at places.
    fn bytes_at(&self, places: &[Place]) -> ArrayVec<u8, 56>
        requires { length places.now ≤ ENTRY_BYTES }
        ensures { result.items ≡ map (byte_at (state_of self.now).objects) places.now }
    {
        let mut bytes = ArrayVec::new();
        for place in places {
            bytes.push(self.byte_at(*place));
        }
        bytes
    }

    /// The first input that waits, or none.
    pub fn first_input(&self) -> &[u8]
        ensures input { result.now ≡ slice_index_or (state_of self.now).inputs 0 [] }
        ensures count { length result.now ≤ ENTRY_BYTES }
    {
        match self.inputs.first() {
            Some(input) => input.bytes.as_slice(),
            None => &[],
        }
    }

    pub fn put_effect(&self, alloc: Global, thread: &Thread) -> Result<Effect, AllocError>
        requires { calls.arg thread.now 2 ≤ ENTRY_BYTES }
        ensures { IfOk result (λ e. (effect_of e ≡ plain.put_effect (state_of self.now) thread.now) × StoresInPages e) }
    {
        let regions = regions_of(self.object(thread.space));
        let loads = places_of(
            alloc,
            regions,
            u32::from(READ),
            arg(thread, 1),
            arg(thread, 2),
        )?;
        let bytes = self.bytes_at(loads.as_slice());
        let channel = channel_of(self.named(thread, 0));
        let mut effect = Effect::answers(alloc, thread, 0);
        effect.loads = loads;
        effect.output = Some(Output { channel, bytes });
        Ok(effect)
    }

    pub fn get_effect(&self, alloc: Global, thread: &Thread) -> Result<Effect, AllocError>
        ensures { IfOk result (λ e. (effect_of e ≡ plain.get_effect (state_of self.now) thread.now) × StoresInPages e) }
    {
        let input = self.first_input();
        let length = input.len() as u32;
        let count = length.min(arg(thread, 2));
        let regions = regions_of(self.object(thread.space));
        let places = places_of(alloc, regions, u32::from(WRITE), arg(thread, 1), count)?;
        let mut effect = Effect::answers(alloc, thread, length);
        effect.stores = stores_at(alloc, places.as_slice(), &input[..count as usize])?;
        effect.takes = true;
        Ok(effect)
    }

    pub fn map_effect(&self, alloc: Global, thread: &Thread) -> Result<Effect, AllocError>
        ensures { IfOk result (λ e. (effect_of e ≡ plain.map_effect (state_of self.now) thread.now) × StoresInPages e) }
    {
        let regions = regions_of(self.named(thread, 0));
        let regions = inserted(alloc, new_region(self, thread), regions)?;
        let space = change(self.id_named(thread, 0), Object::Space(regions));
        answers_with(alloc, thread, 0, space)
    }

    pub fn unmap_effect(&self, alloc: Global, thread: &Thread) -> Result<Effect, AllocError>
        ensures { IfOk result (λ e. (effect_of e ≡ plain.unmap_effect (state_of self.now) thread.now)
            × StoresInPages e) }
    {
        let regions = regions_of(self.named(thread, 0));
        let left = left_by_unmap(alloc, regions, thread)?;
        let space = change(self.id_named(thread, 0), Object::Space(left));
        answers_with(alloc, thread, 0, space)
    }

    pub fn copy_effect(&self, alloc: Global, thread: &Thread) -> Result<Effect, AllocError>
        ensures { IfOk result (λ e. (effect_of e ≡ plain.copy_effect (state_of self.now) thread.now)
            × StoresInPages e) }
    {
        let slots = slots_of(self.named(thread, 1));
        let cap = Capability {
            object: self.id_named(thread, 0),
            rights: arg(thread, 2),
        };
        let group = change(self.id_named(thread, 1), with_cap(slots, cap));
        answers_with(alloc, thread, slot_number(slots), group)
    }

    pub fn drop_effect(&self, alloc: Global, thread: &Thread) -> Result<Effect, AllocError>
        ensures { IfOk result (λ e. (effect_of e ≡ plain.drop_effect (state_of self.now) thread.now)
            × StoresInPages e) }
    {
        let slots = slots_of(self.named(thread, 0));
        let left = with_slot(slots, arg(thread, 1) as usize, None);
        let group = change(self.id_named(thread, 0), Object::Group(left));
        answers_with(alloc, thread, 0, group)
    }
}
