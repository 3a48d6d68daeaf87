//! Groups.

ghost use Rattle.std.specs.Prelude.{◌≡◌, ℕ, ◌<◌, ◌↔◌, IsNone, IfSome, is_none, position, replicate, slice_set};

use crate::Cap;
use sls_base::GROUP_SLOTS;

/// A group: slots, each of which is empty or holds a capability.
#[derive(Clone, Copy)]
pub struct Group {
    pub slots: [Option<Cap>; GROUP_SLOTS],
}

impl Group {
    ghost use Rattle.cap_group.specs.Cap.{IsCap};
    ghost use Rattle.cap_group.specs.Group.{cap_at, IsGroup, IsFull, IsLowestFree, ChangesSlot};

    /// A group whose slots are all empty.
    pub fn new() -> Group
        ensures slots { result.slots ≡ replicate GROUP_SLOTS None }
        ensures empty { (k : ℕ) → cap_at result k ≡ None }
        ensures in_form { IsGroup result }
    {
        Group {
            slots: [None; GROUP_SLOTS],
        }
    }

    /// The capability in a slot. It is None exactly where the slot is empty or there is none of its number.
    pub fn find(&self, slot: u32) -> Option<Cap>
        ensures held { result ≡ cap_at self.now slot }
        ensures in_form { IsGroup self.now → IfSome result IsCap }
    {
        self.slots.get(slot as usize).copied().flatten()
    }

    /// The lowest slot that is empty. It is None exactly where all are taken.
    pub fn lowest_free(&self) -> Option<u8>
        ensures lowest { IfSome result (IsLowestFree self.now) }
        ensures full { IsNone result ↔ IsFull self.now }
        ensures first_free { result ≡ position is_none self.now.slots }
    {
        for (slot, held) in self.slots.iter().enumerate() {
            if held.is_none() {
                return Some(slot as u8);
            }
        }
        None
    }

    /// Puts a capability into an empty slot.
    pub fn set(&mut self, slot: u8, cap: Cap)
        requires there { slot < GROUP_SLOTS }
        requires free { cap_at self.old slot ≡ None }
        ensures slots { self.new.slots ≡ slice_set self.old.slots slot (Some cap) }
        ensures changed { ChangesSlot self.old self.new slot (Some cap) }
        ensures in_form { IsGroup self.old → IsCap cap → IsGroup self.new }
    {
        self.slots[slot as usize] = Some(cap);
    }

    /// Empties a slot.
    pub fn clear(&mut self, slot: u8)
        requires { slot < GROUP_SLOTS }
        ensures slots { self.new.slots ≡ slice_set self.old.slots slot None }
        ensures changed { ChangesSlot self.old self.new slot None }
        ensures in_form { IsGroup self.old → IsGroup self.new }
    {
        self.slots[slot as usize] = None;
    }
}
