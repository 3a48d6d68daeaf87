//! The record of a group.

ghost use Rattle.std.specs.Prelude.{◌≡◌, ◌+◌, ◌<◌, ◌↔◌, IsTrue, IfSome, ℕ, All, Option, length, slice_index};
ghost use Rattle.cap_group.specs.declared.cap.Cap.{Cap};
ghost use Rattle.cap_group.specs.declared.group.Group.{Group};
ghost use Rattle.cap_group.specs.Cap.{IsCap};
ghost use Rattle.cap_group.specs.Group.{cap_at};
ghost use Rattle.kobj_codec.specs.declared.obj.Obj.TheVariants as objs;
ghost use Rattle.kobj_codec.specs.Objects.{IsGroupRec};
ghost use Rattle.kobj_codec.specs.Records as records;
ghost use Rattle.kobj_codec.specs.Records.{IsRecord};

use crate::packing::{short_at, shorts};
use cap_group::{Cap, Group};
use pmem_layout::SLOT_WORDS;
use sls_base::{ALL_RIGHTS, GROUP_SLOTS, OBJECTS};

/// The mark of a slot that holds a capability.
const SLOT_MARK: u16 = 0x8000;

/// Whether a group has a record.
pub fn is_group(group: &Group) -> bool
    ensures { IsTrue result ↔ IsGroupRec group.now }
{
    are_caps(&group.slots)
}

fn are_caps(slots: &[Option<Cap>; GROUP_SLOTS]) -> bool
    ensures size { length slots.now ≡ GROUP_SLOTS }
    ensures caps { IsTrue result ↔ All (λ held. IfSome held IsCap) slots.now }
{
    slots.iter().all(|held| match held {
        Some(cap) => is_cap(*cap),
        None => true,
    })
}

fn is_cap(cap: Cap) -> bool
    ensures { IsTrue result ↔ IsCap cap }
{
    usize::from(cap.object) < OBJECTS && cap.rights <= ALL_RIGHTS
}

/// Word i + 1 of a group's record.
pub fn group_word(group: &Group, i: usize) -> u64
    requires group { IsGroupRec group.now }
    requires in_slot { i + 1 < SLOT_WORDS }
    ensures { result ≡ records.word_behind (objs.Group group.now) i }
{
    let first = 4 * i as u32;
    shorts(
        number_at(group, first),
        number_at(group, first + 1),
        number_at(group, first + 2),
        number_at(group, first + 3),
    )
}

fn number_at(group: &Group, slot: u32) -> u16
    requires { IsGroupRec group.now }
    ensures { result ≡ records.slot_number (cap_at group.now slot) }
{
    slot_number(group.find(slot))
}

fn slot_number(slot: Option<Cap>) -> u16
    requires { IfSome slot IsCap }
    ensures { result ≡ records.slot_number slot }
{
    match slot {
        None => 0,
        Some(cap) => SLOT_MARK + (u16::from(cap.object) << 4) + u16::from(cap.rights),
    }
}

/// What a number tells of a slot.
fn slot_of(number: u16) -> Option<Cap>
    ensures { (slot : Option Cap) → IfSome slot IsCap → number ≡ records.slot_number slot → result ≡ slot }
{
    if number < SLOT_MARK {
        return None;
    }
    Some(Cap {
        object: (number >> 4 & 0xFF) as u8,
        rights: (number & 0xF) as u8,
    })
}

/// The group of a record.
pub fn read_group(words: &[u64; SLOT_WORDS]) -> Group
    ensures { (group : Group) → IsGroupRec group → IsRecord (slice_index words.now) (objs.Group group)
        → result ≡ group }
{
    let mut group = Group::new();
    for j in 0..GROUP_SLOTS {
        group.slots[j] = slot_of(short_at(words, j));
    }
    group
}
