//! Which slot of an object is read.

ghost use Rattle.std.specs.Prelude.{◌≡◌, ◌<◌, ◌≤◌, ◌+◌, ℕ, Some, IfSome, IfNone, IsSome};
ghost use Rattle.pmem_model.specs.Memory.{word_at};
ghost use Rattle.pmem_layout.specs.Places.{object_tag_at};
ghost use Rattle.pmem_layout.specs.Fields.{TagUpTo};
ghost use Rattle.object_root.specs.Format.{IsChosen};
ghost use Rattle.object_root.specs.Room.{number_of};

use crate::memory;
use crate::slot::Slot;
use pmem_layout::{SLOTS, Tag, object_tag_at};
use pmem_model::Pmem;
use sls_base::{OBJECTS, ObjId, Version};

/// The slot of an object that has the greatest tag at most `v`. It is None exactly where no tag is at most `v`.
pub fn chosen(nvm: &Pmem, id: ObjId, v: Version) -> Option<u8>
    requires object { id < OBJECTS }
    ensures range { IfSome result (λ slot. slot < SLOTS) }
    ensures tagged { IfSome result (λ slot. TagUpTo (word_at nvm.now (object_tag_at id slot)).cached v) }
    ensures greatest { IfSome result (λ slot. (other : ℕ) → other < SLOTS
        → TagUpTo (word_at nvm.now (object_tag_at id other)).cached v
        → (word_at nvm.now (object_tag_at id other)).cached ≤ (word_at nvm.now (object_tag_at id slot)).cached) }
    ensures only { (slot : ℕ) → IsChosen (λ i. (word_at nvm.now i).cached) v id slot → result ≡ Some slot }
    ensures none { IfNone result ((slot : ℕ) → slot < SLOTS
        → TagUpTo (word_at nvm.now (object_tag_at id slot)).cached v → ⊥) }
{
    let first = version_of(nvm, id, Slot::First, v);
    let second = version_of(nvm, id, Slot::Second, v);
    match (first, second) {
        (None, None) => None,
        (Some(_), None) => Some(Slot::First.number()),
        (None, Some(_)) => Some(Slot::Second.number()),
        (Some(of_first), Some(of_second)) => {
            let slot = if of_first < of_second {
                Slot::Second
            } else {
                Slot::First
            };
            Some(slot.number())
        }
    }
}

/// The version of the tag of a slot, where it is at most `v`.
fn version_of(nvm: &Pmem, id: ObjId, slot: Slot, v: Version) -> Option<Version>
    requires object { id < OBJECTS }
    ensures found { IfSome result (λ version. version + 1
        ≡ (word_at nvm.now (object_tag_at id (number_of slot))).cached) }
    ensures tagged { IfSome result (λ _. TagUpTo (word_at nvm.now (object_tag_at id (number_of slot))).cached v) }
    ensures only { TagUpTo (word_at nvm.now (object_tag_at id (number_of slot))).cached v → IsSome result }
{
    let at = object_tag_at(id, slot.number());
    Tag::from_word(memory::read(nvm, at)).up_to(v)
}
