//! A table that is filled in order of number.

ghost use Rattle.std.specs.Prelude.{◌≡◌, ◌≢◌, ℕ, ◌+◌, ◌++◌, ◌<◌, ◌≤◌, false, List, [], ◌∷◌, length, Some};
ghost use Rattle.link_lists.specs.Lists.{IsFree};
ghost use Rattle.kobj_table.specs.Slots.{object_of, has_list};
ghost use Rattle.kobj_table.specs.Objects.{slot_at};
ghost use Rattle.plain_model.specs.Objects.{Object};
ghost use Rattle.first_state.specs.Filled as filled;
ghost use Rattle.first_state.specs.Filled.{IsFilled, IsFreeFrom};

use kobj_table::{Objects, Slot};
use sls_base::{OBJECTS, ObjId};

fn has_thread(slot: &Slot) -> bool
    ensures { result ≡ filled.has_thread slot.now }
{
    matches!(slot, Slot::Thread(_))
}

/// Puts the next object into the table; a thread comes to stand at the end of the run queue.
pub fn add(objects: &mut Objects, id: ObjId, slot: Slot)
    requires id { id < OBJECTS }
    requires list { has_list slot ≡ false }
    requires free { IsFreeFrom objects.old id }
    ensures filled { (content : ℕ → ℕ → ℕ) (list : List Object) (object : Object) → IsFilled content objects.old list
        → length list ≡ id → object_of content slot [] ≡ Some object
        → IsFilled content objects.new (list ++ object ∷ []) }
    ensures free { IsFreeFrom objects.new (id + 1) }
    ensures slot { slot_at objects.new id ≡ slot }
    ensures others { (i : ℕ) → i ≢ id → slot_at objects.new i ≡ slot_at objects.old i }
{
    let is_ready = has_thread(&slot);
    objects.put(id, slot);
    if is_ready {
        objects.enqueue(id);
    }
}
