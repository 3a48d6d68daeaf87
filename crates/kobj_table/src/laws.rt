//! Laws. Each of these functions does nothing: its contract is the law.

ghost use Rattle.std.specs.Prelude.{◌≡◌, ℕ, true};
ghost use Rattle.link_lists.specs.Lists.{list_at};
ghost use Rattle.ipc_note.specs.declared.lists.TheConstants.{RUN_QUEUE};
ghost use Rattle.kobj_table.specs.declared.objects.Objects.{Objects};
ghost use Rattle.kobj_table.specs.Slots.{has_list};
ghost use Rattle.kobj_table.specs.Objects.{slot_at, object_at, Rest, state_of, state_with_queue, ListsAlone};

/// An object that has no list is what stands in its slot. So where the lists alone change, and of those that belong to
/// an object none, the state is another in its run queue alone.
pub fn lists_alone()
    ensures object { (old new : Objects) (content : ℕ → ℕ → ℕ) (i : ℕ) → slot_at new i ≡ slot_at old i
        → (has_list (slot_at old i) ≡ true → list_at new.links i ≡ list_at old.links i)
        → object_at content new i ≡ object_at content old i }
    ensures state { (old new : Objects) (rest : Rest) → ListsAlone old new
        → state_of new rest ≡ state_with_queue (state_of old rest) (list_at new.links RUN_QUEUE) }
{}
