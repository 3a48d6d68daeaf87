//! Laws. Each of these functions does nothing: its contract is the law.

ghost use Rattle.std.specs.Prelude.{◌≡◌, ◌+◌, ◌<◌, ℕ, Bool, List, Option, IfSome, length, if◌then◌else◌, ◌==◌};
ghost use Rattle.plain_model.specs.States.{State};
ghost use Rattle.plain_model.specs.Worlds.{World, accepted_count};
ghost use Rattle.plain_laws.specs.Bounds.{HasRoom};
ghost use Rattle.kobj_table.specs.declared.objects.Objects.{Objects};
ghost use Rattle.kobj_table.specs.Objects.{Rest, state_of};
ghost use Rattle.kobj_codec.specs.Objects.{IsObj};
ghost use Rattle.object_records.specs.Ranges.{AreUntoldInRange};
ghost use Rattle.durable_state.specs.Parts.{Parts};
ghost use Rattle.saved_state.specs.State.{ArePartsOf, ReadsAs, SameReads, rest_of};
ghost use Rattle.saved_state.specs.Running.{AreNumbersOf, ArePutBack, CanBeSaved, parts_of};

/// At a version words read as one state alone, but for inputs that wait and for entries that the device has accepted.
pub fn words_read_as_one()
    ensures { (words : ℕ → ℕ) (version : ℕ) (base accepted : ℕ → ℕ) (s t : State)
        → ReadsAs words version base accepted s → ReadsAs words version base accepted t → SameReads base accepted s t }
{
    durable_state::laws::parts_are_of_one();
    out_gate::entries_have_places();
}

/// Inputs that wait are read nowhere, so a state reads alike when they are lost. An entry that the device accepts is
/// no word of the memory, so the words read as they did.
pub fn devices_leave_words()
    ensures inputs { (words : ℕ → ℕ) (version : ℕ) (base accepted : ℕ → ℕ) (s : State) (inputs : List (List ℕ))
        → ReadsAs words version base accepted s
        → ReadsAs words version base accepted (record s { inputs = inputs }) }
    ensures accepts { (words : ℕ → ℕ) (version : ℕ) (base accepted : ℕ → ℕ) (s : State) (channel : ℕ)
        → accepted channel < base channel + length (s.out channel) → ReadsAs words version base accepted s
        → ReadsAs words version base (λ i. if i == channel then accepted i + 1 else accepted i) s }
{}

/// Running objects that can be saved are the parts of the state that they are. What no plain state tells of them is in
/// range, so that each has a record.
pub fn running_objects_are_parts()
    ensures parts { (o : Objects) (rest : Rest) (numbers : ℕ → Bool) (pages : ℕ → Option (ℕ → ℕ)) (w : World)
        → CanBeSaved o rest pages w → AreNumbersOf numbers (state_of o rest)
        → ArePartsOf w.base (accepted_count w) (parts_of o numbers pages (state_of o rest)) (state_of o rest) }
    ensures untold { (o : Objects) (rest : Rest) (pages : ℕ → Option (ℕ → ℕ)) (w : World)
        → CanBeSaved o rest pages w → AreUntoldInRange o }
{
    object_records::laws::records_stand_for_objects();
    object_records::laws::untold_stays_in_range();
    object_records::laws::fresh_pages_are_zero();
}

/// Objects that were put back from the records of a version, with the words of its pages, are the state that its parts
/// are; and they can be saved again in every world that has accepted what the parts say, and in which the state has
/// room.
pub fn parts_are_running_objects()
    ensures state { (o : Objects) (base accepted : ℕ → ℕ) (p : Parts) (s : State) → ArePartsOf base accepted p s
        → ArePutBack o p → state_of o (rest_of p.pages s) ≡ s }
    ensures saved { (o : Objects) (p : Parts) (s : State) (w : World) → ArePartsOf w.base (accepted_count w) p s
        → ((i : ℕ) → IfSome (p.objects i) IsObj) → HasRoom w s → ArePutBack o p
        → CanBeSaved o (rest_of p.pages s) p.pages w }
{
    object_records::laws::records_tell_slots();
    object_records::laws::records_stand_for_objects();
    object_records::laws::records_tell_tables();
    object_records::laws::lists_are_apart();
    object_records::laws::untold_stays_in_range();
}
