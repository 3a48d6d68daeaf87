//! Laws. Each of these functions does nothing: its contract is the law.

ghost use Rattle.std.specs.Prelude.{◌≡◌, ◌≢◌, ◌↔◌, ℕ, ◌<◌, ◌≤◌, slice_set, true, false, List, Contains, Option, Some, None, IfSome};
ghost use Rattle.sls_base.specs.declared.fixed.TheConstants.{SCHEDULER, FIRST_PROGRAM_OBJECT};
ghost use Rattle.link_lists.specs.Lists.{list_at};
ghost use Rattle.plain_model.specs.Worlds.{World};
ghost use Rattle.plain_laws.specs.Places.{IsPlaced};
ghost use Rattle.plain_laws.specs.Fixed.{HasFixedObjects};
ghost use Rattle.plain_laws.specs.Whole.{IsSound};
ghost use Rattle.kobj_table.specs.declared.slot.Slot.{Slot};
ghost use Rattle.kobj_table.specs.declared.slot.Cores.{Cores};
ghost use Rattle.kobj_table.specs.declared.objects.Objects.{Objects};
ghost use Rattle.kobj_table.specs.Slots.{object_of, is_scheduler};
ghost use Rattle.kobj_table.specs.Objects.{slot_at, Rest, state_of, HasNoStrays};
ghost use Rattle.kobj_codec.specs.declared.obj.Obj.{Obj};
ghost use Rattle.kobj_codec.specs.Objects.{IsObj, IsList};
ghost use Rattle.object_records.specs.Records.{record_of, record_at, slot_of, threads_of, HasOwnThreads, HasOwnLists, object_of_record, object_in, list_in, is_scheduler_in, state_of_records, SameBytes};
ghost use Rattle.object_records.specs.Ranges.{IsCores, IsSoundState, IsUntoldInRange, AreUntoldInRange};
ghost use Rattle.object_records.specs.Untold.{IsUntoldKept, KeepsUntold, IsToldSame};

/// A record tells the slot that it is of, and its list, where no list has threads but those of connections, of
/// notifications and of schedulers. Each record is that of some slot and list.
pub fn records_tell_slots()
    ensures none { (slot : Slot) (threads : List ℕ) → (record_of slot threads ≡ None) ↔ (slot ≡ Slot.Empty) }
    ensures slot { (slot : Slot) (threads : List ℕ) (obj : Obj) → record_of slot threads ≡ Some obj
        → slot_of obj ≡ slot }
    ensures threads { (slot : Slot) (threads : List ℕ) → HasOwnThreads slot threads
        → list_in (record_of slot threads) ≡ threads }
    ensures again { (obj : Obj) → record_of (slot_of obj) (threads_of obj) ≡ Some obj }
    ensures own { (obj : Obj) → HasOwnThreads (slot_of obj) (threads_of obj) }
{}

/// What a record stands for is the object of its slot and list. So a table is the state that its records stand for, and
/// tables with the same records are the same state.
pub fn records_stand_for_objects()
    ensures object { (content : ℕ → ℕ → ℕ) (slot : Slot) (threads : List ℕ)
        → object_in content (record_of slot threads) ≡ object_of content slot threads }
    ensures state { (o : Objects) (rest : Rest) → is_scheduler (slot_at o SCHEDULER) ≡ true
        → state_of o rest ≡ state_of_records (record_at o) rest }
    ensures same { (a b : Objects) (rest : Rest) → is_scheduler_in (record_at a SCHEDULER) ≡ true
        → ((i : ℕ) → record_at b i ≡ record_at a i) → state_of b rest ≡ state_of a rest }
{}

/// Each list of threads belongs to what stands at its number where none is a stray and the run queue is a scheduler's;
/// and then none is a stray, if no other number has a scheduler. Records then tell all slots and all lists.
pub fn records_tell_tables()
    ensures own { (o : Objects) → HasNoStrays o → is_scheduler (slot_at o SCHEDULER) ≡ true → HasOwnLists o }
    ensures strays { (o : Objects) → HasOwnLists o
        → ((i : ℕ) → i ≢ SCHEDULER → is_scheduler (slot_at o i) ≡ false) → HasNoStrays o }
    ensures lists { (o : Objects) (i : ℕ) → HasOwnLists o → list_at o.links i ≡ list_in (record_at o i) }
    ensures slots { (a b : Objects) (i : ℕ) → record_at b i ≡ record_at a i → slot_at b i ≡ slot_at a i }
    ensures same { (a b : Objects) (i : ℕ) → HasOwnLists a → HasOwnLists b → record_at b i ≡ record_at a i
        → list_at b.links i ≡ list_at a.links i }
{}

/// Of the bytes that page numbers stand for, those alone matter that records read. A fresh page is zero.
pub fn fresh_pages_are_zero()
    ensures object { (a b : ℕ → ℕ → ℕ) (obj : Obj) → SameBytes a b obj
        → object_of_record b obj ≡ object_of_record a obj }
    ensures state { (records : ℕ → Option Obj) (rest : Rest) (content : ℕ → ℕ → ℕ)
        → ((i : ℕ) (obj : Obj) → records i ≡ Some obj → SameBytes rest.content content obj)
        → state_of_records records (record rest { content = content }) ≡ state_of_records records rest }
{}

/// The objects of a sound state have records, where what no plain state tells of them is in range.
pub fn sound_objects_have_records()
    ensures sound { (w : World) → IsSound w → IsSoundState w.now × IsSoundState w.saved }
    ensures in_range { (o : Objects) (rest : Rest) (i : ℕ) → IsSoundState (state_of o rest) → AreUntoldInRange o
        → IfSome (record_at o i) IsObj }
    ensures list { (obj : Obj) → IsObj obj → IsList (threads_of obj) }
{}

/// What no plain state tells of a slot is in range where it comes from a record, and where a core that there is comes
/// to run something else. Where the fixed objects stand at their numbers, nothing is untold of the others.
pub fn untold_stays_in_range()
    ensures decoded { (obj : Obj) → IsObj obj → IsUntoldInRange (slot_of obj) }
    ensures ran { (c : Cores) (core : ℕ) (running : Option (ℕ × ℕ)) → IsCores c → core < c.cores
        → IsCores (record c { running = slice_set c.running core running }) }
    ensures others { (o : Objects) (rest : Rest) (i : ℕ) → HasFixedObjects (state_of o rest)
        → FIRST_PROGRAM_OBJECT ≤ i → IsUntoldInRange (slot_at o i) }
{}

/// What no plain state tells is left alone where nothing changes, and by one change after another; and then it stays in
/// range.
pub fn untold_is_left_alone()
    ensures same { (slot : Slot) → IsUntoldKept slot slot }
    ensures joined { (a b c : Slot) → IsUntoldKept a b → IsUntoldKept b c → IsUntoldKept a c }
    ensures in_range { (old new : Objects) → KeepsUntold old new → AreUntoldInRange old → AreUntoldInRange new }
{}

/// What the plain machine tells of a number, and what no plain state tells of it, are all that its record says. So
/// where the first is the same and the second was left alone, the record is the same.
pub fn told_and_untold_are_all()
    ensures slot { (before after : ℕ → ℕ → ℕ) (old new : Objects) (i : ℕ)
        → IsUntoldKept (slot_at old i) (slot_at new i) → IsToldSame before after old new i
        → slot_at new i ≡ slot_at old i }
    ensures record { (before after : ℕ → ℕ → ℕ) (old new : Objects) (i : ℕ)
        → IsUntoldKept (slot_at old i) (slot_at new i) → IsToldSame before after old new i
        → record_at new i ≡ record_at old i }
{}

/// Records that stand for a state in which each thread is in one place have it in one list at most, and the scheduler's
/// number alone has the scheduler's record.
pub fn lists_are_apart()
    ensures apart { (records : ℕ → Option Obj) (rest : Rest) (i j thread : ℕ)
        → IsPlaced (state_of_records records rest) → HasFixedObjects (state_of_records records rest)
        → Contains (list_in (records i)) thread → Contains (list_in (records j)) thread → i ≡ j }
    ensures scheduler { (records : ℕ → Option Obj) (rest : Rest) (i : ℕ)
        → HasFixedObjects (state_of_records records rest) → is_scheduler_in (records i) ≡ true → i ≡ SCHEDULER }
{}
