//! Laws. Each of these functions does nothing: its contract is the law.

ghost use Rattle.std.specs.Prelude.{◌≡◌, ◌+◌, ◌<◌, ℕ, Option};
ghost use Rattle.sls_base.specs.declared.limits.TheConstants.{OBJECTS};
ghost use Rattle.pmem_model.specs.Words.{Word};
ghost use Rattle.pmem_model.specs.Events.{IsCut};
ghost use Rattle.pmem_layout.specs.Owners.{Objects};
ghost use Rattle.pmem_layout.specs.Rooms.{SameIn, CalmIn, FencedIn, LeftIn};
ghost use Rattle.kobj_codec.specs.declared.obj.Obj.{Obj};
ghost use Rattle.object_root.specs.declared.stage.Phase.TheVariants.{Clearing, Tagged, Records};
ghost use Rattle.object_root.specs.Format.{IsChosen, HasObject, ObjectStands, ObjectsStand};
ghost use Rattle.object_root.specs.Room.{Room, stage_at, AllIdle, Passes};
ghost use Rattle.object_root.specs.Steps.{fenced};
ghost use Rattle.object_root.specs.Shows.{ObjectsShow, IsSettled, AllSettled};

use kobj_codec::laws::one_object;
use sls_base::LEADER;

/// What words stand for: at most one slot of an object is chosen, at most one object stands for its words, and only the
/// words of the objects are read.
pub fn format()
    ensures chosen { (words : ℕ → ℕ) (v id a b : ℕ) → IsChosen words v id a → IsChosen words v id b → a ≡ b }
    ensures object { (words : ℕ → ℕ) (v id : ℕ) (o p : Obj) → HasObject words v id o → HasObject words v id p → o ≡ p }
    ensures same { (a b : ℕ → ℕ) (v : ℕ) (objects : ℕ → Option Obj) → SameIn Objects a b
        → ObjectsStand a v objects → ObjectsStand b v objects }
{
    one_object();
}

/// The four laws of what a `Roots` and the words keep together: it outlives what is calm at the words of the objects,
/// as all events of others are; a fence by the leader leads to the next phase; whatever a cut leaves stands for what
/// is saved; and once each new record has its tag, and tags are fenced, it shows the next version, and what a cut
/// leaves stands for both.
pub fn room()
    ensures calm { (r : Room) (f g : ℕ → Word) (v : ℕ) (saved next : ℕ → Option Obj) → CalmIn Objects f g
        → ObjectsShow r f v saved next → ObjectsShow r g v saved next }
    ensures fenced { (r p : Room) (f g : ℕ → Word) (v : ℕ) (saved next : ℕ → Option Obj) → Passes r p (fenced r.phase)
        → FencedIn Objects LEADER f g → ObjectsShow r f v saved next → ObjectsShow p g v saved next }
    ensures stands { (r : Room) (f : ℕ → Word) (v : ℕ) (saved next : ℕ → Option Obj) (left : ℕ → ℕ)
        → LeftIn Objects f left → ObjectsShow r f v saved next → ObjectsStand left v saved }
    ensures commits { (r p : Room) (f : ℕ → Word) (v : ℕ) (saved next after : ℕ → Option Obj) → r.phase ≡ Tagged
        → AllSettled r saved next → p.phase ≡ Records → p.version ≡ v + 1 → AllIdle p
        → ObjectsShow r f v saved next → ObjectsShow p f (v + 1) next after }
    ensures stands_next { (r : Room) (f : ℕ → Word) (v : ℕ) (saved next : ℕ → Option Obj) (left : ℕ → ℕ)
        → r.phase ≡ Tagged → AllSettled r saved next → LeftIn Objects f left → ObjectsShow r f v saved next
        → ObjectsStand left (v + 1) next }
{}

/// An object whose new record has its tag, once tags are fenced, reads as its new record at the next version and as
/// before at this one.
pub fn both_versions()
    ensures { (r : Room) (f : ℕ → Word) (v id : ℕ) (saved next : ℕ → Option Obj) (left : ℕ → ℕ) → id < OBJECTS
        → r.phase ≡ Tagged → IsSettled (stage_at r id) (saved id) (next id) → LeftIn Objects f left
        → ObjectsShow r f v saved next
        → ObjectStands left v id (saved id) × ObjectStands left (v + 1) id (next id) }
{}

/// After a cut, wherever it came, recovery begins for what is saved. So it does again after a cut within it.
pub fn after_cut()
    ensures { (r p : Room) (f g : ℕ → Word) (v : ℕ) (saved next after : ℕ → Option Obj) → p.phase ≡ Clearing 0
        → p.version ≡ v → AllIdle p → IsCut f g
        → ObjectsShow r f v saved next → ObjectsShow p g v saved after }
{}
