//! What the arguments of a call name.

ghost use Rattle.std.specs.Prelude.{◌≡◌, ℕ, List, find, map, option_map};
ghost use Rattle.std.specs.List.{list_any};
ghost use Rattle.plain_model.specs.Objects as plain_objects;
ghost use Rattle.plain_model.specs.Calls as plain;
ghost use Rattle.plain_model.specs.CallRefusals as refusals;
ghost use Rattle.kobj_table.specs.Slots.{capability_of, object_of};
ghost use Rattle.kobj_table.specs.Objects.{Rest, object_at, state_of};

use cap_group::Cap;
use kobj_table::{Objects, Slot};
use plain_model::{Kind, Need, Refusal, arg};
use sls_base::{OUTPUT_CHANNELS, ObjId, Thread};

/// The capability in a slot of the group of a number.
fn cap_in(objects: &Objects, group: ObjId, slot: u32) -> Option<Cap>
    ensures { (content : ℕ → ℕ → ℕ) → option_map capability_of result
        ≡ plain.cap_in (plain_objects.slots_of (object_at content objects.now group)) slot }
{
    match objects.slot(group) {
        Some(Slot::Group(group)) => group.find(slot),
        _ => None,
    }
}

/// The capability that an argument of a thread's call names. It is None exactly where there is none in that slot of
/// the thread's group.
#[tactic(auto, unfolding(kobj_table::specs::Objects::state_of))]
pub fn cap_named(objects: &Objects, thread: &Thread, i: u8) -> Option<Cap>
    ensures { (rest : Rest) → option_map capability_of result
        ≡ plain.cap_named (state_of objects.now rest) thread.now i }
{
    cap_in(objects, thread.group, arg(thread, i))
}

/// The number of the object that an argument names; 0 where it names none.
#[tactic(auto, unfolding(kobj_table::specs::Objects::state_of))]
pub fn id_named(objects: &Objects, thread: &Thread, i: u8) -> ObjId
    ensures { (rest : Rest) → result ≡ plain.id_named (state_of objects.now rest) thread.now i }
{
    match cap_named(objects, thread, i) {
        Some(cap) => cap.object,
        None => 0,
    }
}

/// The rights by which an argument names it.
#[tactic(auto, unfolding(kobj_table::specs::Objects::state_of))]
fn rights_named(objects: &Objects, thread: &Thread, i: u8) -> u8
    ensures { (rest : Rest) → result
        ≡ plain.rights_of_cap (plain.cap_named (state_of objects.now rest) thread.now i) }
{
    match cap_named(objects, thread, i) {
        Some(cap) => cap.rights,
        None => 0,
    }
}

/// Whether what stands in a slot is of a kind.
fn is_kind(kind: Kind, slot: &Slot) -> bool
    ensures { (content : ℕ → ℕ → ℕ) (threads : List ℕ) → result
        ≡ plain_objects.is_kind kind (object_of content slot.now threads) }
{
    match (kind, slot) {
        (Kind::AnyKind, _)
        | (Kind::GroupKind, Slot::Group(_))
        | (Kind::SpaceKind, Slot::Space(_))
        | (Kind::MemoryKind, Slot::Memory(_))
        | (Kind::ConnectionKind, Slot::Connection(_))
        | (Kind::NotificationKind, Slot::Notification(_)) => true,
        (Kind::OutputKind, Slot::Ring(ring)) => usize::from(ring.channel) != OUTPUT_CHANNELS,
        (Kind::InputKind, Slot::Ring(ring)) => usize::from(ring.channel) == OUTPUT_CHANNELS,
        _ => false,
    }
}

/// Whether the object of a number is of a kind.
fn is_kind_at(objects: &Objects, kind: Kind, id: ObjId) -> bool
    ensures { (content : ℕ → ℕ → ℕ) → result ≡ plain_objects.is_kind kind (object_at content objects.now id) }
{
    match objects.slot(id) {
        Some(slot) => is_kind(kind, slot),
        None => is_kind(kind, &Slot::Empty),
    }
}

/// Whether some rights include others.
fn includes(had: u8, wanted: u32) -> bool
    ensures { result ≡ plain_objects.includes had wanted }
{
    u32::from(had) & wanted == wanted
}

/// Whether something that a call needs isn't there.
#[tactic(auto, unfolding(kobj_table::specs::Objects::state_of))]
fn is_unmet(objects: &Objects, thread: &Thread, refusal: Refusal, need: &Need) -> bool
    ensures { (rest : Rest) → result ≡ refusals.is_unmet (state_of objects.now rest) thread.now refusal need.now }
{
    match refusal {
        Refusal::NoCap => cap_named(objects, thread, need.argument).is_none(),
        Refusal::WrongKind => {
            !is_kind_at(objects, need.kind, id_named(objects, thread, need.argument))
        }
        Refusal::NoRight => !includes(rights_named(objects, thread, need.argument), need.rights),
        _ => false,
    }
}

/// Whether one of the things that a call needs isn't there.
pub(crate) fn is_any_unmet(
    objects: &Objects,
    thread: &Thread,
    refusal: Refusal,
    needs: &[Need],
) -> bool
    ensures { (rest : Rest) → result
        ≡ list_any (refusals.is_unmet (state_of objects.now rest) thread.now refusal) needs.now }
{
    needs
        .iter()
        .any(|need| is_unmet(objects, thread, refusal, need))
}
