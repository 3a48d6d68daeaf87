//! The sweep of a checkpoint.

ghost use Rattle.std.specs.Prelude.{◌≡◌, ◌<◌, ◌≤◌, ◌&&◌, ℕ, true, false, not, Option, if◌then◌else◌};
ghost use Rattle.sls_base.specs.declared.fixed.TheConstants.{SCHEDULER};
ghost use Rattle.sls_base.specs.declared.limits.TheConstants.{OBJECTS, PAGES};
ghost use Rattle.link_lists.specs.Lists.{list_at};
ghost use Rattle.plain_model.specs.Sweep as plain;
ghost use Rattle.plain_model.specs.Worlds.{World, has_page};
ghost use Rattle.kobj_table.specs.Slots.{is_scheduler};
ghost use Rattle.kobj_table.specs.Objects.{Rest, slot_at, state_of, HasNoStrays};
ghost use Rattle.object_records.specs.Records.{record_at, record_of};
ghost use Rattle.object_records.specs.Ranges.{AreUntoldInRange, HasFixedSlots, IsSoundState};
ghost use Rattle.object_records.specs.Pages.{is_content};
ghost use Rattle.object_records.specs.Marks.{marked};
ghost use Rattle.page_store.specs.Stages.{stage_of};
ghost use Rattle.tree_walk.specs.Sweep.{left_at, threads_left};
ghost use Rattle.saved_state.specs.Running.{CanBeSaved};
ghost use Rattle.leader_helper.specs.Saving.{IsRunning, words_kept};
ghost use Rattle.leader_helper.specs.Sweep.{freshened, is_zeroed_alone, is_zeroed_below, ReadAsZeros};

use kobj_table::{Objects, Slot};
use object_records::mark_page;
use page_store::{Origin, PageStage, Writes};
use sls_base::{PAGES, PageNo};
use version_rooms::Rooms;

/// Sweeps away the objects that the tree of capabilities doesn't reach. Pages that were zeroed to be stored to, and to
/// which nothing was stored, are marked as fresh again, as the commit leaves them in their room.
pub fn sweep(objects: &mut Objects, rooms: &Rooms)
    ensures state { (rest : Rest) → ReadAsZeros rooms.now rest.content
        → state_of objects.new rest ≡ plain.swept (state_of objects.old rest) }
    ensures slots { (rest : Rest) (i : ℕ) → i < OBJECTS → slot_at objects.new i
        ≡ freshened (is_zeroed_below rooms.now PAGES) (left_at (state_of objects.old rest) objects.old i) }
    ensures threads { (rest : Rest) (i : ℕ) → i < OBJECTS
        → list_at objects.new.links i ≡ threads_left (state_of objects.old rest) objects.old i }
    ensures strays { HasNoStrays objects.old → HasNoStrays objects.new }
    ensures fixed { HasFixedSlots objects.old → HasFixedSlots objects.new }
    ensures untold { AreUntoldInRange objects.old → AreUntoldInRange objects.new }

    // An object that isn't swept otherwise keeps its record, but that pages are marked as fresh.
    ensures unswept { (rest : Rest) (i : ℕ) → is_scheduler (slot_at objects.old SCHEDULER) ≡ true
        → HasNoStrays objects.old → plain.is_swept_otherwise (state_of objects.old rest) i ≡ false
        → record_at objects.new i ≡ record_of (freshened (is_zeroed_below rooms.now PAGES) (slot_at objects.old i))
        (list_at objects.old.links i) }

    // Content have the pages that had it, if an object that is left has them and something was stored to them.
    ensures content { (rest : Rest) (page : ℕ) → IsSoundState (state_of objects.old rest) → page < PAGES
        → HasFixedSlots objects.old → is_content (record_at objects.new) page
        ≡ (is_content (record_at objects.old) page && has_page (plain.swept (state_of objects.old rest)) page
        && not (is_zeroed_alone (stage_of rooms.now.pages page))) }

    // Where they run as a sound world, they can be saved then.
    ensures saved { (rest : Rest) (pages : ℕ → Option (ℕ → ℕ)) (w : World) → IsRunning objects.old rest pages w
        → ReadAsZeros rooms.now rest.content → CanBeSaved objects.new rest (words_kept objects.new pages) w }
{
    // Their contracts say that the objects which are always there are reached, and that a swept state is sound and has
    // nothing more to be swept.
    plain_laws::laws::reached_is_least();
    plain_laws::laws::sweep_is_idempotent();
    plain_laws::whole::worlds_are_sound();
    object_records::laws::sound_objects_have_records();
    tree_walk::sweep(objects);
    freshen_pages(objects, rooms);
}

/// Marks the pages as fresh that were zeroed to be stored to, and to which nothing was stored.
fn freshen_pages(objects: &mut Objects, rooms: &Rooms)
    ensures slots { (i : ℕ) → slot_at objects.new i
        ≡ freshened (is_zeroed_below rooms.now PAGES) (slot_at objects.old i) }
    ensures links { objects.new.links ≡ objects.old.links }
    ensures state { (rest : Rest) → ReadAsZeros rooms.now rest.content
        → state_of objects.new rest ≡ state_of objects.old rest }
{
    no_more_slots(objects);
    for page in 0..PAGES {
        freshen_page(objects, rooms, page as PageNo);
    }
}

/// No object has a number past the last one.
fn no_more_slots(objects: &Objects)
    ensures { (i : ℕ) → OBJECTS ≤ i → slot_at objects.now i ≡ Slot.Empty }
{
    let _slots: &[Slot] = &objects.slots;
}

/// Marks a page as fresh, if it was zeroed to be stored to, and nothing was stored to it.
fn freshen_page(objects: &mut Objects, rooms: &Rooms, page: PageNo)
    requires { page < PAGES }
    ensures slots { (i : ℕ) → i < OBJECTS → slot_at objects.new i
        ≡ (if is_zeroed_alone (stage_of rooms.now.pages page) then marked page true (slot_at objects.old i)
        else slot_at objects.old i) }
    ensures past { (i : ℕ) → OBJECTS ≤ i → slot_at objects.new i ≡ slot_at objects.old i }
    ensures links { objects.new.links ≡ objects.old.links }
    ensures state { (rest : Rest) → ReadAsZeros rooms.now rest.content
        → state_of objects.new rest ≡ state_of objects.old rest }
{
    if !was_zeroed_alone(rooms.page_stage(page)) {
        return;
    }
    mark_page(objects, page, true);
}

/// Whether a page was zeroed to be stored to, and nothing was stored to it.
fn was_zeroed_alone(stage: PageStage) -> bool
    ensures { result ≡ is_zeroed_alone stage }
{
    match stage {
        PageStage::Writable(Origin::Zeros, Writes::Nothing) => true,
        _ => false,
    }
}
