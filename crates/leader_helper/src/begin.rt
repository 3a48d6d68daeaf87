//! How a checkpoint begins.

ghost use Rattle.std.specs.Prelude.{◌≡◌, ◌+◌, ◌*◌, ◌<◌, ◌↔◌, ℕ, false, IsTrue, IfSome, Option, slice_index_or};
ghost use Rattle.sls_base.specs.declared.limits.TheConstants.{OBJECTS, PAGES};
ghost use Rattle.pmem_model.specs.Memory.{word_at};
ghost use Rattle.pmem_layout.specs.declared.number.Number.TheVariants.{Object, Page};
ghost use Rattle.pmem_layout.specs.Numbers.{index_of};
ghost use Rattle.kobj_codec.specs.Objects.{IsObj};
ghost use Rattle.kobj_table.specs.Objects.{Rest, state_of};
ghost use Rattle.object_records.specs.Records.{record_at};
ghost use Rattle.alloc_journal.specs.Sets.{count_of, has};
ghost use Rattle.durable_state.specs.Parts.{Parts};
ghost use Rattle.saved_state.specs.Running.{AreNumbersOf};
ghost use Rattle.call_readings.specs.NumberSets.{uses_object, uses_page};
ghost use Rattle.leader_helper.specs.Begins.{IsFound, IsToWrite, MayBegin};
ghost use Rattle.leader_helper.specs.Leads.{IsWriting, is_changed};
ghost use Rattle.leader_helper.specs.Turns.{numbers_changed, pages_left, turns_left};

use crate::leader::Leader;
use crate::stage::Stage;
use call_readings::NumbersInUse;
use kobj_codec::encode;
use kobj_table::Objects;
use pmem_model::Pmem;
use sls_base::{OBJECTS, ObjId, PAGES, PageNo};
use version_rooms::Rooms;

impl Leader {
    /// A checkpoint of these objects begins, which were swept. The numbers in use are theirs, and the leader finds
    /// which of them changed since the last commit.
    pub fn begin(objects: &Objects, rooms: &mut Rooms, nvm: &Pmem) -> Leader
        requires records { (id : ℕ) → IfSome (record_at objects.now id) IsObj }
        ensures stage { result.stage ≡ Stage.Gather }
        ensures numbers { (rest : Rest) → AreNumbersOf (has rooms.new.numbers.running) (state_of objects.now rest) }
        ensures rest { rooms.new ≡ record rooms.old {
          numbers = record rooms.old.numbers { running = rooms.new.numbers.running };
        } }
        ensures changed { (v : ℕ) (saved : Parts) (pages : ℕ → Option (ℕ → ℕ))
            → MayBegin rooms.old (word_at nvm.now) v saved pages → (id : ℕ) → id < OBJECTS
            → IsTrue (is_changed result id) ↔ IsToWrite (record_at objects.now id) (saved.objects id) }
        ensures writes { (v : ℕ) (saved : Parts) (pages : ℕ → Option (ℕ → ℕ))
            → MayBegin rooms.old (word_at nvm.now) v saved pages → IsWriting result rooms.new (word_at nvm.now) v
            (record { saved = saved; objects = record_at objects.now; pages = pages }) }
        ensures left { (v : ℕ) (saved : Parts) (pages : ℕ → Option (ℕ → ℕ))
            → MayBegin rooms.old (word_at nvm.now) v saved pages → turns_left result rooms.new
            ≡ pages_left rooms.old + 4 * count_of (is_changed result) OBJECTS
            + 2 * numbers_changed rooms.new + 17 }
    {
        let changed = changed_objects(objects, rooms, nvm);
        set_numbers(objects, rooms);
        Leader {
            stage: Stage::Gather,
            changed,
        }
    }
}

/// Says of each number of an object or a page whether it is in use by these objects.
fn set_numbers(objects: &Objects, rooms: &mut Rooms)
    ensures numbers { (rest : Rest) → AreNumbersOf (has rooms.new.numbers.running) (state_of objects.now rest) }
    ensures rest { rooms.new ≡ record rooms.old {
      numbers = record rooms.old.numbers { running = rooms.new.numbers.running };
    } }
{
    let used = NumbersInUse::of(objects);
    set_objects(&used, rooms);
    set_pages(&used, rooms);
}

/// Says of each object number whether it is in use.
fn set_objects(used: &NumbersInUse, rooms: &mut Rooms)
    ensures set { (id : ℕ) → id < OBJECTS
        → has rooms.new.numbers.running (index_of (Object id)) ≡ uses_object used.now id }
    ensures rest { rooms.new ≡ record rooms.old {
      numbers = record rooms.old.numbers { running = rooms.new.numbers.running };
    } }
{
    for id in 0..OBJECTS {
        rooms.set_object(id as ObjId, used.uses_object(id as ObjId));
    }
}

/// Says of each page number whether it is in use.
fn set_pages(used: &NumbersInUse, rooms: &mut Rooms)
    ensures set { (page : ℕ) → page < PAGES
        → has rooms.new.numbers.running (index_of (Page page)) ≡ uses_page used.now page }
    ensures objects { (id : ℕ) → id < OBJECTS
        → has rooms.new.numbers.running (index_of (Object id)) ≡ has rooms.old.numbers.running (index_of (Object id)) }
    ensures rest { rooms.new ≡ record rooms.old {
      numbers = record rooms.old.numbers { running = rooms.new.numbers.running };
    } }
{
    for page in 0..PAGES {
        rooms.set_page(page as PageNo, used.uses_page(page as PageNo));
    }
}

/// Which objects changed since the last commit, by number.
fn changed_objects(objects: &Objects, rooms: &Rooms, nvm: &Pmem) -> [bool; OBJECTS]
    requires records { (id : ℕ) → IfSome (record_at objects.now id) IsObj }
    ensures { (v : ℕ) (saved : Parts) (pages : ℕ → Option (ℕ → ℕ))
        → MayBegin rooms.now (word_at nvm.now) v saved pages → (id : ℕ) → id < OBJECTS
        → IsFound (slice_index_or result id false) (record_at objects.now id) (saved.objects id) }
{
    let mut changed = [false; OBJECTS];
    for id in 0..OBJECTS {
        changed[id] = has_changed(objects, rooms, nvm, id as ObjId);
    }
    changed
}

/// Whether an object changed since the last commit.
fn has_changed(objects: &Objects, rooms: &Rooms, nvm: &Pmem, id: ObjId) -> bool
    requires id { id < OBJECTS }
    requires record { IfSome (record_at objects.now id) IsObj }
    ensures { (v : ℕ) (saved : Parts) (pages : ℕ → Option (ℕ → ℕ))
        → MayBegin rooms.now (word_at nvm.now) v saved pages
        → IsFound result (record_at objects.now id) (saved.objects id) }
{
    match object_records::record_at(objects, id) {
        Some(obj) => !rooms.has_saved(nvm, id, &encode(&obj)),
        None => false,
    }
}
