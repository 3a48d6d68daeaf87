//! What is said of the running state, and what is asked of the rooms, between two steps.

ghost use Rattle.std.specs.Prelude.{◌≡◌, ◌≢◌, ◌+◌, ◌<◌, ◌↔◌, ℕ, Some, IsTrue, is_some, slice_index};
ghost use Rattle.kobj_codec.specs.declared.obj.Obj.{Obj};
ghost use Rattle.kobj_codec.specs.Objects.{IsObj};
ghost use Rattle.kobj_codec.specs.Records.{IsRecord};
ghost use Rattle.pmem_model.specs.Memory.{word_at};
ghost use Rattle.pmem_layout.specs.declared.number.Number.TheVariants.{Object, Page};
ghost use Rattle.pmem_layout.specs.Numbers.{index_of};
ghost use Rattle.pmem_layout.specs.Places as places;
ghost use Rattle.alloc_journal.specs.declared.journal.Stage.TheVariants.{Redoing};
ghost use Rattle.alloc_journal.specs.Sets.{Puts};
ghost use Rattle.object_root.specs.Format.{IsChosen};
ghost use Rattle.page_store.specs.Known.{Phase};
ghost use Rattle.version_rooms.specs.Rooms.{Contents, RoomsShow};

use crate::rooms::Rooms;
use object_root::chosen;
use pmem_layout::{SLOT_WORDS, SLOTS, object_slot_at};
use pmem_model::Pmem;
use sls_base::{OBJECTS, ObjId, PAGES, PageNo, Version};

impl Rooms {
    /// Says whether an object number is in use in the running state.
    pub fn set_object(&mut self, id: ObjId, in_use: bool)
        requires { id < OBJECTS }
        ensures set { Puts (index_of (Object id)) in_use self.old.numbers.running self.new.numbers.running }
        ensures rest { self.new ≡ record self.old {
          numbers = record self.old.numbers { running = self.new.numbers.running };
        } }
    {
        self.numbers.set_object(id, in_use);
    }

    /// Says whether a page number is in use in the running state.
    pub fn set_page(&mut self, page: PageNo, in_use: bool)
        requires { page < PAGES }
        ensures set { Puts (index_of (Page page)) in_use self.old.numbers.running self.new.numbers.running }
        ensures rest { self.new ≡ record self.old {
          numbers = record self.old.numbers { running = self.new.numbers.running };
        } }
    {
        self.numbers.set_page(page, in_use);
    }

    /// Whether an object of this number is saved at the committed version, and these words are its record. Of an object
    /// that is saved the number is in use at that version, and of the others it isn't.
    pub fn has_saved(&self, nvm: &Pmem, id: ObjId, words: &[u64; SLOT_WORDS]) -> bool
        requires { id < OBJECTS }
        ensures { (v : ℕ) (c : Contents) (phase : Phase) (o : Obj) → RoomsShow self.now (word_at nvm.now) v c phase
            → self.now.numbers.work.stage ≢ Redoing → c.saved.numbers (index_of (Object id)) ≡ is_some (c.saved.objects id)
            → IsObj o → IsRecord (slice_index words.now) o → IsTrue result ↔ (c.saved.objects id ≡ Some o) }
    {
        alloc_journal::laws::known();
        object_root::laws::room();
        kobj_codec::laws::one_object();
        self.numbers.has_committed_object(id) && has_record(nvm, id, self.version(), words)
    }
}

/// Whether an object has a slot that is read at a version, with these words.
fn has_record(nvm: &Pmem, id: ObjId, v: Version, words: &[u64; SLOT_WORDS]) -> bool
    requires { id < OBJECTS }
    ensures { (slot : ℕ) → IsChosen (λ i. (word_at nvm.now i).cached) v id slot
        → IsTrue result ↔ ((j : ℕ) → j < SLOT_WORDS
        → (word_at nvm.now (places.object_slot_at id slot + j)).cached ≡ slice_index words.now j) }
{
    match chosen(nvm, id, v) {
        Some(slot) => slot_has(nvm, id, slot, words),
        None => false,
    }
}

/// Whether a slot of an object has these words.
#[tactic(auto, using(pmem_model::specs::PlaceLaws::table_home))]
fn slot_has(nvm: &Pmem, id: ObjId, slot: u8, words: &[u64; SLOT_WORDS]) -> bool
    requires object { id < OBJECTS }
    requires slot { slot < SLOTS }
    ensures { IsTrue result ↔ ((j : ℕ) → j < SLOT_WORDS
        → (word_at nvm.now (places.object_slot_at id slot + j)).cached ≡ slice_index words.now j) }
{
    let at = object_slot_at(id, slot);
    for (j, word) in words.iter().enumerate() {
        if nvm.read(at + j) != *word {
            return false;
        }
    }
    true
}
