//! The objects of a version, from their records.

ghost use Rattle.std.specs.Prelude.{◌≡◌, ◌<◌, ◌+◌, ℕ, IfSome, slice_index};
ghost use Rattle.pmem_model.specs.Memory.{word_at};
ghost use Rattle.pmem_layout.specs.Places as places;
ghost use Rattle.kobj_codec.specs.Objects.{IsObj};
ghost use Rattle.durable_state.specs.Parts.{Parts};
ghost use Rattle.object_records.specs.Records.{HasOwnLists, record_at};
ghost use Rattle.tree_restore.specs.Whole.{AreEmptyFrom, CanBeRead, HaveRecords};

use alloc_journal::Numbers;
use kobj_codec::{Obj, decode};
use kobj_table::Objects;
use object_records::{has_free_threads, put_back};
use object_root::chosen;
use pmem_layout::{EMPTY_WORD, SLOT_WORDS, SLOTS, object_slot_at};
use pmem_model::Pmem;
use sls_base::{OBJECTS, ObjId, Version};

/// The objects that have a record at a version, each put back from it.
pub fn put_back_all(nvm: &Pmem, numbers: &Numbers, version: Version) -> Objects
    ensures records { (saved : Parts) → CanBeRead (λ i. (word_at nvm.now i).cached) numbers.now.work version saved
        → (i : ℕ) → record_at result i ≡ saved.objects i }
    ensures own { HasOwnLists result }
{
    let mut objects = Objects::new();
    for id in 0..OBJECTS {
        put_back_one(&mut objects, nvm, numbers, id as ObjId, version);
    }
    objects
}

/// Puts the object of a number back, if it has a record at a version. So it goes from one number to the next.
fn put_back_one(objects: &mut Objects, nvm: &Pmem, numbers: &Numbers, id: ObjId, version: Version)
    requires id { id < OBJECTS }
    requires empty { AreEmptyFrom objects.old id }
    ensures empty { AreEmptyFrom objects.new (id + 1) }
    ensures records { (saved : Parts) → CanBeRead (λ i. (word_at nvm.now i).cached) numbers.now.work version saved
        → HaveRecords objects.old id saved.objects → HaveRecords objects.new (id + 1) saved.objects }
{
    object_records::laws::sound_objects_have_records();
    object_records::laws::records_tell_tables();
    object_records::laws::lists_are_apart();
    if let Some(obj) = read_record(nvm, numbers, id, version) {
        // In a sound state no thread is in two lists.
        if has_free_threads(objects, &obj) {
            put_back(objects, id, &obj);
        }
    }
}

/// The record of an object at a version. There is none where its number isn't in use.
fn read_record(nvm: &Pmem, numbers: &Numbers, id: ObjId, version: Version) -> Option<Obj>
    requires { id < OBJECTS }
    ensures range { IfSome result IsObj }
    ensures record { (saved : Parts) → CanBeRead (λ i. (word_at nvm.now i).cached) numbers.now.work version saved
        → result ≡ saved.objects id }
{
    if !numbers.has_committed_object(id) {
        return None;
    }
    kobj_codec::laws::words_of_a_slot();
    let slot = chosen(nvm, id, version)?;
    decode(&slot_words(nvm, id, slot))
}

/// The words of a slot of an object.
#[tactic(auto, using(pmem_model::specs::PlaceLaws::table_home))]
fn slot_words(nvm: &Pmem, id: ObjId, slot: u8) -> [u64; SLOT_WORDS]
    requires object { id < OBJECTS }
    requires slot { slot < SLOTS }
    ensures { (j : ℕ) → j < SLOT_WORDS
        → slice_index result j ≡ (word_at nvm.now (places.object_slot_at id slot + j)).cached }
{
    let at = object_slot_at(id, slot);
    let mut words = [EMPTY_WORD; SLOT_WORDS];
    for j in 0..SLOT_WORDS {
        words[j] = nvm.read(at + j);
    }
    words
}
