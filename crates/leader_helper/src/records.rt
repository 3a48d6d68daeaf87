//! The turns of the leader that write the records of the objects that changed.

ghost use Rattle.std.specs.Prelude.{◌≡◌, ◌⊎◌, ◌<◌, ℕ, IfSome, slice_index};
ghost use Rattle.sls_base.specs.declared.fixed.TheConstants.{LEADER};
ghost use Rattle.sls_base.specs.declared.limits.TheConstants.{OBJECTS};
ghost use Rattle.pmem_model.specs.Memory.{word_at, SameHomes, count_up, KeepsCounts};
ghost use Rattle.pmem_operations.specs.Operations.{IsAtMostOne};
ghost use Rattle.kobj_codec.specs.Objects.{IsObj};
ghost use Rattle.object_records.specs.Records.{record_at as recorded};
ghost use Rattle.object_root.specs.Shows.{IsRecordOf};
ghost use Rattle.version_rooms.specs.Rooms.{Contents};
ghost use Rattle.leader_helper.specs.First.{IsFirstFrom};
ghost use Rattle.leader_helper.specs.Leads.{is_changed, IsLedTo, IsWriting};
ghost use Rattle.leader_helper.specs.Turns.{IsTurn};

use crate::finding::next_changed;
use crate::leader::Leader;
use crate::stage::Stage;
use kobj_codec::encode;
use kobj_table::Objects;
use object_records::record_at;
use pmem_layout::{EMPTY_WORD, SLOT_WORDS};
use pmem_model::Pmem;
use sls_base::ObjId;
use version_rooms::Rooms;

impl Leader {
    /// Takes the record of the next object that changed, from this one on, a step further. Behind the last it begins
    /// the log.
    pub(crate) fn write_next(
        &mut self,
        objects: &Objects,
        rooms: &mut Rooms,
        nvm: &mut Pmem,
        first: ObjId,
    )
        requires stage { self.old.stage ≡ Stage.Records first }
        requires led { IsLedTo self.old rooms.old (word_at nvm.old) }
        requires records { (id : ℕ) → IfSome (recorded objects.now id) IsObj }
        ensures writes { (v : ℕ) (c : Contents) → c.objects ≡ recorded objects.now
            → IsWriting self.old rooms.old (word_at nvm.old) v c
            → IsWriting self.new rooms.new (word_at nvm.new) v c }
        ensures turn { IsTurn self.old self.new rooms.old rooms.new }
        ensures homes { SameHomes nvm.old nvm.new }
        ensures counts { KeepsCounts nvm.old nvm.new }
        ensures operation { IsAtMostOne LEADER (word_at nvm.old) (word_at nvm.new) }
        ensures one { (nvm.new.ops ≡ nvm.old.ops) ⊎ (nvm.new.ops ≡ count_up nvm.old.ops) }
    {
        match next_changed(self, first) {
            Some(id) => self.write_record(objects, rooms, nvm, first, id),
            None => {
                self.stage = Stage::Log;
                self.log_next(rooms, nvm);
            }
        }
    }

    /// Takes the record of an object that changed a step further.
    fn write_record(
        &mut self,
        objects: &Objects,
        rooms: &mut Rooms,
        nvm: &mut Pmem,
        first: ObjId,
        id: ObjId,
    )
        requires stage { self.old.stage ≡ Stage.Records first }
        requires next { IsFirstFrom first OBJECTS (is_changed self.old) id }
        requires led { IsLedTo self.old rooms.old (word_at nvm.old) }
        requires object { IfSome (recorded objects.now id) IsObj }
        ensures writes { (v : ℕ) (c : Contents) → c.objects ≡ recorded objects.now
            → IsWriting self.old rooms.old (word_at nvm.old) v c
            → IsWriting self.new rooms.new (word_at nvm.new) v c }
        ensures turn { IsTurn self.old self.new rooms.old rooms.new }
        ensures homes { SameHomes nvm.old nvm.new }
        ensures counts { KeepsCounts nvm.old nvm.new }
        ensures operation { IsAtMostOne LEADER (word_at nvm.old) (word_at nvm.new) }
        ensures one { (nvm.new.ops ≡ nvm.old.ops) ⊎ (nvm.new.ops ≡ count_up nvm.old.ops) }
    {
        let words = words_of(objects, id);
        if rooms.write_step(nvm, id, &words) {
            self.stage = Stage::Records(id + 1);
        } else {
            self.stage = Stage::Records(id);
        }
    }
}

/// The record of an object; of no object, empty words.
fn words_of(objects: &Objects, id: ObjId) -> [u64; SLOT_WORDS]
    requires { IfSome (recorded objects.now id) IsObj }
    ensures { IsRecordOf (recorded objects.now id) (slice_index result) }
{
    match record_at(objects, id) {
        Some(obj) => encode(&obj),
        None => [EMPTY_WORD; SLOT_WORDS],
    }
}
