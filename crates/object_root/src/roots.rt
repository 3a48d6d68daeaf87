//! The objects in the persistent memory, as they are written from one version to the next.

ghost use Rattle.std.specs.Prelude.{◌≡◌, ◌≢◌, ◌⊎◌, ℕ, ◌+◌, ◌*◌, ◌<◌, ◌≤◌, ◌↔◌, IsTrue, Option, slice_index, slice_index_or};
ghost use Rattle.pmem_model.specs.Words.{Word};
ghost use Rattle.pmem_model.specs.Memory.{SameHomes, word_at, KeepsCounts};
ghost use Rattle.pmem_model.specs.Events.{IsCalm};
ghost use Rattle.pmem_operations.specs.Operations.{IsAtMostOne};
ghost use Rattle.pmem_layout.specs.Owners.{Objects};
ghost use Rattle.pmem_layout.specs.Rooms.{FencedIn, StoresOnlyIn};
ghost use Rattle.kobj_codec.specs.declared.obj.Obj.{Obj};
ghost use Rattle.object_root.specs.Format.{IsChosen, ObjectsStand};
ghost use Rattle.object_root.specs.Room.{nothing, number_of, stage_at, AllIdle, KeepsOthers, Passes};
ghost use Rattle.object_root.specs.Steps.{Writes, StoresTag, fenced, steps_left, AtMostOne};
ghost use Rattle.object_root.specs.Shows.{AreClean, ObjectsShow, AllSettled, IsRecordOf, KeepsShowing, SparesSaved};
ghost use Rattle.object_root.specs.declared.slot.Slot.{Slot};
ghost use Rattle.object_root.specs.declared.stage.Phase.TheVariants as phases;
ghost use Rattle.object_root.specs.declared.stage.Stage.TheVariants as stages;

use crate::choice::chosen;
use crate::memory;
use crate::slot::Slot;
use crate::stage::{Phase, Stage};
use pmem_layout::{
    EMPTY_WORD, OBJECT_TAGS_AT, SLOT_LINES, SLOT_WORDS, SLOTS, Tag, line_at, object_slot_at,
    object_tag_at,
};
use pmem_model::Pmem;
use pmem_operations::laws::operations;
use sls_base::{LAST_VERSION, LEADER, LINE_WORDS, OBJECTS, ObjId, Version};
use std::marker::Model;

/// The lines of the tags of all objects.
const TAG_LINES: usize = SLOTS * OBJECTS / LINE_WORDS;

/// How far an object has come, and under which version.
#[derive(Clone, Copy)]
struct Progress {
    version: Version,
    stage: Stage,
}

/// The objects as they stand at the committed version, and as they are written under the next one beside it.
///
/// First recovery clears what a checkpoint that was cut left (`clear_step`). Then each object that changed is written
/// (`write_step`); after a fence by the leader (`fenced`) the tag of each is stored (`tag_step`); and after another the
/// commit makes them what is read (`committed`). A step does at most one operation on the memory, and no call takes
/// memory.
#[derive(Drop)]
pub struct Roots {
    version: Version,
    phase: Phase,
    progress: [Progress; OBJECTS],
}

impl Model for Roots {
    ghost use Rattle.object_root.specs.Room.{Room, stages_under, IsSound};

    ghost Value = { Room };

    ghost view = { λ r. record { version = r.version; phase = r.phase; stages = stages_under r.version r.progress } };

    ghost invariant = { λ r. IsSound r.version r.progress };
}

fn no_progress() -> [Progress; OBJECTS]
    ensures { (id : ℕ) → slice_index_or result id nothing ≡ nothing }
{
    [Progress {
        version: 0,
        stage: Stage::Idle,
    }; OBJECTS]
}

impl Roots {
    /// The objects as a cut left them at this version, which is the committed one: recovery begins.
    pub fn new(version: Version) -> Roots
        requires { version ≤ LAST_VERSION }
        ensures version { result.version ≡ version }
        ensures phase { result.phase ≡ phases.Clearing 0 }
        ensures idle { AllIdle result }
        ensures shows { (f : ℕ → Word) (saved next : ℕ → Option Obj) → AreClean f
            → ObjectsStand (λ i. (f i).durable) version saved → ObjectsShow result f version saved next }
    {
        Roots {
            version,
            phase: Phase::Clearing(0),
            progress: no_progress(),
        }
    }

    /// The committed version.
    pub fn version(&self) -> Version
        ensures version { result ≡ self.now.version }
        ensures range { result ≤ LAST_VERSION }
    {
        self.version
    }

    /// What is being done to all objects.
    pub fn phase(&self) -> Phase
        ensures { result ≡ self.now.phase }
    {
        self.phase
    }

    /// Whether recovery has cleared all tags above the version.
    pub fn is_cleared(&self) -> bool
        ensures { IsTrue result ↔ (steps_left self.now.phase ≡ 0) }
    {
        !matches!(self.phase(), Phase::Clearing(_) | Phase::Cleared)
    }

    /// How far an object has come.
    pub fn stage(&self, id: ObjId) -> Stage
        requires { id < OBJECTS }
        ensures { result ≡ stage_at self.now id }
    {
        let progress = self.progress[id as usize];
        if progress.version == self.version {
            progress.stage
        } else {
            Stage::Idle
        }
    }

    /// An object comes to a stage.
    fn come(&mut self, id: ObjId, stage: Stage)
        requires { id < OBJECTS }
        ensures stage { stage_at self.new id ≡ stage }
        ensures kept { KeepsOthers self.old self.new id }
    {
        self.progress[id as usize] = Progress {
            version: self.version,
            stage,
        };
    }

    /// All objects come to a phase.
    fn pass(&mut self, phase: Phase)
        ensures { Passes self.old self.new phase }
    {
        self.phase = phase;
    }

    /// Writes the record of an object into the slot that isn't chosen: it stores the words, and then flushes them. It
    /// answers whether that is done; until then it is called again with the same object and words. It does nothing
    /// while recovery clears tags, once records are fenced, and for an object whose record is written.
    pub fn write_step(&mut self, nvm: &mut Pmem, id: ObjId, words: &[u64; SLOT_WORDS]) -> bool
        requires object { id < OBJECTS }
        ensures step { Writes self.old.phase (stage_at self.old id) (stage_at self.new id) result }
        ensures kept { KeepsOthers self.old self.new id }
        ensures homes { SameHomes nvm.old nvm.new }
        ensures counts { KeepsCounts nvm.old nvm.new }
        ensures operations { AtMostOne nvm.old nvm.new }
        ensures operation { IsAtMostOne LEADER (word_at nvm.old) (word_at nvm.new) }
        ensures rest { StoresOnlyIn Objects (word_at nvm.old) (word_at nvm.new) }
        // Whatever is saved, and whatever is written that has these words as its record.
        ensures shows { (v : ℕ) (saved next : ℕ → Option Obj) → IsRecordOf (next id) (slice_index words.now)
            → ObjectsShow self.old (word_at nvm.old) v saved next
            → ObjectsShow self.new (word_at nvm.new) v saved next }
        ensures spared { SparesSaved self.old (word_at nvm.old) (word_at nvm.new) }
    {
        match (self.phase(), self.stage(id)) {
            (Phase::Records, Stage::Idle) => {
                self.store_record(nvm, id, words);
                false
            }
            (Phase::Records, Stage::Stored(slot)) => {
                self.flush_record(nvm, id, slot);
                true
            }
            _ => true,
        }
    }

    /// Names the next version in the tag of an object's new record: it stores the tag, and then flushes it. It answers
    /// whether that is done; until then it is called again with the same object. It does nothing before records are
    /// fenced, for an object whose record isn't written, and for one whose tag is.
    pub fn tag_step(&mut self, nvm: &mut Pmem, id: ObjId) -> bool
        requires object { id < OBJECTS }
        ensures step { StoresTag self.old.phase (stage_at self.old id) (stage_at self.new id) result }
        ensures kept { KeepsOthers self.old self.new id }
        ensures homes { SameHomes nvm.old nvm.new }
        ensures counts { KeepsCounts nvm.old nvm.new }
        ensures operations { AtMostOne nvm.old nvm.new }
        ensures operation { IsAtMostOne LEADER (word_at nvm.old) (word_at nvm.new) }
        ensures rest { StoresOnlyIn Objects (word_at nvm.old) (word_at nvm.new) }
        ensures shows { KeepsShowing self.old self.new (word_at nvm.old) (word_at nvm.new) }
        ensures spared { SparesSaved self.old (word_at nvm.old) (word_at nvm.new) }
    {
        match (self.phase(), self.stage(id)) {
            (Phase::Tags, Stage::Flushed(slot)) => {
                self.store_tag(nvm, id, slot);
                false
            }
            (Phase::Tags, Stage::TagStored(slot)) => {
                self.flush_tag(nvm, id, slot);
                true
            }
            _ => true,
        }
    }

    /// The leader has fenced what was written: records, of which the tags are stored now, or these tags.
    pub fn fenced(&mut self)
        ensures passed { Passes self.old self.new (fenced self.old.phase) }
        ensures shows { (f g : ℕ → Word) (v : ℕ) (saved next : ℕ → Option Obj) → FencedIn Objects LEADER f g
            → ObjectsShow self.old f v saved next → ObjectsShow self.new g v saved next }
    {
        self.pass(self.phase().after_fence());
    }

    /// The next version was committed: what was written is saved, and records may be written again.
    pub fn committed(&mut self)
        requires { self.old.version < LAST_VERSION }
        ensures version { self.new.version ≡ self.old.version + 1 }
        ensures phase { self.new.phase ≡ phases.Records }
        ensures idle { AllIdle self.new }
        ensures shows { (f : ℕ → Word) (v : ℕ) (saved next after : ℕ → Option Obj) → self.old.phase ≡ phases.Tagged
            → AllSettled self.old saved next → ObjectsShow self.old f v saved next
            → ObjectsShow self.new f (v + 1) next after }
    {
        self.version += 1;
        self.phase = Phase::Records;
    }

    /// A step of recovery: it looks at one tag and clears it where it is above the version; behind the last one it
    /// flushes all tags, and then it fences them, by the leader. It answers whether that is done.
    pub fn clear_step(&mut self, nvm: &mut Pmem) -> bool
        ensures last { IsTrue result ↔ (steps_left self.new.phase ≡ 0) }
        ensures fewer { (steps_left self.new.phase < steps_left self.old.phase) ⊎ (steps_left self.old.phase ≡ 0) }
        ensures ends { steps_left self.old.phase ≢ 0 → steps_left self.new.phase ≡ 0
            → self.new.phase ≡ phases.Records }
        ensures stages { (i : ℕ) → stage_at self.new i ≡ stage_at self.old i }
        ensures version { self.new.version ≡ self.old.version }
        ensures homes { SameHomes nvm.old nvm.new }
        ensures counts { KeepsCounts nvm.old nvm.new }
        ensures operations { AtMostOne nvm.old nvm.new }
        ensures operation { IsAtMostOne LEADER (word_at nvm.old) (word_at nvm.new) }
        ensures rest { StoresOnlyIn Objects (word_at nvm.old) (word_at nvm.new) }
        ensures shows { KeepsShowing self.old self.new (word_at nvm.old) (word_at nvm.new) }
        ensures spared { SparesSaved self.old (word_at nvm.old) (word_at nvm.new) }
    {
        operations();
        match self.phase() {
            Phase::Clearing(tag) => {
                if tag < SLOTS * OBJECTS {
                    self.clear_tag(nvm, tag);
                } else {
                    memory::flush(nvm, OBJECT_TAGS_AT, TAG_LINES);
                    self.pass(Phase::Cleared);
                }
                false
            }
            Phase::Cleared => {
                nvm.fence(LEADER);
                self.pass(Phase::Records);
                true
            }
            Phase::Records | Phase::Tags | Phase::Tagged => true,
        }
    }

    fn store_record(&mut self, nvm: &mut Pmem, id: ObjId, words: &[u64; SLOT_WORDS])
        requires object { id < OBJECTS }
        requires phase { self.old.phase ≡ phases.Records }
        requires stage { stage_at self.old id ≡ stages.Idle }
        ensures stage { (slot : Slot) × stage_at self.new id ≡ stages.Stored slot }
        ensures kept { KeepsOthers self.old self.new id }
        ensures homes { SameHomes nvm.old nvm.new }
        ensures counts { KeepsCounts nvm.old nvm.new }
        ensures operations { AtMostOne nvm.old nvm.new }
        ensures operation { IsAtMostOne LEADER (word_at nvm.old) (word_at nvm.new) }
        ensures rest { StoresOnlyIn Objects (word_at nvm.old) (word_at nvm.new) }
        ensures shows { (v : ℕ) (saved next : ℕ → Option Obj) → IsRecordOf (next id) (slice_index words.now)
            → ObjectsShow self.old (word_at nvm.old) v saved next
            → ObjectsShow self.new (word_at nvm.new) v saved next }
        ensures spared { SparesSaved self.old (word_at nvm.old) (word_at nvm.new) }
    {
        let slot = free_slot(nvm, id, self.version);
        memory::store(nvm, object_slot_at(id, slot.number()), words);
        self.come(id, Stage::Stored(slot));
    }

    fn flush_record(&mut self, nvm: &mut Pmem, id: ObjId, slot: Slot)
        requires object { id < OBJECTS }
        requires phase { self.old.phase ≡ phases.Records }
        requires stage { stage_at self.old id ≡ stages.Stored slot }
        ensures stage { stage_at self.new id ≡ stages.Flushed slot }
        ensures kept { KeepsOthers self.old self.new id }
        ensures homes { SameHomes nvm.old nvm.new }
        ensures counts { KeepsCounts nvm.old nvm.new }
        ensures operations { AtMostOne nvm.old nvm.new }
        ensures operation { IsAtMostOne LEADER (word_at nvm.old) (word_at nvm.new) }
        ensures calm { IsCalm (word_at nvm.old) (word_at nvm.new) }
        ensures shows { KeepsShowing self.old self.new (word_at nvm.old) (word_at nvm.new) }
    {
        memory::flush(nvm, object_slot_at(id, slot.number()), SLOT_LINES);
        self.come(id, Stage::Flushed(slot));
    }

    fn store_tag(&mut self, nvm: &mut Pmem, id: ObjId, slot: Slot)
        requires object { id < OBJECTS }
        requires phase { self.old.phase ≡ phases.Tags }
        requires stage { stage_at self.old id ≡ stages.Flushed slot }
        ensures stage { stage_at self.new id ≡ stages.TagStored slot }
        ensures kept { KeepsOthers self.old self.new id }
        ensures homes { SameHomes nvm.old nvm.new }
        ensures counts { KeepsCounts nvm.old nvm.new }
        ensures operations { AtMostOne nvm.old nvm.new }
        ensures operation { IsAtMostOne LEADER (word_at nvm.old) (word_at nvm.new) }
        ensures rest { StoresOnlyIn Objects (word_at nvm.old) (word_at nvm.new) }
        ensures shows { KeepsShowing self.old self.new (word_at nvm.old) (word_at nvm.new) }
        ensures spared { SparesSaved self.old (word_at nvm.old) (word_at nvm.new) }
    {
        let tag = Tag::Of(self.version + 1);
        memory::store(nvm, object_tag_at(id, slot.number()), &[tag.to_word()]);
        self.come(id, Stage::TagStored(slot));
    }

    fn flush_tag(&mut self, nvm: &mut Pmem, id: ObjId, slot: Slot)
        requires object { id < OBJECTS }
        requires phase { self.old.phase ≡ phases.Tags }
        requires stage { stage_at self.old id ≡ stages.TagStored slot }
        ensures stage { stage_at self.new id ≡ stages.TagFlushed slot }
        ensures kept { KeepsOthers self.old self.new id }
        ensures homes { SameHomes nvm.old nvm.new }
        ensures counts { KeepsCounts nvm.old nvm.new }
        ensures operations { AtMostOne nvm.old nvm.new }
        ensures operation { IsAtMostOne LEADER (word_at nvm.old) (word_at nvm.new) }
        ensures calm { IsCalm (word_at nvm.old) (word_at nvm.new) }
        ensures shows { KeepsShowing self.old self.new (word_at nvm.old) (word_at nvm.new) }
    {
        memory::flush(nvm, line_at(object_tag_at(id, slot.number())), 1);
        self.come(id, Stage::TagFlushed(slot));
    }

    /// Clears a tag where it is above the version, and comes to the next one. A tag is named by its number among those
    /// of all objects.
    fn clear_tag(&mut self, nvm: &mut Pmem, tag: usize)
        requires tag { tag < SLOTS * OBJECTS }
        requires phase { self.old.phase ≡ phases.Clearing tag }
        ensures phase { Passes self.old self.new (phases.Clearing (tag + 1)) }
        ensures homes { SameHomes nvm.old nvm.new }
        ensures counts { KeepsCounts nvm.old nvm.new }
        ensures operations { AtMostOne nvm.old nvm.new }
        ensures operation { IsAtMostOne LEADER (word_at nvm.old) (word_at nvm.new) }
        ensures rest { StoresOnlyIn Objects (word_at nvm.old) (word_at nvm.new) }
        ensures shows { KeepsShowing self.old self.new (word_at nvm.old) (word_at nvm.new) }
        ensures spared { SparesSaved self.old (word_at nvm.old) (word_at nvm.new) }
    {
        let at = OBJECT_TAGS_AT + tag;
        if Tag::from_word(memory::read(nvm, at)).is_above(self.version) {
            memory::store(nvm, at, &[EMPTY_WORD]);
        }
        self.pass(Phase::Clearing(tag + 1));
    }
}

/// The slot of an object that isn't chosen at `v`.
fn free_slot(nvm: &Pmem, id: ObjId, v: Version) -> Slot
    requires object { id < OBJECTS }
    ensures { (slot : ℕ) → IsChosen (λ i. (word_at nvm.now i).cached) v id slot → number_of result + slot ≡ 1 }
{
    match chosen(nvm, id, v) {
        Some(0) => Slot::Second,
        _ => Slot::First,
    }
}
