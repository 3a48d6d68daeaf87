//! The leader's stages.

ghost use Rattle.std.specs.Prelude.{◌≡◌, ◌≢◌, ◌⊎◌, ◌+◌, ◌<◌, ◌↔◌, ℕ, IsSome, IsNone, IfSome, IfNone, Option};
ghost use Rattle.sls_base.specs.declared.fixed.TheConstants.{LEADER};
ghost use Rattle.sls_base.specs.declared.limits.TheConstants.{PAGES, VERSION_AT};
ghost use Rattle.pmem_model.specs.Words.{Word};
ghost use Rattle.pmem_model.specs.Events.{IsCalm};
ghost use Rattle.pmem_model.specs.Memory.{word_at, AllHome, SameHomes, count_up, KeepsCounts};
ghost use Rattle.pmem_operations.specs.Operations.{IsAtMostOne};
ghost use Rattle.kobj_codec.specs.Objects.{IsObj};
ghost use Rattle.object_records.specs.Records.{record_at};
ghost use Rattle.page_store.specs.Stages.{stage_of, state_of, after, IsSettled};
ghost use Rattle.durable_state.specs.Parts.{Parts};
ghost use Rattle.version_rooms.specs.Rooms.{Contents};
ghost use Rattle.leader_helper.specs.Leads.{AreNext, IsApplying, IsLeading, IsWriting, Writes, Applies};
ghost use Rattle.leader_helper.specs.Turns.{turns_left};

use crate::stage::{Progress, Stage};
use kobj_table::Objects;
use pmem_model::Pmem;
use sls_base::OBJECTS;
use version_rooms::Rooms;

/// The leader of a checkpoint: what it does next, and which objects changed since the last commit.
///
/// A step does at most one operation on the memory, and no call takes memory.
#[derive(Drop)]
pub struct Leader {
    pub(crate) stage: Stage,
    pub(crate) changed: [bool; OBJECTS],
}

impl Leader {
    /// What the leader does next.
    pub fn stage(&self) -> Stage
        ensures { result ≡ self.now.stage }
    {
        self.stage
    }

    /// A turn of the leader. It tells when the next version is committed, and when the checkpoint is at its end.
    pub fn step(&mut self, objects: &Objects, rooms: &mut Rooms, nvm: &mut Pmem) -> Progress
        requires leads { IsLeading self.old rooms.old (word_at nvm.old) (record_at objects.now) }
        requires records { (id : ℕ) → IfSome (record_at objects.now id) IsObj }
        requires home { AllHome nvm.old }
        requires settled { self.old.stage ≡ Stage.Gather
            → (page : ℕ) → page < PAGES → IsSettled (stage_of rooms.old.pages page) }
        ensures writes { (v : ℕ) (c : Contents) → c.objects ≡ record_at objects.now
            → IsWriting self.old rooms.old (word_at nvm.old) v c
            → Writes result rooms.old self.new rooms.new (word_at nvm.new) v c }
        ensures applies { (v : ℕ) (saved : Parts) (pages : ℕ → Option (ℕ → ℕ))
            → IsApplying self.old rooms.old (word_at nvm.old) v saved pages
            → Applies result self.new rooms.new (word_at nvm.new) v saved pages }
        // Of the turns that are left this was one.
        ensures left { result ≢ Progress.Resumed
            → turns_left self.old rooms.old ≡ turns_left self.new rooms.new + 1 }
        ensures last { result ≡ Progress.Resumed → turns_left self.old rooms.old ≡ 1 }
        ensures still { result ≡ Progress.Resumed → nvm.new ≡ nvm.old }
        // A page may be stored to as before, up to the commit.
        ensures led { result ≢ Progress.Committed
            → (page : ℕ) → page < PAGES → state_of rooms.new.pages page ≡ state_of rooms.old.pages page }
        ensures committed { result ≡ Progress.Committed
            → (page : ℕ) → page < PAGES → stage_of rooms.new.pages page ≡ after (stage_of rooms.old.pages page) }
        ensures running { rooms.new.numbers.running ≡ rooms.old.numbers.running }
        ensures homes { SameHomes nvm.old nvm.new }
        ensures counts { KeepsCounts nvm.old nvm.new }
        ensures operation { IsAtMostOne LEADER (word_at nvm.old) (word_at nvm.new) }
        ensures one { (nvm.new.ops ≡ nvm.old.ops) ⊎ (nvm.new.ops ≡ count_up nvm.old.ops) }
    {
        match self.stage {
            Stage::Gather => {
                self.flush_first(rooms, nvm);
                Progress::Led
            }
            Stage::Pages(first) => {
                self.flush_next(rooms, nvm, first);
                Progress::Led
            }
            Stage::Records(first) => {
                self.write_next(objects, rooms, nvm, first);
                Progress::Led
            }
            Stage::Log => {
                self.log_next(rooms, nvm);
                Progress::Led
            }
            Stage::Fence => {
                self.fence_records(rooms, nvm);
                Progress::Led
            }
            Stage::Tags(first) => {
                self.tag_next(rooms, nvm, first);
                Progress::Led
            }
            Stage::Commit => self.commit_next(rooms, nvm),
            Stage::Apply => {
                self.apply_next(rooms, nvm);
                Progress::Led
            }
            Stage::Resume => Progress::Resumed,
        }
    }

    /// After an event that stored nothing, as a write-back: whether it committed the next version. If it did, the
    /// leader goes on behind the commit, and this is how many of its turns the event spared it.
    pub fn settle(&mut self, rooms: &mut Rooms, nvm: &Pmem) -> Option<u8>
        ensures none { IfNone result ((self.new ≡ self.old) × (rooms.new ≡ rooms.old)) }
        ensures writes { (f : ℕ → Word) (v : ℕ) (c : Contents) → IsCalm f (word_at nvm.now)
            → IsWriting self.old rooms.old f v c
            → IfNone result (IsWriting self.new rooms.new (word_at nvm.now) v c) }
        ensures commits { (f : ℕ → Word) (v : ℕ) (c : Contents) → IsCalm f (word_at nvm.now)
            → IsWriting self.old rooms.old f v c → IsSome result
            → (next : Parts) → AreNext rooms.old c next
            → IsApplying self.new rooms.new (word_at nvm.now) (v + 1) next c.pages }
        ensures committed { (f : ℕ → Word) (v : ℕ) (c : Contents) → IsCalm f (word_at nvm.now)
            → IsWriting self.old rooms.old f v c
            → IsSome result ↔ ((word_at nvm.now VERSION_AT).durable ≢ v) }
        ensures applies { (f : ℕ → Word) (v : ℕ) (saved : Parts) (pages : ℕ → Option (ℕ → ℕ))
            → IsCalm f (word_at nvm.now) → IsApplying self.old rooms.old f v saved pages
            → IsNone result × IsApplying self.new rooms.new (word_at nvm.now) v saved pages }
        // Of the turns that were left, those of the commit are spared.
        ensures left { (f : ℕ → Word) (v : ℕ) (c : Contents) → IsCalm f (word_at nvm.now)
            → IsWriting self.old rooms.old f v c
            → IfSome result (λ spared. turns_left self.old rooms.old ≡ turns_left self.new rooms.new + spared) }
        ensures stages { (f : ℕ → Word) (v : ℕ) (c : Contents) → IsCalm f (word_at nvm.now)
            → IsWriting self.old rooms.old f v c → IsSome result
            → (page : ℕ) → page < PAGES → stage_of rooms.new.pages page ≡ after (stage_of rooms.old.pages page) }
    {
        version_rooms::laws::calm();
        let spared = rooms.commit_turns();
        if rooms.settle(nvm) {
            self.stage = Stage::Apply;
            Some(spared)
        } else {
            None
        }
    }
}
