//! A turn of the leader at each stage.

ghost use Rattle.std.specs.Prelude.{◌≡◌, ◌≢◌, ◌⊎◌, ◌+◌, ◌<◌, ℕ, Option};
ghost use Rattle.sls_base.specs.declared.fixed.TheConstants.{LEADER};
ghost use Rattle.sls_base.specs.declared.limits.TheConstants.{OBJECTS, PAGES};
ghost use Rattle.pmem_model.specs.Memory.{word_at, AllHome, SameHomes, count_up, KeepsCounts};
ghost use Rattle.pmem_operations.specs.Operations.{IsAtMostOne};
ghost use Rattle.page_store.specs.Stages.{stage_of, state_of, after, IsSettled};
ghost use Rattle.durable_state.specs.Parts.{Parts};
ghost use Rattle.version_rooms.specs.Rooms.{Contents};
ghost use Rattle.leader_helper.specs.First.{IsFirstFrom};
ghost use Rattle.leader_helper.specs.Leads.{is_changed, IsApplying, IsLedFrom, IsLedTo, IsWriting, Writes};
ghost use Rattle.leader_helper.specs.Turns.{turns_left, IsTurn};

use crate::finding::{next_changed, next_stored};
use crate::leader::Leader;
use crate::stage::{Progress, Stage};
use pmem_model::Pmem;
use sls_base::{ObjId, PageNo};
use version_rooms::Rooms;

impl Leader {
    /// Flushes the first page that was stored to, once no core prepares a page any more.
    pub(crate) fn flush_first(&mut self, rooms: &mut Rooms, nvm: &mut Pmem)
        requires stage { self.old.stage ≡ Stage.Gather }
        requires led { IsLedTo self.old rooms.old (word_at nvm.old) }
        requires home { AllHome nvm.old }
        requires settled { (page : ℕ) → page < PAGES → IsSettled (stage_of rooms.old.pages page) }
        ensures writes { (v : ℕ) (c : Contents) → IsWriting self.old rooms.old (word_at nvm.old) v c
            → IsWriting self.new rooms.new (word_at nvm.new) v c }
        ensures turn { IsTurn self.old self.new rooms.old rooms.new }
        ensures homes { SameHomes nvm.old nvm.new }
        ensures counts { KeepsCounts nvm.old nvm.new }
        ensures operation { IsAtMostOne LEADER (word_at nvm.old) (word_at nvm.new) }
        ensures one { nvm.new.ops ≡ count_up nvm.old.ops }
    {
        self.stage = Stage::Pages(0);
        self.flush_next(rooms, nvm, 0);
    }

    /// Flushes the next page that was stored to, from this one on. Behind the last it fences.
    pub(crate) fn flush_next(&mut self, rooms: &mut Rooms, nvm: &mut Pmem, first: PageNo)
        requires stage { self.old.stage ≡ Stage.Pages first }
        requires led { IsLedTo self.old rooms.old (word_at nvm.old) }
        requires home { AllHome nvm.old }
        ensures writes { (v : ℕ) (c : Contents) → IsWriting self.old rooms.old (word_at nvm.old) v c
            → IsWriting self.new rooms.new (word_at nvm.new) v c }
        ensures turn { IsTurn self.old self.new rooms.old rooms.new }
        ensures homes { SameHomes nvm.old nvm.new }
        ensures counts { KeepsCounts nvm.old nvm.new }
        ensures operation { IsAtMostOne LEADER (word_at nvm.old) (word_at nvm.new) }
        ensures one { nvm.new.ops ≡ count_up nvm.old.ops }
    {
        match next_stored(rooms, first) {
            Some(page) => {
                rooms.flush_page(nvm, page);
                self.stage = Stage::Pages(page + 1);
            }
            None => {
                rooms.fence_pages(nvm);
                self.stage = Stage::Records(0);
            }
        }
    }

    /// Takes the log a step further.
    pub(crate) fn log_next(&mut self, rooms: &mut Rooms, nvm: &mut Pmem)
        requires stage { self.old.stage ≡ Stage.Log }
        requires led { IsLedTo self.old rooms.old (word_at nvm.old) }
        ensures writes { (v : ℕ) (c : Contents) → IsWriting self.old rooms.old (word_at nvm.old) v c
            → IsWriting self.new rooms.new (word_at nvm.new) v c }
        ensures turn { IsTurn self.old self.new rooms.old rooms.new }
        ensures homes { SameHomes nvm.old nvm.new }
        ensures counts { KeepsCounts nvm.old nvm.new }
        ensures operation { IsAtMostOne LEADER (word_at nvm.old) (word_at nvm.new) }
        ensures one { (nvm.new.ops ≡ count_up nvm.old.ops) ⊎ (nvm.new.ops ≡ nvm.old.ops) }
    {
        if rooms.log_step(nvm) {
            self.stage = Stage::Fence;
        } else {
            self.stage = Stage::Log;
        }
    }

    /// Fences the records.
    pub(crate) fn fence_records(&mut self, rooms: &mut Rooms, nvm: &mut Pmem)
        requires stage { self.old.stage ≡ Stage.Fence }
        requires led { IsLedTo self.old rooms.old (word_at nvm.old) }
        ensures writes { (v : ℕ) (c : Contents) → IsWriting self.old rooms.old (word_at nvm.old) v c
            → IsWriting self.new rooms.new (word_at nvm.new) v c }
        ensures turn { IsTurn self.old self.new rooms.old rooms.new }
        ensures homes { SameHomes nvm.old nvm.new }
        ensures counts { KeepsCounts nvm.old nvm.new }
        ensures operation { IsAtMostOne LEADER (word_at nvm.old) (word_at nvm.new) }
        ensures one { nvm.new.ops ≡ count_up nvm.old.ops }
    {
        rooms.fence_objects(nvm);
        self.stage = Stage::Tags(0);
    }

    /// Takes the tag of the next object that changed, from this one on, a step further. Behind the last it fences the
    /// tags.
    pub(crate) fn tag_next(&mut self, rooms: &mut Rooms, nvm: &mut Pmem, first: ObjId)
        requires stage { self.old.stage ≡ Stage.Tags first }
        requires led { IsLedTo self.old rooms.old (word_at nvm.old) }
        ensures writes { (v : ℕ) (c : Contents) → IsWriting self.old rooms.old (word_at nvm.old) v c
            → IsWriting self.new rooms.new (word_at nvm.new) v c }
        ensures turn { IsTurn self.old self.new rooms.old rooms.new }
        ensures homes { SameHomes nvm.old nvm.new }
        ensures counts { KeepsCounts nvm.old nvm.new }
        ensures operation { IsAtMostOne LEADER (word_at nvm.old) (word_at nvm.new) }
        ensures one { (nvm.new.ops ≡ nvm.old.ops) ⊎ (nvm.new.ops ≡ count_up nvm.old.ops) }
    {
        match next_changed(self, first) {
            Some(id) => self.tag_record(rooms, nvm, first, id),
            None => {
                rooms.fence_objects(nvm);
                self.stage = Stage::Commit;
            }
        }
    }

    /// Takes the tag of an object that changed a step further.
    fn tag_record(&mut self, rooms: &mut Rooms, nvm: &mut Pmem, first: ObjId, id: ObjId)
        requires stage { self.old.stage ≡ Stage.Tags first }
        requires next { IsFirstFrom first OBJECTS (is_changed self.old) id }
        requires led { IsLedTo self.old rooms.old (word_at nvm.old) }
        ensures writes { (v : ℕ) (c : Contents) → IsWriting self.old rooms.old (word_at nvm.old) v c
            → IsWriting self.new rooms.new (word_at nvm.new) v c }
        ensures turn { IsTurn self.old self.new rooms.old rooms.new }
        ensures homes { SameHomes nvm.old nvm.new }
        ensures counts { KeepsCounts nvm.old nvm.new }
        ensures operation { IsAtMostOne LEADER (word_at nvm.old) (word_at nvm.new) }
        ensures one { (nvm.new.ops ≡ nvm.old.ops) ⊎ (nvm.new.ops ≡ count_up nvm.old.ops) }
    {
        if rooms.tag_step(nvm, id) {
            self.stage = Stage::Tags(id + 1);
        } else {
            self.stage = Stage::Tags(id);
        }
    }

    /// Takes the commit a step further. Behind the commit the log is to be applied.
    pub(crate) fn commit_next(&mut self, rooms: &mut Rooms, nvm: &mut Pmem) -> Progress
        requires stage { self.old.stage ≡ Stage.Commit }
        requires led { IsLedTo self.old rooms.old (word_at nvm.old) }
        ensures writes { (v : ℕ) (c : Contents) → IsWriting self.old rooms.old (word_at nvm.old) v c
            → Writes result rooms.old self.new rooms.new (word_at nvm.new) v c }
        ensures goes_on { result ≢ Progress.Resumed }
        ensures left { turns_left self.old rooms.old ≡ turns_left self.new rooms.new + 1 }
        ensures led { result ≢ Progress.Committed
            → (page : ℕ) → page < PAGES → state_of rooms.new.pages page ≡ state_of rooms.old.pages page }
        ensures committed { result ≡ Progress.Committed
            → (page : ℕ) → page < PAGES → stage_of rooms.new.pages page ≡ after (stage_of rooms.old.pages page) }
        ensures running { rooms.new.numbers.running ≡ rooms.old.numbers.running }
        ensures homes { SameHomes nvm.old nvm.new }
        ensures counts { KeepsCounts nvm.old nvm.new }
        ensures operation { IsAtMostOne LEADER (word_at nvm.old) (word_at nvm.new) }
        ensures one { nvm.new.ops ≡ count_up nvm.old.ops }
    {
        if rooms.commit_step(nvm) {
            self.stage = Stage::Apply;
            Progress::Committed
        } else {
            Progress::Led
        }
    }

    /// Takes the base of the numbers a step further by the log of the version that was committed.
    pub(crate) fn apply_next(&mut self, rooms: &mut Rooms, nvm: &mut Pmem)
        requires stage { self.old.stage ≡ Stage.Apply }
        requires led { IsLedFrom self.old rooms.old (word_at nvm.old) }
        ensures applies { (v : ℕ) (saved : Parts) (pages : ℕ → Option (ℕ → ℕ))
            → IsApplying self.old rooms.old (word_at nvm.old) v saved pages
            → IsApplying self.new rooms.new (word_at nvm.new) v saved pages }
        ensures turn { IsTurn self.old self.new rooms.old rooms.new }
        ensures homes { SameHomes nvm.old nvm.new }
        ensures counts { KeepsCounts nvm.old nvm.new }
        ensures operation { IsAtMostOne LEADER (word_at nvm.old) (word_at nvm.new) }
        ensures one { (nvm.new.ops ≡ count_up nvm.old.ops) ⊎ (nvm.new.ops ≡ nvm.old.ops) }
    {
        if rooms.apply_step(nvm) {
            self.stage = Stage::Resume;
        } else {
            self.stage = Stage::Apply;
        }
    }
}
