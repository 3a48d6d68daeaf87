//! What a checkpoint reads of the cores, and what it leaves of the rooms once it is at its end.

ghost use Rattle.std.specs.Prelude.{◌≡◌, ◌≢◌, ℕ, ◌+◌, ◌<◌, Option, true, false, slice_index};
ghost use Rattle.sls_base.specs.declared.fixed.TheConstants.{FIRST_OUTPUT_RING};
ghost use Rattle.sls_base.specs.declared.limits.TheConstants.{OUTPUT_CHANNELS, PAGES as EVERY_PAGE};
ghost use Rattle.sls_base.specs.declared.thread.Ring.{Ring};
ghost use Rattle.kobj_table.specs.declared.slot.Slot.TheVariants as slots;
ghost use Rattle.kobj_table.specs.Objects.{slot_at};
ghost use Rattle.object_records.specs.Pages as contents;
ghost use Rattle.object_records.specs.Records.{record_at};
ghost use Rattle.page_store.specs.Stages.{stage_of, IsSettled};
ghost use Rattle.page_store.specs.declared.stage.PageStage.TheVariants as stages;
ghost use Rattle.pmem_model.specs.Words.{Word};
ghost use Rattle.durable_state.specs.Parts.{Parts};
ghost use Rattle.version_rooms.specs.Rest.{AreAtRest};
ghost use Rattle.saved_state.specs.State.{AreOfRecords};
ghost use Rattle.core_turns.specs.Runs.{objects_of, prepared_by};
ghost use Rattle.checkpoint_turns.specs.Checkpoints.{AreAsCommitted, NoneInHand};
ghost use Rattle.checkpoint_turns.specs.Steps.{StaysOrIsFresh};

use crate::checkpoint::Checkpoint;
use core_turns::counts_of;
use object_records::is_content;
use page_store::PageStage;
use sls_base::{PAGES, PageNo};

impl Checkpoint {
    /// Whether a core has a page in hand.
    pub(crate) fn has_page_in_hand(&self) -> bool
        ensures none { result ≡ false → NoneInHand self.now }
        ensures some { result ≡ true → (core page : ℕ) × (prepared_by self.now.running core ≡ Option.Some page) }
    {
        self.running.prepares.iter().any(|hand| hand.is_some())
    }

    /// Counts the entries that the objects have put as those that the saved copy has.
    pub(crate) fn count_saved(&mut self)
        ensures counts { (channel : ℕ) (ring : Ring) → channel < OUTPUT_CHANNELS
            → slot_at (objects_of self.old.running) (FIRST_OUTPUT_RING + channel) ≡ slots.Ring ring
            → slice_index self.new.running.saved channel ≡ ring.count }
        ensures rest { self.new
            ≡ record self.old { running = record self.old.running { saved = self.new.running.saved } } }
    {
        self.running.saved = counts_of(self.running.calls.objects());
    }

    /// Forgets the pages on which no object has content, behind a commit.
    pub(crate) fn forget_unused(&mut self)
        requires stages { AreAsCommitted self.old.running.rooms }
        ensures stages { (page : ℕ) → page < EVERY_PAGE → StaysOrIsFresh self.old.running self.new.running page }
        ensures kept { (page : ℕ) → page < EVERY_PAGE
            → contents.is_content (record_at (objects_of self.old.running)) page ≡ true
            → stage_of self.new.running.rooms.pages page ≡ stage_of self.old.running.rooms.pages page }
        ensures fresh { (page : ℕ) → page < EVERY_PAGE
            → contents.is_content (record_at (objects_of self.old.running)) page ≡ false
            → stage_of self.new.running.rooms.pages page ≡ stages.Fresh }
        ensures at_rest { (f : ℕ → Word) (v : ℕ) (saved : Parts) (pages : ℕ → Option (ℕ → ℕ))
            → AreOfRecords (record_at (objects_of self.old.running)) saved.pages
            → AreAtRest self.old.running.rooms f v saved pages
            → (after : ℕ → Option (ℕ → ℕ)) × AreAtRest self.new.running.rooms f v saved after }
        ensures rest { self.new ≡ record self.old {
          running = record self.old.running {
            rooms = record self.old.running.rooms { pages = self.new.running.rooms.pages };
          };
        } }
    {
        for page in 0..PAGES {
            self.forget_if_unused(page as PageNo);
        }
    }

    /// Forgets a page, if no object has content on it.
    fn forget_if_unused(&mut self, page: PageNo)
        requires page { page < EVERY_PAGE }
        requires settled { IsSettled (stage_of self.old.running.rooms.pages page) }
        ensures kept { contents.is_content (record_at (objects_of self.old.running)) page ≡ true
            → stage_of self.new.running.rooms.pages page ≡ stage_of self.old.running.rooms.pages page }
        ensures fresh { contents.is_content (record_at (objects_of self.old.running)) page ≡ false
            → stage_of self.new.running.rooms.pages page ≡ stages.Fresh }
        ensures others { (other : ℕ) → other ≢ page
            → stage_of self.new.running.rooms.pages other ≡ stage_of self.old.running.rooms.pages other }
        ensures at_rest { (f : ℕ → Word) (v : ℕ) (saved : Parts) (pages : ℕ → Option (ℕ → ℕ))
            → AreOfRecords (record_at (objects_of self.old.running)) saved.pages
            → AreAtRest self.old.running.rooms f v saved pages
            → (after : ℕ → Option (ℕ → ℕ)) × AreAtRest self.new.running.rooms f v saved after }
        ensures rest { self.new ≡ record self.old {
          running = record self.old.running {
            rooms = record self.old.running.rooms { pages = self.new.running.rooms.pages };
          };
        } }
    {
        let is_fresh = matches!(self.running.rooms.page_stage(page), PageStage::Fresh);
        if !is_fresh && !is_content(self.running.calls.objects(), page) {
            self.running.rooms.forget(page);
        }
    }
}
