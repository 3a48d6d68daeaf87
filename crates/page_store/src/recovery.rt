//! Recovery of the pages: tags of later versions are cleared, and what the slots of the committed version hold is
//! copied back.

ghost use Rattle.std.specs.Prelude.{◌≡◌, ℕ, ◌+◌, ◌<◌, ◌≤◌, ◌↔◌, ◌⊎◌, Option, IsTrue, false, true};
ghost use Rattle.sls_base.specs.declared.limits.TheConstants.{LAST_VERSION, PAGES};
ghost use Rattle.pmem_model.specs.Words.{Word};
ghost use Rattle.pmem_model.specs.Memory.{word_at, AllHome, SameHomes, count_up, KeepsCounts};
ghost use Rattle.pmem_operations.specs.Operations.{IsAtMostOne};
ghost use Rattle.pmem_layout.specs.Owners as owners;
ghost use Rattle.pmem_layout.specs.Rooms.{StoresOnlyIn};
ghost use Rattle.page_store.specs.Slots.{durable_words, IsAllClean};
ghost use Rattle.page_store.specs.Format.{PagesStand};
ghost use Rattle.page_store.specs.Stages.{stage_of, IsAsRecovered, IsSettled};
ghost use Rattle.page_store.specs.Known.{Open};
ghost use Rattle.page_store.specs.Shows.{PagesShow};
ghost use Rattle.page_store.specs.Back.{is_back, steps_left, RecoveryShows, RecoveryMoves, at_step, passed, filled};

use crate::stage::{Origin, PageStage, Writes};
use crate::store::PageStore;
use pmem_layout::{
    EMPTY_WORD, FRAME_LINES, Tag, backup_frame, backup_tag_at, frame_at, line_at, runtime_frame,
};
use pmem_model::Pmem;
use pmem_operations::laws::operations;
use sls_base::{LEADER, PAGES, PageNo, Version};

/// The steps that a whole recovery has at most: two a page, and the fence.
pub const RECOVERY_STEPS: usize = 2 * PAGES + 1;

/// What comes next for the page at which recovery is.
#[derive(Clone, Copy)]
enum Step {
    /// Its tag is read.
    Read,
    /// Its tag was cleared, and is flushed.
    FlushTag,
    /// Its slot was copied back, and the runtime frame is flushed.
    FlushCopy,
}

/// How far recovery came. It goes from page to page, and fences at the end.
#[derive(Drop)]
pub struct Recovery {
    /// The pages that it has passed.
    pages: PageStore,
    /// The page at which it is.
    page: usize,
    next: Step,
    is_fenced: bool,
}

#[tactic(auto, using(crate::proofs::Places::places))]
impl Recovery {
    /// Recovery of this version begins, of a memory in which nothing but the durable words is left.
    pub fn new(version: Version) -> Recovery
        ensures left { steps_left result ≡ RECOVERY_STEPS }
        ensures shows { (f : ℕ → Word) (saved : ℕ → Option (ℕ → ℕ))
            → IsAllClean f → PagesStand (durable_words f) version saved → RecoveryShows result f version saved }
    {
        Recovery {
            pages: PageStore::new(version),
            page: 0,
            next: Step::Read,
            is_fenced: false,
        }
    }

    /// Whether it is at its end: all pages are back, and fenced.
    pub fn is_back(&self) -> bool
        ensures { result ≡ is_back self.now }
    {
        self.is_fenced
    }

    /// At most one operation, by the leader. True exactly at the last, the fence, and behind it.
    pub fn step(&mut self, nvm: &mut Pmem, version: Version) -> bool
        requires version { version ≤ LAST_VERSION }
        requires home { AllHome nvm.old }
        ensures last { result ≡ is_back self.new }
        ensures left { is_back self.old ≡ false → steps_left self.new < steps_left self.old }
        ensures stays { is_back self.old ≡ true → self.new ≡ self.old }
        ensures one { (nvm.new ≡ nvm.old) ⊎ (nvm.new.ops ≡ count_up nvm.old.ops) }
        ensures operation { IsAtMostOne LEADER (word_at nvm.old) (word_at nvm.new) }
        ensures counts { KeepsCounts nvm.old nvm.new }
        ensures home { AllHome nvm.new }
        ensures rest { StoresOnlyIn owners.Pages (word_at nvm.old) (word_at nvm.new) }
        ensures shows { (saved : ℕ → Option (ℕ → ℕ)) → RecoveryShows self.old (word_at nvm.old) version saved
            → RecoveryShows self.new (word_at nvm.new) version saved }
    {
        operations();
        if self.is_fenced {
            return true;
        }
        if self.page >= PAGES {
            nvm.fence(LEADER);
            self.is_fenced = true;
            return true;
        }
        let page = self.page as PageNo;
        match self.next {
            Step::Read => {
                let tag = nvm.read(backup_tag_at(page));
                let tag_now = Tag::Of(version).to_word();
                if tag > tag_now {
                    nvm.burst(backup_tag_at(page), &[EMPTY_WORD]);
                    self.next = Step::FlushTag;
                } else if tag == tag_now {
                    nvm.copy(backup_frame(page), runtime_frame(page));
                    self.next = Step::FlushCopy;
                } else {
                    self.pass(page, PageStage::Protected);
                }
            }
            Step::FlushTag => {
                nvm.flush(LEADER, line_at(backup_tag_at(page)), 1);
                self.pass(page, PageStage::Protected);
            }
            Step::FlushCopy => {
                nvm.flush(LEADER, frame_at(runtime_frame(page)), FRAME_LINES);
                self.pass(page, PageStage::Writable(Origin::Copy, Writes::Nothing));
            }
        }
        false
    }

    /// The page at hand comes to a stage, and recovery goes to the next.
    fn pass(&mut self, page: PageNo, stage: PageStage)
        requires page { page < PAGES }
        requires at { self.old.page ≡ page }
        ensures moves { RecoveryMoves self.old self.new page (passed stage) }
        ensures page { self.new.page ≡ self.old.page + 1 }
        ensures next { self.new.next ≡ Step.Read }
        ensures fenced { self.new.is_fenced ≡ self.old.is_fenced }
        ensures stage { stage_of self.new.pages page ≡ stage }
    {
        self.pages.enter(page, stage);
        self.page += 1;
        self.next = Step::Read;
    }

    /// The pages at the end of recovery. A page of which the version has no content, since it is fresh or not in use,
    /// has what its runtime frame reads, until it is forgotten.
    pub fn finish(self) -> PageStore
        ensures shows { (f : ℕ → Word) (v : ℕ) (saved : ℕ → Option (ℕ → ℕ)) → IsTrue (is_back self)
            → RecoveryShows self f v saved → PagesShow result f v saved (filled saved f) Open }
        // Each page may be forgotten.
        ensures settled { (f : ℕ → Word) (v : ℕ) (saved : ℕ → Option (ℕ → ℕ)) → IsTrue (is_back self)
            → RecoveryShows self f v saved → (page : ℕ) → page < PAGES → IsSettled (stage_of result page) }
        ensures recovered { (f : ℕ → Word) (v : ℕ) (saved : ℕ → Option (ℕ → ℕ)) → IsTrue (is_back self)
            → RecoveryShows self f v saved → (page : ℕ) → page < PAGES → IsAsRecovered (stage_of result page) }
    {
        self.pages
    }
}
