//! The stages of all pages, and the operations that take them on.

ghost use Rattle.std.specs.Prelude.{◌≡◌, ◌≢◌, ℕ, ◌+◌, ◌<◌, ◌≤◌, ◌↔◌, Option, None, IsTrue, length, slice_index};
ghost use Rattle.sls_base.specs.declared.limits.TheConstants.{CORES, FRAME_WORDS, LAST_VERSION, PAGES};
ghost use Rattle.sls_base.specs.declared.fixed.TheConstants.{LEADER};
ghost use Rattle.pmem_model.specs.Words.{Word};
ghost use Rattle.pmem_model.specs.Events.{Clean, WordIs, IsBurst};
ghost use Rattle.pmem_model.specs.Memory.{word_at, SameHomes, count_up, KeepsCounts};
ghost use Rattle.pmem_operations.specs.Operations.{IsAtMostOne};
ghost use Rattle.pmem_layout.specs.Owners as owners;
ghost use Rattle.pmem_layout.specs.Places.{runtime_frame, frame_at};
ghost use Rattle.pmem_layout.specs.Rooms.{StoresOnlyIn};
ghost use Rattle.page_store.specs.Slots.{Slot, slot_tag_at, IsUpTo, IsPageHome};
ghost use Rattle.page_store.specs.Stages.{Moves, IsAt, stage_of, state_of, after, MayCopy, MayTag, copied, tagged, stored, flushed, IsSettled, IsFlushed};
ghost use Rattle.page_store.specs.Known.{Phase, Open, Fenced};
ghost use Rattle.page_store.specs.Shows.{PagesShow, after_store, with_page};

use crate::stage::{Origin, PageStage, PageState, Preparation, Writes};
use pmem_layout::{
    FRAME_LINES, Tag, backup_frame, backup_tag_at, frame_at, line_at, runtime_frame,
};
use pmem_model::Pmem;
use pmem_operations::laws::operations;
use sls_base::{CoreNo, FRAME_WORDS, LEADER, PAGES, PageNo, Version};

/// What is entered of a page.
#[derive(Clone, Copy)]
struct Entry {
    stage: PageStage,
    /// The version that was committed when the page came to the stage.
    version: Version,
}

/// How far each page came since the last commit.
#[derive(Drop)]
pub struct PageStore {
    entries: [Entry; PAGES],
    /// The committed version.
    version: Version,
}

/// The words of a page that is fresh.
fn zero_words() -> [u64; FRAME_WORDS]
    ensures whole { length result ≡ FRAME_WORDS }
    ensures zero { (j : ℕ) → j < FRAME_WORDS → slice_index result j ≡ 0 }
{
    [0; FRAME_WORDS]
}

#[tactic(auto, using(crate::proofs::Places::places))]
impl PageStore {
    /// All pages are fresh, at this version.
    pub fn new(version: Version) -> PageStore
        ensures at { IsAt result version }
        ensures fresh { (page : ℕ) → page < PAGES → stage_of result page ≡ PageStage.Fresh }
        ensures shows { (f : ℕ → Word) → ((page : ℕ) (slot : Slot) → page < PAGES → (tag : ℕ) × IsUpTo slot tag version
            × WordIs LEADER Clean (f (slot_tag_at page slot)) tag)
            → PagesShow result f version (λ page. None) (λ page. None) Open }
    {
        let entry = Entry {
            stage: PageStage::Fresh,
            version,
        };
        PageStore {
            entries: [entry; PAGES],
            version,
        }
    }

    /// How far a page came.
    #[tactic(auto, unfolding(crate::specs::Stages::stage_of, crate::specs::Stages::entry_of))]
    pub fn stage(&self, page: PageNo) -> PageStage
        requires { page < PAGES }
        ensures { result ≡ stage_of self.now page }
    {
        let entry = self.entries[page as usize];
        if entry.version == self.version {
            entry.stage
        } else {
            entry.stage.after_commit()
        }
    }

    /// What may be done with a page.
    pub fn state(&self, page: PageNo) -> PageState
        requires { page < PAGES }
        ensures { result ≡ state_of self.now page }
    {
        self.stage(page).state()
    }

    /// A page comes to a stage.
    pub(crate) fn enter(&mut self, page: PageNo, stage: PageStage)
        requires { page < PAGES }
        ensures { Moves self.old self.new page stage }
    {
        self.entries[page as usize] = Entry {
            stage,
            version: self.version,
        };
    }

    /// Prepares a fresh page by one operation: its runtime frame is zero. It is writable.
    pub fn zero(&mut self, nvm: &mut Pmem, page: PageNo)
        requires page { page < PAGES }
        requires home { IsPageHome nvm.old page }
        requires fresh { stage_of self.old page ≡ PageStage.Fresh }
        ensures one { nvm.new.ops ≡ count_up nvm.old.ops }
        ensures operation { (core : ℕ) → IsAtMostOne core (word_at nvm.old) (word_at nvm.new) }
        ensures homes { SameHomes nvm.old nvm.new }
        ensures counts { KeepsCounts nvm.old nvm.new }
        ensures rest { StoresOnlyIn owners.Pages (word_at nvm.old) (word_at nvm.new) }
        ensures stage { stage_of self.new page ≡ PageStage.Writable Origin.Zeros Writes.Nothing }
        ensures others { (i : ℕ) → i ≢ page → stage_of self.new i ≡ stage_of self.old i }
        ensures shows { (v : ℕ) (saved now : ℕ → Option (ℕ → ℕ)) (phase : Phase)
            → PagesShow self.old (word_at nvm.old) v saved now phase
            → PagesShow self.new (word_at nvm.new) v saved now phase }
    {
        operations();
        nvm.burst(frame_at(runtime_frame(page)), &zero_words());
        self.enter(page, PageStage::Writable(Origin::Zeros, Writes::Nothing));
    }

    /// One operation of the copy of a protected page to its slot, by the core that prepares it: the copy, its flush,
    /// its fence. True exactly at the last, with which the slot is durable.
    pub fn copy_step(&mut self, nvm: &mut Pmem, page: PageNo, core: CoreNo) -> bool
        requires page { page < PAGES }
        requires core { core < CORES }
        requires home { IsPageHome nvm.old page }
        requires may { MayCopy (stage_of self.old page) core }
        ensures last { IsTrue result ↔ (stage_of self.old page ≡ PageStage.Preparing core Preparation.FenceCopy) }
        ensures one { nvm.new.ops ≡ count_up nvm.old.ops }
        ensures operation { IsAtMostOne core (word_at nvm.old) (word_at nvm.new) }
        ensures homes { SameHomes nvm.old nvm.new }
        ensures counts { KeepsCounts nvm.old nvm.new }
        ensures rest { StoresOnlyIn owners.Pages (word_at nvm.old) (word_at nvm.new) }
        ensures stage { stage_of self.new page ≡ copied (stage_of self.old page) core }
        ensures others { (i : ℕ) → i ≢ page → stage_of self.new i ≡ stage_of self.old i }
        ensures shows { (v : ℕ) (saved now : ℕ → Option (ℕ → ℕ)) (phase : Phase)
            → PagesShow self.old (word_at nvm.old) v saved now phase
            → PagesShow self.new (word_at nvm.new) v saved now phase }
    {
        operations();
        match self.stage(page) {
            PageStage::Protected => {
                nvm.copy(runtime_frame(page), backup_frame(page));
                self.enter(page, PageStage::Preparing(core, Preparation::FlushCopy));
                false
            }
            PageStage::Preparing(_, Preparation::FlushCopy) => {
                nvm.flush(core, frame_at(backup_frame(page)), FRAME_LINES);
                self.enter(page, PageStage::Preparing(core, Preparation::FenceCopy));
                false
            }
            PageStage::Preparing(_, Preparation::FenceCopy) => {
                nvm.fence(core); // The copy is durable.
                self.enter(page, PageStage::Preparing(core, Preparation::StoreTag));
                true
            }
            // The page isn't in a stage that may be copied.
            _ => false,
        }
    }

    /// One operation that gives the slot the tag of this version, by the core that prepares the page: the store of the
    /// tag, its flush, its fence. True exactly at the last, with which the tag is durable and the page writable.
    pub fn tag_step(&mut self, nvm: &mut Pmem, page: PageNo, core: CoreNo, version: Version) -> bool
        requires page { page < PAGES }
        requires core { core < CORES }
        requires version { version ≤ LAST_VERSION }
        requires may { MayTag (stage_of self.old page) core }
        ensures last { IsTrue result ↔ (stage_of self.old page ≡ PageStage.Preparing core Preparation.FenceTag) }
        ensures one { nvm.new.ops ≡ count_up nvm.old.ops }
        ensures operation { IsAtMostOne core (word_at nvm.old) (word_at nvm.new) }
        ensures homes { SameHomes nvm.old nvm.new }
        ensures counts { KeepsCounts nvm.old nvm.new }
        ensures rest { StoresOnlyIn owners.Pages (word_at nvm.old) (word_at nvm.new) }
        ensures stage { stage_of self.new page ≡ tagged (stage_of self.old page) }
        ensures others { (i : ℕ) → i ≢ page → stage_of self.new i ≡ stage_of self.old i }
        ensures shows { (saved now : ℕ → Option (ℕ → ℕ)) (phase : Phase)
            → PagesShow self.old (word_at nvm.old) version saved now phase
            → PagesShow self.new (word_at nvm.new) version saved now phase }
    {
        operations();
        match self.stage(page) {
            PageStage::Preparing(_, Preparation::StoreTag) => {
                nvm.burst(backup_tag_at(page), &[Tag::Of(version).to_word()]);
                self.enter(page, PageStage::Preparing(core, Preparation::FlushTag));
                false
            }
            PageStage::Preparing(_, Preparation::FlushTag) => {
                nvm.flush(core, line_at(backup_tag_at(page)), 1);
                self.enter(page, PageStage::Preparing(core, Preparation::FenceTag));
                false
            }
            PageStage::Preparing(_, Preparation::FenceTag) => {
                nvm.fence(core); // The tag is durable.
                self.enter(page, PageStage::Writable(Origin::Copy, Writes::Nothing));
                true
            }
            // The page isn't in a stage that may be tagged.
            _ => false,
        }
    }

    /// Words were stored in the runtime frame of a writable page.
    pub fn note_store(&mut self, page: PageNo)
        requires page { page < PAGES }
        requires writable { state_of self.old page ≡ PageState.Writable }
        ensures stage { stage_of self.new page ≡ stored (stage_of self.old page) }
        ensures others { (i : ℕ) → i ≢ page → stage_of self.new i ≡ stage_of self.old i }
        ensures shows { (f g : ℕ → Word) (v : ℕ) (saved now : ℕ → Option (ℕ → ℕ)) (at count : ℕ) (value : ℕ → ℕ)
            → at + count ≤ FRAME_WORDS → IsBurst f g (frame_at (runtime_frame page) + at) count value
            → PagesShow self.old f v saved now Open
            → PagesShow self.new g v saved (after_store now page at count value) Open }
    {
        if let PageStage::Writable(origin, _) = self.stage(page) {
            self.enter(page, PageStage::Writable(origin, Writes::Stored));
        }
    }

    /// The leader flushes the runtime frame of a page that was stored to since its last flush: one operation, and none
    /// for any other page.
    pub fn flush(&mut self, nvm: &mut Pmem, page: PageNo)
        requires page { page < PAGES }
        requires home { IsPageHome nvm.old page }
        ensures one { (flushed (stage_of self.old page) ≡ stage_of self.old page → nvm.new ≡ nvm.old)
            × (flushed (stage_of self.old page) ≢ stage_of self.old page → nvm.new.ops ≡ count_up nvm.old.ops) }
        ensures operation { IsAtMostOne LEADER (word_at nvm.old) (word_at nvm.new) }
        ensures homes { SameHomes nvm.old nvm.new }
        ensures counts { KeepsCounts nvm.old nvm.new }
        ensures rest { StoresOnlyIn owners.Pages (word_at nvm.old) (word_at nvm.new) }
        ensures stage { stage_of self.new page ≡ flushed (stage_of self.old page) }
        ensures others { (i : ℕ) → i ≢ page → stage_of self.new i ≡ stage_of self.old i }
        ensures shows { (v : ℕ) (saved now : ℕ → Option (ℕ → ℕ)) → PagesShow self.old (word_at nvm.old) v saved now Open
            → PagesShow self.new (word_at nvm.new) v saved now Open }
    {
        operations();
        if let PageStage::Writable(origin, Writes::Stored) = self.stage(page) {
            nvm.flush(LEADER, frame_at(runtime_frame(page)), FRAME_LINES);
            self.enter(page, PageStage::Writable(origin, Writes::Flushed));
        }
    }

    /// The next version was committed, after what was stored to the pages was flushed and fenced. Each page is
    /// protected, or fresh if it was and nothing was stored to it.
    pub fn committed(&mut self, version: Version)
        ensures shows { (f : ℕ → Word) (v : ℕ) (saved now : ℕ → Option (ℕ → ℕ)) → version ≡ v + 1
            → ((page : ℕ) → page < PAGES → IsFlushed (stage_of self.old page))
            → PagesShow self.old f v saved now Fenced → PagesShow self.new f version now now Open }
        ensures stages { (v : ℕ) → version ≡ v + 1 → IsAt self.old v
            → (page : ℕ) → page < PAGES → stage_of self.new page ≡ after (stage_of self.old page) }
    {
        self.version = version;
    }

    /// Nothing needs to be kept of a page any more: it is in use neither at the committed version nor now.
    pub fn forget(&mut self, page: PageNo)
        requires page { page < PAGES }
        requires settled { IsSettled (stage_of self.old page) }
        ensures stage { stage_of self.new page ≡ PageStage.Fresh }
        ensures others { (i : ℕ) → i ≢ page → stage_of self.new i ≡ stage_of self.old i }
        ensures shows { (f : ℕ → Word) (v : ℕ) (saved now : ℕ → Option (ℕ → ℕ)) (phase : Phase)
            → PagesShow self.old f v saved now phase
            → PagesShow self.new f v (with_page saved page None) (with_page now page None) phase }
    {
        self.enter(page, PageStage::Fresh);
    }
}
