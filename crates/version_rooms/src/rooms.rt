//! The rooms, and the steps that take them on.

ghost use Rattle.std.specs.Prelude.{◌≡◌, ◌≢◌, ◌⊎◌, ◌+◌, ◌<◌, ◌≤◌, ◌↔◌, ℕ, true, false, IsTrue, Option, slice_index};
ghost use Rattle.sls_base.specs.declared.fixed.TheConstants.{LEADER};
ghost use Rattle.kobj_codec.specs.declared.obj.Obj.{Obj};
ghost use Rattle.sls_base.specs.declared.limits.TheConstants.{CORES, FRAME_WORDS, LAST_VERSION, OBJECTS, PAGES, VERSION_AT};
ghost use Rattle.pmem_model.specs.Words.{Word};
ghost use Rattle.pmem_model.specs.Events.{Clean, IsBurst, IsCalm, IsFenced, WordIs};
ghost use Rattle.pmem_model.specs.Memory.{word_at, AllHome, SameHomes, count_up, KeepsCounts};
ghost use Rattle.pmem_operations.specs.Operations.{IsAtMostOne};
ghost use Rattle.pmem_layout.specs.Places.{frame_at, runtime_frame};
ghost use Rattle.alloc_journal.specs.declared.journal.Stage.TheVariants as logs;
ghost use Rattle.alloc_journal.specs.Sets.{changes};
ghost use Rattle.alloc_journal.specs.Work.{is_logging, is_redo, redo_left};
ghost use Rattle.object_root.specs.Room.{KeepsOthers, Passes, stage_at};
ghost use Rattle.object_root.specs.Shows.{IsRecordOf};
ghost use Rattle.object_root.specs.Steps.{Writes, StoresTag, fenced};
ghost use Rattle.page_store.specs.declared.stage.PageStage.TheVariants as PageStage;
ghost use Rattle.page_store.specs.declared.stage.PageState.TheVariants as state;
ghost use Rattle.page_store.specs.Stages.{stage_of, state_of, after, stored, flushed, IsSettled};
ghost use Rattle.page_store.specs.Known.{Phase, Open, Fenced};
ghost use Rattle.page_store.specs.Shows.{after_store};
ghost use Rattle.cow_fault.specs.Faults.{MayFault, faulted};
ghost use Rattle.version_commit.specs.declared.step.Step.TheVariants as steps;
ghost use Rattle.version_commit.specs.OnWay.{next, turns_of};
ghost use Rattle.version_commit.specs.Shows.{VersionShows};
ghost use Rattle.durable_state.specs.Parts.{Parts};
ghost use Rattle.version_rooms.specs.Rooms.{Contents, AreCommitted, IsAtRest, IsReady, Keeps, Logs, MayCommit, RoomsKeep, RoomsShow, Settles, TakesLogged, once_committed, without_page};

use crate::laws::{burst_on_page, fenced_rooms, rooms_are_apart, settled_rooms, version_apart};
use alloc_journal::Numbers;
use object_root::{Roots, Stage as RecordStage};
use page_store::{PageStage, PageStore};
use pmem_layout::SLOT_WORDS;
use pmem_model::Pmem;
use pmem_operations::laws::operations;
use sls_base::{CoreNo, LAST_VERSION, LEADER, ObjId, PageNo, Version};
use version_commit::Committer;

/// The rooms of the persistent memory, each with how far its work has come.
///
/// A step does at most one operation on the memory, and no call takes memory.
#[derive(Drop)]
pub struct Rooms {
    pub(crate) committer: Committer,
    pub(crate) numbers: Numbers,
    pub(crate) roots: Roots,
    pub(crate) pages: PageStore,
}

/// The leader fences.
fn fence(nvm: &mut Pmem)
    ensures fenced { IsFenced LEADER (word_at nvm.old) (word_at nvm.new) }
    ensures one { nvm.new.ops ≡ count_up nvm.old.ops }
    ensures operation { IsAtMostOne LEADER (word_at nvm.old) (word_at nvm.new) }
    ensures homes { SameHomes nvm.old nvm.new }
    ensures counts { KeepsCounts nvm.old nvm.new }
{
    pmem_model::laws::what_is_known();
    operations();
    nvm.fence(LEADER);
}

impl Rooms {
    /// The rooms, of which none is at a commit.
    pub fn new(numbers: Numbers, roots: Roots, pages: PageStore) -> Rooms
        ensures rest { IsAtRest result }
        ensures numbers { result.numbers ≡ numbers }
        ensures roots { result.roots ≡ roots }
        ensures pages { result.pages ≡ pages }
        ensures version { (f : ℕ → Word) (v : ℕ) → WordIs LEADER Clean (f VERSION_AT) v
            → VersionShows result.committer f v v }
    {
        Rooms {
            committer: Committer::new(),
            numbers,
            roots,
            pages,
        }
    }

    /// A core takes a step of the fault of a page: it prepares the page, which is true exactly at the last of these
    /// steps.
    pub fn fault_step(&mut self, nvm: &mut Pmem, page: PageNo, core: CoreNo) -> bool
        requires rest { IsAtRest self.old }
        requires page { page < PAGES }
        requires core { core < CORES }
        requires home { AllHome nvm.old }
        requires may { MayFault (state_of self.old.pages page) core }
        ensures last { IsTrue result ↔ (state_of self.new.pages page ≡ state.Writable) }
        ensures stage { stage_of self.new.pages page ≡ faulted (stage_of self.old.pages page) core }
        ensures others { (i : ℕ) → i ≢ page → stage_of self.new.pages i ≡ stage_of self.old.pages i }
        ensures rest { self.new ≡ record self.old { pages = self.new.pages } }
        ensures one { nvm.new.ops ≡ count_up nvm.old.ops }
        ensures operation { IsAtMostOne core (word_at nvm.old) (word_at nvm.new) }
        ensures homes { SameHomes nvm.old nvm.new }
        ensures counts { KeepsCounts nvm.old nvm.new }
        ensures shows { (phase : Phase) → Keeps self.old self.new (word_at nvm.old) (word_at nvm.new) phase phase }
    {
        rooms_are_apart();
        cow_fault::step(&mut self.pages, nvm, page, core, self.numbers.version())
    }

    /// Words were stored in the runtime frame of a writable page.
    pub fn note_store(&mut self, page: PageNo)
        requires rest { IsAtRest self.old }
        requires page { page < PAGES }
        requires writable { state_of self.old.pages page ≡ state.Writable }
        ensures stage { stage_of self.new.pages page ≡ stored (stage_of self.old.pages page) }
        ensures others { (i : ℕ) → i ≢ page → stage_of self.new.pages i ≡ stage_of self.old.pages i }
        ensures rest { self.new ≡ record self.old { pages = self.new.pages } }
        ensures shows { (f g : ℕ → Word) (v : ℕ) (c : Contents) (at count : ℕ) (value : ℕ → ℕ)
            → at + count ≤ FRAME_WORDS → IsBurst f g (frame_at (runtime_frame page) + at) count value
            → RoomsShow self.old f v c Open
            → RoomsShow self.new g v (record c { pages = after_store c.pages page at count value }) Open }
    {
        rooms_are_apart();
        burst_on_page();
        self.pages.note_store(page);
    }

    /// The leader flushes a page that was stored to since its last flush.
    pub fn flush_page(&mut self, nvm: &mut Pmem, page: PageNo)
        requires rest { IsAtRest self.old }
        requires page { page < PAGES }
        requires home { AllHome nvm.old }
        ensures stage { stage_of self.new.pages page ≡ flushed (stage_of self.old.pages page) }
        ensures others { (i : ℕ) → i ≢ page → stage_of self.new.pages i ≡ stage_of self.old.pages i }
        ensures rest { self.new ≡ record self.old { pages = self.new.pages } }
        ensures one { (flushed (stage_of self.old.pages page) ≡ stage_of self.old.pages page → nvm.new ≡ nvm.old)
            × (flushed (stage_of self.old.pages page) ≢ stage_of self.old.pages page
            → nvm.new.ops ≡ count_up nvm.old.ops) }
        ensures operation { IsAtMostOne LEADER (word_at nvm.old) (word_at nvm.new) }
        ensures homes { SameHomes nvm.old nvm.new }
        ensures counts { KeepsCounts nvm.old nvm.new }
        ensures shows { Keeps self.old self.new (word_at nvm.old) (word_at nvm.new) Open Open }
    {
        rooms_are_apart();
        self.pages.flush(nvm, page);
    }

    /// The leader fences what it flushed of the pages.
    pub fn fence_pages(&mut self, nvm: &mut Pmem)
        requires rest { IsAtRest self.old }
        ensures same { self.new ≡ self.old }
        ensures one { nvm.new.ops ≡ count_up nvm.old.ops }
        ensures operation { IsAtMostOne LEADER (word_at nvm.old) (word_at nvm.new) }
        ensures homes { SameHomes nvm.old nvm.new }
        ensures counts { KeepsCounts nvm.old nvm.new }
        ensures shows { Keeps self.old self.new (word_at nvm.old) (word_at nvm.new) Open Fenced }
    {
        fenced_rooms();
        fence(nvm);
    }

    /// Writes the record of an object: it stores the words, and then flushes them. True exactly at the last.
    pub fn write_step(&mut self, nvm: &mut Pmem, id: ObjId, words: &[u64; SLOT_WORDS]) -> bool
        requires rest { IsAtRest self.old }
        requires object { id < OBJECTS }
        ensures step { Writes self.old.roots.phase (stage_at self.old.roots id) (stage_at self.new.roots id) result }
        ensures others { KeepsOthers self.old.roots self.new.roots id }
        ensures rest { self.new ≡ record self.old { roots = self.new.roots } }
        ensures operation { IsAtMostOne LEADER (word_at nvm.old) (word_at nvm.new) }
        ensures homes { SameHomes nvm.old nvm.new }
        ensures counts { KeepsCounts nvm.old nvm.new }
        ensures one { (nvm.new.ops ≡ nvm.old.ops) ⊎ (nvm.new.ops ≡ count_up nvm.old.ops) }
        ensures shows { (v : ℕ) (c : Contents) (phase : Phase) → IsRecordOf (c.objects id) (slice_index words.now)
            → RoomsShow self.old (word_at nvm.old) v c phase → RoomsShow self.new (word_at nvm.new) v c phase }
    {
        rooms_are_apart();
        self.roots.write_step(nvm, id, words)
    }

    /// Names the next version in the tag of an object's new record: it stores the tag, and then flushes it. True
    /// exactly at the last.
    pub fn tag_step(&mut self, nvm: &mut Pmem, id: ObjId) -> bool
        requires rest { IsAtRest self.old }
        requires object { id < OBJECTS }
        ensures step { StoresTag self.old.roots.phase (stage_at self.old.roots id) (stage_at self.new.roots id) result }
        ensures others { KeepsOthers self.old.roots self.new.roots id }
        ensures rest { self.new ≡ record self.old { roots = self.new.roots } }
        ensures operation { IsAtMostOne LEADER (word_at nvm.old) (word_at nvm.new) }
        ensures homes { SameHomes nvm.old nvm.new }
        ensures counts { KeepsCounts nvm.old nvm.new }
        ensures one { (nvm.new.ops ≡ nvm.old.ops) ⊎ (nvm.new.ops ≡ count_up nvm.old.ops) }
        ensures shows { (phase : Phase) → Keeps self.old self.new (word_at nvm.old) (word_at nvm.new) phase phase }
    {
        rooms_are_apart();
        self.roots.tag_step(nvm, id)
    }

    /// The leader fences the records that were written, or their tags.
    pub fn fence_objects(&mut self, nvm: &mut Pmem)
        requires rest { IsAtRest self.old }
        ensures passed { Passes self.old.roots self.new.roots (fenced self.old.roots.phase) }
        ensures rest { self.new ≡ record self.old { roots = self.new.roots } }
        ensures one { nvm.new.ops ≡ count_up nvm.old.ops }
        ensures operation { IsAtMostOne LEADER (word_at nvm.old) (word_at nvm.new) }
        ensures homes { SameHomes nvm.old nvm.new }
        ensures counts { KeepsCounts nvm.old nvm.new }
        ensures shows { (phase : Phase) → Keeps self.old self.new (word_at nvm.old) (word_at nvm.new) phase Fenced }
    {
        fenced_rooms();
        fence(nvm);
        self.roots.fenced();
    }

    /// Nothing needs to be kept of a page any more: it is in use neither at the committed version nor now.
    pub fn forget(&mut self, page: PageNo)
        requires page { page < PAGES }
        requires settled { IsSettled (stage_of self.old.pages page) }
        ensures stage { stage_of self.new.pages page ≡ PageStage.Fresh }
        ensures others { (i : ℕ) → i ≢ page → stage_of self.new.pages i ≡ stage_of self.old.pages i }
        ensures rest { self.new ≡ record self.old { pages = self.new.pages } }
        ensures shows { (f : ℕ → Word) (v : ℕ) (c : Contents) (phase : Phase) → RoomsShow self.old f v c phase
            → RoomsShow self.new f v (without_page c page) phase }
    {
        self.pages.forget(page);
    }

    /// Writes the log of the next version, in which the numbers are in use that are so in the running state at the
    /// first of these steps. True exactly when it is durable.
    pub fn log_step(&mut self, nvm: &mut Pmem) -> bool
        requires rest { IsAtRest self.old }
        requires version { self.old.numbers.work.version < LAST_VERSION }
        ensures last { IsTrue result ↔ (self.new.numbers.work.stage ≡ logs.Logged) }
        ensures numbers { Logs self.old.numbers self.new.numbers }
        ensures logging { is_logging self.old.numbers.work.stage ≡ true
            → is_logging self.new.numbers.work.stage ≡ true }
        ensures committed { is_redo self.old.numbers.work.stage ≡ false
            → self.new.numbers.work.committed ≡ self.old.numbers.work.committed }
        // Once the log is written, it has an entry for each number that changes.
        ensures entries { IsTrue result → self.new.numbers.work.entries
            ≡ changes self.new.numbers.work.committed self.new.numbers.work.logged }
        ensures rest { self.new ≡ record self.old { numbers = self.new.numbers } }
        ensures one { (nvm.new.ops ≡ count_up nvm.old.ops) ⊎ (nvm.new.ops ≡ nvm.old.ops) }
        ensures operation { IsAtMostOne LEADER (word_at nvm.old) (word_at nvm.new) }
        ensures homes { SameHomes nvm.old nvm.new }
        ensures counts { KeepsCounts nvm.old nvm.new }
        ensures shows { (phase : Phase) → Keeps self.old self.new (word_at nvm.old) (word_at nvm.new) phase phase }
    {
        rooms_are_apart();
        self.numbers.log_step(nvm)
    }

    /// After the commit, brings the base of the numbers up to date by the log, and clears the log. True exactly at the
    /// last.
    pub fn apply_step(&mut self, nvm: &mut Pmem) -> bool
        requires rest { IsAtRest self.old }
        requires log { is_redo self.old.numbers.work.stage ≡ true }
        ensures last { IsTrue result ↔ (is_redo self.new.numbers.work.stage ≡ false) }
        ensures done { IsTrue result → self.new.numbers.work.stage ≡ logs.Rest }
        ensures left { redo_left self.old.numbers.work ≡ redo_left self.new.numbers.work + 1 }
        ensures version { self.new.numbers.work.version ≡ self.old.numbers.work.version }
        ensures running { self.new.numbers.running ≡ self.old.numbers.running }
        ensures rest { self.new ≡ record self.old { numbers = self.new.numbers } }
        ensures one { (nvm.new.ops ≡ count_up nvm.old.ops) ⊎ (nvm.new.ops ≡ nvm.old.ops) }
        ensures operation { IsAtMostOne LEADER (word_at nvm.old) (word_at nvm.new) }
        ensures homes { SameHomes nvm.old nvm.new }
        ensures counts { KeepsCounts nvm.old nvm.new }
        ensures shows { (phase : Phase) → Keeps self.old self.new (word_at nvm.old) (word_at nvm.new) phase phase }
    {
        rooms_are_apart();
        self.numbers.apply_step(nvm)
    }

    /// How many operations the commit still takes: three, two or one.
    pub fn commit_turns(&self) -> u8
        ensures { result ≡ turns_of self.now.committer.version }
    {
        self.committer.commit_turns()
    }

    /// Stores, flushes and fences the next version in the version word, one operation a call. True exactly where that
    /// version is committed by it: at the last of these steps, if it wasn't before.
    pub fn commit_step(&mut self, nvm: &mut Pmem) -> bool
        ensures one { nvm.new.ops ≡ count_up nvm.old.ops }
        ensures operation { IsAtMostOne LEADER (word_at nvm.old) (word_at nvm.new) }
        ensures homes { SameHomes nvm.old nvm.new }
        ensures counts { KeepsCounts nvm.old nvm.new }
        ensures step { result ≡ false
            → self.new ≡ record self.old {
              committer = record self.old.committer {
                version = next self.old.committer.version;
              };
            } }
        ensures settles { (v : ℕ) (c : Contents) (next : Parts) → IsReady self.old v c next
            → RoomsShow self.old (word_at nvm.old) v c Fenced
            → Settles result self.new (word_at nvm.new) v c next Fenced }
        ensures last { (v : ℕ) (c : Contents) (next : Parts) → IsReady self.old v c next
            → RoomsShow self.old (word_at nvm.old) v c Fenced
            → IsTrue result ↔ (self.old.committer.version ≡ steps.Fence) }
        ensures numbers { IsTrue result → TakesLogged self.old.numbers self.new.numbers }
        ensures stages { (v : ℕ) (c : Contents) (next : Parts) → IsReady self.old v c next
            → RoomsShow self.old (word_at nvm.old) v c Fenced → IsTrue result
            → (page : ℕ) → page < PAGES → stage_of self.new.pages page ≡ after (stage_of self.old.pages page) }
    {
        version_apart();
        let version = self.version().saturating_add(1);
        let last = self.committer.commit_step(nvm, version);
        if !last {
            return false;
        }
        // A version that is written whole isn't the last there can be.
        if self.roots.version() >= LAST_VERSION {
            return false;
        }
        self.commit();
        true
    }

    /// The committed version.
    pub fn version(&self) -> Version
        ensures version { result ≡ self.now.numbers.work.version }
        ensures most { result ≤ LAST_VERSION }
    {
        self.numbers.version()
    }

    /// Whether the log of the next version is durable.
    pub fn is_logged(&self) -> bool
        ensures { IsTrue result ↔ (self.now.numbers.work.stage ≡ logs.Logged) }
    {
        self.numbers.is_logged()
    }

    /// How far an object's new record has come.
    pub fn record_stage(&self, id: ObjId) -> RecordStage
        requires { id < OBJECTS }
        ensures { result ≡ stage_at self.now.roots id }
    {
        self.roots.stage(id)
    }

    /// How far a page came since the last commit.
    pub fn page_stage(&self, page: PageNo) -> PageStage
        requires { page < PAGES }
        ensures { result ≡ stage_of self.now.pages page }
    {
        self.pages.stage(page)
    }

    /// After an event that stored nothing, as a write-back: whether it committed the next version. If it did, the rooms
    /// are at work on the version after.
    pub fn settle(&mut self, nvm: &Pmem) -> bool
        ensures none { result ≡ false → self.new ≡ self.old }
        ensures settles { (f : ℕ → Word) (v : ℕ) (c : Contents) (next : Parts) (phase : Phase)
            → IsCalm f (word_at nvm.now) → MayCommit self.old v c next phase → RoomsShow self.old f v c phase
            → Settles result self.new (word_at nvm.now) v c next phase }
        ensures committed { (f : ℕ → Word) (v : ℕ) (c : Contents) (next : Parts) (phase : Phase)
            → IsCalm f (word_at nvm.now) → MayCommit self.old v c next phase → RoomsShow self.old f v c phase
            → IsTrue result ↔ ((word_at nvm.now VERSION_AT).durable ≢ v) }
        ensures numbers { IsTrue result → TakesLogged self.old.numbers self.new.numbers }
        ensures stages { (f : ℕ → Word) (v : ℕ) (c : Contents) (next : Parts) (phase : Phase)
            → IsCalm f (word_at nvm.now) → MayCommit self.old v c next phase → RoomsShow self.old f v c phase
            → IsTrue result
            → (page : ℕ) → page < PAGES → stage_of self.new.pages page ≡ after (stage_of self.old.pages page) }
    {
        settled_rooms();
        if version_commit::version(nvm) == self.version() {
            return false;
        }
        // A version that is written whole isn't the last there can be.
        if self.roots.version() >= LAST_VERSION {
            return false;
        }
        self.commit();
        true
    }

    /// The next version was committed.
    fn commit(&mut self)
        requires below { self.old.roots.version < LAST_VERSION }
        ensures committed { (v : ℕ) (c : Contents) (next : Parts) → IsReady self.old v c next → AreCommitted self.new }
        ensures shows { (f : ℕ → Word) (v : ℕ) (c : Contents) (next : Parts) → IsReady self.old v c next
            → RoomsKeep self.old f v c Fenced → WordIs LEADER Clean (f VERSION_AT) (v + 1)
            → (after : ℕ → Option Obj) → RoomsShow self.new f (v + 1) (once_committed c next after) Open }
        ensures numbers { TakesLogged self.old.numbers self.new.numbers }
        ensures stages { (f : ℕ → Word) (v : ℕ) (c : Contents) (next : Parts) → IsReady self.old v c next
            → RoomsKeep self.old f v c Fenced
            → (page : ℕ) → page < PAGES → stage_of self.new.pages page ≡ after (stage_of self.old.pages page) }
    {
        alloc_journal::laws::commits();
        page_store::laws::saved_pages_may_be_fewer();
        self.committer = Committer::new();
        self.roots.committed();
        self.numbers.commit();
        self.pages.committed(self.numbers.version());
    }
}
