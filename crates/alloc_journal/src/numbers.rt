//! The numbers in use.

ghost use Rattle.std.specs.Prelude.{◌≡◌, ◌≢◌, ◌+◌, ◌<◌, ◌≤◌, ◌↔◌, ℕ, Bool, IsTrue, IsNone, IfSome, true, false, not};
ghost use Rattle.pmem_model.specs.Words.{Word, cuts};
ghost use Rattle.pmem_model.specs.Memory.{word_at, AllHome, SameHomes, KeepsCounts};
ghost use Rattle.pmem_model.specs.Events.{WordIs, Clean};
ghost use Rattle.pmem_layout.specs.declared.number.Number.TheVariants.{Object, Page};
ghost use Rattle.pmem_layout.specs.Numbers.{index_of};
ghost use Rattle.pmem_layout.specs.Owners as owners;
ghost use Rattle.pmem_layout.specs.Owners.{owner};
ghost use Rattle.pmem_layout.specs.Rooms.{StoresOnlyIn};
ghost use Rattle.alloc_journal.specs.declared.journal.Stage.TheVariants.{Unformatted, Rest, Logged};
ghost use Rattle.alloc_journal.specs.Sets.{has, Puts, SameBut, changes};
ghost use Rattle.alloc_journal.specs.Format.{NumbersStand};
ghost use Rattle.alloc_journal.specs.Work.{is_used, once_committed, is_redo, is_logging, is_formatting, log_left, redo_left, IsExact};
ghost use Rattle.alloc_journal.specs.Formatting.{FormatShows};
ghost use Rattle.alloc_journal.specs.Operations.{AtMostOne};
ghost use Rattle.pmem_operations.specs.Operations.{IsAtMostOne};
ghost use Rattle.alloc_journal.specs.Shows.{NumbersShow};
ghost use Rattle.alloc_journal.specs.Steps.{Logs, Redoes, Recovers};

use crate::bits::{self, BASE_WORDS, Bits, least, neither, put};
use crate::journal::{Journal, Stage};
use pmem_layout::{BASE_BITS, LOG_HEAD_AT, NUMBERS};
use pmem_model::Pmem;
use sls_base::{LAST_VERSION, LEADER, OBJECTS, ObjId, PAGES, PageNo, Version};
use std::marker::Model;

/// The words of a set in which the objects stand. Those behind them are the pages'.
const OBJECT_WORDS: usize = OBJECTS / BASE_BITS;

/// The numbers of objects and pages that are in use in the running state and in the committed one, and the work that
/// keeps the memory's words for them.
///
/// The memory tells the committed numbers after each step, whatever is written back and wherever the power is cut. Each
/// step is one operation on the memory, or none where nothing is left to do, and a constant number of steps of its own.
/// No call takes memory.
#[derive(Drop)]
pub struct Numbers {
    running: Bits,
    journal: Journal,
}

impl Model for Numbers {
    ghost use Rattle.alloc_journal.specs.Work.{InUse, work_of, IsKept};

    ghost Value = { InUse };

    ghost view = { λ n. record { running = n.running; work = work_of n.journal } };

    ghost invariant = { λ n. IsKept (work_of n.journal) };
}

impl Numbers {
    /// The numbers of a memory of zeros, which is to be formatted: none is in use. Those that are taken into use before
    /// the first `format_step` are stored by it.
    pub fn unformatted() -> Numbers
        ensures none { (n : ℕ) → n < NUMBERS → is_used result n ≡ false }
        ensures stage { result.work.stage ≡ Unformatted }
        ensures shows { (f : ℕ → Word) → WordIs LEADER Clean (f LOG_HEAD_AT) 0 → FormatShows result.work f }
    {
        let journal = Journal::unformatted();
        Numbers {
            running: journal.committed,
            journal,
        }
    }

    /// Stores the numbers that are in use in the running state at the first of these steps as those of version 0. True
    /// exactly when they are durable, and where a memory is formatted already.
    pub fn format_step(&mut self, nvm: &mut Pmem) -> bool
        ensures homes { SameHomes nvm.old nvm.new }
        ensures counts { KeepsCounts nvm.old nvm.new }
        ensures one { AtMostOne nvm.old nvm.new }
        ensures operation { IsAtMostOne LEADER (word_at nvm.old) (word_at nvm.new) }
        ensures rest { StoresOnlyIn owners.Numbers (word_at nvm.old) (word_at nvm.new) }
        ensures last { IsTrue result ↔ (is_formatting self.new.work.stage ≡ false) }
        ensures running { self.new.running ≡ self.old.running }
        ensures begun { self.old.work.stage ≡ Unformatted → self.new.work.committed ≡ self.old.running }
        ensures committed { self.old.work.stage ≢ Unformatted → self.new.work.committed ≡ self.old.work.committed }
        ensures none { is_formatting self.old.work.stage ≡ false → self.new ≡ self.old }
        ensures shows { FormatShows self.old.work (word_at nvm.old) → FormatShows self.new.work (word_at nvm.new) }
    {
        self.journal.format_step(nvm, &self.running)
    }

    /// The numbers of a memory after a cut, with the version that is committed there. They are known once `redo_step`
    /// has answered true.
    pub fn recover(nvm: &Pmem, version: Version) -> Numbers
        requires version { version ≤ LAST_VERSION }
        ensures version { result.work.version ≡ version }
        ensures redo { is_redo result.work.stage ≡ true }
        ensures running { result.running ≡ result.work.committed }
        ensures recovers { Recovers version (word_at nvm.now) result.work }
        ensures shows { (saved : ℕ → Bool)
            → ((i : ℕ) → owner i ≡ owners.Numbers
            → WordIs LEADER Clean (word_at nvm.now i) ((word_at nvm.now i).durable))
            → NumbersStand (λ i. (word_at nvm.now i).durable) version saved
            → NumbersShow result.work (word_at nvm.now) version saved }
    {
        let journal = Journal::recover(nvm, version);
        Numbers {
            running: journal.committed,
            journal,
        }
    }

    /// The committed version.
    pub fn version(&self) -> Version
        ensures version { result ≡ self.now.work.version }
        ensures most { result ≤ LAST_VERSION }
    {
        self.journal.version
    }

    /// Whether the log is durable, so that the next version may be committed.
    pub fn is_logged(&self) -> bool
        ensures { IsTrue result ↔ (self.now.work.stage ≡ Logged) }
    {
        self.journal.stage == Stage::Logged
    }

    /// Whether an object number is in use in the running state.
    pub fn is_object_used(&self, id: ObjId) -> bool
        requires { id < OBJECTS }
        ensures { result ≡ has self.now.running (index_of (Object id)) }
    {
        bits::has(&self.running, id as usize)
    }

    /// Whether no log of the committed version is left to be redone.
    pub fn is_redone(&self) -> bool
        ensures { IsTrue result ↔ (is_redo self.now.work.stage ≡ false) }
    {
        !matches!(
            self.journal.stage,
            Stage::Redoing
                | Stage::BaseInFlight
                | Stage::BaseDurable
                | Stage::HeadCleared
                | Stage::ClearInFlight
        )
    }

    /// The least object number that is in use neither in the running nor in the committed state. None where there is
    /// none.
    pub fn least_free_object(&self) -> Option<ObjId>
        ensures found { IfSome result (λ id. (id < OBJECTS) × (is_used self.now (index_of (Object id)) ≡ false)) }
        ensures least { IfSome result (λ id.
            (other : ℕ) → other < id → is_used self.now (index_of (Object other)) ≡ true) }
        ensures none { IsNone result ↔ ((id : ℕ) → id < OBJECTS → is_used self.now (index_of (Object id)) ≡ true) }
    {
        let number = least(&self.free_numbers(), 0, OBJECT_WORDS)?;
        Some(number as ObjId)
    }

    /// The least page number that is in use neither in the running nor in the committed state. None where there is
    /// none.
    pub fn least_free_page(&self) -> Option<PageNo>
        ensures found { IfSome result (λ page. (page < PAGES) × (is_used self.now (index_of (Page page)) ≡ false)) }
        ensures least { IfSome result (λ page.
            (other : ℕ) → other < page → is_used self.now (index_of (Page other)) ≡ true) }
        ensures none { IsNone result ↔ ((page : ℕ) → page < PAGES → is_used self.now (index_of (Page page)) ≡ true) }
    {
        let number = least(&self.free_numbers(), OBJECT_WORDS, BASE_WORDS)?;
        Some((number - OBJECTS) as PageNo)
    }

    /// The numbers that are in use in neither state.
    fn free_numbers(&self) -> Bits
        ensures { (n : ℕ) → n < NUMBERS → has result n ≡ not (is_used self.now n) }
    {
        neither(&self.running, &self.journal.committed)
    }

    /// Takes an object number that is free into use in the running state.
    pub fn take_object(&mut self, id: ObjId)
        requires range { id < OBJECTS }
        requires free { is_used self.old (index_of (Object id)) ≡ false }
        ensures taken { has self.new.running (index_of (Object id)) ≡ true }
        ensures others { SameBut (index_of (Object id)) self.old.running self.new.running }
        ensures work { self.new.work ≡ self.old.work }
    {
        put(&mut self.running, id as usize, true);
    }

    /// Takes a page number that is free into use in the running state.
    pub fn take_page(&mut self, page: PageNo)
        requires range { page < PAGES }
        requires free { is_used self.old (index_of (Page page)) ≡ false }
        ensures taken { has self.new.running (index_of (Page page)) ≡ true }
        ensures others { SameBut (index_of (Page page)) self.old.running self.new.running }
        ensures work { self.new.work ≡ self.old.work }
    {
        put(&mut self.running, OBJECTS + page as usize, true);
    }

    /// Notes that an object number is no more in use in the running state. Where it is in use in the committed one, it
    /// is free from the next commit on.
    pub fn note_free_object(&mut self, id: ObjId)
        requires { id < OBJECTS }
        ensures freed { has self.new.running (index_of (Object id)) ≡ false }
        ensures others { SameBut (index_of (Object id)) self.old.running self.new.running }
        ensures work { self.new.work ≡ self.old.work }
    {
        put(&mut self.running, id as usize, false);
    }

    /// Notes that a page number is no more in use in the running state. Where it is in use in the committed one, it is
    /// free from the next commit on.
    pub fn note_free_page(&mut self, page: PageNo)
        requires { page < PAGES }
        ensures freed { has self.new.running (index_of (Page page)) ≡ false }
        ensures others { SameBut (index_of (Page page)) self.old.running self.new.running }
        ensures work { self.new.work ≡ self.old.work }
    {
        put(&mut self.running, OBJECTS + page as usize, false);
    }

    /// Says whether an object number is in use in the running state, whether it was so before or not.
    pub fn set_object(&mut self, id: ObjId, in_use: bool)
        requires { id < OBJECTS }
        ensures set { Puts (index_of (Object id)) in_use self.old.running self.new.running }
        ensures work { self.new.work ≡ self.old.work }
    {
        put(&mut self.running, id as usize, in_use);
    }

    /// Says whether a page number is in use in the running state, whether it was so before or not.
    pub fn set_page(&mut self, page: PageNo, in_use: bool)
        requires { page < PAGES }
        ensures set { Puts (index_of (Page page)) in_use self.old.running self.new.running }
        ensures work { self.new.work ≡ self.old.work }
    {
        put(&mut self.running, OBJECTS + page as usize, in_use);
    }

    /// Whether an object number is in use in the committed state, as far as that is known.
    pub fn has_committed_object(&self, id: ObjId) -> bool
        requires { id < OBJECTS }
        ensures { result ≡ has self.now.work.committed (index_of (Object id)) }
    {
        bits::has(&self.journal.committed, id as usize)
    }

    /// Writes the log of the next version, in which the numbers are in use that are so in the running state at the
    /// first of these steps. Where the log of the committed version isn't cleared yet, it goes on with that first. True
    /// exactly when the log is durable, so that the next version may be committed.
    pub fn log_step(&mut self, nvm: &mut Pmem) -> bool
        requires version { self.old.work.version < LAST_VERSION }
        ensures homes { SameHomes nvm.old nvm.new }
        ensures counts { KeepsCounts nvm.old nvm.new }
        ensures one { AtMostOne nvm.old nvm.new }
        ensures operation { IsAtMostOne LEADER (word_at nvm.old) (word_at nvm.new) }
        ensures rest { StoresOnlyIn owners.Numbers (word_at nvm.old) (word_at nvm.new) }
        ensures last { IsTrue result ↔ (self.new.work.stage ≡ Logged) }
        ensures logs { Logs self.old.running self.old.work (word_at nvm.old) self.new.work (word_at nvm.new) }
        ensures first { self.old.work.stage ≡ Rest
            → log_left self.new.work ≡ changes self.old.work.committed self.old.running + 4 }
        ensures left { is_logging self.old.work.stage ≡ true → self.old.work.stage ≢ Logged
            → log_left self.old.work ≡ log_left self.new.work + 1 }
        ensures entries { IsTrue result → self.new.work.entries ≡ changes self.new.work.committed self.new.work.logged }
        ensures version { self.new.work.version ≡ self.old.work.version }
        ensures running { self.new.running ≡ self.old.running }
        ensures begun { self.old.work.stage ≡ Rest → self.new.work.logged ≡ self.old.running }
        ensures logged { self.old.work.stage ≢ Rest → self.new.work.logged ≡ self.old.work.logged }
        ensures shows { (v : ℕ) (saved : ℕ → Bool) → NumbersShow self.old.work (word_at nvm.old) v saved
            → NumbersShow self.new.work (word_at nvm.new) v saved }
        ensures exact { (v : ℕ) (saved : ℕ → Bool) → NumbersShow self.old.work (word_at nvm.old) v saved
            → IsExact self.old.work saved → IsExact self.new.work saved }
    {
        self.journal.log_step(nvm, &self.running)
    }

    /// Takes it that the version that was logged is committed. It does nothing where none was.
    pub fn commit(&mut self)
        ensures running { self.new.running ≡ self.old.running }
        ensures work { self.new.work ≡ once_committed self.old.work }
    {
        self.journal.commit();
    }

    /// After the commit, brings the base up to date by the log, and clears the log. True exactly at the last, and where
    /// there is nothing to do.
    pub fn apply_step(&mut self, nvm: &mut Pmem) -> bool
        ensures homes { SameHomes nvm.old nvm.new }
        ensures counts { KeepsCounts nvm.old nvm.new }
        ensures one { AtMostOne nvm.old nvm.new }
        ensures operation { IsAtMostOne LEADER (word_at nvm.old) (word_at nvm.new) }
        ensures rest { StoresOnlyIn owners.Numbers (word_at nvm.old) (word_at nvm.new) }
        ensures last { IsTrue result ↔ (is_redo self.new.work.stage ≡ false) }
        ensures redoes { Redoes (once_committed self.old.work) (word_at nvm.old) self.new.work (word_at nvm.new) }
        ensures left { is_redo (once_committed self.old.work).stage ≡ true
            → redo_left (once_committed self.old.work) ≡ redo_left self.new.work + 1 }
        ensures version { self.new.work.version ≡ (once_committed self.old.work).version }
        ensures running { self.new.running ≡ self.old.running }
        ensures logged { self.new.work.logged ≡ self.old.work.logged }
        ensures shows { (v : ℕ) (saved : ℕ → Bool)
            → NumbersShow (once_committed self.old.work) (word_at nvm.old) v saved
            → NumbersShow self.new.work (word_at nvm.new) v saved }
        ensures exact { (v : ℕ) (saved : ℕ → Bool)
            → NumbersShow (once_committed self.old.work) (word_at nvm.old) v saved
            → IsExact (once_committed self.old.work) saved → IsExact self.new.work saved }
    {
        self.journal.commit();
        self.journal.redo_step(nvm)
    }

    /// After a cut, brings the base up to date by the log where its head names the committed version, and clears the
    /// log. The running state is the committed one from then on. True exactly at the last, and where nothing is left to
    /// do.
    pub fn redo_step(&mut self, nvm: &mut Pmem) -> bool
        ensures homes { SameHomes nvm.old nvm.new }
        ensures counts { KeepsCounts nvm.old nvm.new }
        ensures one { AtMostOne nvm.old nvm.new }
        ensures operation { IsAtMostOne LEADER (word_at nvm.old) (word_at nvm.new) }
        ensures rest { StoresOnlyIn owners.Numbers (word_at nvm.old) (word_at nvm.new) }
        ensures last { IsTrue result ↔ (is_redo self.new.work.stage ≡ false) }
        ensures redoes { Redoes self.old.work (word_at nvm.old) self.new.work (word_at nvm.new) }
        ensures left { is_redo self.old.work.stage ≡ true → redo_left self.old.work ≡ redo_left self.new.work + 1 }
        ensures version { self.new.work.version ≡ self.old.work.version }
        ensures running { self.new.running ≡ self.new.work.committed }
        ensures shows { (v : ℕ) (saved : ℕ → Bool) → NumbersShow self.old.work (word_at nvm.old) v saved
            → NumbersShow self.new.work (word_at nvm.new) v saved }
        ensures exact { (v : ℕ) (saved : ℕ → Bool) → NumbersShow self.old.work (word_at nvm.old) v saved
            → IsExact self.old.work saved → IsExact self.new.work saved }
    {
        let done = self.journal.redo_step(nvm);
        self.running = self.journal.committed;
        done
    }

    /// Cuts the power, and begins anew at the version that is committed then: this one, or the next one where its log
    /// was durable.
    pub fn cut_and_recover(self, nvm: &mut Pmem, version: Version) -> Numbers
        requires home { AllHome nvm.old }
        requires version { version ≤ LAST_VERSION }
        ensures home { AllHome nvm.new }
        ensures words { (i : ℕ) → word_at nvm.new i ≡ cuts (word_at nvm.old) i }
        ensures version { result.work.version ≡ version }
        ensures redo { is_redo result.work.stage ≡ true }
        ensures running { result.running ≡ result.work.committed }
        ensures recovers { Recovers version (word_at nvm.new) result.work }
        ensures same { (saved : ℕ → Bool) → NumbersShow self.work (word_at nvm.old) version saved
            → NumbersShow result.work (word_at nvm.new) version saved }
        ensures next { (v : ℕ) (saved : ℕ → Bool) → self.work.stage ≡ Logged → version ≡ v + 1
            → NumbersShow self.work (word_at nvm.old) v saved
            → NumbersShow result.work (word_at nvm.new) version (has self.work.logged) }
    {
        nvm.cut();
        Numbers::recover(nvm, version)
    }
}
