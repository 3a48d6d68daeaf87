//! Recovery, one operation a step.

ghost use Rattle.std.specs.Prelude.{◌≡◌, ◌≢◌, ◌⊎◌, ◌<◌, ◌≤◌, ◌↔◌, ℕ, IsTrue};
ghost use Rattle.sls_base.specs.declared.fixed.TheConstants.{LEADER};
ghost use Rattle.sls_base.specs.declared.limits.TheConstants.{PAGES, VERSION_AT};
ghost use Rattle.pmem_model.specs.Memory.{word_at, AllHome, count_up, KeepsCounts};
ghost use Rattle.pmem_operations.specs.Operations.{IsAtMostOne};
ghost use Rattle.pmem_layout.specs.declared.places.TheConstants.{NUMBERS};
ghost use Rattle.alloc_journal.specs.Sets.{has};
ghost use Rattle.page_store.specs.Slots.{IsAllClean, durable_words};
ghost use Rattle.page_store.specs.Stages.{stage_of, IsAsRecovered};
ghost use Rattle.durable_state.specs.Parts.{Parts, PartsStand};
ghost use Rattle.version_rooms.specs.Rest.{AreAtRest};
ghost use Rattle.object_records.specs.Records.{HasOwnLists, record_at};
ghost use Rattle.tree_restore.specs.Restores.{RestoreShows, turns_left};
ghost use Rattle.tree_restore.specs.Whole.{AreWhole};

use crate::contents::forget_others;
use crate::laws::rooms_are_apart;
use crate::records::put_back_all;
use alloc_journal::Numbers;
use kobj_table::Objects;
use object_root::Roots;
use page_store::RECOVERY_STEPS;
use pmem_layout::{NUMBERS, SLOTS};
use pmem_model::Pmem;
use sls_base::{LAST_VERSION, OBJECTS};
use version_rooms::Rooms;

/// The turns for the log: one for each entry, the flush and the fence of the base, and the store, the flush and the
/// fence that clear the head.
const LOG_TURNS: usize = NUMBERS + 5;

/// The turns for the tags of the objects: one for each, the flush and the fence.
const TAG_TURNS: usize = SLOTS * OBJECTS + 2;

/// The turns that a whole recovery takes at most.
pub const RECOVERY_TURNS: usize = LOG_TURNS + TAG_TURNS + RECOVERY_STEPS;

/// The rooms on their way back to rest at the version that is committed.
///
/// The log is redone and cleared, then the tags of objects above the version are cleared, and then the pages come back.
/// A step does at most one operation on the memory, and no call takes memory.
#[derive(Drop)]
pub struct Recovery {
    numbers: Numbers,
    roots: Roots,
    pages: page_store::Recovery,
}

/// What recovery ends in: the rooms at rest, and the objects that run.
#[derive(Drop)]
pub struct Restored {
    pub rooms: Rooms,
    pub objects: Objects,
}

#[tactic(auto, using(pmem_model::specs::PlaceLaws::all_home_kept))]
impl Recovery {
    /// Recovery begins, of a memory in which nothing but the durable words is left.
    pub fn new(nvm: &Pmem) -> Recovery
        ensures left { turns_left result ≤ RECOVERY_TURNS }
        ensures shows { (v : ℕ) (saved : Parts) → IsAllClean (word_at nvm.now)
            → (word_at nvm.now VERSION_AT).durable ≡ v → PartsStand (durable_words (word_at nvm.now)) v saved
            → RestoreShows result (word_at nvm.now) v saved }
    {
        // No greater one is ever committed.
        let version = version_commit::version(nvm).min(LAST_VERSION);
        Recovery {
            numbers: Numbers::recover(nvm, version),
            roots: Roots::new(version),
            pages: page_store::Recovery::new(version),
        }
    }

    /// Whether recovery is at its end.
    pub fn is_at_end(&self) -> bool
        ensures { IsTrue result ↔ (turns_left self.now ≡ 0) }
    {
        self.numbers.is_redone() && self.roots.is_cleared() && self.pages.is_back()
    }

    /// At most one operation on the memory, by the leader. True exactly where recovery is at its end.
    pub fn step(&mut self, nvm: &mut Pmem) -> bool
        requires home { AllHome nvm.old }
        ensures last { IsTrue result ↔ (turns_left self.new ≡ 0) }
        ensures left { (turns_left self.new < turns_left self.old) ⊎ (turns_left self.old ≡ 0) }
        ensures one { (nvm.new.ops ≡ nvm.old.ops) ⊎ (nvm.new.ops ≡ count_up nvm.old.ops) }
        ensures home { AllHome nvm.new }
        ensures counts { KeepsCounts nvm.old nvm.new }
        ensures operation { IsAtMostOne LEADER (word_at nvm.old) (word_at nvm.new) }
        ensures shows { (v : ℕ) (saved : Parts) → RestoreShows self.old (word_at nvm.old) v saved
            → RestoreShows self.new (word_at nvm.new) v saved }
    {
        self.go_on(nvm);
        self.is_at_end()
    }

    /// A step of the room that is at work.
    fn go_on(&mut self, nvm: &mut Pmem)
        requires home { AllHome nvm.old }
        ensures left { (turns_left self.new < turns_left self.old) ⊎ (turns_left self.old ≡ 0) }
        ensures one { (nvm.new.ops ≡ nvm.old.ops) ⊎ (nvm.new.ops ≡ count_up nvm.old.ops) }
        ensures home { AllHome nvm.new }
        ensures counts { KeepsCounts nvm.old nvm.new }
        ensures operation { IsAtMostOne LEADER (word_at nvm.old) (word_at nvm.new) }
        ensures shows { (v : ℕ) (saved : Parts) → RestoreShows self.old (word_at nvm.old) v saved
            → RestoreShows self.new (word_at nvm.new) v saved }
    {
        rooms_are_apart();
        if !self.numbers.is_redone() {
            self.numbers.redo_step(nvm);
        } else if !self.roots.is_cleared() {
            self.roots.clear_step(nvm);
        } else {
            self.pages.step(nvm, self.numbers.version());
        }
    }

    /// The rooms and the objects at the end of recovery. Each object is that of its record, each page runs as it is
    /// saved, and the numbers that are in use at the version are in use.
    pub fn finish(self, nvm: &Pmem) -> Restored
        ensures rest { (v : ℕ) (saved : Parts) → turns_left self ≡ 0 → AreWhole saved
            → RestoreShows self (word_at nvm.now) v saved
            → AreAtRest result.rooms (word_at nvm.now) v saved saved.pages }
        ensures numbers { (v : ℕ) (saved : Parts) → turns_left self ≡ 0 → RestoreShows self (word_at nvm.now) v saved
            → (n : ℕ) → n < NUMBERS → has result.rooms.numbers.running n ≡ saved.numbers n }
        ensures records { (v : ℕ) (saved : Parts) → turns_left self ≡ 0 → AreWhole saved
            → RestoreShows self (word_at nvm.now) v saved → (i : ℕ) → record_at result.objects i ≡ saved.objects i }
        ensures own { HasOwnLists result.objects }
        ensures stages { (v : ℕ) (saved : Parts) → turns_left self ≡ 0 → RestoreShows self (word_at nvm.now) v saved
            → (page : ℕ) → page < PAGES → IsAsRecovered (stage_of result.rooms.pages page) }
    {
        alloc_journal::laws::known();
        object_root::laws::room();
        let objects = put_back_all(nvm, &self.numbers, self.numbers.version());
        let mut pages = self.pages.finish();
        forget_others(&mut pages, &objects);
        Restored {
            rooms: Rooms::new(self.numbers, self.roots, pages),
            objects,
        }
    }
}
