//! Pages through a commit, and through cuts in recovery.

ghost use Rattle.std.specs.Prelude.{◌≡◌, ℕ, ◌+◌, ◌<◌, ◌≤◌, ◌↔◌, Option, IsTrue, length};
ghost use Rattle.sls_base.specs.declared.limits.TheConstants.{LAST_VERSION, PAGES};
ghost use Rattle.sls_base.specs.declared.fixed.TheConstants.{LEADER};
ghost use Rattle.pmem_model.specs.Events.{Clean, WordIs};
ghost use Rattle.pmem_model.specs.Memory.{word_at, AllHome, count_up, count_by};
ghost use Rattle.pmem_layout.specs.Owners as owners;
ghost use Rattle.pmem_layout.specs.Rooms.{StoresOnlyIn};
ghost use Rattle.page_store.specs.Slots.{durable_words, IsAllClean};
ghost use Rattle.page_store.specs.Format.{PagesStand};
ghost use Rattle.page_store.specs.Stages.{stage_of, IsSettled};
ghost use Rattle.page_store.specs.Known.{Open};
ghost use Rattle.page_store.specs.Shows.{PagesShow};
ghost use Rattle.page_store.specs.Back.{RecoveryShows, filled};

use crate::laws;
use crate::recovery::{RECOVERY_STEPS, Recovery};
use crate::stage::PageState;
use crate::store::PageStore;
use pmem_model::Pmem;
use sls_base::{LEADER, PAGES, PageNo, Version};

/// Commits the next version of the pages: what was stored to them is flushed and fenced, and they are as after a
/// commit. True, or nothing happens since a core prepares a page.
pub fn commit(pages: &mut PageStore, nvm: &mut Pmem, version: Version) -> bool
    requires version { version < LAST_VERSION }
    requires home { AllHome nvm.old }
    ensures done { IsTrue result ↔ ((page : ℕ) → page < PAGES → IsSettled (stage_of pages.old page)) }
    ensures home { AllHome nvm.new }
    ensures rest { StoresOnlyIn owners.Pages (word_at nvm.old) (word_at nvm.new) }
    ensures shows { IsTrue result → (saved now : ℕ → Option (ℕ → ℕ))
        → PagesShow pages.old (word_at nvm.old) version saved now Open
        → PagesShow pages.new (word_at nvm.new) (version + 1) now now Open }
{
    laws::page_versions();
    for page in 0..PAGES as PageNo {
        if let PageState::Preparing(_) = pages.state(page) {
            return false;
        }
    }
    for stored in 0..PAGES as PageNo {
        pages.flush(nvm, stored);
    }
    nvm.fence(LEADER);
    pages.committed(version + 1);
    true
}

/// Some steps of recovery, and a cut.
fn cut_recovery(nvm: &mut Pmem, version: Version, steps: usize)
    requires version { version ≤ LAST_VERSION }
    requires home { AllHome nvm.old }
    requires clean { IsAllClean (word_at nvm.old) }
    ensures cuts { nvm.new.cuts ≡ count_up nvm.old.cuts }
    ensures home { AllHome nvm.new }
    ensures clean { IsAllClean (word_at nvm.new) }
    ensures stands { (saved : ℕ → Option (ℕ → ℕ)) → PagesStand (durable_words (word_at nvm.old)) version saved
        → PagesStand (durable_words (word_at nvm.new)) version saved }
{
    laws::recovery();
    let mut recovery = Recovery::new(version);
    for _done in 0..steps {
        recovery.step(nvm, version);
    }
    nvm.cut();
}

/// Recovery from its begin to its end.
fn recover(nvm: &mut Pmem, version: Version) -> PageStore
    requires version { version ≤ LAST_VERSION }
    requires home { AllHome nvm.old }
    requires clean { IsAllClean (word_at nvm.old) }
    ensures cuts { nvm.new.cuts ≡ nvm.old.cuts }
    ensures home { AllHome nvm.new }
    ensures shows { (saved : ℕ → Option (ℕ → ℕ)) → PagesStand (durable_words (word_at nvm.old)) version saved
        → PagesShow result (word_at nvm.new) version saved (filled saved (word_at nvm.new)) Open }
{
    let mut recovery = Recovery::new(version);
    for _done in 0..RECOVERY_STEPS {
        recovery.step(nvm, version);
    }
    recovery.finish()
}

/// Cuts the power and recovers the pages of the committed version. Recovery itself is cut after as many steps as each
/// of `cuts` says, and begins anew each time.
pub fn cut_and_recover(pages: &mut PageStore, nvm: &mut Pmem, version: Version, cuts: &[usize])
    requires version { version ≤ LAST_VERSION }
    requires home { AllHome nvm.old }
    ensures cuts { nvm.new.cuts ≡ count_by nvm.old.cuts (1 + length cuts.now) }
    ensures home { AllHome nvm.new }
    ensures shows { (saved now : ℕ → Option (ℕ → ℕ)) → PagesShow pages.old (word_at nvm.old) version saved now Open
        → PagesShow pages.new (word_at nvm.new) version saved (filled saved (word_at nvm.new)) Open }
{
    laws::page_versions();
    nvm.cut();
    for steps in cuts {
        cut_recovery(nvm, version, *steps);
    }
    *pages = recover(nvm, version);
}
