//! One page's preparation.

ghost use Rattle.std.specs.Prelude.{◌≡◌, ◌≢◌, ℕ, ◌+◌, ◌<◌, ◌≤◌, ◌↔◌, Option, IsTrue};
ghost use Rattle.sls_base.specs.declared.limits.TheConstants.{CORES, LAST_VERSION, PAGES};
ghost use Rattle.pmem_model.specs.Memory.{word_at, SameHomes, count_up, KeepsCounts};
ghost use Rattle.pmem_operations.specs.Operations.{IsAtMostOne};
ghost use Rattle.pmem_layout.specs.Owners as owners;
ghost use Rattle.pmem_layout.specs.Rooms.{StoresOnlyIn};
ghost use Rattle.page_store.specs.Slots.{IsPageHome};
ghost use Rattle.page_store.specs.Stages.{stage_of, state_of};
ghost use Rattle.page_store.specs.Known.{Phase};
ghost use Rattle.page_store.specs.Shows.{PagesShow};
ghost use Rattle.page_store.specs.declared.stage.PageState.TheVariants as state;
ghost use Rattle.cow_fault.specs.Faults.{MayFault, faulted, steps_left};

use page_store::{PageStage, PageStore, Preparation};
use pmem_model::Pmem;
use sls_base::{CoreNo, PageNo, Version};

/// One operation by which a core prepares a page: one for a fresh page, six for a protected one. It is for the
/// committed version. True exactly at the last, with which the page is writable.
#[tactic(auto, unfolding(page_store::specs::Stages::state_of))]
pub fn step(
    pages: &mut PageStore,
    nvm: &mut Pmem,
    page: PageNo,
    core: CoreNo,
    version: Version,
) -> bool
    requires page { page < PAGES }
    requires core { core < CORES }
    requires version { version ≤ LAST_VERSION }
    requires home { IsPageHome nvm.old page }
    requires may { MayFault (state_of pages.old page) core }
    ensures last { IsTrue result ↔ (state_of pages.new page ≡ state.Writable) }
    ensures one { nvm.new.ops ≡ count_up nvm.old.ops }
    ensures operation { IsAtMostOne core (word_at nvm.old) (word_at nvm.new) }
    ensures steps { steps_left (stage_of pages.new page) + 1 ≡ steps_left (stage_of pages.old page) }
    ensures stage { stage_of pages.new page ≡ faulted (stage_of pages.old page) core }
    ensures others { (i : ℕ) → i ≢ page → stage_of pages.new i ≡ stage_of pages.old i }
    ensures homes { SameHomes nvm.old nvm.new }
    ensures counts { KeepsCounts nvm.old nvm.new }
    ensures rest { StoresOnlyIn owners.Pages (word_at nvm.old) (word_at nvm.new) }
    ensures shows { (saved now : ℕ → Option (ℕ → ℕ)) (phase : Phase)
        → PagesShow pages.old (word_at nvm.old) version saved now phase
        → PagesShow pages.new (word_at nvm.new) version saved now phase }
{
    match pages.stage(page) {
        PageStage::Fresh => {
            pages.zero(nvm, page);
            true
        }
        PageStage::Protected
        | PageStage::Preparing(_, Preparation::FlushCopy | Preparation::FenceCopy) => {
            pages.copy_step(nvm, page, core);
            false
        }
        PageStage::Preparing(_, _) => pages.tag_step(nvm, page, core, version),
        // The page is prepared.
        PageStage::Writable(_, _) => true,
    }
}
