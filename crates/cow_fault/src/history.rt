//! Pages among whatever else happens to the memory between two commits, cuts included.

ghost use Rattle.std.specs.Prelude.{◌≡◌, ℕ, ◌<◌, ◌≤◌, ◌↔◌, Option, All, IsTrue, true, false, length};
ghost use Rattle.sls_base.specs.declared.limits.TheConstants.{LAST_VERSION};
ghost use Rattle.pmem_model.specs.Memory.{word_at, AllHome};
ghost use Rattle.page_store.specs.Known.{Phase, Open};
ghost use Rattle.page_store.specs.Shows.{PagesShow};
ghost use Rattle.cow_fault.specs.Faults.{MayFault};
ghost use Rattle.cow_fault.specs.Events.{IsPossible, MayHappen, AfterEvent, AfterEvents, event_at};

use crate::fault::step;
use page_store::laws::page_versions;
use page_store::{PageState, PageStore, cut_and_recover};
use pmem_layout::{frame_at, line_at, runtime_frame};
use pmem_model::Pmem;
use sls_base::{CoreNo, LEADER, PageNo, Version};

/// What befalls the memory between two commits.
#[derive(Clone, Copy)]
pub enum Event {
    /// This core takes a step of the fault of this page. It may where no other core prepares the page, and the page
    /// isn't writable yet.
    Fault(CoreNo, PageNo),
    /// In this word of a page, counted from the first of its runtime frame, something is stored. It may where the page
    /// is writable.
    Store(PageNo, usize, u64),
    /// The leader flushes this page, if it was stored to.
    FlushPage(PageNo),
    /// This core flushes the line of this word.
    Flush(CoreNo, usize),
    /// This core fences.
    Fence(CoreNo),
    /// The cached value of this word becomes durable.
    WriteBack(usize),
    /// Something is stored in this word, which isn't one of the pages'.
    StoreElsewhere(usize, u64),
    /// The power goes and comes back, goes again after as many steps of recovery, and the pages are recovered.
    Cut(usize),
}

/// Whether the core may take a step of a page's fault.
fn may_fault(state: PageState, core: CoreNo) -> bool
    ensures { IsTrue result ↔ MayFault state core }
{
    match state {
        PageState::Fresh | PageState::Protected => true,
        PageState::Preparing(own) => own == core,
        PageState::Writable | PageState::Away => false,
    }
}

/// Lets one event happen, if it may. True exactly if it did.
#[tactic(auto, using(crate::proofs::Places::places))]
fn happen(pages: &mut PageStore, nvm: &mut Pmem, version: Version, event: Event) -> bool
    requires version { version ≤ LAST_VERSION }
    requires possible { IsPossible event }
    requires home { AllHome nvm.old }
    ensures may { IsTrue result ↔ MayHappen pages.old event }
    ensures same { result ≡ false → (pages.new ≡ pages.old) × (nvm.new ≡ nvm.old) }
    ensures home { AllHome nvm.new }
    ensures shows { result ≡ true → (saved now : ℕ → Option (ℕ → ℕ))
        → PagesShow pages.old (word_at nvm.old) version saved now Open
        → (next : ℕ → Option (ℕ → ℕ)) × AfterEvent event saved now next
        × PagesShow pages.new (word_at nvm.new) version saved next Open }
{
    page_versions();
    match event {
        Event::Fault(core, page) => {
            let may = may_fault(pages.state(page), core);
            if may {
                step(pages, nvm, page, core, version);
            }
            may
        }
        Event::Store(page, at, value) => {
            let may = pages.state(page) == PageState::Writable;
            if may {
                nvm.burst(frame_at(runtime_frame(page)) + at, &[value]);
                pages.note_store(page);
            }
            may
        }
        Event::FlushPage(page) => {
            pages.flush(nvm, page);
            true
        }
        Event::Flush(core, at) => {
            nvm.flush(core, line_at(at), 1);
            true
        }
        Event::Fence(core) => {
            nvm.fence(core);
            true
        }
        Event::WriteBack(at) => {
            nvm.write_back(at);
            true
        }
        Event::StoreElsewhere(at, value) => {
            nvm.burst(at, &[value]);
            true
        }
        Event::Cut(steps) => {
            cut_and_recover(pages, nvm, version, &[steps]);
            true
        }
    }
}

/// Lets these events happen, in order, up to the first that may not, and tells how many did. The pages of the committed
/// version stay through all of them. The running ones are as the stores make them, and after a cut as the saved ones.
pub fn play(pages: &mut PageStore, nvm: &mut Pmem, version: Version, events: &[Event]) -> usize
    requires version { version ≤ LAST_VERSION }
    requires possible { All IsPossible events.now }
    requires home { AllHome nvm.old }
    ensures most { result ≤ length events.now }
    ensures stops { result < length events.now → MayHappen pages.new (event_at events.now result) → ⊥ }
    ensures home { AllHome nvm.new }
    ensures shows { (saved now : ℕ → Option (ℕ → ℕ)) → PagesShow pages.old (word_at nvm.old) version saved now Open
        → (next : ℕ → Option (ℕ → ℕ)) × AfterEvents events.now result saved now next
        × PagesShow pages.new (word_at nvm.new) version saved next Open }
{
    let mut happened = 0;
    for event in events {
        if !happen(pages, nvm, version, *event) {
            return happened;
        }
        happened += 1;
    }
    happened
}
