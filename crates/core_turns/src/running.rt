//! Running cores, and their turns.

ghost use Rattle.std.specs.Prelude.{◌≡◌, ◌≢◌, ◌<◌, ℕ, if◌then◌else◌, List, length, All, Option, IfSome, IfNone};
ghost use Rattle.sls_base.specs.declared.fixed.TheConstants.{SCHEDULER};
ghost use Rattle.sls_base.specs.declared.limits.TheConstants.{CORES as EVERY_CORE, PAGES as EVERY_PAGE};
ghost use Rattle.pmem_model.specs.Words.{Word};
ghost use Rattle.pmem_model.specs.Memory.{AllHome};
ghost use Rattle.plain_state.specs.Worlds.{World};
ghost use Rattle.kobj_table.specs.Objects.{slot_at};
ghost use Rattle.kobj_table.specs.Slots.{cores_of};
ghost use Rattle.page_store.specs.Stages.{stage_of, state_of, stored};
ghost use Rattle.page_store.specs.declared.stage.PageState.TheVariants.{Preparing, Writable};
ghost use Rattle.durable_state.specs.Parts.{Parts};
ghost use Rattle.cow_fault.specs.Faults.{MayFault};
ghost use Rattle.version_rooms.specs.Rooms.{IsAtRest};
ghost use Rattle.version_rooms.specs.Rest.{AreAtRest};
ghost use Rattle.call_readings.specs.Need.{has_page};
ghost use Rattle.core_turns.specs.Runs.{IsRunning, Runs, objects_of};
ghost use Rattle.core_turns.specs.Turns.{Goes, IsPreparedOf, IsUnwritableOf, IsWritable, MayPrepare, Prepares};

use crate::turn::Turn;
use kernel_calls::Calls;
use page_store::PageState;
use pmem_model::Pmem;
use sls_base::{CORES, CoreNo, OUTPUT_CHANNELS, PageNo};
use version_rooms::Rooms;

/// The running kernel, the rooms of the persistent memory, the page that each core prepares, and how many entries of
/// each channel the saved copy has put.
///
/// A turn costs a constant number of steps beside its tick, and no call takes memory.
#[derive(Drop)]
pub struct Running {
    pub calls: Calls,
    pub rooms: Rooms,
    pub prepares: [Option<PageNo>; CORES],
    pub saved: [u64; OUTPUT_CHANNELS],
}

/// Notes of each of some pages, to which words may be stored, that they are. Rooms at rest stay so.
fn note_stores(rooms: &mut Rooms, pages: &[PageNo])
    requires rest { IsAtRest rooms.old }
    requires in_range { All (λ page. page < EVERY_PAGE) pages.now }
    requires writable { All (λ page. state_of rooms.old.pages page ≡ Writable) pages.now }
    ensures stages { (page : ℕ) → stage_of rooms.new.pages page
        ≡ (if has_page pages.now page then stored (stage_of rooms.old.pages page) else stage_of rooms.old.pages page) }
    ensures at_rest { (f : ℕ → Word) (v : ℕ) (saved : Parts) (now : ℕ → Option (ℕ → ℕ))
        → AreAtRest rooms.old f v saved now
        → (after : ℕ → Option (ℕ → ℕ)) × AreAtRest rooms.new f v saved after }
    ensures same { rooms.new ≡ record rooms.old { pages = rooms.new.pages } }
{
    for page in pages {
        rooms.note_store(*page);
    }
}

impl Running {
    /// A turn of a core: a step of the page that it has in hand; else its tick, unless a page that this touches is in
    /// another core's hand, or one that it must store to is to be prepared first.
    pub fn turn(&mut self, nvm: &mut Pmem, core: CoreNo, accepted: &[u64; OUTPUT_CHANNELS]) -> Turn
        requires below { core < EVERY_CORE }
        requires core { core < length (cores_of (slot_at (objects_of self.old) SCHEDULER)) }
        requires runs { IsRunning self.old accepted.now nvm.old }
        ensures goes { (w : World) → Runs self.old accepted.now nvm.old w
            → Goes self.old accepted.now nvm.old w core result self.new nvm.new }
    {
        // Its contract says what becomes of rooms where a tick stores to pages.
        version_rooms::laws::stored_pages_run();
        if let Some(page) = self.prepares[core as usize] {
            return self.prepare(nvm, page, core);
        }
        let need = self.calls.need(nvm, core, accepted);
        if let Some((page, other)) = self.first_in_hand(&need.touched) {
            return Turn::Waits(page, other);
        }
        if let Some(page) = self.first_unwritable(&need.stored) {
            return self.prepare(nvm, page, core);
        }
        note_stores(&mut self.rooms, &need.stored);
        Turn::Ticked(self.calls.tick(nvm, core, accepted))
    }

    /// A step by which a core prepares a page. A fresh one is zeroed by it, and has content from then on.
    fn prepare(&mut self, nvm: &mut Pmem, page: PageNo, core: CoreNo) -> Turn
        requires page { page < EVERY_PAGE }
        requires core { core < EVERY_CORE }
        requires home { AllHome nvm.old }
        requires rest { IsAtRest self.old.rooms }
        requires may { MayFault (state_of self.old.rooms.pages page) core }
        ensures told { result ≡ Turn.Prepared page }
        ensures prepares { (accepted : List ℕ) (w : World) → Runs self.old accepted nvm.old w
            → MayPrepare self.old w core page
            → Prepares self.old accepted nvm.old w core page self.new nvm.new }
    {
        object_records::laws::records_stand_for_objects();
        object_records::laws::fresh_pages_are_zero();
        let is_fresh = self.rooms.page_stage(page).state() == PageState::Fresh;
        let is_done = self.rooms.fault_step(nvm, page, core);
        self.prepares[core as usize] = if is_done { None } else { Some(page) };
        if is_fresh {
            self.calls.mark_page(page, false);
        }
        Turn::Prepared(page)
    }

    /// The first of some pages that a core prepares, and that core.
    fn first_in_hand(&self, pages: &[PageNo]) -> Option<(PageNo, CoreNo)>
        requires { All (λ page. page < EVERY_PAGE) pages.now }
        ensures some { IfSome result (λ found. IsPreparedOf self.now pages.now found.0 found.1) }
        ensures none { IfNone result (All (λ page. (core : ℕ) → state_of self.now.rooms.pages page ≢ Preparing core)
            pages.now) }
    {
        for page in pages {
            if let PageState::Preparing(core) = self.rooms.page_stage(*page).state() {
                return Some((*page, core));
            }
        }
        None
    }

    /// The first of some pages that may not be stored to yet.
    fn first_unwritable(&self, pages: &[PageNo]) -> Option<PageNo>
        requires { All (λ page. page < EVERY_PAGE) pages.now }
        ensures some { IfSome result (λ page. IsUnwritableOf self.now pages.now page) }
        ensures none { IfNone result (All (λ page. IsWritable self.now page) pages.now) }
    {
        for page in pages {
            if self.rooms.page_stage(*page).state() != PageState::Writable {
                return Some(*page);
            }
        }
        None
    }
}
