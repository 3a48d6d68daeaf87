//! The pages that the next tick of a core needs.

ghost use Rattle.std.specs.Prelude.{◌≡◌, ◌≢◌, ◌%◌, ◌<◌, ◌≤◌, ◌||◌, true, false, ℕ, [], ◌∷◌, length, AllPairs, Some, option_map};
ghost use Rattle.arrayvec.specs.ArrayVec.{array_vec_len};
ghost use Rattle.sls_base.specs.declared.limits.TheConstants.{CORES, INSTRUCTION_BYTES, PAGE_BYTES, PAGES};
ghost use Rattle.sls_base.specs.declared.fixed.TheConstants.{SCHEDULER};
ghost use Rattle.plain_model.specs.States.{thread_at};
ghost use Rattle.plain_model.specs.Worlds.{World};
ghost use Rattle.plain_model.specs.Effects.{Effect};
ghost use Rattle.plain_model.specs.Instructions as plain;
ghost use Rattle.plain_model.specs.Ticks as ticks;
ghost use Rattle.kobj_table.specs.Slots.{bytes_of, cores_of};
ghost use Rattle.kobj_table.specs.Objects.{Rest, slot_at, state_of};
ghost use Rattle.call_readings.specs.Kernel.{IsCounted, IsAttached, IsOfWorld, world_of};
ghost use Rattle.call_readings.specs.Content.{is_page_home, number_in, Reads};
ghost use Rattle.call_readings.specs.Reach.{IsReach};
ghost use Rattle.call_readings.specs.Need.{has_page, page_of_pc, page_fetched, reaches_page, IsAtHome};

use crate::content::{is_home, number_on_page};
use crate::devices::Devices;
use crate::numbers::NumbersInUse;
use crate::pages::{add_page, add_span, page_at};
use crate::reach::{Reach, reach_of};
use arrayvec::ArrayVec;
use kobj_table::Objects;
use mem_space::MemPage;
use pmem_model::Pmem;
use sls_base::{
    CoreNo, EXECUTE, INSTRUCTION_BYTES, ObjId, PAGE_BYTES, PageNo, READ, SCHEDULER, Thread, WRITE,
};

/// The pages that a tick touches, and those among them that it must store to, each once.
#[derive(Drop)]
pub struct Need {
    pub touched: ArrayVec<PageNo, 4>,
    pub stored: ArrayVec<PageNo, 2>,
}

/// The thread that a core runs next: its own, or the front of the run queue.
#[tactic(auto, unfolding(kobj_table::specs::Objects::state_of))]
fn next_thread(objects: &Objects, core: CoreNo) -> Option<ObjId>
    requires range { core < CORES }
    requires core { core < length (cores_of (slot_at objects.now SCHEDULER)) }
    ensures { (rest : Rest) → result
        ≡ option_map (λ c. c.occupant.thread) (ticks.chosen (state_of objects.now rest) core) }
{
    match objects.running(core) {
        Some((thread, _)) => Some(thread),
        None => objects.first(SCHEDULER),
    }
}

impl Need {
    ghost use Rattle.call_readings.specs.declared.need.Need.{Need};

    /// No pages.
    fn nothing() -> Need
        ensures touched { result.touched.items ≡ [] }
        ensures stored { result.stored.items ≡ [] }
    {
        Need {
            touched: ArrayVec::new(),
            stored: ArrayVec::new(),
        }
    }

    /// Adds what an instruction of a thread reaches.
    #[tactic(auto, unfolding(kobj_table::specs::Objects::state_of))]
    fn add_reach(&mut self, objects: &Objects, thread: &Thread, reach: Reach)
        requires touched { array_vec_len self.old.touched ≤ 1 }
        requires stored { self.old.stored.items ≡ [] }
        ensures touched { (rest : Rest) (e : Effect) (page : ℕ) → IsReach (state_of objects.now rest) thread.now reach e
            → has_page self.new.touched.items page
            ≡ (has_page self.old.touched.items page || reaches_page (state_of objects.now rest) e page) }
        ensures stored { (rest : Rest) (e : Effect) (page : ℕ) → IsReach (state_of objects.now rest) thread.now reach e
            → has_page self.new.stored.items page ≡ ticks.stores_to (state_of objects.now rest) e page }
        ensures touched_once { AllPairs (λ p q. p ≢ q) self.old.touched.items
            → AllPairs (λ p q. p ≢ q) self.new.touched.items }
        ensures stored_once { AllPairs (λ p q. p ≢ q) self.new.stored.items }
    {
        let space = thread.space;
        match reach {
            Reach::Nothing => {}
            Reach::Loads(span) => add_span(&mut self.touched, objects, space, READ, span),
            Reach::Stores(span) => {
                add_span(&mut self.touched, objects, space, WRITE, span);
                add_span(&mut self.stored, objects, space, WRITE, span);
            }
            Reach::Puts(span, channel) => {
                add_span(&mut self.touched, objects, space, READ, span);
                add_page(&mut self.touched, PageNo::from(channel));
                add_page(&mut self.stored, PageNo::from(channel));
            }
        }
    }
}

/// The instruction at the pc of a thread, which stands on a page.
fn fetch(nvm: &Pmem, page: MemPage, thread: &Thread) -> u32
    requires home { page.page < PAGES → is_page_home nvm.now page.page ≡ true }
    ensures { (content : ℕ → ℕ → ℕ) → Reads content nvm.now → thread.now.pc % INSTRUCTION_BYTES ≡ 0
        → result ≡ number_in (bytes_of content page.page page.fresh) (thread.now.pc % PAGE_BYTES) INSTRUCTION_BYTES }
{
    number_on_page(nvm, page, thread.pc % PAGE_BYTES as u32, INSTRUCTION_BYTES)
}

/// The pages that the next instruction of a thread needs. Where the page that it is fetched from isn't at home, that
/// page alone is told.
pub(crate) fn need_of_thread(
    objects: &Objects,
    numbers: &NumbersInUse,
    devices: &Devices,
    nvm: &Pmem,
    me: ObjId,
    thread: &Thread,
) -> Need
    ensures touched { (w : World) (rest : Rest) (page : ℕ) → IsCounted numbers.now (world_of objects.now rest w)
        → IsAttached objects.now devices.now (world_of objects.now rest w) → Reads rest.content nvm.now
        → thread.now.pc % INSTRUCTION_BYTES ≡ 0
        → IsAtHome nvm.now (page_of_pc (state_of objects.now rest) thread.now)
        → has_page result.touched.items page ≡ reaches_page (state_of objects.now rest)
        (plain.instruction (world_of objects.now rest w) me thread.now) page }
    ensures stored { (w : World) (rest : Rest) (page : ℕ) → IsCounted numbers.now (world_of objects.now rest w)
        → IsAttached objects.now devices.now (world_of objects.now rest w) → Reads rest.content nvm.now
        → thread.now.pc % INSTRUCTION_BYTES ≡ 0
        → IsAtHome nvm.now (page_of_pc (state_of objects.now rest) thread.now)
        → has_page result.stored.items page ≡ ticks.stores_to (state_of objects.now rest)
        (plain.instruction (world_of objects.now rest w) me thread.now) page }
    ensures away { (rest : Rest) (from : ℕ) → page_of_pc (state_of objects.now rest) thread.now ≡ Some from
        → from < PAGES → is_page_home nvm.now from ≡ false
        → (result.touched.items ≡ from ∷ []) × (result.stored.items ≡ []) }
    ensures touched_once { AllPairs (λ p q. p ≢ q) result.touched.items }
    ensures stored_once { AllPairs (λ p q. p ≢ q) result.stored.items }
{
    let mut need = Need::nothing();
    let Some(page) = page_at(objects, thread.space, EXECUTE, u64::from(thread.pc)) else {
        return need;
    };
    need.touched.push(page.page);
    if is_home(nvm, page.page) {
        let word = fetch(nvm, page, thread);
        let reach = reach_of(objects, numbers, devices, me, thread, word);
        need.add_reach(objects, thread, reach);
    }
    need
}

/// The pages that the next tick of a core touches, and those among them that it must store to. Where the page that it
/// fetches from isn't at home, that page alone is told.
pub fn need_of_core(
    objects: &Objects,
    numbers: &NumbersInUse,
    devices: &Devices,
    nvm: &Pmem,
    core: CoreNo,
) -> Need
    requires range { core < CORES }
    requires core { core < length (cores_of (slot_at objects.now SCHEDULER)) }
    // Where the page that is fetched from is at home, the pages are exactly those of the world's next tick.
    ensures touched { (w : World) (rest : Rest) (page : ℕ)
        → IsOfWorld objects.now numbers.now devices.now nvm.now rest w
        → IsAtHome nvm.now (page_fetched (state_of objects.now rest) core)
        → has_page result.touched.items page ≡ ticks.touches (world_of objects.now rest w) core page }
    ensures stored { (w : World) (rest : Rest) (page : ℕ)
        → IsOfWorld objects.now numbers.now devices.now nvm.now rest w
        → IsAtHome nvm.now (page_fetched (state_of objects.now rest) core)
        → has_page result.stored.items page ≡ ticks.must_store (world_of objects.now rest w) core page }
    ensures away { (rest : Rest) (from : ℕ) → page_fetched (state_of objects.now rest) core ≡ Some from
        → from < PAGES → is_page_home nvm.now from ≡ false
        → (result.touched.items ≡ from ∷ []) × (result.stored.items ≡ []) }
    ensures touched_once { AllPairs (λ p q. p ≢ q) result.touched.items }
    ensures stored_once { AllPairs (λ p q. p ≢ q) result.stored.items }
{
    match next_thread(objects, core) {
        Some(me) => need_of_thread(
            objects,
            numbers,
            devices,
            nvm,
            me,
            &objects.thread_or_zeros(me),
        ),
        None => Need::nothing(),
    }
}
