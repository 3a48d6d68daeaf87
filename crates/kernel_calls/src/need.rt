//! The pages that the next tick of a core needs.

ghost use Rattle.std.specs.Prelude.{◌≡◌, ◌≢◌, ◌<◌, false, true, ℕ, [], ◌∷◌, length, All, AllPairs, List, Some, None};
ghost use Rattle.pmem_model.specs.Memory.{Memory};
ghost use Rattle.sls_base.specs.declared.limits.TheConstants.{CORES, PAGES};
ghost use Rattle.sls_base.specs.declared.fixed.TheConstants.{SCHEDULER};
ghost use Rattle.rv_core.specs.declared.registers.Plan.{Plan};
ghost use Rattle.plain_state.specs.declared.calls.Call.{Call};
ghost use Rattle.plain_state.specs.Calls.{call_named};
ghost use Rattle.plain_state.specs.CallRefusals.{refusal_of};
ghost use Rattle.plain_state.specs.Worlds.{World};
ghost use Rattle.plain_state.specs.States.{thread_at};
ghost use Rattle.plain_state.specs.Ticks.{Chosen, chosen, touches, must_store};
ghost use Rattle.kobj_table.specs.Slots.{cores_of};
ghost use Rattle.kobj_table.specs.Objects.{Rest, slot_at};
ghost use Rattle.call_readings.specs.Content.{is_page_home};
ghost use Rattle.call_readings.specs.Need.{has_page, page_fetched, IsAtHome};
ghost use Rattle.kernel_calls.specs.declared.calls.Calls.{Calls as CallsRecord};
ghost use Rattle.kernel_calls.specs.Kernel.{Holds};
ghost use Rattle.kernel_calls.specs.Instructions.{plan_of};
ghost use Rattle.kernel_calls.specs.Needed.{IsFreshPage, IsPrepared, HasItsPages, HasPutPages, HasGetPages};

use crate::calls::Calls;
use call_readings::{Need, need_of_core};
use pmem_model::Pmem;
use sls_base::{CoreNo, OUTPUT_CHANNELS};

impl Calls {
    /// The pages that the next tick of a core touches, and those among them that it must store to, each once. Where the
    /// page that it fetches from isn't at home, that page alone is told. The devices have accepted so many entries of
    /// each channel.
    pub fn need(&self, nvm: &Pmem, core: CoreNo, accepted: &[u64; OUTPUT_CHANNELS]) -> Need
        requires below { core < CORES }
        requires core { core < length (cores_of (slot_at self.now.runtime.objects SCHEDULER)) }
        ensures touched { (w : World) (rest : Rest) (page : ℕ) → Holds self.now accepted.now nvm.now rest w
            → IsAtHome nvm.now (page_fetched w.now core)
            → has_page result.touched.items page ≡ touches w core page }
        ensures stored { (w : World) (rest : Rest) (page : ℕ) → Holds self.now accepted.now nvm.now rest w
            → IsAtHome nvm.now (page_fetched w.now core)
            → has_page result.stored.items page ≡ must_store w core page }
        ensures away { (w : World) (rest : Rest) (from : ℕ) → Holds self.now accepted.now nvm.now rest w
            → page_fetched w.now core ≡ Some from → is_page_home nvm.now from ≡ false
            → (result.touched.items ≡ from ∷ []) × (result.stored.items ≡ []) }
        ensures in_range { (w : World) (rest : Rest) → Holds self.now accepted.now nvm.now rest w
            → All (λ page. page < PAGES) result.touched.items }
        ensures among { (w : World) (rest : Rest) → Holds self.now accepted.now nvm.now rest w
            → All (λ page. has_page result.touched.items page ≡ true) result.stored.items }
        // Where those told are at home, and none to be stored to is fresh, the tick may be.
        ensures prepared { (w : World) (rest : Rest) → Holds self.now accepted.now nvm.now rest w
            → All (λ page. is_page_home nvm.now page ≡ true) result.touched.items
            → All (λ page. ¬ IsFreshPage self.now.runtime.objects page) result.stored.items
            → IsPrepared self.now.runtime.objects nvm.now w core }
        ensures touched_once { AllPairs (λ p q. p ≢ q) result.touched.items }
        ensures stored_once { AllPairs (λ p q. p ≢ q) result.stored.items }
    {
        plain_laws::calls::unrefused_call_meets_all();
        let devices = self.devices(accepted);
        let (objects, numbers) = (&self.runtime.objects, &self.runtime.numbers);
        need_of_core(objects, numbers, &devices, nvm, core)
    }
}

/// Where the next tick of a core is prepared, the pages are there from which its thread's instruction is fetched, from
/// which it loads and to which it stores. So are those of a put, and of a get, which aren't refused. This does nothing:
/// its contract is the law.
pub(crate) fn pages_are_there()
    ensures instruction { (k : CallsRecord) (accepted : List ℕ) (m : Memory) (rest : Rest) (w : World) (core : ℕ)
        (c : Chosen) → Holds k accepted m rest w → IsPrepared k.runtime.objects m w core → chosen w.now core ≡ Some c
        → HasItsPages k.runtime.objects m (thread_at w.now c.occupant.thread) }
    ensures put { (k : CallsRecord) (accepted : List ℕ) (m : Memory) (rest : Rest) (w : World) (core : ℕ)
        (c : Chosen) → Holds k accepted m rest w → IsPrepared k.runtime.objects m w core → chosen w.now core ≡ Some c
        → plan_of w.now (thread_at w.now c.occupant.thread) ≡ Some Plan.Call
        → call_named (thread_at w.now c.occupant.thread) ≡ Some Call.Put
        → refusal_of w c.occupant.thread (thread_at w.now c.occupant.thread) Call.Put ≡ None
        → HasPutPages k.runtime.objects m w.now (thread_at w.now c.occupant.thread) }
    ensures get { (k : CallsRecord) (accepted : List ℕ) (m : Memory) (rest : Rest) (w : World) (core : ℕ)
        (c : Chosen) → Holds k accepted m rest w → IsPrepared k.runtime.objects m w core → chosen w.now core ≡ Some c
        → plan_of w.now (thread_at w.now c.occupant.thread) ≡ Some Plan.Call
        → call_named (thread_at w.now c.occupant.thread) ≡ Some Call.Get
        → refusal_of w c.occupant.thread (thread_at w.now c.occupant.thread) Call.Get ≡ None
        → HasGetPages k.runtime.objects m w.now (thread_at w.now c.occupant.thread) }
{
    rv_table::one_row();
    rv_core::plans_in_range();
    plain_laws::calls::bytes_on_one_page();
}
