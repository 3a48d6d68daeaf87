//! What is known of a call that isn't refused, and of bytes that stand on one page.

ghost use Rattle.std.specs.Prelude.{◌≡◌, ◌≢◌, ℕ, ◌+◌, ◌%◌, ◌≤◌, false, List, Some, None, find, is_some, map};
ghost use Rattle.std.specs.List.{list_any, range_with_len};
ghost use Rattle.sls_base.specs.declared.limits.TheConstants.{PAGE_BYTES};
ghost use Rattle.sls_base.specs.declared.thread.Thread.{Thread};
ghost use Rattle.plain_state.specs.declared.calls.Call.{Call};
ghost use Rattle.plain_state.specs.declared.calls.Refusal.{Refusal};
ghost use Rattle.plain_state.specs.declared.objects.Region.{Region};
ghost use Rattle.plain_model.specs.Worlds.{World};
ghost use Rattle.plain_model.specs.Calls.{needs};
ghost use Rattle.plain_model.specs.CallRefusals.{is_unmet, is_refused_besides, refusal_of};
ghost use Rattle.plain_model.specs.Memory.{covers, is_covered, places_of};
ghost use Rattle.plain_laws.specs.OnePage.{place_beside};

/// Of a call that isn't refused no refusal holds, for none of its arguments.
pub fn unrefused_call_meets_all()
    ensures needs { (w : World) (id : ℕ) (thread : Thread) (call : Call) (refusal : Refusal)
        → refusal ≢ Refusal.BadCall → refusal_of w id thread call ≡ None
        → list_any (is_unmet w.now thread refusal) (needs thread call) ≡ false }
    ensures besides { (w : World) (id : ℕ) (thread : Thread) (call : Call) (refusal : Refusal)
        → refusal ≢ Refusal.BadCall → refusal_of w id thread call ≡ None
        → is_refused_besides w id thread call refusal ≡ false }
{}

/// Bytes at addresses of one page are covered exactly where the first of them is, and stand one behind another on the
/// page of the first region that covers it.
pub fn bytes_on_one_page()
    ensures covered { (regions : List Region) (right at count : ℕ) → 1 ≤ count → at % PAGE_BYTES + count ≤ PAGE_BYTES
        → is_covered regions right at count ≡ is_some (find (covers right at) regions) }
    ensures places { (regions : List Region) (region : Region) (right at count : ℕ)
        → at % PAGE_BYTES + count ≤ PAGE_BYTES → find (covers right at) regions ≡ Some region
        → places_of regions right at count ≡ map (place_beside at region) (range_with_len 0 count) }
{}
