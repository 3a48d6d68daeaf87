//! How calls and faults are counted.

ghost use Rattle.std.specs.Prelude.{◌≡◌, ◌≤◌, ◌↔◌, IsTrue, Contains};
ghost use Rattle.sls_base.specs.Counts.{one_more};

/// Counts one more; a count stops at `u64::MAX`.
pub(crate) fn raise(count: &mut u64)
    ensures next { count.new ≡ one_more count.old }
    ensures never_falls { count.old ≤ count.new }
{
    *count = count.saturating_add(1);
}

/// Counts a call, and tells whether its number stands among `fails`.
pub(crate) fn fails_now(calls: &mut u64, fails: &[u64]) -> bool
    ensures counted { calls.new ≡ one_more calls.old }
    ensures fails { IsTrue result ↔ Contains fails.now (one_more calls.old) }
{
    raise(calls);
    fails.contains(calls)
}
