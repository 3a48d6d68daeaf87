//! Laws. Each of these functions does nothing: its contract is the law.

ghost use Rattle.std.specs.Prelude.{◌≡◌, ℕ, ◌+◌, ◌<◌, List, length, true, slice_index, slice_set};
ghost use Rattle.sls_base.specs.declared.limits.TheConstants.{OUTPUT_CHANNELS};
ghost use Rattle.pmem_model.specs.Events.{IsCalm};
ghost use Rattle.pmem_model.specs.Memory.{Memory, word_at, SameHomes};
ghost use Rattle.plain_state.specs.Worlds.{World};
ghost use Rattle.plain_model.specs.Play.{accept, is_offered};
ghost use Rattle.core_turns.specs.declared.running.Running.{Running};
ghost use Rattle.core_turns.specs.Runs.{Runs};

/// Running cores outlive whatever stores nothing: flushes and fences of any core, and write-backs. An entry that the
/// device accepts is accepted by the world.
pub fn running_cores()
    ensures calm { (k : Running) (accepted : List ℕ) (old new : Memory) (w : World)
        → IsCalm (word_at old) (word_at new) → SameHomes old new → Runs k accepted old w → Runs k accepted new w }
    ensures accepts { (k : Running) (accepted : List ℕ) (m : Memory) (w : World) (channel : ℕ)
        → channel < OUTPUT_CHANNELS → length accepted ≡ OUTPUT_CHANNELS → is_offered w channel ≡ true
        → Runs k accepted m w
        → Runs k (slice_set accepted channel (slice_index accepted channel + 1)) m (accept w channel) }
{
    version_rooms::laws::calm();
    plain_laws::whole::worlds_are_sound();
    out_gate::waiting_entries_stand();
}
