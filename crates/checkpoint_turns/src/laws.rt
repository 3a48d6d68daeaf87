//! Laws. Each of these functions does nothing: its contract is the law.

ghost use Rattle.std.specs.Prelude.{◌≡◌, ℕ, ◌+◌, ◌<◌, List, true, length, slice_index, slice_set};
ghost use Rattle.sls_base.specs.declared.limits.TheConstants.{OUTPUT_CHANNELS, VERSION_AT};
ghost use Rattle.pmem_model.specs.Events.{Left};
ghost use Rattle.pmem_model.specs.Memory.{Memory, word_at};
ghost use Rattle.plain_state.specs.Worlds.{World, accepted_count};
ghost use Rattle.plain_model.specs.Play.{accept, is_offered};
ghost use Rattle.saved_state.specs.State.{Stands};
ghost use Rattle.checkpoint_turns.specs.declared.checkpoint.Checkpoint.{Checkpoint};
ghost use Rattle.checkpoint_turns.specs.Checkpoints.{IsBefore, IsBehind, IsOf};

/// An entry that the device accepts in a checkpoint is accepted by the world.
pub fn accepts()
    ensures { (c : Checkpoint) (accepted : List ℕ) (m : Memory) (w : World) (channel : ℕ)
        → channel < OUTPUT_CHANNELS → length accepted ≡ OUTPUT_CHANNELS → is_offered w channel ≡ true
        → IsOf c accepted m w
        → IsOf c (slice_set accepted channel (slice_index accepted channel + 1)) m (accept w channel) }
{
    plain_laws::whole::worlds_are_sound();
    out_gate::waiting_entries_stand();
}

/// The durable version word has the version of the world.
pub fn version_word()
    ensures { (c : Checkpoint) (accepted : List ℕ) (m : Memory) (w : World) → IsOf c accepted m w
        → (word_at m VERSION_AT).durable ≡ w.version }
{}

/// Whatever a cut leaves in a checkpoint stands for the saved copy, where the version word still reads its version, and
/// behind the commit it does.
pub fn cuts()
    ensures before { (c : Checkpoint) (accepted : List ℕ) (m : Memory) (w : World) (left : ℕ → ℕ)
        → ((i : ℕ) → Left (word_at m i) (left i)) → left VERSION_AT ≡ w.version → IsBefore c accepted m w
        → Stands left w.base (accepted_count w) w.saved }
    ensures behind { (c : Checkpoint) (accepted : List ℕ) (m : Memory) (w : World) (left : ℕ → ℕ)
        → ((i : ℕ) → Left (word_at m i) (left i)) → IsBehind c accepted m w
        → (left VERSION_AT ≡ w.version) × Stands left w.base (accepted_count w) w.saved }
{
    leader_helper::laws::commit_point();
}
