//! A law. The function does nothing: its contract is the law.

ghost use Rattle.std.specs.Prelude.{◌≡◌, ℕ, Option};
ghost use Rattle.plain_model.specs.Worlds.{World};
ghost use Rattle.plain_laws.specs.Whole.{IsSound};
ghost use Rattle.kobj_table.specs.declared.objects.Objects.{Objects};
ghost use Rattle.kobj_table.specs.Objects.{Rest, state_of};
ghost use Rattle.saved_state.specs.Running.{CanBeSaved};
ghost use Rattle.leader_helper.specs.Saving.{IsRunning};

/// Objects of a sound world that can be saved are as running objects are: so they are swept from checkpoint to
/// checkpoint, and the first time where they were put back.
pub fn saved_objects_run()
    ensures { (o : Objects) (rest : Rest) (pages : ℕ → Option (ℕ → ℕ)) (w : World) → IsSound w
        → w.now ≡ state_of o rest → CanBeSaved o rest pages w → IsRunning o rest pages w }
{}
