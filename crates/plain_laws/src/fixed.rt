//! The objects that are always there.

ghost use Rattle.std.specs.Prelude.{ℕ};
ghost use Rattle.sls_base.specs.declared.image.Image.{Image};
ghost use Rattle.plain_state.specs.declared.label.Label.{Label};
ghost use Rattle.plain_model.specs.Worlds.{World};
ghost use Rattle.plain_model.specs.Play.{after};
ghost use Rattle.plain_model.specs.Initial.{initial, first_world};
ghost use Rattle.plain_laws.specs.Plays.{Both, Always};
ghost use Rattle.plain_laws.specs.Places.{IsPlaced};
ghost use Rattle.plain_laws.specs.Fixed.{HasFixedObjects};

/// In every state that a machine comes to, the root group, the scheduler and the rings stand at their numbers, and
/// above them there is neither a ring nor a scheduler.
pub fn fixed_objects_stay()
    ensures first { (image : Image) (cores : ℕ) → HasFixedObjects (initial image cores) }
    ensures kept { (w : World) (label : Label) → IsPlaced w.now → Both HasFixedObjects w
        → Both HasFixedObjects (after w label) }
    ensures always { (image : Image) (cores : ℕ) → Always (Both HasFixedObjects) (first_world image cores) }
{}
