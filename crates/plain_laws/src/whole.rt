//! All that is sound of the worlds that a machine comes to.

ghost use Rattle.std.specs.Prelude.{ℕ};
ghost use Rattle.sls_base.specs.declared.image.Image.{Image};
ghost use Rattle.plain_state.specs.declared.label.Label.{Label};
ghost use Rattle.plain_model.specs.Worlds.{World};
ghost use Rattle.plain_model.specs.Play.{after};
ghost use Rattle.plain_model.specs.MayStep.{MayStep};
ghost use Rattle.plain_model.specs.Initial.{IsAccepted, first_world};
ghost use Rattle.plain_laws.specs.Bounds.{IsOfBytes, HasBytes, ByteAlways};
ghost use Rattle.plain_laws.specs.Whole.{IsSound};

/// The first world of an image is sound, each label that may befall a sound world keeps it so, and so every world that
/// a machine comes to is sound.
pub fn worlds_are_sound()
    ensures first { (image : Image) (cores : ℕ) → IsAccepted image → IsOfBytes image
        → IsSound (first_world image cores) }
    ensures kept { (w : World) (label : Label) → MayStep w label → HasBytes label → IsSound w
        → IsSound (after w label) }
    ensures always { (image : Image) (cores : ℕ) → IsAccepted image → IsOfBytes image
        → ByteAlways IsSound (first_world image cores) }
{
    // Their contracts say that the fields of an instruction are in range, and so is what it does.
    rv_table::one_row();
    rv_core::plans_in_range();
}
