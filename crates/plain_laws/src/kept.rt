//! What of a world is as it was saved.

ghost use Rattle.std.specs.Prelude.{◌≡◌, ◌≢◌, ℕ, ◌<◌, false, None};
ghost use Rattle.sls_base.specs.declared.fixed.TheConstants.{FIRST_PROGRAM_OBJECT};
ghost use Rattle.sls_base.specs.declared.image.Image.{Image};
ghost use Rattle.plain_state.specs.declared.label.Label.{Label};
ghost use Rattle.plain_model.specs.Worlds.{World};
ghost use Rattle.plain_model.specs.Play.{after};
ghost use Rattle.plain_model.specs.Initial.{IsAccepted, first_world};
ghost use Rattle.plain_laws.specs.Plays.{Both, Always};
ghost use Rattle.plain_laws.specs.Places.{IsPlaced};
ghost use Rattle.plain_laws.specs.Sound.{HaveForms, NameWhatIs};
ghost use Rattle.plain_laws.specs.Laws.{AreInRange};
ghost use Rattle.plain_laws.specs.Fixed.{HasFixedObjects};
ghost use Rattle.plain_laws.specs.Kept.{IsSaved, IsTracked, IsSameInBoth};

/// In every world that a machine comes to, the sweep changes nothing of the saved copy, and each object and page of
/// it is there still.
pub fn saved_is_swept()
    ensures first { (image : Image) (cores : ℕ) → IsAccepted image → IsSaved (first_world image cores) }
    ensures kept { (w : World) (label : Label) → IsPlaced w.now → IsSaved w → IsSaved (after w label) }
    ensures always { (image : Image) (cores : ℕ) → IsAccepted image → Always IsSaved (first_world image cores) }
{}

/// In every world that a machine comes to, what wasn't changed or stored to since the last commit or cut is as it was
/// saved. What was changed has a number that objects have, and what was stored to is a page that there is. So a number
/// that wasn't changed has the same object in both states, or none in either; the fixed ones have one in both.
pub fn changes_are_tracked()
    ensures first { (image : Image) (cores : ℕ) → IsTracked (first_world image cores) }
    ensures kept { (w : World) (label : Label) → IsPlaced w.now → AreInRange w.now → HaveForms w.now → NameWhatIs w.now
        → IsTracked w → IsTracked (after w label) }
    ensures always { (image : Image) (cores : ℕ) → IsAccepted image → Always IsTracked (first_world image cores) }
    ensures both { (w : World) (i : ℕ) → IsTracked w → w.changed i ≡ false → IsSameInBoth w i }
    ensures fixed { (w : World) (i : ℕ) → Both HasFixedObjects w → i < FIRST_PROGRAM_OBJECT
        → (w.now.objects i ≢ None) × (w.saved.objects i ≢ None) }
{}
