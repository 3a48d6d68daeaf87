//! Laws. Each of these functions does nothing: its contract is the law.

ghost use Rattle.std.specs.Prelude.{◌≡◌, ◌⊎◌, ℕ, ◌≤◌};
ghost use Rattle.sls_base.specs.declared.limits.TheConstants.{CORES};
ghost use Rattle.sls_base.specs.declared.image.Image.{Image};
ghost use Rattle.pmem_model.specs.Words.{Word};
ghost use Rattle.pmem_model.specs.Events.{IsCalm, Left};
ghost use Rattle.plain_model.specs.Initial.{IsAccepted, initial};
ghost use Rattle.plain_model.specs.Sweep.{swept};
ghost use Rattle.plain_laws.specs.Bounds.{IsOfBytes};
ghost use Rattle.object_records.specs.Ranges.{IsSoundState};
ghost use Rattle.durable_state.specs.Parts.{PartsStand};
ghost use Rattle.saved_state.specs.State.{ArePartsOf};
ghost use Rattle.first_format.specs.declared.formatting.Formatting.{Formatting};
ghost use Rattle.first_format.specs.Parts.{first_parts};
ghost use Rattle.first_format.specs.Formatted.{Formats, IsWhole, formatted};
ghost use Rattle.first_format.specs.Clean.{HoldsClean};
ghost use Rattle.first_format.specs.Shows.{FormattingShows, turns_left};

/// Formatting outlives whatever stores nothing. A cut leaves words from which it begins again, or the whole first
/// version; and at its end that is what is durable.
pub fn formatting()
    ensures blank { (image : Image) (cores : ℕ) (words : ℕ → ℕ) → ((i : ℕ) → words i ≡ 0)
        → Formats image cores words }
    ensures calm { (s : Formatting) (f g : ℕ → Word) (image : Image) (cores : ℕ) → IsCalm f g
        → FormattingShows s f image cores → FormattingShows s g image cores }
    ensures cut { (s : Formatting) (f : ℕ → Word) (left : ℕ → ℕ) (image : Image) (cores : ℕ)
        → ((i : ℕ) → Left (f i) (left i)) → FormattingShows s f image cores
        → Formats image cores left ⊎ IsWhole image cores left }
    ensures ends { (s : Formatting) (f : ℕ → Word) (image : Image) (cores : ℕ) → turns_left s ≡ 0
        → FormattingShows s f image cores → HoldsClean f (formatted (first_parts image cores)) }
{}

/// The state that an image begins with is sound, and swept.
pub(crate) fn first_state()
    ensures sound { (image : Image) (cores : ℕ) → IsAccepted image → IsSoundState (initial image cores) }
    ensures swept { (image : Image) (cores : ℕ) → IsAccepted image
        → swept (initial image cores) ≡ initial image cores }
{
    plain_laws::laws::threads_stand_in_one_place();
    plain_laws::laws::threads_stand_where_they_say();
    plain_laws::laws::numbers_stay_in_range();
    plain_laws::laws::objects_keep_their_forms();
    plain_laws::laws::what_is_named_is_there();
    plain_laws::laws::pages_are_apart();
    plain_laws::fixed::fixed_objects_stay();
    plain_laws::bounds::threads_stay_in_range();
    plain_laws::kept::saved_is_swept();
}

/// Words of a whole first version stand for the parts of it at version 0, and read as the state that the image begins
/// with.
pub fn formatted_words_stand()
    ensures stand { (image : Image) (cores : ℕ) → IsAccepted image → 1 ≤ cores → cores ≤ CORES
        → PartsStand (formatted (first_parts image cores)) 0 (first_parts image cores) }
    ensures are { (image : Image) (cores : ℕ) → IsAccepted image → IsOfBytes image → 1 ≤ cores → cores ≤ CORES
        → ArePartsOf (λ channel. 0) (λ channel. 0) (first_parts image cores) (initial image cores) }
{
    pmem_layout::laws::places_of_owners();
    plain_laws::bounds::pages_have_bytes();
    first_state();
}
