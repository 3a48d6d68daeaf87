//! What waits on channels is bounded, and so are threads, cores and bytes.

ghost use Rattle.std.specs.Prelude.{ℕ};
ghost use Rattle.sls_base.specs.declared.image.Image.{Image};
ghost use Rattle.plain_state.specs.declared.label.Label.{Label};
ghost use Rattle.plain_model.specs.Worlds.{World};
ghost use Rattle.plain_model.specs.Play.{after};
ghost use Rattle.plain_model.specs.MayStep.{MayStep};
ghost use Rattle.plain_model.specs.Initial.{IsAccepted, initial, first_world};
ghost use Rattle.plain_laws.specs.Plays.{Both, Always, MayAlways};
ghost use Rattle.plain_laws.specs.Sound.{HaveForms};
ghost use Rattle.plain_laws.specs.Laws.{IsInOrder};
ghost use Rattle.plain_laws.specs.Bounds.{IsOfBytes, HasBytes, ByteAlways, HasEntries, IsInRoom, HasThreads, HasPages, HasCores};

/// In every state that a machine comes to, each entry that was put and each input that waits is 1 to 56 bytes,
/// entries are put on the four channels alone, and at most 64 inputs wait.
pub fn entries_keep_their_form()
    ensures first { (image : Image) (cores : ℕ) → HasEntries (initial image cores) }
    ensures kept { (w : World) (label : Label) → MayStep w label → HasBytes label → HaveForms w.now → HasPages w.now
        → Both HasEntries w → Both HasEntries (after w label) }
    ensures always { (image : Image) (cores : ℕ) → IsAccepted image → IsOfBytes image
        → ByteAlways (Both HasEntries) (first_world image cores) }
{}

/// Of each channel, both states of a world that a machine comes to have put as many entries as the device has
/// accepted, and at most 64 more. No count is past 2^64 - 1, and the version is at most 2^48 - 1.
pub fn rings_have_room()
    ensures first { (image : Image) (cores : ℕ) → IsInRoom (first_world image cores) }
    ensures kept { (w : World) (label : Label) → MayStep w label → IsInOrder w → IsInRoom w → IsInRoom (after w label) }
    ensures always { (image : Image) (cores : ℕ) → MayAlways IsInRoom (first_world image cores) }
{}

/// In every state that a machine comes to, the bytes of a page are bytes, and past its end there is 0.
pub fn pages_have_bytes()
    ensures first { (image : Image) (cores : ℕ) → IsOfBytes image → HasPages (initial image cores) }
    ensures kept { (w : World) (label : Label) → HasEntries w.now → Both HasPages w → Both HasPages (after w label) }
    ensures always { (image : Image) (cores : ℕ) → IsAccepted image → IsOfBytes image
        → ByteAlways (Both HasPages) (first_world image cores) }
{}

/// In every state that a machine comes to, the pc of a thread is a multiple of 4 and has 32 bits, as its 32 registers
/// have, of which the first is 0; who runs on a core runs on one that there is, and who has stopped has a cause that
/// there is.
pub fn threads_stay_in_range()
    ensures first { (image : Image) (cores : ℕ) → IsAccepted image → HasThreads (initial image cores) }
    ensures kept { (w : World) (label : Label) → MayStep w label → HaveForms w.now → HasPages w.now → HasEntries w.now
        → Both HasThreads w → Both HasThreads (after w label) }
    ensures always { (image : Image) (cores : ℕ) → IsAccepted image → IsOfBytes image
        → ByteAlways (Both HasThreads) (first_world image cores) }
{
    // Their contracts say that the fields of an instruction are in range, and so is what it does.
    rv_table::one_row();
    rv_core::plans_in_range();
}

/// The number of cores never changes.
pub fn cores_stay()
    ensures kept { (w : World) (label : Label) (cores : ℕ) → Both (HasCores cores) w
        → Both (HasCores cores) (after w label) }
    ensures always { (image : Image) (cores : ℕ) → Always (Both (HasCores cores)) (first_world image cores) }
{}
