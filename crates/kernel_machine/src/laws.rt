//! Laws. Each of these functions does nothing: its contract is the law.

ghost use Rattle.std.specs.Prelude.{◌≡◌, ◌⊎◌, ℕ, length};
ghost use Rattle.pmem_model.specs.Memory.{AllHome, word_at};
ghost use Rattle.pmem_model.specs.Events.{Left};
ghost use Rattle.sls_base.specs.declared.limits.TheConstants.{VERSION_AT};
ghost use Rattle.sls_base.specs.declared.image.Image.{Image};
ghost use Rattle.plain_model.specs.Initial.{IsAccepted, first_world};
ghost use Rattle.boot_image.specs.Values.{programs_of};
ghost use Rattle.first_format.specs.Formatted.{Formats};
ghost use Rattle.machine_contract.specs.Side.{Formatting};
ghost use Rattle.machine_contract.specs.Courses.{Course};
ghost use Rattle.machine_contract.specs.Shown.{IsSaved, IsShown, IsUnformatted};
ghost use Rattle.kernel_machine.specs.declared.kernel.Kernel.{Kernel};
ghost use Rattle.kernel_machine.specs.Sides.{mode_of, seen_of, side_of};
ghost use Rattle.kernel_machine.specs.Formats.{format};
ghost use Rattle.kernel_machine.specs.Shows.{IsAt};

/// All frames are home, and each core has a hand. What is seen of a machine says the course that it is at (`shown`).
/// Whatever a cut leaves, with the version that is durable, is the saved copy, or the memory isn't formatted yet
/// (`left`).
pub fn machines_are_seen()
    ensures home { (k : Kernel) (c : Course) → IsAt k c → AllHome k.nvm }
    ensures cores { (k : Kernel) → length (side_of k).cores ≡ k.cores }
    ensures shown { (k : Kernel) (c : Course) → IsAt k c → IsShown format (seen_of k) c }
    ensures left { (k : Kernel) (c : Course) (left : ℕ → ℕ) → ((i : ℕ) → Left (word_at k.nvm i) (left i))
        → left VERSION_AT ≡ (word_at k.nvm VERSION_AT).durable → IsAt k c
        → IsSaved format left c.world ⊎ (mode_of k.work ≡ Formatting) × IsUnformatted format left c.world }
{
    // Their contracts say what a cut leaves in formatting, in recovery, between checkpoints and in one, and that the
    // first world is sound.
    first_format::laws::formatting();
    first_format::laws::formatted_words_stand();
    plain_laws::whole::worlds_are_sound();
    tree_restore::laws::recovery_is_clean();
    version_rooms::laws::at_rest();
    checkpoint_turns::laws::version_word();
    checkpoint_turns::laws::cuts();
}

/// Images of the same programs are accepted alike, and begin alike.
pub(crate) fn images_of_programs()
    ensures accepted { (a b : Image) → programs_of a ≡ programs_of b → IsAccepted a → IsAccepted b }
    ensures worlds { (a b : Image) (cores : ℕ) → programs_of a ≡ programs_of b
        → first_world a cores ≡ first_world b cores }
    ensures formats { (a b : Image) (cores : ℕ) (words : ℕ → ℕ) → programs_of a ≡ programs_of b
        → Formats a cores words → Formats b cores words }
{}
