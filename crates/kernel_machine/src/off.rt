//! How the power is cut.

ghost use Rattle.std.specs.Prelude.{◌≡◌, ℕ};
ghost use Rattle.sls_base.specs.declared.image.Image.{Image};
ghost use Rattle.pmem_model.specs.Words.{cuts};
ghost use Rattle.pmem_model.specs.Memory.{AllHome, word_at};
ghost use Rattle.pmem_layout.specs.declared.places.TheConstants.{FORMAT_AT};
ghost use Rattle.plain_state.specs.declared.label.Label.TheVariants as label;
ghost use Rattle.machine_contract.specs.Courses.{Course, after_label};
ghost use Rattle.machine_contract.specs.Shown.{durable_of};
ghost use Rattle.machine_contract.specs.Begins.{CountsCut, WasFormatting};
ghost use Rattle.kernel_machine.specs.Sides.{seen_of};
ghost use Rattle.kernel_machine.specs.Formats.{format};
ghost use Rattle.kernel_machine.specs.Shows.{IsAt, IsLive, IsMadeFrom, ShowsOff};

use crate::kernel::Kernel;
use machine_contract::Off;

impl Kernel {
    /// Cuts the power. What is durable stays, all frames are home, and the device keeps its counts.
    pub fn cut(self) -> Off
        requires live { IsLive self }
        ensures words { (i : ℕ) → word_at result.nvm i ≡ cuts (seen_of self).words i }
        ensures home { AllHome result.nvm }
        ensures accepted { result.accepted ≡ self.accepted }
        ensures counts { CountsCut (seen_of self) result }
        ensures shows { (c : Course) → IsAt self c → ShowsOff result (after_label c label.Cut) }
        ensures unformatted { (c : Course) (image : Image) → IsAt self c → IsMadeFrom self image
            → durable_of (word_at result.nvm) FORMAT_AT ≡ 0 → WasFormatting format (seen_of self) image result c }
    {
        // Their contracts say what a cut leaves, of which image it is, and that the world stays sound.
        crate::laws::machines_are_seen();
        crate::laws::images_of_programs();
        first_format::laws::formatting();
        tree_restore::laws::recovery_is_clean();
        plain_laws::whole::worlds_are_sound();
        let accepted = self.accepted;
        let mut nvm = self.nvm;
        nvm.cut();
        Off { nvm, accepted }
    }
}
