//! The law of the grammar.

ghost use Rattle.std.specs.Prelude.{◌≡◌, ℕ, List, None};
ghost use Rattle.sls_base.specs.declared.image.Image.{Image};
ghost use Rattle.boot_image.specs.Values.{programs_of};
ghost use Rattle.boot_image.specs.Images.{image_fault, IsImageBytes};

/// The bytes of an accepted image break no rule, and are those of no other image. So what was written is read again as
/// the same image, and what was read is written as the same bytes. It does nothing: this is the law.
pub fn grammar()
    ensures unbroken { (bytes : List ℕ) (image : Image) → IsImageBytes bytes image → image_fault bytes ≡ None }
    ensures one_image { (bytes : List ℕ) (a b : Image) → IsImageBytes bytes a → IsImageBytes bytes b →
        programs_of a ≡ programs_of b }
{}
