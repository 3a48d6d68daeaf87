//! What assembling and printing are to each other, over all texts and words.

ghost use Rattle.std.specs.Prelude.{◌≡◌, ◌<◌, ◌≤◌, ◌↔◌, ◌^◌, ℕ, List, length};
ghost use Rattle.std.specs.List.{All};
ghost use Rattle.rv_asm.specs.Printed.{text_of};
ghost use Rattle.sls_base.specs.declared.texts.TheConstants.{PROGRAM_WORDS};
ghost use Rattle.rv_asm.specs.Program.{IsAssembled};

use rv_table::one_row;

/// A text is that of the words of one program at most. It does nothing: this is the law.
pub fn one_program()
    ensures { (text words others : List ℕ) → IsAssembled text words → IsAssembled text others → words ≡ others }
{}

/// What is printed of at most 1,024 words has no fault, and is assembled to exactly these words. It does nothing: this
/// is the law.
pub fn read_back()
    ensures { (words found : List ℕ) → length words ≤ PROGRAM_WORDS → All (λ w. w < 2 ^ 32) words →
        (IsAssembled (text_of words) found ↔ (found ≡ words)) }
{
    one_row();
}
