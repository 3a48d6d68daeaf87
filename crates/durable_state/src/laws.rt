//! Laws. Each of these functions does nothing: its contract is the law.

ghost use Rattle.std.specs.Prelude.{◌≡◌, ◌<◌, ◌⊎◌, ℕ, Option, Some};
ghost use Rattle.kobj_codec.specs.declared.obj.Obj.{Obj};
ghost use Rattle.pmem_layout.specs.Rooms.{with_word};
ghost use Rattle.page_store.specs.Format.{Is};
ghost use Rattle.durable_state.specs.Parts.{Parts, PartsStand, SameButVersion};

use pmem_layout::NUMBERS;
use sls_base::{FRAME_WORDS, OBJECTS, PAGES, VERSION_AT};

/// The parts are read nowhere but in the words of their owners, and the version word is read nowhere. So a store of the
/// next version in it, with whatever it stands for, is the commit: all else is as it was.
pub fn words_of_parts()
    ensures same { (a b : ℕ → ℕ) (v : ℕ) (p : Parts) → SameButVersion a b → PartsStand a v p → PartsStand b v p }
    ensures version_is_free { (words : ℕ → ℕ) (v word : ℕ) (p : Parts) → PartsStand words v p
        → PartsStand (with_word words VERSION_AT word) v p }
{
    alloc_journal::laws::format();
    object_root::laws::format();
    pmem_layout::laws::owners();
    pmem_layout::laws::owners_are_apart();
}

/// Words say one thing alone at a version: the same cores, the same numbers, where both have an object the same one,
/// and where both have the content of a page the same words.
pub fn parts_are_of_one()
    ensures cores { (words : ℕ → ℕ) (v : ℕ) (p q : Parts) → PartsStand words v p → PartsStand words v q
        → p.cores ≡ q.cores }
    ensures numbers { (words : ℕ → ℕ) (v : ℕ) (p q : Parts) → PartsStand words v p → PartsStand words v q
        → (n : ℕ) → n < NUMBERS → p.numbers n ≡ q.numbers n }
    ensures objects { (words : ℕ → ℕ) (v : ℕ) (p q : Parts) → PartsStand words v p → PartsStand words v q
        → (id : ℕ) (o r : Obj) → id < OBJECTS → p.objects id ≡ Some o → q.objects id ≡ Some r → o ≡ r }
    ensures pages { (words : ℕ → ℕ) (v : ℕ) (p q : Parts) → PartsStand words v p → PartsStand words v q
        → (page : ℕ) (a b : ℕ → ℕ) (j : ℕ) → page < PAGES → j < FRAME_WORDS → p.pages page ≡ Some a
        → q.pages page ≡ Some b → a j ≡ b j }
{
    alloc_journal::laws::format();
    object_root::laws::format();
    pmem_layout::laws::owners();
}
