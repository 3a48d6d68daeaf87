//! Laws. Each of these functions does nothing: its contract is the law.

ghost use Rattle.std.specs.Prelude.{◌≡◌, ℕ};
ghost use Rattle.cap_group.specs.declared.group.Group.{Group};
ghost use Rattle.cap_group.specs.Group.{IsLowestFree};

/// A group has one lowest free slot at most.
pub fn one_lowest_free()
    ensures { (group : Group) (a b : ℕ) → IsLowestFree group a → IsLowestFree group b → a ≡ b }
{}
