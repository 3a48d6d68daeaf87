//! Laws. Each of these functions does nothing: its contract is the law.

ghost use Rattle.std.specs.Prelude.{◌≡◌, ℕ, ◌*◌, ◌<◌, ◌≤◌};
ghost use Rattle.sls_base.specs.declared.limits.TheConstants.{FRAME_WORDS, LINE_WORDS};
ghost use Rattle.pmem_model.specs.Words.{Word, bursts, flushes, fences};
ghost use Rattle.pmem_operations.specs.Operations.{AreOperations, IsAtMostOne, IsInside, IsOperation};

/// What the memory does to all words where it stores, flushes or fences is an operation.
pub fn operations()
    ensures burst { (core at count : ℕ) (value : ℕ → ℕ) (f g : ℕ → Word) → count ≤ FRAME_WORDS → IsInside at count
        → ((i : ℕ) → g i ≡ bursts at count value f i) → IsOperation core f g }
    ensures flush { (core at lines : ℕ) (f g : ℕ → Word) → IsInside at (LINE_WORDS * lines)
        → ((i : ℕ) → g i ≡ flushes core at (LINE_WORDS * lines) f i) → IsOperation core f g }
    ensures fence { (core : ℕ) (f g : ℕ → Word) → ((i : ℕ) → g i ≡ fences core f i) → IsOperation core f g }
    ensures at_most_one { (core : ℕ) (f g : ℕ → Word) → IsAtMostOne core f g → AreOperations core 1 f g }
{}
