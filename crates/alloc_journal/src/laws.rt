//! Laws. Each of these functions does nothing: its contract is the law.

ghost use Rattle.std.specs.Prelude.{◌≡◌, ◌≢◌, ◌+◌, ◌<◌, ℕ, Bool};
ghost use Rattle.pmem_model.specs.Words.{Word};
ghost use Rattle.pmem_model.specs.Events.{IsCut, WordIs, Clean};
ghost use Rattle.pmem_layout.specs.Owners.{Numbers};
ghost use Rattle.pmem_layout.specs.Rooms.{CalmIn, FencedIn, LeftIn, SameIn};
ghost use Rattle.alloc_journal.specs.declared.journal.Stage.TheVariants.{Rest, Logged, Redoing};
ghost use Rattle.alloc_journal.specs.Sets.{has};
ghost use Rattle.alloc_journal.specs.Format.{NumbersStand};
ghost use Rattle.alloc_journal.specs.Work.{Work, as_committed, once_committed, IsExact};
ghost use Rattle.alloc_journal.specs.Shows.{NumbersShow};
ghost use Rattle.alloc_journal.specs.Formatting.{FormatShows};

use pmem_layout::NUMBERS;
use sls_base::LEADER;

/// What is known outlives events that store nothing in the numbers' words: flushes and fences of any core, write-backs,
/// and the steps of others.
pub fn calm()
    ensures calm { (w : Work) (f g : ℕ → Word) (v : ℕ) (saved : ℕ → Bool) → CalmIn Numbers f g
        → NumbersShow w f v saved → NumbersShow w g v saved }
    ensures fenced { (w : Work) (f g : ℕ → Word) (core v : ℕ) (saved : ℕ → Bool) → FencedIn Numbers core f g
        → NumbersShow w f v saved → NumbersShow w g v saved }
{}

/// Whatever a cut leaves tells exactly the committed numbers at the committed version.
pub fn stands()
    ensures { (w : Work) (f : ℕ → Word) (left : ℕ → ℕ) (v : ℕ) (saved : ℕ → Bool) → LeftIn Numbers f left
        → NumbersShow w f v saved → NumbersStand left v saved }
{}

/// Once the log is written, the next version may be committed: whatever a cut leaves tells the logged numbers at it.
pub fn commits()
    ensures shows { (w : Work) (f : ℕ → Word) (v : ℕ) (saved : ℕ → Bool) → w.stage ≡ Logged
        → NumbersShow w f v saved → NumbersShow (as_committed w) f (v + 1) (has w.logged) }
    ensures exact { (w : Work) → IsExact (as_committed w) (has w.logged) }
    ensures once { (w : Work) → w.stage ≡ Logged → once_committed w ≡ as_committed w }
    ensures stands { (w : Work) (f : ℕ → Word) (left : ℕ → ℕ) (v : ℕ) (saved : ℕ → Bool) → w.stage ≡ Logged
        → LeftIn Numbers f left → NumbersShow w f v saved → NumbersStand left (v + 1) (has w.logged) }
{}

/// The committed numbers are known, but while the log is redone after a cut.
pub fn known()
    ensures { (w : Work) (f : ℕ → Word) (v : ℕ) (saved : ℕ → Bool) → w.stage ≢ Redoing → NumbersShow w f v saved
        → IsExact w saved }
{}

/// After a cut each word is durable, and the words tell the committed numbers.
pub fn cut()
    ensures clean { (f g : ℕ → Word) → IsCut f g → (i : ℕ) → WordIs LEADER Clean (g i) ((g i).durable) }
    ensures stands { (w : Work) (f g : ℕ → Word) (v : ℕ) (saved : ℕ → Bool) → IsCut f g → NumbersShow w f v saved
        → NumbersStand (λ i. (g i).durable) v saved }
    ensures next { (w : Work) (f g : ℕ → Word) (v : ℕ) (saved : ℕ → Bool) → w.stage ≡ Logged → IsCut f g
        → NumbersShow w f v saved → NumbersStand (λ i. (g i).durable) (v + 1) (has w.logged) }
{}

/// A memory that is formatted shows its first numbers at version 0, and while it is formatted, what is known outlives
/// events that store nothing in the numbers' words.
pub fn formatted()
    ensures calm { (w : Work) (f g : ℕ → Word) → CalmIn Numbers f g → FormatShows w f → FormatShows w g }
    ensures shows { (w : Work) (f : ℕ → Word) → w.stage ≡ Rest → FormatShows w f → NumbersShow w f 0 (has w.committed) }
{}

/// Durable words tell one set of numbers at a version, by the words that are the numbers' own.
pub fn format()
    ensures same { (a b : ℕ → ℕ) (v : ℕ) (numbers : ℕ → Bool) → SameIn Numbers a b → NumbersStand a v numbers
        → NumbersStand b v numbers }
    ensures only { (words : ℕ → ℕ) (v : ℕ) (a b : ℕ → Bool) → NumbersStand words v a → NumbersStand words v b
        → (n : ℕ) → n < NUMBERS → a n ≡ b n }
{}
