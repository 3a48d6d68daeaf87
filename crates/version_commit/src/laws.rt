//! Laws. Each of these functions does nothing: its contract is the law.

ghost use Rattle.std.specs.Prelude.{◌≡◌, ◌⊎◌, ℕ};
ghost use Rattle.pmem_model.specs.Words.{Word};
ghost use Rattle.pmem_layout.specs.Owners as owners;
ghost use Rattle.pmem_layout.specs.Rooms.{CalmIn, LeftIn};
ghost use Rattle.version_commit.specs.Shows.{FormatShows, VersionShows, IsBetween};
ghost use Rattle.version_commit.specs.declared.committer.Committer.{Committer};

use pmem_layout::FORMAT_AT;
use sls_base::VERSION_AT;

/// The committed version is the durable value of the version word. Where nothing is stored in that word, it stays or
/// becomes what the word reads, whichever event that is; and a cut leaves one of the two.
pub fn version_word()
    ensures durable { (c : Committer) (f : ℕ → Word) (v w : ℕ) → VersionShows c f v w → (f VERSION_AT).durable ≡ v }
    ensures reads { (c : Committer) (f : ℕ → Word) (v w : ℕ) → VersionShows c f v w → (f VERSION_AT).cached ≡ w }
    ensures calm { (c : Committer) (f g : ℕ → Word) (v w : ℕ) → CalmIn owners.Version f g
        → VersionShows c f v w → VersionShows c g v w ⊎ VersionShows c g w w }
    ensures left { (c : Committer) (f : ℕ → Word) (left : ℕ → ℕ) (v w : ℕ) → LeftIn owners.Version f left
        → VersionShows c f v w → (left VERSION_AT ≡ v) ⊎ (left VERSION_AT ≡ w) }
{}

/// The same of the format word.
pub fn format_word()
    ensures durable { (c : Committer) (f : ℕ → Word) (was reads : ℕ) → FormatShows c f was reads
        → (f FORMAT_AT).durable ≡ was }
    ensures reads { (c : Committer) (f : ℕ → Word) (was reads : ℕ) → FormatShows c f was reads
        → (f FORMAT_AT).cached ≡ reads }
    ensures calm { (c : Committer) (f g : ℕ → Word) (was reads : ℕ) → CalmIn owners.Format f g
        → FormatShows c f was reads → FormatShows c g was reads ⊎ FormatShows c g reads reads }
    ensures left { (c : Committer) (f : ℕ → Word) (left : ℕ → ℕ) (was reads : ℕ) → LeftIn owners.Format f left
        → FormatShows c f was reads → (left FORMAT_AT ≡ was) ⊎ (left FORMAT_AT ≡ reads) }
{}

/// Before a commit begins, through all its steps and behind it the committed version is the old one or the new one, and
/// the new one stays.
pub fn commit()
    ensures durable { (c : Committer) (f : ℕ → Word) (v w : ℕ) → IsBetween c f v w
        → ((f VERSION_AT).durable ≡ v) ⊎ ((f VERSION_AT).durable ≡ w) }
    ensures stays { (c : Committer) (f : ℕ → Word) (w : ℕ) → IsBetween c f w w → (f VERSION_AT).durable ≡ w }
    ensures calm { (c : Committer) (f g : ℕ → Word) (v w : ℕ) → CalmIn owners.Version f g
        → IsBetween c f v w → IsBetween c g v w }
    ensures left { (c : Committer) (f : ℕ → Word) (left : ℕ → ℕ) (v w : ℕ) → LeftIn owners.Version f left
        → IsBetween c f v w → (left VERSION_AT ≡ v) ⊎ (left VERSION_AT ≡ w) }
{}
