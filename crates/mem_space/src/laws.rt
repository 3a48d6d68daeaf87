//! Laws. Each of these functions does nothing: its contract is the law.

ghost use Rattle.std.specs.Prelude.{◌≡◌, ◌↔◌, ℕ, ◌+◌, ◌≤◌, ◌&&◌, nat_lt, false, Contains, IsTrue, Some};
ghost use Rattle.sls_base.specs.Rights.{HasRights};
ghost use Rattle.mem_space.specs.declared.region.Region.{Region};
ghost use Rattle.mem_space.specs.declared.space.Space.{Space};
ghost use Rattle.mem_space.specs.Region.{HasPage, Covers, SharesPages, covers_with, shares_pages};
ghost use Rattle.mem_space.specs.Space.{IsSpace, TranslatesTo, translation};

/// A space has one region at most that has a page, so an address translates to one place at most: to that in the first
/// region that fits.
pub fn one_region()
    ensures region { (space : Space) (page : ℕ) (a b : Region) → IsSpace space
        → Contains space.regions.items a → Contains space.regions.items b
        → HasPage a page → HasPage b page → a ≡ b }
    ensures place { (space : Space) (at right object index object' index' : ℕ) → IsSpace space
        → TranslatesTo space at right object index → TranslatesTo space at right object' index'
        → (object ≡ object') × (index ≡ index') }
    ensures first { (space : Space) (at right object index : ℕ) → IsSpace space
        → (translation space.regions.items at right ≡ Some (object, index)) ↔ TranslatesTo space at right object index }
{}

/// What the tests on a region say.
pub fn region_tests()
    ensures covers { (region : Region) (at right : ℕ)
        → IsTrue (covers_with at right region) ↔ (Covers region at × HasRights region.rights right) }
    ensures shares { (region : Region) (base count : ℕ)
        → IsTrue (shares_pages base count region) ↔ SharesPages region base count }
    ensures by_ends { (region : Region) (base count : ℕ) → 1 ≤ region.count → 1 ≤ count → shares_pages base count region
        ≡ (nat_lt base (region.base + region.count) && nat_lt region.base (base + count)) }
    ensures no_page { (region : Region) (base : ℕ) → shares_pages base 0 region ≡ false }
{}
