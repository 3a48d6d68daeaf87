//! Spaces.

ghost use Rattle.std.specs.Prelude.{◌≡◌, ◌≢◌, ℕ, ◌*◌, ◌==◌, ◌<◌, ◌≤◌, ◌↔◌, ◌⊎◌, false, IsTrue, IfSome, [], Any, Contains, find};
ghost use Rattle.std.specs.List.{list_any};
ghost use Rattle.sls_base.specs.declared.limits.TheConstants.{MEMORY_PAGES, OBJECTS, PAGE_BYTES};
ghost use Rattle.arrayvec.specs.ArrayVec.{array_vec_len};
ghost use Rattle.mem_space.specs.Region.{IsRegion, covers_with, shares_pages};

use crate::{PageIndex, Region};
use arrayvec::ArrayVec;
use sls_base::{ObjId, PAGE_BYTES, SPACE_REGIONS};

/// A space: the regions that a program can reach, by rising base, no two with a page in common.
#[derive(Drop)]
pub struct Space {
    pub regions: ArrayVec<Region, SPACE_REGIONS>,
}

impl Space {
    ghost use Rattle.mem_space.specs.declared.region.Region.{Region};
    ghost use Rattle.mem_space.specs.Space.{IsSpace, Overlaps, TranslatesTo, translation, with_region, inserted, without_base};

    /// A space without regions.
    pub fn new() -> Space
        ensures regions { result.regions.items ≡ [] }
        ensures space { IsSpace result }
    {
        Space {
            regions: ArrayVec::new(),
        }
    }

    /// Whether there is no room for a region more.
    pub fn is_full(&self) -> bool
        ensures full { IsTrue result ↔ (array_vec_len self.now.regions ≡ SPACE_REGIONS) }
        ensures fits { array_vec_len self.now.regions ≤ SPACE_REGIONS }
    {
        self.regions.is_full()
    }

    /// The memory object and the index of its page at a byte address, of the region that covers the address and has
    /// every one of these rights. It is None exactly where there is no such region.
    pub fn translate(&self, at: u32, right: u8) -> Option<(ObjId, PageIndex)>
        requires { IsSpace self.now }
        ensures found { IfSome result (λ place. TranslatesTo self.now at right place.0 place.1) }
        ensures only { (object index : ℕ) → TranslatesTo self.now at right object index
            → result ≡ Some (object, index) }
        ensures first_region { result ≡ translation self.now.regions.items at right }
        ensures known_memory { IfSome result (λ place. place.0 < OBJECTS) }
        ensures in_memory { IfSome result (λ place. place.1 < MEMORY_PAGES) }
    {
        let region = self.covering(at, right)?;
        let page = at / PAGE_BYTES as u32;
        let index = region.first + (page - region.base) as PageIndex;
        Some((region.memory, index))
    }

    /// The first region that covers a byte address and has every one of these rights.
    fn covering(&self, at: u32, right: u8) -> Option<Region>
        ensures { result ≡ find (covers_with at right) self.now.regions.items }
    {
        for region in self.regions.iter() {
            if region.covers_with(at, right) {
                return Some(*region);
            }
        }
        None
    }

    /// Whether a region has one of the `count` pages of addresses from page `base` on.
    pub fn overlaps(&self, base: u32, count: PageIndex) -> bool
        ensures pages { IsTrue result ↔ Overlaps self.now base count }
        ensures by_test { result ≡ list_any (shares_pages base count) self.now.regions.items }
    {
        for region in self.regions.iter() {
            if region.shares_pages(base, count) {
                return true;
            }
        }
        false
    }

    /// Whether a region begins at a byte address.
    pub fn begins_at(&self, at: u32) -> bool
        ensures { result ≡ list_any (λ region. PAGE_BYTES * region.base == at) self.now.regions.items }
    {
        self.regions.iter().any(|region| PAGE_BYTES as u64 * u64::from(region.base)
            == u64::from(at))
    }

    /// Adds a region.
    pub fn map(&mut self, region: Region)
        requires space { IsSpace self.old }
        requires region { IsRegion region }
        requires apart { ¬ Overlaps self.old region.base region.count }
        requires room { array_vec_len self.old.regions < SPACE_REGIONS }
        ensures regions { self.new.regions.items ≡ with_region self.old.regions.items region }
        ensures by_place { self.new.regions.items ≡ inserted region self.old.regions.items }
        ensures members { (other : Region) → Contains self.new.regions.items other
            ↔ (Contains self.old.regions.items other ⊎ (other ≡ region)) }
        ensures space { IsSpace self.new }
    {
        let place = self
            .regions
            .partition_point(|mapped| mapped.base < region.base);
        self.regions.insert(place, region);
    }

    /// Takes away the region that begins at a page, and says whether there was one. The page is the address / 4096.
    pub fn unmap(&mut self, base: u32) -> bool
        ensures found { IsTrue result ↔ Any (λ region. region.base ≡ base) self.old.regions.items }
        ensures regions { self.new.regions.items ≡ without_base self.old.regions.items base }
        ensures members { (other : Region) → Contains self.new.regions.items other
            ↔ (Contains self.old.regions.items other × (other.base ≢ base)) }
        ensures kept { result ≡ false → self.new ≡ self.old }
        ensures space { IsSpace self.old → IsSpace self.new }
    {
        let before = self.regions.len();
        self.regions.retain(|region| region.base != base);
        self.regions.len() < before
    }
}
