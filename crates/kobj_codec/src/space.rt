//! The record of a space.

ghost use Rattle.std.specs.Prelude.{◌≡◌, ◌+◌, ◌<◌, ◌↔◌, IsTrue, IfSome, ℕ, Option, Some, slice_index};
ghost use Rattle.mem_space.specs.declared.region.Region.{Region};
ghost use Rattle.mem_space.specs.declared.space.Space.{Space};
ghost use Rattle.mem_space.specs.Region.{IsRegion};
ghost use Rattle.kobj_codec.specs.declared.obj.Obj.TheVariants as objs;
ghost use Rattle.kobj_codec.specs.Objects.{IsSpaceRec};
ghost use Rattle.kobj_codec.specs.Records as records;
ghost use Rattle.kobj_codec.specs.Records.{IsRecord};

use arrayvec::ArrayVec;
use mem_space::{PageIndex, Region, Space};
use pmem_layout::{SLOT_WORDS, bits};
use sls_base::{ADDRESS_PAGES, MEMORY_PAGES, OBJECTS, REGION_RIGHTS, SPACE_REGIONS};

/// The bits of a region's first page of addresses.
pub const PAGE_BITS: u32 = 20;
/// The bits of the number of its pages.
pub const COUNT_BITS: u32 = 7;
/// The bits of the index of its first page in the memory object.
pub const FIRST_BITS: u32 = 6;
/// The bits of the memory object.
pub const MEMORY_BITS: u32 = 7;
/// The bits of its rights.
pub const RIGHTS_BITS: u32 = 3;
/// The bits between these and the last one, which tells a region from nothing.
pub const UNNAMED_BITS: u32 = SET_AT - RIGHTS_AT - RIGHTS_BITS;

const COUNT_AT: u32 = PAGE_BITS;

const FIRST_AT: u32 = COUNT_AT + COUNT_BITS;

const MEMORY_AT: u32 = FIRST_AT + FIRST_BITS;

const RIGHTS_AT: u32 = MEMORY_AT + MEMORY_BITS;

const SET_AT: u32 = 63;

/// Whether a space has a record.
pub fn is_space(space: &Space) -> bool
    ensures { IsTrue result ↔ IsSpaceRec space.now }
{
    let mut end = 0;
    for region in space.regions.iter() {
        if !is_region(region) || region.base < end {
            return false;
        }
        end = region.base + u32::from(region.count);
    }
    true
}

fn is_region(region: &Region) -> bool
    ensures { IsTrue result ↔ IsRegion region.now }
{
    let count = u32::from(region.count);
    count >= 1
        && count <= ADDRESS_PAGES
        && region.base <= ADDRESS_PAGES - count
        && usize::from(region.first) + usize::from(region.count) <= MEMORY_PAGES
        && usize::from(region.memory) < OBJECTS
        && region.rights >= 1
        && region.rights <= REGION_RIGHTS
}

/// Word i + 1 of a space's record.
pub fn space_word(space: &Space, i: usize) -> u64
    requires { IsSpaceRec space.now }
    ensures { result ≡ records.word_behind (objs.Space space.now) i }
{
    space.regions.get(i).map_or(0, region_word)
}

fn region_word(region: &Region) -> u64
    requires { IsRegion region.now }
    ensures { result ≡ records.region_word (Some region.now) }
{
    u64::from(region.base)
        | u64::from(region.count) << COUNT_AT
        | u64::from(region.first) << FIRST_AT
        | u64::from(region.memory) << MEMORY_AT
        | u64::from(region.rights) << RIGHTS_AT
        | 1 << SET_AT
}

/// What a word tells of a region.
fn region_of(word: u64) -> Option<Region>
    ensures { (region : Option Region) → IfSome region IsRegion → word ≡ records.region_word region
        → result ≡ region }
{
    if word == 0 {
        return None;
    }
    Some(Region {
        base: bits(word, 0, PAGE_BITS) as u32,
        count: bits(word, COUNT_AT, COUNT_BITS) as PageIndex,
        first: bits(word, FIRST_AT, FIRST_BITS) as PageIndex,
        memory: bits(word, MEMORY_AT, MEMORY_BITS) as u8,
        rights: bits(word, RIGHTS_AT, RIGHTS_BITS) as u8,
    })
}

/// The space of a record.
pub fn read_space(words: &[u64; SLOT_WORDS]) -> Space
    ensures { (space : Space) → IsSpaceRec space → IsRecord (slice_index words.now) (objs.Space space)
        → result ≡ space }
{
    let mut regions = ArrayVec::new();
    for i in 0..SPACE_REGIONS {
        match region_of(words[i + 1]) {
            Some(region) => regions.push(region),
            None => return Space { regions },
        }
    }
    Space { regions }
}
