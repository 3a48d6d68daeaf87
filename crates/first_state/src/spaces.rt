//! The spaces that a machine begins with.

ghost use Rattle.std.specs.Prelude.{◌≡◌, ◌+◌, ◌<◌, ◌≤◌, All, AllPairs, length, map};
ghost use Rattle.sls_base.specs.declared.limits.TheConstants.{OBJECTS};
ghost use Rattle.mem_space.specs.Region.{IsRegion};
ghost use Rattle.mem_space.specs.Space.{IsSpace};
ghost use Rattle.plain_model.specs.Initial as plain;
ghost use Rattle.kobj_table.specs.Slots.{region_of};

use mem_space::{Region, Space};
use plain_model::PROGRAM_REGIONS;
use sls_base::{ObjId, PAGE_BYTES, RegionSpec};

/// A region over a memory object, from its first page on.
fn region_over(spec: &RegionSpec, memory: ObjId) -> Region
    ensures { region_of result ≡ plain.region_over spec.now memory }
{
    Region {
        base: spec.base / PAGE_BYTES as u32,
        count: spec.pages,
        first: 0,
        memory,
        rights: spec.rights,
    }
}

/// The space of regions over the memory objects from `n` on.
pub fn space_over(specs: &[RegionSpec], n: ObjId) -> Space
    requires count { length specs.now ≤ PROGRAM_REGIONS }
    requires regions { All plain.IsRegion specs.now }
    requires apart { AllPairs plain.IsApart specs.now }
    requires room { n + length specs.now ≤ OBJECTS }
    ensures { map region_of result.regions.items ≡ plain.program_regions specs.now n }
{
    let mut space = Space::new();
    for i in (0..specs.len()).rev() {
        space.map(region_over(&specs[i], n + i as u8));
    }
    space
}
