//! What a thread's space has at which addresses.

ghost use Rattle.std.specs.Prelude.{◌≡◌, ◌≤◌, ◌*◌, ◌==◌, ℕ, find, length, option_map};
ghost use Rattle.std.specs.List.{list_any};
ghost use Rattle.sls_base.specs.declared.limits.TheConstants.{PAGE_BYTES};
ghost use Rattle.plain_model.specs.Objects as plain_objects;
ghost use Rattle.plain_model.specs.Memory as memory;
ghost use Rattle.plain_model.specs.CallRefusals as plain;
ghost use Rattle.kobj_table.specs.Slots.{region_of};
ghost use Rattle.kobj_table.specs.Objects.{object_at};

use kobj_table::{Objects, Slot};
use mem_space::Region;
use plain_model::{covers, meets};
use sls_base::{ObjId, PAGE_BYTES};

/// The region as the plain machine has it.
fn plain_region(region: &Region) -> plain_model::Region
    ensures { result ≡ region_of region.now }
{
    plain_model::Region {
        base: region.base,
        count: u32::from(region.count),
        first: u32::from(region.first),
        memory: region.memory,
        rights: u32::from(region.rights),
    }
}

/// The first region of a space that covers an address with a right. It is None exactly where there is none.
pub fn region_at(objects: &Objects, space: ObjId, right: u8, at: u64) -> Option<Region>
    ensures { (content : ℕ → ℕ → ℕ) → option_map region_of result
        ≡ find (memory.covers right at) (plain_objects.regions_of (object_at content objects.now space)) }
{
    match objects.slot(space) {
        Some(Slot::Space(space)) => space
            .regions
            .iter()
            .find(|region| covers(&plain_region(region), u32::from(right), at))
            .copied(),
        _ => None,
    }
}

/// Whether each of so many bytes from an address on, at most a page's, is in a region of a space with a right.
pub fn is_covered(objects: &Objects, space: ObjId, right: u8, at: u32, count: u32) -> bool
    requires { count ≤ PAGE_BYTES }
    ensures { (content : ℕ → ℕ → ℕ) → result
        ≡ memory.is_covered (plain_objects.regions_of (object_at content objects.now space)) right at count }
{
    if count == 0 {
        return true;
    }
    let first = u64::from(at);
    let last = first + u64::from(count - 1);
    region_at(objects, space, right, first).is_some()
        && region_at(objects, space, right, last).is_some()
}

/// Whether a region of a space has one of so many pages of addresses from one on.
pub fn overlaps(objects: &Objects, space: ObjId, base: u32, count: u32) -> bool
    ensures { (content : ℕ → ℕ → ℕ) → result
        ≡ list_any (plain.meets base count) (plain_objects.regions_of (object_at content objects.now space)) }
{
    match objects.slot(space) {
        Some(Slot::Space(space)) => space
            .regions
            .iter()
            .any(|region| meets(base, count, &plain_region(region))),
        _ => false,
    }
}

/// Whether a region of a space begins at an address.
pub fn has_region_from(objects: &Objects, space: ObjId, at: u32) -> bool
    ensures { (content : ℕ → ℕ → ℕ) → result ≡ list_any (λ region. PAGE_BYTES * region.base == at)
        (plain_objects.regions_of (object_at content objects.now space)) }
{
    match objects.slot(space) {
        Some(Slot::Space(space)) => space.regions.iter().any(|region| PAGE_BYTES as u64
            * u64::from(region.base)
            == u64::from(at)),
        _ => false,
    }
}

/// How many regions a space has.
pub fn region_count(objects: &Objects, space: ObjId) -> usize
    ensures { (content : ℕ → ℕ → ℕ) → result
        ≡ length (plain_objects.regions_of (object_at content objects.now space)) }
{
    match objects.slot(space) {
        Some(Slot::Space(space)) => space.regions.len(),
        _ => 0,
    }
}
