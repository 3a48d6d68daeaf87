//! The memory that a thread sees, through the regions of its space.

ghost use Rattle.std.specs.Prelude.{◌≡◌, ◌<◌, ◌≤◌, ◌/◌, IfOk, IfSome, All, length};
ghost use Rattle.sls_base.specs.declared.limits.TheConstants.{PAGE_BYTES};
ghost use Rattle.plain_state.specs.Memory as plain;
ghost use Rattle.plain_state.specs.InPages.{IsInPage, StoresInPage};

use crate::effect::{ByteStore, Place};
use crate::object::includes;
use crate::objects::Region;
use crate::page::PAGE;
use sls_base::PAGE_BYTES;
use std::alloc::{AllocError, Global};

/// Whether a region covers an address with a right.
pub fn covers(region: &Region, right: u32, at: u64) -> bool
    ensures { result ≡ plain.covers right at region.now }
{
    let page = at / PAGE;
    includes(region.rights, right)
        && u64::from(region.base) <= page
        && page < u64::from(region.base) + u64::from(region.count)
}

/// Where the byte at an address stands that a region covers.
fn place_in(region: Region, at: u64) -> Place
    requires { region.base ≤ at / PAGE_BYTES }
    ensures place { result ≡ plain.place_in at region }
    ensures in_page { result.offset < PAGE_BYTES }
{
    let index = at / PAGE - u64::from(region.base);
    Place {
        memory: region.memory,
        page: u64::from(region.first) + index,
        offset: (at % PAGE) as u32,
    }
}

/// Where the byte at an address stands, for a right.
pub fn place_of(regions: &[Region], right: u32, at: u64) -> Option<Place>
    ensures place { result ≡ plain.place_of regions.now right at }
    ensures in_page { IfSome result (λ place. place.offset < PAGE_BYTES) }
{
    let region = regions.iter().find(|region| covers(region, right, at))?;
    Some(place_in(*region, at))
}

/// Whether each of so many bytes from an address on has a place.
pub fn is_covered(regions: &[Region], right: u32, at: u32, count: u32) -> bool
    ensures { result ≡ plain.is_covered regions.now right at count }
{
    (u64::from(at)..u64::from(at) + u64::from(count)).all(|address| place_of(
        regions, right, address,
    ).is_some())
}

/// The places of so many bytes from an address on.
pub fn places_of(
    alloc: Global,
    regions: &[Region],
    right: u32,
    at: u32,
    count: u32,
) -> Result<Vec<Place>, AllocError>
    ensures places { IfOk result (λ places. places.items ≡ plain.places_of regions.now right at count) }
    ensures count { IfOk result (λ places. length places.items ≤ count) }
    ensures in_pages { IfOk result (λ places. All IsInPage places.items) }
{
    let mut places = Vec::new(alloc);
    for address in u64::from(at)..u64::from(at) + u64::from(count) {
        if let Some(place) = place_of(regions, right, address) {
            places.push(place)?;
        }
    }
    Ok(places)
}

/// Bytes for places.
pub fn stores_at(
    alloc: Global,
    places: &[Place],
    values: &[u8],
) -> Result<Vec<ByteStore>, AllocError>
    requires { All IsInPage places.now }
    ensures stores { IfOk result (λ stores. stores.items ≡ plain.stores_at places.now values.now) }
    ensures in_pages { IfOk result (λ stores. All StoresInPage stores.items) }
{
    let mut stores = Vec::new(alloc);
    for (place, value) in places.iter().zip(values) {
        stores.push(ByteStore {
            place: *place,
            value: *value,
        })?;
    }
    Ok(stores)
}
