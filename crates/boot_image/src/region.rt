//! Regions in bytes.

ghost use Rattle.std.specs.Prelude.{◌≡◌, ◌+◌, ◌*◌, ◌≤◌, ◌<◌, ◌^◌, ◌==◌, ℕ, List, [], length, map, take, drop, IfOk};
ghost use Rattle.std.specs.List.{list_all};
ghost use Rattle.boot_image.specs.Spelling as spelling;
ghost use Rattle.boot_image.specs.Values.{RegionValue, region_value, word_at, region_at, region_size, regions_at};
ghost use Rattle.boot_image.specs.Values.{regions_size, pages_of};
ghost use Rattle.boot_image.specs.Rules.{Gives};
ghost use Rattle.boot_image.specs.Regions.{base_fault, pages_fault, rights_fault, length_fault, content_fault};
ghost use Rattle.boot_image.specs.Regions.{is_apart_from, region_fault, regions_fault};

use crate::fault::{ImageCause, ImageError, bad};
use crate::field::number_at;
use crate::format::{IMAGE_BYTES, REGION_HEADER_BYTES, WORD_BYTES};
use sls_base::{ADDRESSES, MEMORY_PAGES, PAGE_BYTES, PAGES, REGION_RIGHTS, RegionSpec};
use std::alloc::Global;

/// The bytes of a page.
const PAGE: u64 = PAGE_BYTES as u64;

/// The places of a region's fields, from its first byte on.
const BASE: usize = 0;

const REGION_PAGES: usize = 4;

const RIGHTS: usize = 8;

const LENGTH: usize = 12;

/// The base of a region.
#[tactic(auto, unfolding(crate::specs::Regions::base_fault))]
fn base_of(bytes: &[u8], at: usize) -> Result<u32, ImageError>
    requires { at ≤ IMAGE_BYTES }
    ensures number { Gives (λ n. n) result (base_fault at bytes.now) (word_at 0 bytes.now) }
{
    let base = number_at(bytes, BASE, at)?;
    if u64::from(base) % PAGE != 0 {
        return Err(bad(ImageCause::Region, at));
    }
    Ok(base)
}

/// The pages of a region with this base, behind pages of the image.
#[tactic(auto, unfolding(crate::specs::Regions::pages_fault))]
fn region_pages(bytes: &[u8], at: usize, pages: usize, base: u32) -> Result<u8, ImageError>
    requires place { at ≤ IMAGE_BYTES }
    requires pages { pages ≤ PAGES }
    requires base { base ≡ word_at 0 bytes.now }
    ensures number { Gives (λ n. n) result (pages_fault at pages bytes.now) (word_at 4 bytes.now) }
    ensures few { IfOk result (λ n. pages + n ≤ PAGES) }
{
    let count = number_at(bytes, REGION_PAGES, at)?;
    if !(1 <= count && count as usize <= MEMORY_PAGES) {
        return Err(bad(ImageCause::Region, at + REGION_PAGES));
    }
    if u64::from(base) + PAGE * u64::from(count) > ADDRESSES {
        return Err(bad(ImageCause::Region, at + REGION_PAGES));
    }
    if pages + count as usize > PAGES {
        return Err(bad(ImageCause::Count, at + REGION_PAGES));
    }
    Ok(count as u8)
}

/// The rights of a region.
#[tactic(auto, unfolding(crate::specs::Regions::rights_fault))]
fn rights_of(bytes: &[u8], at: usize) -> Result<u8, ImageError>
    requires { at ≤ IMAGE_BYTES }
    ensures number { Gives (λ n. n) result (rights_fault at bytes.now) (word_at 8 bytes.now) }
{
    let rights = number_at(bytes, RIGHTS, at)?;
    if !(1 <= rights && rights <= u32::from(REGION_RIGHTS)) {
        return Err(bad(ImageCause::Region, at + RIGHTS));
    }
    Ok(rights as u8)
}

/// The length of the content of a region with some pages.
#[tactic(auto, unfolding(crate::specs::Regions::length_fault))]
fn length_of(bytes: &[u8], at: usize, pages: u8) -> Result<usize, ImageError>
    requires place { at ≤ IMAGE_BYTES }
    requires pages { pages ≡ word_at 4 bytes.now }
    ensures number { Gives (λ n. n) result (length_fault at bytes.now) (word_at 12 bytes.now) }
    ensures short { IfOk result (λ n. n ≤ PAGE_BYTES * pages) }
    ensures whole { IfOk result (λ n. REGION_HEADER_BYTES ≤ length bytes.now) }
{
    let length = number_at(bytes, LENGTH, at)? as usize;
    if length > PAGE_BYTES * usize::from(pages) {
        return Err(bad(ImageCause::Region, at + LENGTH));
    }
    Ok(length)
}

/// How many bytes content of so many takes: a multiple of 4.
pub fn padded(count: usize) -> usize
    requires { count < 2 ^ 32 }
    ensures whole { result ≡ spelling.padded count }
    ensures longer { count ≤ result }
    ensures little_longer { result ≤ count + 3 }
{
    (count + 3) / WORD_BYTES * WORD_BYTES
}

fn are_zero(bytes: &[u8]) -> bool
    ensures { result ≡ list_all (λ byte. byte == 0) bytes.now }
{
    bytes.iter().all(|byte| *byte == 0)
}

/// The content of a region, of a length that was read.
#[tactic(auto, unfolding(crate::specs::Regions::content_fault, crate::specs::Values::region_size))]
fn content_of(alloc: Global, bytes: &[u8], at: usize, count: usize) -> Result<Vec<u8>, ImageError>
    requires place { at ≤ IMAGE_BYTES }
    requires header { REGION_HEADER_BYTES ≤ length bytes.now }
    requires count { count ≡ word_at 12 bytes.now }
    requires short { count < 2 ^ 32 }
    ensures read { Gives (λ content. content.items) result (content_fault at bytes.now)
        (take (word_at 12 bytes.now) (drop REGION_HEADER_BYTES bytes.now)) }
    ensures whole { IfOk result (λ content. region_size bytes.now ≤ length bytes.now) }
{
    let rest = &bytes[REGION_HEADER_BYTES..];
    let end = padded(count);
    if rest.len() < end || !are_zero(&rest[count..end]) {
        return Err(bad(ImageCause::Length, at + REGION_HEADER_BYTES));
    }
    Ok(Vec::from_slice(alloc, &rest[..count])?)
}

/// The address behind a region.
pub fn end_of(spec: &RegionSpec) -> u64
    ensures { result ≡ spec.now.base + PAGE_BYTES * spec.now.pages }
{
    u64::from(spec.base) + PAGE * u64::from(spec.pages)
}

/// Whether pages from an address on have no address in common with a region.
fn is_apart_from(base: u32, pages: u8, other: &RegionSpec) -> bool
    ensures { result ≡ is_apart_from base pages (region_value other.now) }
{
    let end = u64::from(base) + PAGE * u64::from(pages);
    end <= u64::from(other.base) || end_of(other) <= u64::from(base)
}

/// Whether they have none with any of these.
fn is_apart_from_all(base: u32, pages: u8, others: &[RegionSpec]) -> bool
    ensures { result ≡ list_all (is_apart_from base pages) (map region_value others.now) }
{
    match others {
        [] => true,
        [other, others @ ..] => is_apart_from(base, pages, other)
            && is_apart_from_all(base, pages, others),
    }
}

/// A region behind others of its program and behind pages of the image, and the bytes that it takes.
#[tactic(auto, unfolding(crate::specs::Regions::region_fault, crate::specs::Values::region_at, crate::specs::Values::region_size))]
fn region_of(
    alloc: Global,
    bytes: &[u8],
    at: usize,
    earlier: &[RegionSpec],
    pages: usize,
) -> Result<(RegionSpec, usize), ImageError>
    requires place { at ≤ IMAGE_BYTES }
    requires pages { pages ≤ PAGES }
    ensures read { Gives {Y = RegionValue × ℕ} (λ x. (region_value x.0, x.1)) result
        (region_fault at (map region_value earlier.now) pages bytes.now) (region_at bytes.now, region_size bytes.now) }
    ensures few { IfOk result (λ x. pages + x.0.pages ≤ PAGES) }
    ensures whole { IfOk result (λ x. x.1 ≤ length bytes.now) }
{
    let base = base_of(bytes, at)?;
    let count = region_pages(bytes, at, pages, base)?;
    let rights = rights_of(bytes, at)?;
    let length = length_of(bytes, at, count)?;
    if !is_apart_from_all(base, count, earlier) {
        return Err(bad(ImageCause::Region, at));
    }
    let content = content_of(alloc, bytes, at, length)?;
    let spec = RegionSpec {
        base,
        pages: count,
        rights,
        content,
    };
    Ok((spec, REGION_HEADER_BYTES + padded(length)))
}

/// Regions of a program, the bytes that they take, and the pages of the image up to their end.
#[derive(Drop)]
pub struct Regions {
    pub specs: Vec<RegionSpec>,
    pub size: usize,
    pub pages: usize,
}

/// The regions of a program.
pub fn regions_of(
    alloc: Global,
    count: u32,
    bytes: &[u8],
    at: usize,
    pages: usize,
) -> Result<Regions, ImageError>
    requires place { at + length bytes.now ≤ IMAGE_BYTES }
    requires pages { pages ≤ PAGES }
    ensures read { Gives {Y = List RegionValue × ℕ} (λ r. (map region_value r.specs.items, r.size)) result
        (regions_fault count at [] pages bytes.now) (regions_at count bytes.now, regions_size count bytes.now) }
    ensures pages { IfOk result (λ r. r.pages ≡ pages + pages_of (regions_at count bytes.now)) }
    ensures few { IfOk result (λ r. r.pages ≤ PAGES) }
    ensures whole { IfOk result (λ r. r.size ≤ length bytes.now) }
{
    let mut specs = Vec::new(alloc);
    let mut size = 0;
    let mut taken = pages;
    for _ in 0..count {
        let (spec, length) = region_of(alloc, &bytes[size..], at + size, &specs, taken)?;
        size += length;
        taken += usize::from(spec.pages);
        specs.push(spec)?;
    }
    Ok(Regions {
        specs,
        size,
        pages: taken,
    })
}
