//! Programs in bytes.

ghost use Rattle.std.specs.Prelude.{◌≡◌, ◌+◌, ◌≤◌, ◌==◌, ℕ, List, [], length, map, drop, IfOk};
ghost use Rattle.std.specs.List.{list_any};
ghost use Rattle.boot_image.specs.Values.{ProgramValue, region_value, program_value, word_at, program_at};
ghost use Rattle.boot_image.specs.Values.{program_size, programs_at, programs_size, pages_of, objects_of};
ghost use Rattle.boot_image.specs.Rules.{Gives, field};
ghost use Rattle.boot_image.specs.Programs.{threads_fault, channels_fault, count_fault, is_entered, may_begin};
ghost use Rattle.boot_image.specs.Programs.{program_fault, programs_fault};

use crate::fault::{ImageCause, ImageError, bad};
use crate::field::number_at;
use crate::format::{ALL_CHANNELS, IMAGE_BYTES, PROGRAM_HEADER_BYTES};
use crate::region::{Regions, end_of, regions_of};
use plain_model::{PROGRAM_REGIONS, PROGRAM_THREADS};
use sls_base::{EXECUTE, INSTRUCTION_BYTES, OBJECTS, PAGES, Program, RegionSpec, has_rights};
use std::alloc::Global;

/// The places of a program's fields, from its first byte on.
const ENTRY: usize = 0;

const THREADS: usize = 4;

const CHANNELS: usize = 8;

const REGIONS: usize = 12;

/// The objects that a program has beside its memory and its threads: its group and its space.
const OWN_OBJECTS: usize = 2;

/// The number of a program's threads.
#[tactic(auto, unfolding(crate::specs::Programs::threads_fault))]
fn threads_of(bytes: &[u8], at: usize) -> Result<u8, ImageError>
    requires { at ≤ IMAGE_BYTES }
    ensures number { Gives (λ n. n) result (threads_fault at bytes.now) (word_at 4 bytes.now) }
{
    let threads = number_at(bytes, THREADS, at)?;
    if !(1 <= threads && threads <= u32::from(PROGRAM_THREADS)) {
        return Err(bad(ImageCause::Count, at + THREADS));
    }
    Ok(threads as u8)
}

/// The channels of a program.
#[tactic(auto, unfolding(crate::specs::Programs::channels_fault))]
fn channels_of(bytes: &[u8], at: usize) -> Result<u8, ImageError>
    requires { at ≤ IMAGE_BYTES }
    ensures number { Gives (λ n. n) result (channels_fault at bytes.now) (word_at 8 bytes.now) }
{
    let channels = number_at(bytes, CHANNELS, at)?;
    if channels > u32::from(ALL_CHANNELS) {
        return Err(bad(ImageCause::Channel, at + CHANNELS));
    }
    Ok(channels as u8)
}

/// The number of regions of a program with some threads, behind objects of the image.
#[tactic(auto, unfolding(crate::specs::Programs::count_fault))]
fn count_of(bytes: &[u8], at: usize, objects: usize, threads: u8) -> Result<u32, ImageError>
    requires place { at ≤ IMAGE_BYTES }
    requires objects { objects ≤ OBJECTS }
    requires threads { threads ≡ word_at 4 bytes.now }
    ensures number { Gives (λ n. n) result (count_fault at objects bytes.now) (word_at 12 bytes.now) }
    ensures few { IfOk result (λ n. objects + (2 + n + threads) ≤ OBJECTS) }
    ensures whole { IfOk result (λ n. PROGRAM_HEADER_BYTES ≤ length bytes.now) }
{
    let count = number_at(bytes, REGIONS, at)?;
    if !(1 <= count && count as usize <= PROGRAM_REGIONS) {
        return Err(bad(ImageCause::Count, at + REGIONS));
    }
    if objects + (OWN_OBJECTS + count as usize + usize::from(threads)) > OBJECTS {
        return Err(bad(ImageCause::Count, at + REGIONS));
    }
    Ok(count)
}

/// Whether instructions may be fetched at an address, by this region.
fn is_entered(entry: u32, spec: &RegionSpec) -> bool
    ensures { result ≡ is_entered entry (region_value spec.now) }
{
    has_rights(spec.rights, EXECUTE) && spec.base <= entry && u64::from(entry) < end_of(spec)
}

/// Whether they may be by any of these.
fn is_entered_by_any(entry: u32, specs: &[RegionSpec]) -> bool
    ensures { result ≡ list_any (is_entered entry) (map region_value specs.now) }
{
    match specs {
        [] => false,
        [spec, specs @ ..] => is_entered(entry, spec) || is_entered_by_any(entry, specs),
    }
}

/// Whether a program may begin at an address.
fn may_begin(entry: u32, specs: &[RegionSpec]) -> bool
    ensures { result ≡ may_begin entry (map region_value specs.now) }
{
    entry % INSTRUCTION_BYTES == 0 && is_entered_by_any(entry, specs)
}

/// A program behind objects and pages of the image, the bytes that it takes, and the pages of the image up to its end.
#[tactic(auto, unfolding(crate::specs::Programs::program_fault, crate::specs::Values::program_at, crate::specs::Values::program_size))]
fn program_of(
    alloc: Global,
    bytes: &[u8],
    at: usize,
    objects: usize,
    pages: usize,
) -> Result<(Program, usize, usize), ImageError>
    requires place { at + length bytes.now ≤ IMAGE_BYTES }
    requires objects { objects ≤ OBJECTS }
    requires pages { pages ≤ PAGES }
    ensures read { Gives {Y = ProgramValue × ℕ} (λ x. (program_value x.0, x.1)) result
        (program_fault at objects pages bytes.now) (program_at bytes.now, program_size bytes.now) }
    ensures pages { IfOk result (λ x. x.2 ≡ pages + pages_of (program_at bytes.now).regions) }
    ensures few_pages { IfOk result (λ x. x.2 ≤ PAGES) }
    ensures few_objects { IfOk result (λ x. objects + objects_of (program_value x.0) ≤ OBJECTS) }
    ensures whole { IfOk result (λ x. x.1 ≤ length bytes.now) }
{
    let entry = number_at(bytes, ENTRY, at)?;
    let threads = threads_of(bytes, at)?;
    let channels = channels_of(bytes, at)?;
    let count = count_of(bytes, at, objects, threads)?;
    let Regions { specs, size, pages } = regions_of(
        alloc,
        count,
        &bytes[PROGRAM_HEADER_BYTES..],
        at + PROGRAM_HEADER_BYTES,
        pages,
    )?;
    if !may_begin(entry, &specs) {
        return Err(bad(ImageCause::Entry, at));
    }
    let program = Program {
        entry,
        threads,
        channels,
        regions: specs,
    };
    Ok((program, PROGRAM_HEADER_BYTES + size, pages))
}

/// The programs of an image, and the bytes that they take.
pub fn programs_of(
    alloc: Global,
    count: u32,
    bytes: &[u8],
    at: usize,
    objects: usize,
    pages: usize,
) -> Result<(Vec<Program>, usize), ImageError>
    requires place { at + length bytes.now ≤ IMAGE_BYTES }
    requires objects { objects ≤ OBJECTS }
    requires pages { pages ≤ PAGES }
    ensures read { Gives {Y = List ProgramValue × ℕ} (λ x. (map program_value x.0.items, x.1)) result
        (programs_fault count at objects pages bytes.now) (programs_at count bytes.now, programs_size count bytes.now) }
    ensures whole { IfOk result (λ x. x.1 ≤ length bytes.now) }
{
    let mut programs = Vec::new(alloc);
    let mut size = 0;
    let mut objects = objects;
    let mut pages = pages;
    for _ in 0..count {
        let (program, length, taken) = program_of(
            alloc,
            &bytes[size..],
            at + size,
            objects,
            pages,
        )?;
        size += length;
        objects += OWN_OBJECTS + program.regions.len() + usize::from(program.threads);
        pages = taken;
        programs.push(program)?;
    }
    Ok((programs, size))
}
