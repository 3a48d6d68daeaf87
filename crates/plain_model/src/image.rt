//! The limits of an image, and which images are accepted.

ghost use Rattle.std.specs.Prelude.{◌≡◌, ◌↔◌, ◌+◌, ◌*◌, ◌^◌, ◌%◌, ◌<◌, ◌≤◌, true, length, sum_by, All, AllPairs, Any};
ghost use Rattle.plain_model.specs.Initial as plain;
ghost use Rattle.plain_model.specs.Initial.{IsAccepted, IsApart, IsEntered, IsProgram, IsRegion};

use crate::initial::program_size;
use plain_state::{PAGE, includes};
use sls_base::{
    ADDRESSES, EXECUTE, FIRST_PROGRAM_OBJECT, FIRST_PROGRAM_PAGE, INSTRUCTION_BYTES, Image,
    MEMORY_PAGES, OBJECTS, OUTPUT_CHANNELS, PAGE_BYTES, PAGES, Program, REGION_RIGHTS, RegionSpec,
};

/// The programs of an image.
pub const PROGRAMS: usize = 16;
/// The threads of a program.
pub const PROGRAM_THREADS: u8 = 8;
/// The regions of a program.
pub const PROGRAM_REGIONS: usize = 16;

/// The address behind a region.
fn end_of(spec: &RegionSpec) -> u64
    ensures { result ≡ spec.now.base + PAGE_BYTES * spec.now.pages }
{
    u64::from(spec.base) + PAGE * u64::from(spec.pages)
}

fn is_region(spec: &RegionSpec) -> bool
    ensures { (result ≡ true) ↔ IsRegion spec.now }
{
    u64::from(spec.base) % PAGE == 0
        && 1 <= spec.pages
        && usize::from(spec.pages) <= MEMORY_PAGES
        && end_of(spec) <= ADDRESSES
        && 1 <= spec.rights
        && spec.rights <= REGION_RIGHTS
        && spec.content.len() <= PAGE_BYTES * usize::from(spec.pages)
}

/// Whether two regions have no address in common.
fn is_apart(a: &RegionSpec, b: &RegionSpec) -> bool
    ensures { (result ≡ true) ↔ IsApart a.now b.now }
{
    end_of(a) <= u64::from(b.base) || end_of(b) <= u64::from(a.base)
}

/// Whether a region has no address in common with any of the others.
fn is_apart_from_all(spec: &RegionSpec, others: &[RegionSpec]) -> bool
    ensures { (result ≡ true) ↔ All (IsApart spec.now) others.now }
{
    others.iter().all(|other| is_apart(spec, other))
}

/// Whether no two regions have an address in common.
fn are_apart(specs: &[RegionSpec]) -> bool
    ensures { (result ≡ true) ↔ AllPairs IsApart specs.now }
{
    match specs {
        [] => true,
        [spec, others @ ..] => is_apart_from_all(spec, others) && are_apart(others),
    }
}

fn are_regions(specs: &[RegionSpec]) -> bool
    ensures { (result ≡ true) ↔ All IsRegion specs.now }
{
    specs.iter().all(is_region)
}

/// Whether a program may begin in a region.
fn is_entered(program: &Program, spec: &RegionSpec) -> bool
    ensures { (result ≡ true) ↔ IsEntered program.now spec.now }
{
    includes(u32::from(spec.rights), u32::from(EXECUTE))
        && spec.base <= program.entry
        && u64::from(program.entry) < end_of(spec)
}

/// Whether a program may begin in one of its regions.
fn has_entry(program: &Program) -> bool
    ensures { (result ≡ true) ↔ Any (IsEntered program.now) program.now.regions.items }
{
    program.regions.iter().any(|spec| is_entered(program, spec))
}

/// Whether a program's numbers are within the limits.
fn is_within_limits(program: &Program) -> bool
    ensures { (result ≡ true) ↔ ((1 ≤ program.now.threads) × (program.now.threads ≤ PROGRAM_THREADS)
        × (1 ≤ length program.now.regions.items) × (length program.now.regions.items ≤ PROGRAM_REGIONS)
        × (program.now.channels < 2 ^ (OUTPUT_CHANNELS + 2)) × (program.now.entry % INSTRUCTION_BYTES ≡ 0)) }
{
    1 <= program.threads
        && program.threads <= PROGRAM_THREADS
        && 1 <= program.regions.len()
        && program.regions.len() <= PROGRAM_REGIONS
        && u32::from(program.channels) < 1 << (OUTPUT_CHANNELS + 2)
        && program.entry % INSTRUCTION_BYTES == 0
}

fn is_program(program: &Program) -> bool
    ensures { (result ≡ true) ↔ IsProgram program.now }
{
    let regions = program.regions.as_slice();
    is_within_limits(program) && are_regions(regions) && are_apart(regions) && has_entry(program)
}

/// Whether programs are some and not too many, each within the limits.
fn are_programs(programs: &[Program]) -> bool
    ensures { (result ≡ true) ↔
        ((1 ≤ length programs.now) × (length programs.now ≤ PROGRAMS) × All IsProgram programs.now) }
{
    1 <= programs.len() && programs.len() <= PROGRAMS && programs.iter().all(is_program)
}

/// The numbers of objects that programs have.
fn objects_of(programs: &[Program]) -> usize
    requires count { length programs.now ≤ PROGRAMS }
    requires programs { All IsProgram programs.now }
    ensures objects { result ≡ sum_by plain.program_size programs.now }
    ensures few { result ≤ 255 * length programs.now }
{
    let mut objects = 0;
    for program in programs {
        objects += usize::from(program_size(program));
    }
    objects
}

/// The pages that regions have.
fn pages_in(specs: &[RegionSpec]) -> usize
    requires { length specs.now ≤ PROGRAM_REGIONS }
    ensures pages { result ≡ sum_by plain.pages_taken specs.now }
    ensures few { result ≤ 255 * length specs.now }
{
    let mut pages = 0;
    for spec in specs {
        pages += usize::from(spec.pages);
    }
    pages
}

/// The pages that programs have.
fn pages_of(programs: &[Program]) -> usize
    requires count { length programs.now ≤ PROGRAMS }
    requires programs { All IsProgram programs.now }
    ensures pages { result ≡ sum_by plain.program_pages programs.now }
    ensures few { result ≤ 4080 * length programs.now }
{
    let mut pages = 0;
    for program in programs {
        pages += pages_in(program.regions.as_slice());
    }
    pages
}

/// Whether there are numbers for all objects and pages of programs.
fn has_numbers(programs: &[Program]) -> bool
    requires count { length programs.now ≤ PROGRAMS }
    requires programs { All IsProgram programs.now }
    ensures { (result ≡ true) ↔ ((FIRST_PROGRAM_OBJECT + sum_by plain.program_size programs.now ≤ OBJECTS)
        × (FIRST_PROGRAM_PAGE + sum_by plain.program_pages programs.now ≤ PAGES)) }
{
    usize::from(FIRST_PROGRAM_OBJECT) + objects_of(programs) <= OBJECTS
        && usize::from(FIRST_PROGRAM_PAGE) + pages_of(programs) <= PAGES
}

/// Whether an image is accepted: each program has its threads and regions within the limits, regions that are whole pages with
/// rights and don't meet, and an entry from which it may fetch; and there are numbers for all objects and pages.
pub fn is_accepted(image: &Image) -> bool
    ensures { (result ≡ true) ↔ IsAccepted image.now }
{
    let programs = image.programs.as_slice();
    are_programs(programs) && has_numbers(programs)
}
