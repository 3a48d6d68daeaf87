//! The first kernel of an image.

ghost use Rattle.std.specs.Prelude.{◌≡◌, ◌↔◌, ◌^◌, ◌<◌, ℕ, true, All};
ghost use Rattle.sls_base.specs.declared.limits.TheConstants.{PAGES};
ghost use Rattle.sls_base.specs.declared.image.Program.{Program as ProgramRecord};
ghost use Rattle.sls_base.specs.declared.image.RegionSpec.{RegionSpec as SpecRecord};
ghost use Rattle.kobj_table.specs.Objects.{slot_at};
ghost use Rattle.plain_laws.specs.Bounds.{AreBytes, IsOfBytes};
ghost use Rattle.tick_tests.specs.FirstKernel.{CountsNone, StandsBelow, StandsOn};

use crate::pages::{fill, has_bytes, is_there, is_whole};
use first_state::content_on;
use kobj_table::{Objects, Slot};
use pmem_model::Pmem;
use sls_base::{Image, OBJECTS, OUTPUT_CHANNELS, ObjId, PAGES, PageNo, Program, RegionSpec};
use std::alloc::{AllocError, Global};

// An image is of bytes.

fn is_byte(byte: &u8) -> bool
    ensures { (result ≡ true) ↔ (byte.now < 2 ^ 8) }
{
    u16::from(*byte) < 256
}

fn has_region_bytes(spec: &RegionSpec) -> bool
    ensures { (result ≡ true) ↔ AreBytes spec.now.content.items }
{
    spec.content.iter().all(is_byte)
}

fn has_program_bytes(program: &Program) -> bool
    ensures { (result ≡ true)
        ↔ All (λ (spec : SpecRecord). AreBytes spec.content.items) program.now.regions.items }
{
    program.regions.iter().all(has_region_bytes)
}

/// Whether the content of an image is bytes, as it always is.
pub fn is_of_bytes(image: &Image) -> bool
    ensures { (result ≡ true) ↔ IsOfBytes image.now }
{
    image.programs.iter().all(has_program_bytes)
}

// It has come into the memory.

/// A memory that has what of an image stands on pages.
pub fn memory_of(alloc: Global, image: &Image) -> Result<Pmem, AllocError> {
    let mut nvm = Pmem::new(alloc)?;
    for page in 0..PAGES {
        fill(&mut nvm, page as PageNo, content_on(image, page as PageNo));
    }
    Ok(nvm)
}

/// Whether what stands on a page has come into the memory.
fn stands_on(nvm: &Pmem, image: &Image, page: PageNo) -> bool
    ensures { result ≡ true → StandsOn image.now nvm.now page }
{
    let bytes = content_on(image, page);
    bytes.is_empty() || is_there(nvm, page) && has_bytes(nvm, page, bytes)
}

/// Whether what of an image stands on pages has come into the memory.
pub fn stands(nvm: &Pmem, image: &Image) -> bool
    ensures { result ≡ true → StandsBelow image.now nvm.now PAGES }
{
    for page in 0..PAGES {
        if !stands_on(nvm, image, page as PageNo) {
            return false;
        }
    }
    true
}

// Rings count no entry.

fn counts_none(slot: &Slot) -> bool
    ensures { result ≡ true → CountsNone slot.now }
{
    match slot {
        Slot::Ring(ring) => usize::from(ring.channel) <= OUTPUT_CHANNELS && ring.count == 0,
        _ => true,
    }
}

fn counts_none_at(objects: &Objects, id: ObjId) -> bool
    ensures { result ≡ true → CountsNone (slot_at objects.now id) }
{
    match objects.slot(id) {
        Some(slot) => counts_none(slot),
        None => true,
    }
}

/// Whether each ring counts no entry.
pub fn count_none(objects: &Objects) -> bool
    ensures { result ≡ true → (id : ℕ) → CountsNone (slot_at objects.now id) }
{
    if !is_whole(objects) {
        return false;
    }
    for id in 0..OBJECTS {
        if !counts_none_at(objects, id as ObjId) {
            return false;
        }
    }
    true
}
