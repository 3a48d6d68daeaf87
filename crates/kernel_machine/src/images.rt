//! Copies of images, and the bytes of their regions.

ghost use Rattle.std.specs.Prelude.{◌≡◌, All, IfOk, map};
ghost use Rattle.sls_base.specs.declared.image.RegionSpec.{RegionSpec as Spec};
ghost use Rattle.plain_laws.specs.Bounds.{AreBytes, IsOfBytes};
ghost use Rattle.boot_image.specs.Values.{program_value, programs_of, region_value};

use sls_base::{Image, Program, RegionSpec};
use std::alloc::{AllocError, Global};

/// A copy of a region.
fn copy_of_region(alloc: Global, region: &RegionSpec) -> Result<RegionSpec, AllocError>
    ensures { IfOk result (λ copy. region_value copy ≡ region_value region.now) }
{
    Ok(RegionSpec {
        base: region.base,
        pages: region.pages,
        rights: region.rights,
        content: Vec::from_slice(alloc, region.content.as_slice())?,
    })
}

/// A copy of a program.
fn copy_of_program(alloc: Global, program: &Program) -> Result<Program, AllocError>
    ensures { IfOk result (λ copy. program_value copy ≡ program_value program.now) }
{
    let mut regions = Vec::with_capacity(alloc, program.regions.len())?;
    for region in &program.regions {
        regions.push_reserved(copy_of_region(alloc, region)?);
    }
    Ok(Program {
        entry: program.entry,
        threads: program.threads,
        channels: program.channels,
        regions,
    })
}

/// A copy of an image: the same programs.
pub(crate) fn copy_of_image(alloc: Global, image: &Image) -> Result<Image, AllocError>
    ensures { IfOk result (λ copy. programs_of copy ≡ programs_of image.now) }
{
    let mut programs = Vec::with_capacity(alloc, image.programs.len())?;
    for program in &image.programs {
        programs.push_reserved(copy_of_program(alloc, program)?);
    }
    Ok(Image { programs })
}

/// The items of content are bytes, since their type says so. It does nothing, as the next two functions do.
fn content_is_bytes(content: &[u8])
    ensures { AreBytes content.now }
{}

/// The content of a program is bytes.
fn program_is_of_bytes(program: &Program)
    ensures { All (λ (spec : Spec). AreBytes spec.content.items) program.now.regions.items }
{
    for region in &program.regions {
        content_is_bytes(&region.content);
    }
}

/// The content of an image is bytes.
pub(crate) fn image_is_of_bytes(image: &Image)
    ensures { IsOfBytes image.now }
{
    for program in &image.programs {
        program_is_of_bytes(program);
    }
}
