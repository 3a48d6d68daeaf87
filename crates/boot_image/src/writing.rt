//! Images as bytes.

ghost use Rattle.std.specs.Prelude.{◌≡◌, ◌++◌, ◌≤◌, ◌<◌, ◌^◌, length, replicate, OnOk, IfOk};
ghost use Rattle.plain_model.specs.Initial.{IsRegion, IsProgram, IsAccepted};
ghost use Rattle.boot_image.specs.Spelling.{region_bytes, program_bytes, image_bytes};
ghost use Rattle.boot_image.specs.Images.{IsImageBytes};

use crate::field::push_number;
use crate::format::{FORMAT, MAGIC};
use crate::region::padded;
use sls_base::{Image, Program, RegionSpec};
use std::alloc::{AllocError, Global};

/// Writes zeros behind other bytes.
fn push_zeros(out: &mut Vec<u8>, count: usize) -> Result<(), AllocError>
    ensures { OnOk result (out.new.items ≡ out.old.items ++ replicate count 0) }
{
    for _ in 0..count {
        out.push(0)?;
    }
    Ok(())
}

#[tactic(auto, unfolding(crate::specs::Spelling::region_bytes))]
fn push_region(out: &mut Vec<u8>, spec: &RegionSpec) -> Result<(), AllocError>
    requires { IsRegion spec.now }
    ensures { OnOk result (out.new.items ≡ out.old.items ++ region_bytes spec.now) }
{
    let length = spec.content.len();
    push_number(out, spec.base)?;
    push_number(out, u32::from(spec.pages))?;
    push_number(out, u32::from(spec.rights))?;
    push_number(out, length as u32)?;
    out.extend_from_slice(&spec.content)?;
    push_zeros(out, padded(length) - length)
}

#[tactic(auto, unfolding(crate::specs::Spelling::program_bytes))]
fn push_program(out: &mut Vec<u8>, program: &Program) -> Result<(), AllocError>
    requires { IsProgram program.now }
    ensures { OnOk result (out.new.items ≡ out.old.items ++ program_bytes program.now) }
{
    push_number(out, program.entry)?;
    push_number(out, u32::from(program.threads))?;
    push_number(out, u32::from(program.channels))?;
    push_number(out, program.regions.len() as u32)?;
    for spec in &program.regions {
        push_region(out, spec)?;
    }
    Ok(())
}

/// The bytes of an image.
#[tactic(auto, unfolding(crate::specs::Spelling::image_bytes))]
pub fn write_image(alloc: Global, image: &Image) -> Result<Vec<u8>, AllocError>
    requires accepted { IsAccepted image.now }
    ensures bytes { IfOk result (λ bytes. IsImageBytes bytes.items image.now) }
{
    let mut out = Vec::new(alloc);
    push_number(&mut out, MAGIC)?;
    push_number(&mut out, FORMAT)?;
    push_number(&mut out, image.programs.len() as u32)?;
    for program in &image.programs {
        push_program(&mut out, program)?;
    }
    Ok(out)
}
