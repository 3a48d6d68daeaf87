//! Reading an image.

ghost use Rattle.std.specs.Prelude.{◌≡◌, ℕ, ◌≤◌, [], length, drop, map, IfOk, IfErr, None};
ghost use Rattle.boot_image.specs.Values.{programs_of, word_at, programs_at};
ghost use Rattle.boot_image.specs.Rules.{Gives, Refuses};
ghost use Rattle.boot_image.specs.Images.{header_fault, image_fault, IsImageBytes};

use crate::fault::{ImageCause, ImageError, bad};
use crate::field::number_at;
use crate::format::{FORMAT, HEADER_BYTES, IMAGE_BYTES, MAGIC};
use crate::program::programs_of;
use plain_model::PROGRAMS;
use sls_base::{FIRST_PROGRAM_OBJECT, FIRST_PROGRAM_PAGE, Image};
use std::alloc::Global;

/// The places of the header's fields.
const MAGIC_AT: usize = 0;

const FORMAT_AT: usize = 4;

const PROGRAMS_AT: usize = 8;

/// The number of programs, by the header.
#[tactic(auto, unfolding(crate::specs::Images::header_fault))]
fn count_of(bytes: &[u8]) -> Result<u32, ImageError>
    ensures number { Gives (λ n. n) result (header_fault bytes.now) (word_at 8 bytes.now) }
    ensures whole { IfOk result (λ n. HEADER_BYTES ≤ length bytes.now) }
    ensures short { IfOk result (λ n. length bytes.now ≤ IMAGE_BYTES) }
{
    if bytes.len() > IMAGE_BYTES {
        return Err(bad(ImageCause::Length, IMAGE_BYTES));
    }
    if number_at(bytes, MAGIC_AT, 0)? != MAGIC {
        return Err(bad(ImageCause::Magic, MAGIC_AT));
    }
    if number_at(bytes, FORMAT_AT, 0)? != FORMAT {
        return Err(bad(ImageCause::Version, FORMAT_AT));
    }
    let count = number_at(bytes, PROGRAMS_AT, 0)?;
    if !(1 <= count && count as usize <= PROGRAMS) {
        return Err(bad(ImageCause::Count, PROGRAMS_AT));
    }
    Ok(count)
}

/// The image, or the first fault of the bytes.
#[tactic(auto, unfolding(crate::specs::Images::image_fault))]
fn image_of(alloc: Global, bytes: &[u8]) -> Result<Image, ImageError>
    ensures read { Gives (λ image. programs_of image) result (image_fault bytes.now)
        (programs_at (word_at 8 bytes.now) (drop HEADER_BYTES bytes.now)) }
{
    let count = count_of(bytes)?;
    let (programs, size) = programs_of(
        alloc,
        count,
        &bytes[HEADER_BYTES..],
        HEADER_BYTES,
        usize::from(FIRST_PROGRAM_OBJECT),
        usize::from(FIRST_PROGRAM_PAGE),
    )?;
    let end = HEADER_BYTES + size;
    if bytes.len() != end {
        return Err(bad(ImageCause::Length, end));
    }
    Ok(Image { programs })
}

/// Reads an image: the one whose bytes these are, or the first rule that they break.
pub fn read_image(alloc: Global, bytes: &[u8]) -> Result<Image, ImageError>
    ensures read { IfOk result (λ image. IsImageBytes bytes.now image) }
    ensures kept { IfOk result (λ image. image_fault bytes.now ≡ None) }
    ensures refused { IfErr result (λ e. Refuses e (image_fault bytes.now)) }
{
    image_of(alloc, bytes)
}
