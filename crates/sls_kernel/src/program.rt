//! The page that a program begins with.

ghost use Rattle.std.specs.Prelude.{◌≡◌, ℕ, ◌+◌, ◌/◌, ◌%◌, ◌^◌, ◌<◌, length, slice_index, IfOk};
ghost use Rattle.sls_kernel.specs.Words.{byte_of};
ghost use Rattle.sls_kernel.specs.Program.{program_content, program_bytes};

use crate::memory::WORD_BYTES;
use sls_base::{Image, PAGE_BYTES, PAGE_WORDS};
use std::alloc::{AllocError, Global};

/// The words of the page that the image's program begins with.
pub fn page_words(alloc: Global, image: &Image) -> Result<Vec<u64>, AllocError>
    ensures size { IfOk result (λ words. length words.items ≡ PAGE_WORDS) }
    ensures bytes { IfOk result (λ words. (a : ℕ)
        → byte_of (slice_index words.items (a / 8)) (a % 8) ≡ program_bytes image.now a) }
    ensures range { IfOk result (λ words. (i : ℕ) → slice_index words.items i < 2 ^ 64) }
{
    let content = content(image);
    let mut words = Vec::with_capacity(alloc, PAGE_WORDS)?;
    for i in 0..PAGE_WORDS {
        words.push(word_from(content, WORD_BYTES * i))?;
    }
    Ok(words)
}

/// The content of the image's first region, if it has one.
fn content(image: &Image) -> &[u8]
    ensures { result.now ≡ program_content image.now.programs.items }
{
    let [program, ..] = image.programs.as_slice() else {
        return &[];
    };
    let [region, ..] = program.regions.as_slice() else {
        return &[];
    };
    region.content.as_slice()
}

/// The word of the eight bytes from `at` on, the lowest first, with zeros past the content's end.
fn word_from(content: &[u8], at: usize) -> u64
    requires { at < PAGE_BYTES }
    ensures { (k : ℕ) → k < 8 → byte_of result k ≡ slice_index content.now (at + k) }
{
    let mut bytes = [0; WORD_BYTES];
    for (k, byte) in bytes.iter_mut().enumerate() {
        *byte = byte_at(content, at + k);
    }
    u64::from_le_bytes(bytes)
}

/// The byte at a place, which is zero past the content's end.
fn byte_at(content: &[u8], at: usize) -> u8
    ensures { result ≡ slice_index content.now at }
{
    content.get(at).copied().unwrap_or(0)
}
