//! What of an image's content stands on which page, and the words of it.

ghost use Rattle.std.specs.Prelude.{◌≡◌, ℕ, ◌+◌, ◌*◌, ◌<◌, ◌↔◌, [], length, IsOk, IfOk, IfErr, slice_index, slice_index_or};
ghost use Rattle.std.specs.Int.{w64, to_le_bytes};
ghost use Rattle.std.specs.List.{flat_map};
ghost use Rattle.first_state.specs.Content as spec;
ghost use Rattle.first_state.specs.Content.{region_parts};

use sls_base::{FIRST_PROGRAM_PAGE, Image, PAGE_BYTES, PAGE_WORDS, PageNo, RegionSpec};

/// The bytes of a word.
pub const WORD_BYTES: usize = 8;

/// The bytes of the image that stand on a page; behind them it has zeros. A page is fresh exactly where there are none.
pub fn content_on(image: &Image, page: PageNo) -> &[u8]
    ensures { result.now ≡ spec.content_on image.now page }
{
    let Some(mut left) = page.checked_sub(FIRST_PROGRAM_PAGE) else {
        return &[];
    };
    for program in image.programs.iter() {
        match part_in(program.regions.as_slice(), left) {
            Ok(part) => return part,
            Err(behind) => left = behind,
        }
    }
    &[]
}

/// What stands on page `page` of all pages of regions; or how many pages it is behind all of them.
fn part_in(regions: &[RegionSpec], page: PageNo) -> Result<&[u8], PageNo>
    ensures inside { IsOk result ↔ (page < length (flat_map region_parts regions.now)) }
    ensures part { IfOk result (λ part. part.now ≡ slice_index_or (flat_map region_parts regions.now) page []) }
    ensures behind { IfErr result (λ behind. page ≡ length (flat_map region_parts regions.now) + behind) }
{
    let mut left = page;
    for region in regions {
        match left.checked_sub(u16::from(region.pages)) {
            Some(behind) => left = behind,
            None => return Ok(part_of(region.content.as_slice(), left)),
        }
    }
    Err(left)
}

/// What stands on page j of a region.
fn part_of(content: &[u8], j: u16) -> &[u8]
    ensures { result.now ≡ spec.part_of content.now j }
{
    let from = content.len().min(PAGE_BYTES * usize::from(j));
    let end = content.len().min(from + PAGE_BYTES);
    &content[from..end]
}

/// Word k of a page of the image.
pub fn first_word(image: &Image, page: PageNo, k: usize) -> u64
    requires { k < PAGE_WORDS }
    ensures { (j : ℕ) → j < WORD_BYTES → slice_index (to_le_bytes w64 result) j
        ≡ slice_index (spec.content_on image.now page) (WORD_BYTES * k + j) }
{
    word_from(content_on(image, page), WORD_BYTES * k)
}

/// The word of the eight bytes from `at` on, the lowest first, with zeros behind the content's end.
pub fn word_from(content: &[u8], at: usize) -> u64
    requires { at < PAGE_BYTES }
    ensures { (j : ℕ) → j < WORD_BYTES → slice_index (to_le_bytes w64 result) j ≡ slice_index content.now (at + j) }
{
    let mut bytes = [0; WORD_BYTES];
    for (j, byte) in bytes.iter_mut().enumerate() {
        *byte = byte_at(content, at + j);
    }
    u64::from_le_bytes(bytes)
}

/// The byte at a place, which is zero behind the content's end.
fn byte_at(content: &[u8], at: usize) -> u8
    ensures { result ≡ slice_index content.now at }
{
    content.get(at).copied().unwrap_or(0)
}
