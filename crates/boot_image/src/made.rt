//! Images of code words, and the image that a number makes.

ghost use Rattle.std.specs.Prelude.{◌≡◌, ◌≤◌, ◌<◌, ◌+◌, ◌*◌, ◌^◌, [], ◌∷◌, length, IfOk};
ghost use Rattle.std.specs.List.{flat_map};
ghost use Rattle.plain_model.specs.Initial.{IsAccepted};
ghost use Rattle.boot_image.specs.Spelling.{word};
ghost use Rattle.boot_image.specs.Values.{program_value, programs_of};
ghost use Rattle.boot_image.specs.Made.{code_program, made_words, made_programs};

use crate::field::push_number;
use crate::format::ALL_CHANNELS;
use sls_base::{Image, PROGRAM_WORDS, Program, REGION_RIGHTS, RegionSpec};
use std::alloc::{AllocError, Global};

/// The pages of a program of code words.
const CODE_PAGES: u8 = 1;
/// The programs of an image that is made by a number, the pages of each, and its words.
const MADE_PROGRAMS: u32 = 8;

const MADE_PAGES: u8 = 16;

const MADE_WORDS: usize = 19;
/// Programs below this one put a sum on a channel.
const PUTTERS: u32 = 4;

/// The bytes of words.
fn content_of(alloc: Global, words: &[u32]) -> Result<Vec<u8>, AllocError>
    ensures { IfOk result (λ content. content.items ≡ flat_map word words.now) }
{
    let mut content = Vec::new(alloc);
    for number in words {
        push_number(&mut content, *number)?;
    }
    Ok(content)
}

/// A program of code words.
#[tactic(auto, unfolding(crate::specs::Made::code_program))]
fn program_of(alloc: Global, pages: u8, words: &[u32]) -> Result<Program, AllocError>
    ensures { IfOk result (λ p. program_value p ≡ code_program pages words.now) }
{
    let content = content_of(alloc, words)?;
    let mut regions = Vec::new(alloc);
    regions.push(RegionSpec {
        base: 0,
        pages,
        rights: REGION_RIGHTS,
        content,
    })?;
    Ok(Program {
        entry: 0,
        threads: 1,
        channels: ALL_CHANNELS,
        regions,
    })
}

/// The image of one program of code words, in a page with every right.
pub fn of_code(alloc: Global, words: &[u32]) -> Result<Image, AllocError>
    requires some { 1 ≤ length words.now }
    requires few { length words.now ≤ PROGRAM_WORDS }
    ensures image { IfOk result (λ image. programs_of image ≡ code_program 1 words.now ∷ []) }
    ensures accepted { IfOk result (λ image. IsAccepted image) }
{
    let mut programs = Vec::new(alloc);
    programs.push(program_of(alloc, CODE_PAGES, words)?)?;
    Ok(Image { programs })
}

/// A number in the upper 12 bits of an instruction.
fn with_upper(number: u32, low: u32) -> u32
    requires number { number < 2048 }
    requires low { low < 2 ^ 20 }
    ensures { result ≡ number * 2 ^ 20 + low }
{
    number * (1 << 20) + low
}

/// The code of a program of the image that a number makes.
#[tactic(auto, unfolding(crate::specs::Made::made_words))]
fn made_words(number: u64, program: u32) -> [u32; MADE_WORDS]
    requires { program < 8 }
    ensures { result ≡ made_words number program }
{
    let wide = u128::from(number);
    let step = 1 + ((wide + u128::from(program)) % 1024) as u32;
    let rounds = 64 + (wide * (u128::from(program) + 1) % 64) as u32;
    let call = if program < PUTTERS {
        0x0020_0893
    } else {
        0x0000_0893
    };
    [
        with_upper(step, 0x293),
        with_upper(rounds, 0x313),
        0x0000_1437,
        0x0004_2383,
        0x0053_83b3,
        0x0074_2023,
        0x0073_7493,
        0x00c4_9493,
        0x0084_84b3,
        0x0074_a223,
        0xfff3_0313,
        0xfe03_10e3,
        with_upper(2 + program % 4, 0x513),
        0x0004_0593,
        0x0040_0613,
        call,
        0x0000_0073,
        0x0010_0893,
        0x0000_0073,
    ]
}

/// The large image that a number makes.
pub fn generated(alloc: Global, number: u64) -> Result<Image, AllocError>
    ensures image { IfOk result (λ image. programs_of image ≡ made_programs number) }
    ensures accepted { IfOk result (λ image. IsAccepted image) }
{
    let mut programs = Vec::new(alloc);
    for program in 0..MADE_PROGRAMS {
        programs.push(program_of(alloc, MADE_PAGES, &made_words(number, program))?)?;
    }
    Ok(Image { programs })
}
