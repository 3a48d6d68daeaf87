//! The numbers in bytes.

ghost use Rattle.std.specs.Prelude.{◌≡◌, ◌+◌, ◌≤◌, ◌<◌, ◌^◌, ◌++◌, [], length, OnOk, IfOk};
ghost use Rattle.boot_image.specs.Spelling.{word};
ghost use Rattle.boot_image.specs.Values.{word_at};
ghost use Rattle.boot_image.specs.Rules.{Gives, field};

use crate::fault::{ImageCause, ImageError, bad};
use crate::format::WORD_BYTES;
use byteorder::{ByteOrder, LittleEndian};
use std::alloc::AllocError;

/// The number at a place of bytes that begin at a place of the file.
#[tactic(auto, unfolding(crate::specs::Values::word_at))]
pub fn number_at(bytes: &[u8], place: usize, at: usize) -> Result<u32, ImageError>
    requires { at + place < 2 ^ 32 }
    ensures number { Gives (λ n. n) result (field at place bytes.now []) (word_at place bytes.now) }
    ensures whole { IfOk result (λ n. place + 4 ≤ length bytes.now) }
{
    if bytes.len() < place + WORD_BYTES {
        return Err(bad(ImageCause::Length, at + place));
    }
    Ok(LittleEndian::read_u32(&bytes[place..]))
}

/// Writes a number behind other bytes.
#[tactic(auto, unfolding(crate::specs::Spelling::word))]
pub fn push_number(out: &mut Vec<u8>, number: u32) -> Result<(), AllocError>
    ensures { OnOk result (out.new.items ≡ out.old.items ++ word number) }
{
    let mut bytes = [0; WORD_BYTES];
    LittleEndian::write_u32(&mut bytes, number);
    out.extend_from_slice(&bytes)
}
