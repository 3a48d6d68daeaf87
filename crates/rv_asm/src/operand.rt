//! What an operand is.

ghost use Rattle.std.specs.Prelude.{◌≡◌, ◌<◌, IfSome};
ghost use Rattle.std.specs.List.{list_all};
ghost use Rattle.std.specs.Option.{option_map};
ghost use Rattle.rv_asm.specs.Operand;

use crate::text::{split_before, without_last};
use sls_base::REGISTERS;

/// The characters that a label's name may have.
const NAME_LENGTH: usize = 32;

/// The number of a register: `x0` to `x31`.
#[tactic(auto, unfolding(crate::specs::Operand::register_of))]
pub fn register_of(text: &[u8]) -> Option<u8>
    ensures parsed { result ≡ Operand.register_of text.now }
    ensures in_range { IfSome result (λ r. r < 32) }
{
    match text {
        [b'x', digit @ b'0'..=b'9'] => Some(digit - b'0'),
        [b'x', tens @ b'1'..=b'3', ones @ b'0'..=b'9'] => {
            let number = 10 * (tens - b'0') + (ones - b'0');
            if usize::from(number) < REGISTERS {
                Some(number)
            } else {
                None
            }
        }
        _ => None,
    }
}

fn is_letter(byte: u8) -> bool
    ensures { result ≡ Operand.is_letter byte }
{
    matches!(byte, b'A'..=b'Z' | b'a'..=b'z')
}

fn is_name_byte(byte: u8) -> bool
    ensures { result ≡ Operand.is_name_byte byte }
{
    is_letter(byte) || matches!(byte, b'0'..=b'9' | b'_')
}

fn are_name_bytes(text: &[u8]) -> bool
    ensures { result ≡ list_all Operand.is_name_byte text.now }
{
    for byte in text {
        if !is_name_byte(*byte) {
            return false;
        }
    }
    true
}

/// Whether a text is in the form of a label's name.
#[tactic(auto, unfolding(crate::specs::Operand::is_name))]
pub fn is_name(text: &[u8]) -> bool
    ensures { result ≡ Operand.is_name text.now }
{
    if text.is_empty() || text.len() > NAME_LENGTH {
        return false;
    }
    is_letter(text[0]) && are_name_bytes(text)
}

/// An operand `NUMBER(REG)`: what stands before the first `(`, and what stands between that and a `)` at the end.
#[tactic(auto, unfolding(crate::specs::Operand::memory_of))]
pub fn memory_of(text: &[u8]) -> Option<(&[u8], &[u8])>
    ensures { option_map (λ p. (p.0.now, p.1.now)) result ≡ Operand.memory_of text.now }
{
    match split_before(text, b'(', b'(') {
        (number, [_, enclosed @ ..]) => Some((number, without_last(enclosed, b')')?)),
        _ => None,
    }
}
