//! Numbers as they are spelled.

ghost use Rattle.std.specs.Prelude.{◌≡◌, ◌<◌, ◌≤◌, ◌%◌, ◌^◌, IfSome};
ghost use Rattle.std.specs.Option.{option_map};
ghost use Rattle.rv_asm.specs.Operand;

/// A magnitude above each limit stands as this one.
const TOO_LARGE: u64 = 1 << 32;

const DECIMAL: u32 = 10;

const HEXADECIMAL: u32 = 16;

/// A number as it is spelled, with a magnitude of at most 2^32.
#[derive(Clone, Copy)]
pub struct Number {
    pub negative: bool,
    pub magnitude: u64,
}

/// The number that a text spells: decimal with or without `-`, or `0x` and hexadecimal digits.
#[tactic(auto, unfolding(crate::specs::Operand::number_of))]
pub fn number_of(text: &[u8]) -> Option<Number>
    ensures { result ≡ Operand.number_of text.now }
{
    match text {
        [b'-', digits @ ..] => magnitude_of(digits, DECIMAL, true),
        [b'0', b'x', digits @ ..] => magnitude_of(digits, HEXADECIMAL, false),
        digits => magnitude_of(digits, DECIMAL, false),
    }
}

fn magnitude_of(digits: &[u8], base: u32, negative: bool) -> Option<Number>
    requires some { 2 ≤ base }
    requires known { base ≤ 36 }
    ensures { result ≡ Operand.magnitude_of base negative digits.now }
{
    if digits.is_empty() {
        return None;
    }
    let mut magnitude = 0;
    for byte in digits {
        let digit = char::from(*byte).to_digit(base)?;
        magnitude = (magnitude * u64::from(base) + u64::from(digit)).min(TOO_LARGE);
    }
    Some(Number {
        negative,
        magnitude,
    })
}

/// The number as a word, where it is from `-below` to `above`.
pub fn within(number: Number, below: u32, above: u32) -> Option<u32>
    ensures word { result ≡ Operand.within below above number }
    ensures in_range { IfSome result (Operand.IsWithin below above) }
{
    let limit = if number.negative { below } else { above };
    if number.magnitude > u64::from(limit) {
        return None;
    }
    let magnitude = number.magnitude as u32;
    Some(if number.negative {
        0u32.wrapping_sub(magnitude)
    } else {
        magnitude
    })
}

/// The same for an even number.
pub fn even_within(number: Number, below: u32, above: u32) -> Option<u32>
    ensures word { result ≡ Operand.even_within below above number }
    ensures in_range { IfSome result (Operand.IsWithin below above) }
    ensures even { IfSome result (λ w. w % 2 ≡ 0) }
{
    if number.magnitude % 2 == 0 {
        within(number, below, above)
    } else {
        None
    }
}
