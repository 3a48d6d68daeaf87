//! Numbers and words.

ghost use Rattle.std.specs.Prelude.{◌≡◌, ◌≤◌};
ghost use Rattle.job_script.specs.Text.{value_of, number_of, word_of};

use crate::fault::JobCause;

/// The most digits that a number has.
const NUMBER_DIGITS: usize = 20;

/// The digits of a word.
const WORD_DIGITS: usize = 8;

/// The value of digits, if each byte is one and the value is below 2^64.
fn value_of(field: &[u8], radix: u32) -> Option<u64>
    requires two { 2 ≤ radix }
    requires letters { radix ≤ 36 }
    ensures { result ≡ value_of radix field.now }
{
    let mut value = 0u64;
    for byte in field {
        let digit = char::from(*byte).to_digit(radix)?;
        value = value
            .checked_mul(u64::from(radix))?
            .checked_add(u64::from(digit))?;
    }
    Some(value)
}

/// A number of 1 to 20 decimal digits, below 2^64.
#[tactic(auto, unfolding(crate::specs::Text::number_of))]
pub fn number_of(field: &[u8]) -> Result<u64, JobCause>
    ensures { result ≡ number_of field.now }
{
    if field.is_empty() || field.len() > NUMBER_DIGITS {
        return Err(JobCause::Number);
    }
    value_of(field, 10).ok_or(JobCause::Number)
}

/// A word of eight hexadecimal digits.
#[tactic(auto, unfolding(crate::specs::Text::word_of))]
pub fn word_of(field: &[u8]) -> Result<u32, JobCause>
    ensures { result ≡ word_of field.now }
{
    if field.len() != WORD_DIGITS {
        return Err(JobCause::Hex);
    }
    match value_of(field, 16) {
        Some(value) => Ok(value as u32),
        None => Err(JobCause::Hex),
    }
}
