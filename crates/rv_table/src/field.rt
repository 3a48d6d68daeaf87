//! The fields of a word, and its immediates.

ghost use Rattle.std.specs.Prelude.{◌≡◌, ◌<◌, ◌≤◌, ◌^◌};
ghost use Rattle.rv_table.specs.Word;

/// Bits `high` down to `low`.
pub fn bits(word: u32, high: u32, low: u32) -> u32
    requires in_word { high < 32 }
    requires in_order { low ≤ high }
    ensures { result ≡ Word.bits high low word }
{
    (word >> low) & (u32::MAX >> (31 - (high - low)))
}

/// A number of `width` bits as a word: the bits above are copies of its highest.
pub fn sign_extended(number: u32, width: u32) -> u32
    requires some { 0 < width }
    requires in_word { width < 32 }
    requires fits { number < 2 ^ width }
    ensures { result ≡ Word.sign_extended width number }
{
    if bits(number, width - 1, width - 1) == 0 {
        number
    } else {
        number | u32::MAX << width
    }
}

pub fn opcode(word: u32) -> u32
    ensures { result ≡ Word.opcode word }
{
    bits(word, 6, 0)
}

pub fn rd(word: u32) -> u8
    ensures { result ≡ Word.rd word }
{
    bits(word, 11, 7) as u8
}

pub fn funct3(word: u32) -> u8
    ensures { result ≡ Word.funct3 word }
{
    bits(word, 14, 12) as u8
}

pub fn rs1(word: u32) -> u8
    ensures { result ≡ Word.rs1 word }
{
    bits(word, 19, 15) as u8
}

pub fn rs2(word: u32) -> u8
    ensures { result ≡ Word.rs2 word }
{
    bits(word, 24, 20) as u8
}

pub fn funct7(word: u32) -> u32
    ensures { result ≡ Word.funct7 word }
{
    bits(word, 31, 25)
}

pub fn immediate_i(word: u32) -> u32
    ensures { result ≡ Word.immediate_i word }
{
    sign_extended(bits(word, 31, 20), 12)
}

pub fn immediate_s(word: u32) -> u32
    ensures { result ≡ Word.immediate_s word }
{
    sign_extended(bits(word, 11, 7) | bits(word, 31, 25) << 5, 12)
}

pub fn immediate_b(word: u32) -> u32
    ensures { result ≡ Word.immediate_b word }
{
    let low = bits(word, 11, 8) << 1 | bits(word, 30, 25) << 5;
    sign_extended(low | bits(word, 7, 7) << 11 | bits(word, 31, 31) << 12, 13)
}

pub fn immediate_u(word: u32) -> u32
    ensures { result ≡ Word.immediate_u word }
{
    word & 0xFFFF_F000
}

pub fn immediate_j(word: u32) -> u32
    ensures { result ≡ Word.immediate_j word }
{
    let low = bits(word, 30, 21) << 1 | bits(word, 20, 20) << 11;
    sign_extended(
        low | bits(word, 19, 12) << 12 | bits(word, 31, 31) << 20,
        21,
    )
}
