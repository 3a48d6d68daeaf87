//! Loads and stores.

ghost use Rattle.std.specs.Prelude.{◌≡◌, ◌<◌};
ghost use Rattle.rv_core.specs.Effect.{size_of, extended};

use rv_table::funct3::{LB, LBU, LH, LHU};

/// The bytes of a load or store: 1, 2 or 4.
pub fn access_size(op: u8) -> u32
    ensures size { result ≡ size_of op }
    ensures some { 0 < result }
{
    1 << (op % 4)
}

/// The value that a load gives. `op` is that of the load, and `raw` holds the bytes that were read, the lowest first.
/// LB and LH extend the sign of their bytes, LBU and LHU put 0 above theirs.
pub fn extend(op: u8, raw: u32) -> u32
    ensures { result ≡ extended op raw }
{
    match op {
        LB => ((raw << 24).cast_signed() >> 24).cast_unsigned(),
        LH => ((raw << 16).cast_signed() >> 16).cast_unsigned(),
        LBU => raw & 0xFF,
        LHU => raw & 0xFFFF,
        _ => raw,
    }
}
