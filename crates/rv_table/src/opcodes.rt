//! The opcodes, funct7, and the words that stand for one instruction each.

/// Load the upper bits.
pub const LUI: u32 = 0x37;
/// Add to the upper bits of pc.
pub const AUIPC: u32 = 0x17;
/// Jump.
pub const JAL: u32 = 0x6F;
/// Jump to where a register says.
pub const JALR: u32 = 0x67;
/// The branches.
pub const BRANCH: u32 = 0x63;
/// The loads.
pub const LOAD: u32 = 0x03;
/// The stores.
pub const STORE: u32 = 0x23;
/// The operations on a register and an immediate.
pub const OP_IMM: u32 = 0x13;
/// The operations on two registers.
pub const OP: u32 = 0x33;
/// FENCE.
pub const MISC_MEM: u32 = 0x0F;
/// ECALL and EBREAK.
pub const SYSTEM: u32 = 0x73;

/// funct7 of operations on two registers, and of shifts by an immediate.
pub const BASE: u32 = 0x00;
/// funct7 of the second forms: SUB, SRA and SRAI.
pub const ALT: u32 = 0x20;

/// The word that is written for FENCE.
pub const FENCE_WORD: u32 = 0x0000_000F;
/// The word of ECALL.
pub const ECALL_WORD: u32 = 0x0000_0073;
/// The word of EBREAK.
pub const EBREAK_WORD: u32 = 0x0010_0073;
