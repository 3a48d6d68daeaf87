//! The values of funct3, which tell apart the instructions of an opcode.
//!
//! An operation with an immediate has the value of the one on two registers: ADDI that of ADD, and so on.

/// Branch if equal.
pub const BEQ: u8 = 0;
/// Branch if not equal.
pub const BNE: u8 = 1;
/// Branch if less, as signed numbers.
pub const BLT: u8 = 4;
/// Branch if not less, as signed numbers.
pub const BGE: u8 = 5;
/// Branch if less.
pub const BLTU: u8 = 6;
/// Branch if not less.
pub const BGEU: u8 = 7;

/// Load a byte, and extend its sign.
pub const LB: u8 = 0;
/// Load two bytes, and extend their sign.
pub const LH: u8 = 1;
/// Load four bytes.
pub const LW: u8 = 2;
/// Load a byte.
pub const LBU: u8 = 4;
/// Load two bytes.
pub const LHU: u8 = 5;

/// Store a byte.
pub const SB: u8 = 0;
/// Store two bytes.
pub const SH: u8 = 1;
/// Store four bytes.
pub const SW: u8 = 2;

/// Add.
pub const ADD: u8 = 0;
/// Subtract: the second form of ADD.
pub const SUB: u8 = 0;
/// Shift to the left.
pub const SLL: u8 = 1;
/// Set to 1 if less, as signed numbers.
pub const SLT: u8 = 2;
/// Set to 1 if less.
pub const SLTU: u8 = 3;
/// Exclusive or, bit by bit.
pub const XOR: u8 = 4;
/// Shift to the right.
pub const SRL: u8 = 5;
/// Shift to the right, with copies of the sign: the second form of SRL.
pub const SRA: u8 = 5;
/// Or, bit by bit.
pub const OR: u8 = 6;
/// And, bit by bit.
pub const AND: u8 = 7;

/// Of JALR, whose opcode has no other instruction.
pub const JALR_FUNCT3: u8 = 0;
/// Of FENCE, whose opcode has no other instruction.
pub const FENCE_FUNCT3: u8 = 0;
