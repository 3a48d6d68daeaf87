//! Why a text is no program.

use thiserror::Error;

/// A fault of a line. Where a line has several, the first in this order is told.
#[derive(Clone, Copy, PartialEq, Eq, Debug)]
pub enum AsmCause {
    /// The line has none of the shapes: a wrong number of operands, a name of a label that is out of form, something
    /// behind `name:`, or an operand that is spelled neither as a number nor, where one may stand, as a label.
    Form,
    /// The first word is no mnemonic.
    Op,
    /// What stands at the place of a register is none.
    Reg,
    /// A number is out of range, or an offset odd or out of range.
    Number,
    /// A label is defined for the second time, or is named and never defined.
    Label,
    /// The program has more than 1,024 words, or its text more than 65,536 bytes.
    Long,
}

/// Why a text isn't assembled.
#[derive(Clone, Copy, Debug, Error)]
pub enum AsmError {
    /// There was no memory for the words.
    #[error("no memory for the words of the text")]
    Memory,
    /// The first line at fault, counted from 1, and its cause. A text that is too long has line 0.
    #[error("line {line} is at fault: {cause:?}")]
    Bad { line: u32, cause: AsmCause },
}
