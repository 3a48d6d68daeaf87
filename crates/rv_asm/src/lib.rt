//! An assembler and a printer for RV32I.
#![tactic(auto)]

mod aim;
mod assembly;
mod error;
pub mod laws;
mod lines;
mod mnemonic;
mod name;
mod number;
mod operand;
mod printing;
mod program;
mod statement;
mod text;

pub use assembly::assemble;
pub use error::{AsmCause, AsmError};
pub use printing::print;
