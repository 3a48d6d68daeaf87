//! Recovery: after a power cut the rooms of the persistent memory come back to rest at the committed version, and the
//! objects into the running table.
#![tactic(auto)]

mod contents;
pub mod laws;
mod records;
mod recovery;

pub use recovery::{RECOVERY_TURNS, Recovery, Restored};
