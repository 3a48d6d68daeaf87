//! Two slots for each object in the persistent memory: a new record goes into the slot that isn't chosen, and its tag
//! names the version that has it.
#![tactic(auto)]

mod choice;
pub mod laws;
mod memory;
mod play;
mod roots;
mod slot;
mod stage;

pub use choice::chosen;
pub use play::Turn;
pub use roots::Roots;
pub use slot::Slot;
pub use stage::{Phase, Stage};
