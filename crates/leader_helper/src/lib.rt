//! The leader of a checkpoint, from the sweep to the resume, one operation a turn.
#![tactic(auto)]

mod begin;
mod finding;
pub mod laws;
mod leader;
mod records;
pub mod saved;
mod stage;
mod sweeping;
mod turns;

pub use leader::Leader;
pub use stage::{Progress, Stage};
pub use sweeping::sweep;
