//! Runs jobs on a machine with persistent memory, and reports as the plain machine would.
#![tactic(auto)]

mod call;
mod code;
mod drive;
mod lines;
mod report;
mod status;

pub use call::{no_memory, run_job};
pub use code::image_of;
pub use lines::BreakCause;
pub use report::Printed;
pub use status::Status;
