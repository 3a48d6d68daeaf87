//! The text of a job: which lines it has, and whether they are a job.
#![tactic(auto)]

mod fault;
mod laws;
mod line;
mod number;
mod reading;
mod section;
mod text;

pub use fault::{JobCause, JobError};
pub use laws::language;
pub use line::{Job, Line};
pub use reading::read_job;
