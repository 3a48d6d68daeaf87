//! Why a text is no job.

ghost use Rattle.std.specs.Prelude.{◌≡◌};
ghost use Rattle.job_script.specs.declared.fault.JobError.TheVariants.{Memory};

use std::alloc::AllocFailed;
use thiserror::Error;

/// What is wrong with a line.
#[derive(Clone, Copy, Debug, PartialEq, Eq)]
pub enum JobCause {
    /// The text has more than 65,536 bytes.
    TooLong,
    /// The text has more than 4,096 lines.
    Lines,
    /// The first field is no word of the language, or the number of fields isn't that word's.
    Word,
    /// A number isn't 1 to 20 decimal digits, or is outside its range.
    Number,
    /// A word isn't eight hexadecimal digits.
    Hex,
    /// The line may not stand in this section of the job.
    Order,
    /// The draws of the job are too many.
    Draws,
    /// The text ends before the job does.
    NoEnd,
}

/// Why `read_job` gave no job.
#[derive(Clone, Copy, Debug, Error)]
pub enum JobError {
    /// There is no memory for the lines.
    #[error("memory")]
    Memory,
    /// The text is no job: the line at fault and its cause.
    #[error("bad job {line} {cause:?}")]
    Bad { line: u32, cause: JobCause },
}

impl<T: Drop> From<AllocFailed<T>> for JobError {
    ghost from_gives = { λ _ e. e ≡ Memory };

    fn from(_e: AllocFailed<T>) -> JobError {
        JobError::Memory
    }
}
