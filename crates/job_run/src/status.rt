//! How a run ends.

use std::process::ExitCode;

/// How a run ended. Each but `Done` and `WriteFault` has a last line that tells it.
#[derive(Clone, Copy, PartialEq)]
pub enum Status {
    /// The job was read to its end and done.
    Done,
    /// The words are not those of a run.
    Usage,
    /// The text is no job.
    BadJob,
    /// A read of the job failed.
    ReadFault,
    /// A write failed.
    WriteFault,
    /// There was no memory.
    Memory,
}

impl Status {
    ghost use Rattle.std.specs.Prelude.{◌≡◌};
    ghost use Rattle.std.specs.Process.{exit_status};
    ghost use Rattle.job_run.specs.Status.{exit_number};

    /// The exit code of the program.
    pub fn exit_code(self) -> ExitCode
        ensures { exit_status result ≡ exit_number self }
    {
        ExitCode::from(match self {
            Status::Done => 0,
            Status::Usage => 2,
            Status::BadJob => 3,
            Status::ReadFault => 6,
            Status::WriteFault => 7,
            Status::Memory => 9,
        })
    }
}
