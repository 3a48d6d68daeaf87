//! The lines of a job.

/// A line of a job.
#[derive(Clone, Copy, PartialEq, Eq)]
pub enum Line {
    /// The machine has this many cores.
    Cores(u8),
    /// The next word of the program.
    Code(u32),
    /// This many draws of a core, which then takes turns.
    Run(u64),
    /// A checkpoint.
    Checkpoint,
    /// A power cut, before which words are written back by this seed.
    Cut(u64),
    /// Up to `n` entries of an output channel are accepted.
    Take { channel: u8, n: u64 },
    /// The job is done.
    End,
}

/// A job: its lines in order.
#[derive(Drop)]
pub struct Job {
    pub lines: Vec<Line>,
}
