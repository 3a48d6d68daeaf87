//! The sections of a job, and which line may stand in which.

ghost use Rattle.std.specs.Prelude.{◌≡◌};
ghost use Rattle.job_script.specs.Form.{after, after_action};

use crate::fault::JobCause;
use crate::line::Line;
use sls_base::PROGRAM_WORDS;

/// The most draws of a job.
const DRAWS: u64 = 2_000_000;

/// How far a job has come.
#[derive(Clone, Copy)]
pub enum Section {
    /// Before the first line.
    Start,
    /// In the program, behind this many words.
    Program(usize),
    /// Among the actions, behind this many draws.
    Actions(u64),
    /// Behind `end`.
    Ended,
}

impl Section {
    /// The section after a line, if the line may stand here.
    pub fn after(self, line: Line) -> Result<Section, JobCause>
        ensures { result ≡ after self line }
    {
        match (self, line) {
            (Section::Start, Line::Cores(_)) => Ok(Section::Program(0)),
            (Section::Program(words), Line::Code(_)) if words < PROGRAM_WORDS => {
                Ok(Section::Program(words + 1))
            }
            (Section::Program(_), Line::Code(_)) => Err(JobCause::Order),
            (Section::Program(0), _) => Err(JobCause::Order),
            (Section::Program(_), _) => after_action(0, line),
            (Section::Actions(draws), _) => after_action(draws, line),
            _ => Err(JobCause::Order),
        }
    }
}

/// The section after an action or `end`, behind this many draws.
fn after_action(draws: u64, line: Line) -> Result<Section, JobCause>
    ensures { result ≡ after_action draws line }
{
    match line {
        Line::Run(n) => match draws.checked_add(n) {
            Some(draws) if draws <= DRAWS => Ok(Section::Actions(draws)),
            _ => Err(JobCause::Draws),
        },
        Line::Checkpoint | Line::Cut(_) | Line::Take { .. } => Ok(Section::Actions(draws)),
        Line::End => Ok(Section::Ended),
        Line::Cores(_) | Line::Code(_) => Err(JobCause::Order),
    }
}
