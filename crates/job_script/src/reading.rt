//! Reading a job.

ghost use Rattle.std.specs.Prelude.{◌≡◌, [], ◌∷◌, IfOk, IfErr};
ghost use Rattle.std.specs.Str.{bytes_eq};
ghost use Rattle.job_script.specs.Text.{fields_of};
ghost use Rattle.job_script.specs.Lines.{cores_of, take_of, line_of, said_by};
ghost use Rattle.job_script.specs.Grammar.{Good, verdict, Refuses, line_at};
ghost use Rattle.job_script.specs.Job.{IsJob};

use crate::fault::{JobCause, JobError};
use crate::line::{Job, Line};
use crate::number::{number_of, word_of};
use crate::section::Section;
use crate::text::{Operands, first_field, first_line, operands_of};
use sls_base::{CORES, OUTPUT_CHANNELS, TEXT_BYTES};
use std::alloc::Global;

/// What begins a comment.
const HASH: u8 = b'#';

/// The most lines of a text.
const TEXT_LINES: u32 = 4_096;

/// The line `cores N`: there is none yet for more than one core.
#[tactic(auto, unfolding(crate::specs::Lines::cores_of))]
fn cores_of(field: &[u8]) -> Result<Line, JobCause>
    ensures { result ≡ cores_of field.now }
{
    match number_of(field)? {
        1 => Ok(Line::Cores(1)),
        n if 2 <= n && n <= CORES as u64 => Err(JobCause::Word),
        _ => Err(JobCause::Number),
    }
}

/// The line `take C N`.
#[tactic(auto, unfolding(crate::specs::Lines::take_of))]
fn take_of(channel: &[u8], n: &[u8]) -> Result<Line, JobCause>
    ensures { result ≡ take_of channel.now n.now }
{
    let channel = number_of(channel)?;
    let n = number_of(n)?;
    if channel >= OUTPUT_CHANNELS as u64 {
        return Err(JobCause::Number);
    }
    Ok(Line::Take {
        channel: channel as u8,
        n,
    })
}

fn is(word: &[u8], wanted: &str) -> bool
    ensures { result ≡ bytes_eq word.now wanted.now }
{
    word == wanted.as_bytes()
}

/// What a word without operands says.
#[tactic(auto, unfolding(crate::specs::Lines::line_of))]
fn bare_line(word: &[u8]) -> Result<Line, JobCause>
    ensures { result ≡ line_of word.now [] }
{
    if is(word, "checkpoint") {
        Ok(Line::Checkpoint)
    } else if is(word, "end") {
        Ok(Line::End)
    } else {
        Err(JobCause::Word)
    }
}

/// What a word with one operand says.
#[tactic(auto, unfolding(crate::specs::Lines::line_of))]
fn line_with(word: &[u8], operand: &[u8]) -> Result<Line, JobCause>
    ensures { result ≡ line_of word.now (operand.now ∷ []) }
{
    if is(word, "cores") {
        cores_of(operand)
    } else if is(word, "code") {
        Ok(Line::Code(word_of(operand)?))
    } else if is(word, "run") {
        Ok(Line::Run(number_of(operand)?))
    } else if is(word, "cut") {
        Ok(Line::Cut(number_of(operand)?))
    } else {
        Err(JobCause::Word)
    }
}

/// What a word and the operands that follow it say.
#[tactic(auto, unfolding(crate::specs::Lines::line_of))]
fn line_of(word: &[u8], rest: &[u8]) -> Result<Line, JobCause>
    ensures { result ≡ line_of word.now (fields_of rest.now) }
{
    match operands_of(rest) {
        Operands::None => bare_line(word),
        Operands::One(operand) => line_with(word, operand),
        Operands::Two(first, second) if is(word, "take") => take_of(first, second),
        _ => Err(JobCause::Word),
    }
}

/// What a line says: nothing where it has no field or is a comment.
#[tactic(auto, unfolding(crate::specs::Lines::said_by))]
fn said_by(text: &[u8]) -> Result<Option<Line>, JobCause>
    ensures { result ≡ said_by (fields_of text.now) }
{
    match first_field(text) {
        None => Ok(None),
        Some(([HASH, ..], _)) => Ok(None),
        Some((word, rest)) => Ok(Some(line_of(word, rest)?)),
    }
}

/// What a line says in a section of the job, and the section after it.
#[tactic(auto, unfolding(crate::specs::Grammar::line_at))]
fn line_at(number: u32, section: Section, text: &[u8]) -> Result<(Option<Line>, Section), JobCause>
    ensures { result ≡ line_at number section text.now }
{
    if number > TEXT_LINES {
        return Err(JobCause::Lines);
    }
    match said_by(text)? {
        None => Ok((None, section)),
        Some(line) => {
            let next = section.after(line)?;
            Ok((Some(line), next))
        }
    }
}

/// Reads a job: its lines in order, or the line and the cause at which the text is no job.
pub fn read_job(alloc: Global, bytes: &[u8]) -> Result<Job, JobError>
    ensures read { IfOk result (λ job. verdict bytes.now ≡ Good job.lines.items) }
    ensures form { IfOk result (λ job. IsJob job.lines.items) }
    ensures refused { IfErr result (λ e. Refuses e (verdict bytes.now)) }
{
    if bytes.len() > TEXT_BYTES {
        return Err(JobError::Bad {
            line: 0,
            cause: JobCause::TooLong,
        });
    }
    let mut lines = Vec::new(alloc);
    let mut section = Section::Start;
    let mut number = 1;
    let mut rest = bytes;
    while let Some((text, after)) = first_line(rest) {
        let (said, next) = match line_at(number, section, text) {
            Ok(read) => read,
            Err(cause) => return Err(JobError::Bad {
                line: number,
                cause,
            }),
        };
        if let Some(line) = said {
            lines.push(line)?;
        }
        section = next;
        number += 1;
        rest = after;
    }
    match section {
        Section::Ended => Ok(Job { lines }),
        _ => Err(JobError::Bad {
            line: number,
            cause: JobCause::NoEnd,
        }),
    }
}
