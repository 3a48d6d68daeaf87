//! The top call: a job is read, run and reported.

ghost use Rattle.std.specs.Prelude.{◌≡◌, ◌≢◌, ◌≤◌, ◌+◌, ◌↔◌, ℕ, List, IsTrue, IfSome, is_some};
ghost use Rattle.std.specs.Io.KnownBytes.{prepend_known};
ghost use Rattle.pmem_model.specs.Memory.{word_at, AllHome};
ghost use Rattle.pmem_model.specs.Places.{zero_word};
ghost use Rattle.sls_io.specs.Faults.{Rose};
ghost use Rattle.sls_io.specs.Source.{TakesAtMost};
ghost use Rattle.sls_kernel.specs.Plain.{World};
ghost use Rattle.sls_kernel.specs.Program.{IsOfCode};
ghost use Rattle.sls_kernel.specs.Side.{Running, mode};
ghost use Rattle.sls_kernel.specs.Shows.{Shows};
ghost use Rattle.job_script.specs.Job.{IsJob, words_of};
ghost use Rattle.job_script.specs.Grammar.{Faulty, verdict};
ghost use Rattle.job_script.specs.declared.fault.JobCause.{JobCause};
ghost use Rattle.job_run.specs.Report.{first_of};
ghost use Rattle.job_run.specs.Job.{IsRun, LastLine, IsRunWords, EndsAt, LeavesRun, LeavesText, TellsFault, AnswersFault};
ghost use Rattle.job_run.specs.Job.{LastWants, TellsWant};
ghost use Rattle.job_run.specs.declared.report.Printed.TheVariants as line;

use crate::code::image_of_lines;
use crate::drive;
use crate::lines::{BreakCause, Broken, run_lines};
use crate::report::{Printed, print};
use crate::status::Status;
use job_script::{JobError, Line, read_job};
use pmem_model::Pmem;
use sls_base::{Image, TEXT_BYTES};
use sls_io::{ReadError, Shelf, Sink, SinkError, Source, read_to_end};
use sls_kernel::Machine;
use std::alloc::Global;

/// Prints the last line of a status. A write that fails, or that the sink has no memory for, makes the status so.
fn end<O: Sink>(out: &mut O, status: Status, line: Printed) -> Status
    requires { status ≢ Status.WriteFault }
    ensures last { LastLine status line (O.written out.old) (O.written out.new) result }
    ensures cause { result ≡ Status.WriteFault → Rose (O.faults out.old) (O.faults out.new) }
    ensures wants { LastWants status line (O.written out.old) (O.written out.new) (O.wants out.old) (O.wants out.new)
        result }
    ensures told { is_some (O.written out.new) ≡ is_some (O.written out.old) }
    ensures never_falls { O.faults out.old ≤ O.faults out.new }
{
    match print(out, line) {
        Ok(()) => status,
        Err(SinkError::Failed) => Status::WriteFault,
        Err(SinkError::Memory) => Status::Memory,
    }
}

/// Ends a run that finds no memory.
pub fn no_memory<O: Sink>(out: &mut O) -> Status
    ensures last { LastLine Status.Memory line.Memory (O.written out.old) (O.written out.new) result }
    ensures cause { result ≡ Status.WriteFault → Rose (O.faults out.old) (O.faults out.new) }
    ensures wants { TellsWant result (O.written out.old) (O.written out.new) (O.wants out.old) (O.wants out.new) }
    ensures told { is_some (O.written out.new) ≡ is_some (O.written out.old) }
    ensures never_falls { O.faults out.old ≤ O.faults out.new }
{
    end(out, Status::Memory, Printed::Memory)
}

/// Runs the lines of a job on a machine that is up, and cuts its power. Where a line wasn't written nothing further is.
fn run_up<O: Sink>(
    alloc: Global,
    image: &Image,
    lines: &[Line],
    out: &mut O,
    machine: Machine,
) -> (Status, Pmem)
    requires up { mode machine ≡ Running }
    requires image { IsOfCode image.now }
    requires job { IsJob lines.now }
    requires first { Shows machine (first_of (words_of lines.now)) }
    ensures run { (came : Pmem) → IsRun lines.now (O.written out.old) (O.written out.new) came result.0 result.1 }
    ensures home { AllHome result.1 }
    ensures cause { result.0 ≡ Status.WriteFault → Rose (O.faults out.old) (O.faults out.new) }
    ensures wants { TellsWant result.0 (O.written out.old) (O.written out.new) (O.wants out.old) (O.wants out.new) }
    ensures told { is_some (O.written out.new) ≡ is_some (O.written out.old) }
    ensures never_falls { O.faults out.old ≤ O.faults out.new }
{
    match run_lines(alloc, image, lines, out, machine) {
        Ok(machine) => (Status::Done, machine.cut().nvm),
        Err(Broken { cause, nvm }) => match cause {
            BreakCause::NotWritten(SinkError::Failed) => (Status::WriteFault, nvm),
            BreakCause::NotWritten(SinkError::Memory) => (Status::Memory, nvm),
            BreakCause::NotLit => (no_memory(out), nvm),
        },
    }
}

/// Runs the lines of a job on an empty memory.
fn run_parsed<O: Sink>(alloc: Global, lines: &[Line], out: &mut O, nvm: Pmem) -> (Status, Pmem)
    requires zero { (i : ℕ) → word_at nvm i ≡ zero_word }
    requires home { AllHome nvm }
    requires commits { nvm.commits ≡ 0 }
    requires cuts { nvm.cuts ≡ 0 }
    requires job { IsJob lines.now }
    ensures run { IsRun lines.now (O.written out.old) (O.written out.new) nvm result.0 result.1 }
    ensures home { AllHome result.1 }
    ensures cause { result.0 ≡ Status.WriteFault → Rose (O.faults out.old) (O.faults out.new) }
    ensures wants { TellsWant result.0 (O.written out.old) (O.written out.new) (O.wants out.old) (O.wants out.new) }
    ensures told { is_some (O.written out.new) ≡ is_some (O.written out.old) }
    ensures never_falls { O.faults out.old ≤ O.faults out.new }
{
    let Ok(image) = image_of_lines(alloc, lines) else {
        return (no_memory(out), nvm);
    };
    match Machine::boot(alloc, &image, 1, nvm) {
        Ok(mut machine) => {
            drive::bring_up(&mut machine);
            run_up(alloc, &image, lines, out, machine)
        }
        Err(refused) => (no_memory(out), refused.nvm),
    }
}

/// Whether the words ask for a run: exactly the word `run`.
fn is_run(words: &[String]) -> bool
    ensures { IsTrue result ↔ IsRunWords words.now }
{
    match words {
        [word] => word.as_str() == "run",
        _ => false,
    }
}

/// Runs the job that the source gives, on a memory as it is made: at `Done` the sink was given the report of the plain
/// machine, and the memory that comes back stands for what it saved, at the version in word 1.
///
/// The words are the program's, and are exactly `run`. A job of this machine needs no shelf, which stays as it is. Each
/// line is written in one call. A write that fails ends the run with `WriteFault`, and one that the sink has no memory
/// for with `Memory`; this goes before the status whose line it was, and nothing further is written. Else a status but
/// `Done` has its own last line. What is given back is the memory as it came where nothing was run, and else that of
/// the machine after a last power cut.
pub fn run_job<S: Source, O: Sink, F: Shelf>(
    alloc: Global,
    words: &[String],
    job: &mut S,
    out: &mut O,
    _shelf: &mut F,
    nvm: Pmem,
) -> (Status, Pmem)
    requires zero { (i : ℕ) → word_at nvm i ≡ zero_word }
    requires home { AllHome nvm }
    requires commits { nvm.commits ≡ 0 }
    requires cuts { nvm.cuts ≡ 0 }
    ensures usage { (IsRunWords words.now → ⊥)
        → EndsAt Status.Usage line.Usage (O.written out.old) (O.written out.new) nvm result.1 result.0 }
    ensures run { IsRunWords words.now → LeavesRun
        (S.left job.old) (S.left job.new) (S.ended job.new) (S.faults job.old) (S.faults job.new)
        (O.written out.old) (O.written out.new) nvm result.0 result.1 }
    ensures bad_job { result.0 ≡ Status.BadJob → IfSome (S.left job.old) (λ text.
        TellsFault text (O.written out.old) (O.written out.new)) }
    ensures fault { IsRunWords words.now → IfSome (S.left job.old) (λ text. (at : ℕ) (cause : JobCause)
        → verdict text ≡ Faulty at cause
        → AnswersFault at cause (O.written out.old) (O.written out.new) result.0) }

    // With other words the source stays as it is. A run takes some first bytes of it, at most as many as a text may
    // have and one more, also where a read failed or memory was wanting.
    ensures unread { (IsRunWords words.now → ⊥) → job.new ≡ job.old }
    ensures takes { (taken : List ℕ) × (S.left job.old ≡ prepend_known taken (S.left job.new)) }
    ensures takes_at_most { TakesAtMost (TEXT_BYTES + 1) (S.left job.old) (S.left job.new) }
    ensures read_fault { result.0 ≡ Status.ReadFault → Rose (S.faults job.old) (S.faults job.new) }
    ensures write_fault { result.0 ≡ Status.WriteFault → Rose (O.faults out.old) (O.faults out.new) }
    ensures wants { TellsWant result.0 (O.written out.old) (O.written out.new) (O.wants out.old) (O.wants out.new) }
    ensures home { AllHome result.1 }
    ensures told { is_some (O.written out.new) ≡ is_some (O.written out.old) }
    ensures reads { S.faults job.old ≤ S.faults job.new }
    ensures writes { O.faults out.old ≤ O.faults out.new }
    ensures shelf_names { F.names _shelf.new ≡ F.names _shelf.old }
    ensures shelf_faults { F.faults _shelf.new ≡ F.faults _shelf.old }
{
    if !is_run(words) {
        return (end(out, Status::Usage, Printed::Usage), nvm);
    }
    match read_to_end(alloc, job, TEXT_BYTES) {
        Ok(text) => run_text(alloc, &text, out, nvm),
        Err(ReadError::Failed) => (end(out, Status::ReadFault, Printed::ReadFault), nvm),
        Err(ReadError::Memory) => (no_memory(out), nvm),
    }
}

/// Runs the job that a text is.
fn run_text<O: Sink>(alloc: Global, text: &[u8], out: &mut O, nvm: Pmem) -> (Status, Pmem)
    requires zero { (i : ℕ) → word_at nvm i ≡ zero_word }
    requires home { AllHome nvm }
    requires commits { nvm.commits ≡ 0 }
    requires cuts { nvm.cuts ≡ 0 }
    ensures run { LeavesText text.now (O.written out.old) (O.written out.new) nvm result.0 result.1 }
    ensures home { AllHome result.1 }
    ensures write_fault { result.0 ≡ Status.WriteFault → Rose (O.faults out.old) (O.faults out.new) }
    ensures wants { TellsWant result.0 (O.written out.old) (O.written out.new) (O.wants out.old) (O.wants out.new) }
    ensures told { is_some (O.written out.new) ≡ is_some (O.written out.old) }
    ensures never_falls { O.faults out.old ≤ O.faults out.new }
{
    match read_job(alloc, text) {
        Ok(parsed) => run_parsed(alloc, &parsed.lines, out, nvm),
        Err(JobError::Bad { line, cause }) => (
            end(out, Status::BadJob, Printed::BadJob(line, cause)),
            nvm,
        ),
        Err(JobError::Memory) => (no_memory(out), nvm),
    }
}
