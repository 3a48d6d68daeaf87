//! Runs the lines of a job on a machine.

ghost use Rattle.std.specs.Prelude.{◌≡◌, ◌≤◌, ◌<◌, ℕ, IfOk, IfErr, OnOk, OnErr, is_some};
ghost use Rattle.std.specs.Io.KnownBytes.{append_known};
ghost use Rattle.pmem_model.specs.Memory.{AllHome};
ghost use Rattle.sls_io.specs.Faults.{Rose};
ghost use Rattle.sls_kernel.specs.Plain.{World};
ghost use Rattle.sls_kernel.specs.Program.{IsOfCode};
ghost use Rattle.sls_kernel.specs.Side.{Running, mode};
ghost use Rattle.sls_kernel.specs.Shows.{Shows, StandsFor, durable_words};
ghost use Rattle.std.specs.List.{AllByRecursion};
ghost use Rattle.job_run.specs.Ends.{HasChannels};
ghost use Rattle.job_run.specs.Report.{line_text, prints_of, after, all_prints, world_after, take_prints, taken};
ghost use Rattle.job_run.specs.Ends.{BreaksAt, Ran, PartWritten, wants_behind};

use crate::drive;
use crate::report::{Printed, print};
use job_script::Line;
use pmem_model::Pmem;
use sls_base::Image;
use sls_io::{Sink, SinkError};
use sls_kernel::Machine;
use std::alloc::Global;

/// Why a run ended before its job.
#[derive(Clone, Copy)]
pub enum BreakCause {
    /// A line wasn't written: the write failed, or the sink had no memory for it.
    NotWritten(SinkError),
    /// There was no memory to light the machine again after a cut.
    NotLit,
}

/// A run that ended before its job: why, and the memory after a last cut.
#[derive(Drop)]
pub struct Broken {
    pub cause: BreakCause,
    pub nvm: Pmem,
    ghost home: { AllHome nvm },
}

/// Prints a line of a machine that runs. Where it can't be written the power is cut.
fn say<O: Sink>(out: &mut O, line: Printed, machine: Machine) -> Result<Machine, Broken>
    requires { mode machine ≡ Running }
    ensures same { IfOk result (λ new. new ≡ machine) }
    ensures written { OnOk result (O.written out.new ≡ append_known (O.written out.old) (line_text line)) }
    ensures part { IfErr result (λ broken. PartWritten broken.cause (O.written out.old) (O.written out.new) line) }
    ensures stands { IfErr result (λ broken. (w : World) → Shows machine w
        → StandsFor (durable_words broken.nvm) w) }
    ensures cause { IfErr result (λ broken. broken.cause ≡ BreakCause.NotWritten SinkError.Failed
        → Rose (O.faults out.old) (O.faults out.new)) }
    ensures no_want { OnOk result (O.wants out.new ≡ O.wants out.old) }
    ensures want { IfErr result (λ broken. O.wants out.new ≡ wants_behind broken.cause (O.wants out.old)) }
    ensures told { is_some (O.written out.new) ≡ is_some (O.written out.old) }
    ensures never_falls { O.faults out.old ≤ O.faults out.new }
{
    match print(out, line) {
        Ok(()) => Ok(machine),
        Err(error) => Err(Broken {
            cause: BreakCause::NotWritten(error),
            nvm: machine.cut().nvm,
        }),
    }
}

/// Accepts up to so many entries of a channel, each a line, up to the first that isn't there.
fn take<O: Sink>(
    channel: u8,
    count: u64,
    out: &mut O,
    mut machine: Machine,
) -> Result<Machine, Broken>
    requires up { mode machine ≡ Running }
    requires channel { channel < 4 }
    ensures up { IfOk result (λ new. mode new ≡ Running) }
    ensures ran { IfOk result (λ new. (w : World) → Shows machine w
        → Ran (O.written out.old) (O.written out.new) new (take_prints count channel w) (taken count channel w)) }
    ensures broke { IfErr result (λ broken. (w : World) → Shows machine w
        → BreaksAt broken.cause (O.written out.old) (O.written out.new) broken.nvm (take_prints count channel w)) }
    ensures cause { IfErr result (λ broken. broken.cause ≡ BreakCause.NotWritten SinkError.Failed
        → Rose (O.faults out.old) (O.faults out.new)) }
    ensures no_want { OnOk result (O.wants out.new ≡ O.wants out.old) }
    ensures want { IfErr result (λ broken. O.wants out.new ≡ wants_behind broken.cause (O.wants out.old)) }
    ensures told { is_some (O.written out.new) ≡ is_some (O.written out.old) }
    ensures never_falls { O.faults out.old ≤ O.faults out.new }
{
    'entries: for _i in 0..count {
        match machine.accept(channel) {
            Some(entry) => match say(out, Printed::Out(channel, entry), machine) {
                Ok(next) => machine = next,
                Err(broken) => return Err(broken),
            },
            None => return say(out, Printed::Dry(channel), machine),
        }
    }
    Ok(machine)
}

/// Runs one line of a job, and prints what it prints.
fn run_line<O: Sink>(
    alloc: Global,
    image: &Image,
    line: Line,
    out: &mut O,
    mut machine: Machine,
) -> Result<Machine, Broken>
    requires up { mode machine ≡ Running }
    requires image { IsOfCode image.now }
    requires channels { HasChannels line }
    ensures up { IfOk result (λ new. mode new ≡ Running) }
    ensures ran { IfOk result (λ new. (w : World) → Shows machine w
        → Ran (O.written out.old) (O.written out.new) new (prints_of line w) (after line w)) }
    ensures broke { IfErr result (λ broken. (w : World) → Shows machine w
        → BreaksAt broken.cause (O.written out.old) (O.written out.new) broken.nvm (prints_of line w)) }
    ensures cause { IfErr result (λ broken. broken.cause ≡ BreakCause.NotWritten SinkError.Failed
        → Rose (O.faults out.old) (O.faults out.new)) }
    ensures no_want { OnOk result (O.wants out.new ≡ O.wants out.old) }
    ensures want { IfErr result (λ broken. O.wants out.new ≡ wants_behind broken.cause (O.wants out.old)) }
    ensures told { is_some (O.written out.new) ≡ is_some (O.written out.old) }
    ensures never_falls { O.faults out.old ≤ O.faults out.new }
{
    match line {
        Line::Cores(_) | Line::Code(_) => Ok(machine),
        Line::Run(count) => {
            drive::run(&mut machine, count);
            Ok(machine)
        }
        Line::Checkpoint => {
            let line = drive::checkpoint(alloc, &mut machine);
            say(out, line, machine)
        }
        Line::Cut(seed) => {
            drive::write_backs(&mut machine, seed);
            match drive::restart(alloc, image, machine) {
                Ok(machine) => {
                    let version = machine.version();
                    say(out, Printed::Up(version), machine)
                }
                Err(nvm) => Err(Broken {
                    cause: BreakCause::NotLit,
                    nvm,
                }),
            }
        }
        Line::Take { channel, n } => take(channel, n, out, machine),
        Line::End => say(out, Printed::Done, machine),
    }
}

/// Runs the lines of a job.
pub fn run_lines<O: Sink>(
    alloc: Global,
    image: &Image,
    lines: &[Line],
    out: &mut O,
    mut machine: Machine,
) -> Result<Machine, Broken>
    requires up { mode machine ≡ Running }
    requires image { IsOfCode image.now }
    requires channels { AllByRecursion HasChannels lines.now }
    ensures up { IfOk result (λ new. mode new ≡ Running) }
    ensures ran { IfOk result (λ new. (w : World) → Shows machine w
        → Ran (O.written out.old) (O.written out.new) new (all_prints lines.now w) (world_after lines.now w)) }
    ensures broke { IfErr result (λ broken. (w : World) → Shows machine w
        → BreaksAt broken.cause (O.written out.old) (O.written out.new) broken.nvm (all_prints lines.now w)) }
    ensures cause { IfErr result (λ broken. broken.cause ≡ BreakCause.NotWritten SinkError.Failed
        → Rose (O.faults out.old) (O.faults out.new)) }
    ensures no_want { OnOk result (O.wants out.new ≡ O.wants out.old) }
    ensures want { IfErr result (λ broken. O.wants out.new ≡ wants_behind broken.cause (O.wants out.old)) }
    ensures told { is_some (O.written out.new) ≡ is_some (O.written out.old) }
    ensures never_falls { O.faults out.old ≤ O.faults out.new }
{
    for line in lines {
        match run_line(alloc, image, *line, out, machine) {
            Ok(next) => machine = next,
            Err(broken) => return Err(broken),
        }
    }
    Ok(machine)
}
