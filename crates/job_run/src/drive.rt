//! Drives a machine through whole checkpoints, power cuts and runs.

ghost use Rattle.std.specs.Prelude.{◌≡◌, ◌⊎◌, ◌<◌, ◌≤◌, ℕ, IfOk, IfErr, IsTrue};
ghost use Rattle.pmem_model.specs.Memory.{AllHome};
ghost use Rattle.sls_kernel.specs.Plain.{World, cut, commit};
ghost use Rattle.sls_kernel.specs.Side.{Formatting, Recovering, Running, BeforeCommit, mode, left};
ghost use Rattle.sls_kernel.specs.Shows.{Shows, StandsFor, durable_words};
ghost use Rattle.sls_kernel.specs.Program.{IsOfCode};
ghost use Rattle.job_run.specs.Report.{ticks, checkpoint_line, checkpointed};
ghost use Rattle.job_run.specs.Ends.{Keeps, Commits};
ghost use Rattle.job_run.specs.WriteBacks.{chooses, WritesBack};

use crate::report::Printed;
use pmem_model::Pmem;
use sls_base::{Image, Lcg};
use sls_kernel::{Asked, CORE, Machine};
use std::alloc::Global;

/// The bit of a draw that has its word written back.
const CHOICE_BIT: u32 = 33;

/// Turns until a machine that formats or recovers is up.
pub fn bring_up(machine: &mut Machine)
    requires { (mode machine.old ≡ Formatting) ⊎ (mode machine.old ≡ Recovering) }
    ensures up { mode machine.new ≡ Running }
    ensures shows { Keeps machine.old machine.new }
{
    while !machine.is_up() {
        machine.turn(CORE);
    }
}

/// So many ticks.
pub fn run(machine: &mut Machine, count: u64)
    requires { mode machine.old ≡ Running }
    ensures up { mode machine.new ≡ Running }
    ensures shows { (w : World) → Shows machine.old w → Shows machine.new (ticks count w) }
{
    'ticks: for _i in 0..count {
        machine.turn(CORE);
    }
}

/// Turns until a checkpoint has resumed.
fn finish(machine: &mut Machine)
    requires { mode machine.old ≡ BeforeCommit }
    ensures up { mode machine.new ≡ Running }
    ensures shows { Commits machine.old machine.new }
{
    while machine.in_checkpoint() {
        machine.turn(CORE);
    }
}

/// A checkpoint, and its line.
pub fn checkpoint(alloc: Global, machine: &mut Machine) -> Printed
    requires { mode machine.old ≡ Running }
    ensures up { mode machine.new ≡ Running }
    ensures shows { (w : World) → Shows machine.old w
        → (result ≡ checkpoint_line w) × Shows machine.new (checkpointed w) }
{
    match machine.ask(alloc) {
        Asked::Started => {
            finish(machine);
            Printed::Commit(machine.version())
        }
        Asked::VersionSpent(version) => Printed::Spent(version),
        Asked::InFlight | Asked::Memory => unreachable!(),
    }
}

/// Whether a draw has its word written back.
fn chooses(draw: u64) -> bool
    ensures { result ≡ chooses draw }
{
    (draw >> CHOICE_BIT) % 2 == 1
}

/// Writes dirty words back, in rising order, each where the generator draws so.
pub fn write_backs(machine: &mut Machine, seed: u64)
    requires { mode machine.old ≡ Running }
    ensures up { mode machine.new ≡ Running }
    ensures shows { Keeps machine.old machine.new }
    ensures words { WritesBack seed machine.old machine.new }
{
    let mut draws = Lcg { state: seed };
    let mut from = 0;
    while let Some(word) = machine.dirty_from(from) {
        if chooses(draws.next()) {
            machine.write_back(word);
        }
        from = word + 1;
    }
}

/// Cuts the power and gives it back, and turns until the machine is up again. Where there is no memory to light it, its
/// persistent memory comes back after the cut.
pub fn restart(alloc: Global, image: &Image, machine: Machine) -> Result<Machine, Pmem>
    requires up { mode machine ≡ Running }
    requires image { IsOfCode image.now }
    ensures up { IfOk result (λ new. mode new ≡ Running) }
    ensures shows { IfOk result (λ new. (w : World) → Shows machine w → Shows new (cut w)) }
    ensures refused { IfErr result (λ nvm. (w : World) → Shows machine w → StandsFor (durable_words nvm) w) }
    ensures home { IfErr result AllHome }
{
    match machine.cut().light(alloc, image, 1) {
        Ok(mut machine) => {
            bring_up(&mut machine);
            Ok(machine)
        }
        Err(refused) => Err(refused.off.nvm),
    }
}
