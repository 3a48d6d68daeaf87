//! Programs for the tests, and machines that run them.

ghost use Rattle.std.specs.Prelude.{IfOk};
ghost use Rattle.sls_kernel.specs.Program.{IsOfCode};

use pmem_model::Pmem;
use sls_base::{Image, PAGE_BYTES};
use sls_kernel::{Asked, Did, Machine};
use std::alloc::Global;
use std::process::Abort;
use std::test::Fail;

/// A program that counts up in its page and puts each count, of four bytes, on channel 0: nine instructions a round.
pub const COUNTING: [u32; 9] = [
    0x0400_2283, // lw x5, 64(x0)
    0x0012_8293, // addi x5, x5, 1
    0x0450_2023, // sw x5, 64(x0)
    0x0020_0513, // addi x10, x0, 2
    0x0400_0593, // addi x11, x0, 64
    0x0040_0613, // addi x12, x0, 4
    0x0020_0893, // addi x17, x0, 2
    0x0000_0073, // ecall
    0xFE1F_F06F, // jal x0, -32
];

/// The turns of formatting.
pub const FORMATTING: u32 = 17;
/// The turns of a checkpoint.
pub const CHECKPOINT: u32 = 16;
/// The turns of recovery.
pub const RECOVERY: u32 = 5;

/// The image of a program.
pub fn image_of(rt: &impl Abort, alloc: Global, code: &[u32]) -> Result<Image, Fail>
    ensures { IfOk result IsOfCode }
{
    let mut content = Vec::new(alloc);
    for word in code {
        content.extend_from_slice(&word.to_le_bytes())?;
    }
    assert!(rt; content.len() <= PAGE_BYTES);
    Ok(job_run::image_of(alloc, content)?)
}

/// The image of the program that counts.
pub fn counting(rt: &impl Abort, alloc: Global) -> Result<Image, Fail>
    ensures { IfOk result IsOfCode }
{
    image_of(rt, alloc, &COUNTING)
}

/// A machine that begins to format an empty memory.
pub fn boot(alloc: Global, image: &Image) -> Result<Machine, Fail>
    requires { IsOfCode image.now }
{
    let nvm = Pmem::new(alloc)?;
    let machine = Machine::boot(alloc, image, 1, nvm);
    Ok(machine.ok().ok_or("there is memory for a machine")?)
}

/// A machine that went through a power cut.
pub fn cut_and_light(alloc: Global, machine: Machine, image: &Image) -> Result<Machine, Fail>
    requires { IsOfCode image.now }
{
    let machine = machine.cut().light(alloc, image, 1);
    Ok(machine.ok().ok_or("there is memory for a machine")?)
}

/// What the last of so many turns did.
pub fn turns(machine: &mut Machine, count: u32) -> Did {
    let mut did = Did::Idle;
    for _ in 0..count {
        did = machine.turn(0);
    }
    did
}

/// What asking for a checkpoint gives.
pub fn ask(rt: &impl Abort, alloc: Global, machine: &mut Machine) -> Asked {
    assert!(rt; machine.is_up());
    machine.ask(alloc)
}
