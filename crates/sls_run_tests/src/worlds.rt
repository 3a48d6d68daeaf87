//! Jobs on the machine and on the slow form of the plain machine of the whole kernel: each line has the same answers.
//!
//! Of the calls of that kernel this machine has halt and put alone, so the programs make no other.

ghost use Rattle.sls_kernel.specs.Program.{IsOfCode};

use crate::programs::{
    CHECKPOINT, COUNTING, FORMATTING, RECOVERY, ask, boot, cut_and_light, image_of, turns,
};
use job_script::Line;
use plain_model::{Label, Reply, World, is_accepted};
use sls_base::{Entry, Image};
use sls_kernel::{Asked, Did, Machine};
use std::alloc::Global;
use std::process::Abort;
use std::test::Fail;

/// A program that puts on channel 0 until it is refused, puts the refusal on channel 1 as four bytes, and halts.
const FILLING: [u32; 11] = [
    0x0020_0513, // addi x10, x0, 2
    0x0400_0593, // addi x11, x0, 64
    0x0040_0613, // addi x12, x0, 4
    0x0020_0893, // addi x17, x0, 2
    0x0000_0073, // ecall
    0xFE05_06E3, // beq x10, x0, -20
    0x04A0_2023, // sw x10, 64(x0)
    0x0030_0513, // addi x10, x0, 3
    0x0000_0073, // ecall
    0x0010_0893, // addi x17, x0, 1
    0x0000_0073, // ecall
];

/// One output is lost in a cut, and made again.
const LOST: [Line; 9] = [
    Line::Run(9),
    Line::Checkpoint,
    Line::Run(9),
    Line::Cut(0),
    TAKE_ALL,
    Line::Run(9),
    Line::Checkpoint,
    TAKE_ALL,
    Line::End,
];

/// Nothing is committed.
const UNCOMMITTED: [Line; 4] = [Line::Run(9), Line::Cut(0), TAKE_ALL, Line::End];

/// The ring fills up, and goes on where the device accepts.
const FULL: [Line; 8] = [
    Line::Run(600),
    Line::Checkpoint,
    Line::Take { channel: 0, n: 10 },
    Line::Run(90),
    Line::Cut(3),
    Line::Run(200),
    Line::Checkpoint,
    TAKE_ALL,
];

/// The program halts behind a refusal.
const REFUSED: [Line; 6] = [
    Line::Run(500),
    Line::Cut(1),
    Line::Run(500),
    Line::Checkpoint,
    Line::Take { channel: 1, n: 9 },
    TAKE_ALL,
];

/// Takes each entry of channel 0.
const TAKE_ALL: Line = Line::Take { channel: 0, n: 99 };

/// The first world of an image on one core.
fn first_world(rt: &impl Abort, alloc: Global, image: &Image) -> Result<World, Fail> {
    assert!(rt; is_accepted(image));
    Ok(World::new(alloc, image, 1)?)
}

/// What befalls a world.
fn step(rt: &impl Abort, alloc: Global, world: &mut World, label: Label) -> Result<Reply, Fail> {
    assert!(rt; world.may_step(&label));
    Ok(world.step(alloc, label)?)
}

/// Ticks of both, of which each has a thread to run, or none has.
fn run(
    rt: &impl Abort,
    alloc: Global,
    machine: &mut Machine,
    world: &mut World,
    count: u64,
) -> Result<(), Fail> {
    for _ in 0..count {
        let did = machine.turn(0);
        let reply = step(rt, alloc, world, Label::Tick(0))?;
        assert!(rt;
            match reply {
                Reply::Retired => did == Did::Retired,
                Reply::Idle => did == Did::Idle,
                _ => false,
            }
        );
    }
    Ok(())
}

/// A checkpoint of both, of the same version.
fn checkpoint(
    rt: &impl Abort,
    alloc: Global,
    machine: &mut Machine,
    world: &mut World,
) -> Result<(), Fail> {
    assert_eq!(rt; ask(rt, alloc, machine), Asked::Started);
    let did = turns(machine, CHECKPOINT);
    let reply = step(rt, alloc, world, Label::Commit)?;
    assert!(rt;
        match reply {
            Reply::Committed(version) => did == Did::Committed(version),
            _ => false,
        }
    );
    Ok(())
}

/// A cut of both, after which they are at the same version.
fn cut(
    rt: &impl Abort,
    alloc: Global,
    image: &Image,
    machine: Machine,
    world: &mut World,
) -> Result<Machine, Fail>
    requires { IsOfCode image.now }
{
    let mut machine = cut_and_light(alloc, machine, image)?;
    let did = turns(&mut machine, RECOVERY);
    step(rt, alloc, world, Label::Cut)?;
    assert_eq!(rt; did, Did::Up(world.version()));
    Ok(machine)
}

/// Whether two entries are the same.
fn is_same(one: &Entry, other: &Entry) -> bool {
    one.number == other.number && one.bytes.as_slice() == other.bytes.as_slice()
}

/// Accepts the same entries of a channel from both, as many as there are up to a number.
fn take(
    rt: &impl Abort,
    alloc: Global,
    machine: &mut Machine,
    world: &mut World,
    channel: u8,
    count: u64,
) -> Result<(), Fail> {
    assert!(rt; channel < 4);
    for _ in 0..count {
        assert!(rt; machine.is_up());
        let entry = machine.accept(channel);
        match (entry, step(rt, alloc, world, Label::Accept(channel))?) {
            (Some(entry), Reply::Took(other)) => assert!(rt; is_same(&entry, &other)),
            (None, Reply::NoEntry) => break,
            _ => assert!(rt; false, "one has an entry and the other has none"),
        }
    }
    Ok(())
}

/// Runs a line of a job on both.
fn run_line(
    rt: &impl Abort,
    alloc: Global,
    image: &Image,
    mut machine: Machine,
    world: &mut World,
    line: Line,
) -> Result<Machine, Fail>
    requires { IsOfCode image.now }
{
    match line {
        Line::Cores(_) | Line::Code(_) | Line::End => {}
        Line::Run(count) => run(rt, alloc, &mut machine, world, count)?,
        Line::Checkpoint => checkpoint(rt, alloc, &mut machine, world)?,
        Line::Cut(_) => return cut(rt, alloc, image, machine, world),
        Line::Take { channel, n } => take(rt, alloc, &mut machine, world, channel, n)?,
    }
    Ok(machine)
}

/// Runs the lines of a job on both, with a program.
fn agree(rt: &impl Abort, alloc: Global, code: &[u32], lines: &[Line]) -> Result<(), Fail> {
    let image = image_of(rt, alloc, code)?;
    let mut world = first_world(rt, alloc, &image)?;
    let mut machine = boot(alloc, &image)?;
    turns(&mut machine, FORMATTING);
    for line in lines {
        machine = run_line(rt, alloc, &image, machine, &mut world, *line)?;
    }
    let off = machine.cut();
    for (channel, accepted) in (0..).zip(off.accepted) {
        assert_eq!(rt; accepted, world.accepted(channel), "channel {channel}");
    }
    Ok(())
}

#[test]
fn jobs_have_the_answers_of_the_slow_machine(rt: HostRuntime) -> Result<(), Fail> {
    for lines in [LOST.as_slice(), &UNCOMMITTED, &FULL] {
        agree(&rt, rt.alloc(), &COUNTING, lines)?;
    }
    agree(&rt, rt.alloc(), &FILLING, &REFUSED)
}
