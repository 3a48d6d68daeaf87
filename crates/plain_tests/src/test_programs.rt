//! Programs for the tests, from their source to a world.

use plain_model::{Label, Reply, World, is_accepted};
use rv_asm::assemble;
use sls_base::{Image, ObjId, PAGE_BYTES, Program, RegionSpec};
use std::alloc::Global;
use std::process::Abort;
use std::test::Fail;

/// A call by its number, its arguments, and what x10 has afterwards.
pub type Row<'a> = (u32, &'a [u32], u32);

/// The thread of a program with one region, the first object after its group, its space and its memory object.
pub const THREAD: ObjId = 10;

// The calls.
pub const YIELD: u32 = 0;

pub const HALT: u32 = 1;

pub const PUT: u32 = 2;

pub const GET: u32 = 3;

pub const MEM_NEW: u32 = 4;

pub const MAP: u32 = 5;

pub const UNMAP: u32 = 6;

pub const SPACE_NEW: u32 = 7;

pub const GROUP_NEW: u32 = 8;

pub const CAP_COPY: u32 = 9;

pub const CAP_DROP: u32 = 10;

pub const THREAD_NEW: u32 = 11;

pub const NOTE_NEW: u32 = 12;

pub const SIGNAL: u32 = 13;

pub const WAIT: u32 = 14;

pub const CONN_NEW: u32 = 15;

pub const CONN_CALL: u32 = 16;

pub const SERVE: u32 = 17;

pub const CHECKPOINT: u32 = 18;

/// What x10 has after a refusal, by its place in their order.
pub const fn refused(place: u32) -> u32 {
    0u32.wrapping_sub(place)
}

/// The source of a call: each argument is loaded into its register, and the number into x17.
pub fn write_call(source: &mut String, number: u32, arguments: &[u32]) -> Result<(), Fail> {
    let mut register = 10u32;
    for argument in arguments {
        if *argument < 2048 {
            write!(source, "addi x{register}, x0, {argument}\n")?;
        } else {
            write!(source, "lui x{register}, {}\n", *argument / 4096)?;
        }
        register = register.wrapping_add(1);
    }
    write!(source, "addi x17, x0, {number}\necall\n")?;
    Ok(())
}

/// The words of a source, as bytes.
fn content_of(rt: &impl Abort, alloc: Global, source: &str) -> Result<Vec<u8>, Fail> {
    let mut content = Vec::new(alloc);
    match assemble(alloc, source.as_bytes()) {
        Ok(words) => {
            for word in words.as_slice() {
                content.extend_from_slice(&word.to_le_bytes())?;
            }
        }
        Err(fault) => assert!(rt; false, "{fault}"),
    }
    Ok(content)
}

/// A program of so many threads, of one page with a source.
pub fn image_of(rt: &impl Abort, alloc: Global, source: &str, threads: u8) -> Result<Image, Fail> {
    let content = content_of(rt, alloc, source)?;
    assert!(rt; content.len() <= PAGE_BYTES);
    let mut regions = Vec::new(alloc);
    regions.push(RegionSpec {
        base: 0,
        pages: 1,
        rights: 7,
        content,
    })?;
    let mut programs = Vec::new(alloc);
    programs.push(Program {
        entry: 0,
        threads,
        channels: 63,
        regions,
    })?;
    Ok(Image { programs })
}

/// The first world of an image, on so many cores.
pub fn first_world(
    rt: &impl Abort,
    alloc: Global,
    image: &Image,
    cores: u8,
) -> Result<World, Fail> {
    assert!(rt; is_accepted(image) && 1 <= cores && cores <= 8);
    Ok(World::new(alloc, image, cores)?)
}

/// What befalls a world.
pub fn step(
    rt: &impl Abort,
    alloc: Global,
    world: &mut World,
    label: Label,
) -> Result<Reply, Fail> {
    assert!(rt; world.may_step(&label));
    Ok(world.step(alloc, label)?)
}

/// A tick of a core, and a commit where it wishes for one.
pub fn tick(rt: &impl Abort, alloc: Global, world: &mut World, core: u8) -> Result<Reply, Fail> {
    let reply = step(rt, alloc, world, Label::Tick(core))?;
    if matches!(reply, Reply::Wished) {
        step(rt, alloc, world, Label::Commit)?;
    }
    Ok(reply)
}

/// Ticks of the first core, one after another.
pub fn ticks(rt: &impl Abort, alloc: Global, world: &mut World, count: usize) -> Result<(), Fail> {
    for _ in 0..count {
        tick(rt, alloc, world, 0)?;
    }
    Ok(())
}

/// What x10 of a thread has.
pub fn x10(world: &World, id: ObjId) -> u32 {
    match world.thread(id) {
        Some(view) => view.x10,
        None => 0,
    }
}

/// A world of one core in which a program with one thread makes the calls of some rows, and is at the first.
pub fn world_of_calls(rt: &impl Abort, alloc: Global, rows: &[Row]) -> Result<World, Fail> {
    let mut source = String::new(alloc);
    for (number, arguments, _) in rows {
        write_call(&mut source, *number, arguments)?;
    }
    let image = image_of(rt, alloc, source.as_str(), 1)?;
    first_world(rt, alloc, &image, 1)
}

/// Runs the calls one after another, and compares what each answers.
pub fn compare(
    rt: &impl Abort,
    alloc: Global,
    world: &mut World,
    rows: &[Row],
) -> Result<(), Fail> {
    for (i, (number, arguments, answer)) in rows.iter().enumerate() {
        ticks(rt, alloc, world, arguments.len() + 2)?;
        let x10 = x10(world, THREAD);
        assert!(rt;
            x10 == *answer,
            "call {i}, number {number}, answers {x10:#x} and not {answer:#x}"
        );
    }
    Ok(())
}

/// The world after the calls of some rows, each of which answered as it should.
pub fn answers(rt: &impl Abort, alloc: Global, rows: &[Row]) -> Result<World, Fail> {
    let mut world = world_of_calls(rt, alloc, rows)?;
    compare(rt, alloc, &mut world, rows)?;
    Ok(world)
}
