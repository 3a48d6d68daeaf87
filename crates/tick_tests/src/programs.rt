//! Programs in source, and the calls that they make.

ghost use Rattle.std.specs.Prelude.{IfOk};
ghost use Rattle.kernel_calls.specs.Kernel.{IsHeld};

use crate::beside::Beside;
use rv_asm::assemble;
use sls_base::{Image, Lcg, ObjId, PAGE_BYTES, Program, RegionSpec};
use std::alloc::Global;
use std::process::Abort;
use std::test::Fail;

/// The thread of a program of one region with one thread, and the first of one with more.
pub const THREAD: ObjId = 10;

/// The names of the calls, by their numbers.
const CALLS: [&str; 19] = [
    "yield",
    "halt",
    "put",
    "get",
    "mem_new",
    "map",
    "unmap",
    "space_new",
    "group_new",
    "cap_copy",
    "cap_drop",
    "thread_new",
    "note_new",
    "signal",
    "wait",
    "conn_new",
    "call",
    "serve",
    "checkpoint",
];

const HALT: u32 = 1;

/// What x10 has after a refusal, by its place in their order.
pub const fn refused(place: u32) -> u32 {
    0u32.wrapping_sub(place)
}

// Rows of calls.

/// A call by its number, its arguments, and what x10 has afterwards.
#[derive(Drop)]
struct Row {
    number: u32,
    arguments: Vec<u32>,
    answer: u32,
}

/// The number that a word of a row is. Below zero it is counted from 2^32 on.
fn number_of(rt: &impl Abort, word: &str) -> u32 {
    let digits = word.strip_prefix('-').unwrap_or(word);
    match digits.parse::<u32>() {
        Ok(number) if digits.len() < word.len() => 0u32.wrapping_sub(number),
        Ok(number) => number,
        Err(_) => {
            assert!(rt; false, "{word} is no number");
            0
        }
    }
}

/// The number of a call, by its name. One that has none is its own number.
fn call_of(rt: &impl Abort, name: &str) -> u32 {
    match CALLS.iter().position(|call| *call == name) {
        Some(number) => number as u32,
        None => number_of(rt, name),
    }
}

/// The row of a call with its arguments, and of an answer.
fn row_of(rt: &impl Abort, alloc: Global, call: &str, answer: &str) -> Result<Row, Fail> {
    let mut words = call.split_whitespace();
    let number = call_of(rt, words.next().unwrap_or(""));
    let mut arguments = Vec::new(alloc);
    for word in words {
        arguments.push(number_of(rt, word))?;
    }
    Ok(Row {
        number,
        arguments,
        answer: number_of(rt, answer.trim_ascii()),
    })
}

/// The rows of a text: on a line a call, its arguments, and its answer behind a sign. Lines without one are remarks.
fn rows_of(rt: &impl Abort, alloc: Global, text: &str) -> Result<Vec<Row>, Fail> {
    let mut rows = Vec::new(alloc);
    for line in text.lines() {
        if let Some((call, answer)) = line.split_once('=') {
            rows.push(row_of(rt, alloc, call, answer)?)?;
        }
    }
    Ok(rows)
}

/// The source of a call: each argument is loaded into its register, and the number into x17.
fn write_call(source: &mut String, number: u32, arguments: &[u32]) -> Result<(), Fail> {
    let mut register = 10u32;
    for argument in arguments {
        if *argument < 2048 {
            write!(source, "addi x{register}, x0, {argument}\n")?;
        } else {
            write!(source, "lui x{register}, {}\n", *argument / 4096)?;
        }
        register = register.wrapping_add(1);
    }
    write!(source, "addi x17, x0, {number}\necall\n")?;
    Ok(())
}

/// The words of a source, as bytes.
fn content_of(rt: &impl Abort, alloc: Global, source: &str) -> Result<Vec<u8>, Fail> {
    let mut content = Vec::new(alloc);
    match assemble(alloc, source.as_bytes()) {
        Ok(words) => {
            for word in words.as_slice() {
                content.extend_from_slice(&word.to_le_bytes())?;
            }
        }
        Err(fault) => assert!(rt; false, "{fault}"),
    }
    assert!(rt; content.len() <= PAGE_BYTES);
    Ok(content)
}

/// A program of so many threads, whose regions have one page each, one behind the other, and the first has a source.
pub fn image_of(
    rt: &impl Abort,
    alloc: Global,
    source: &str,
    threads: u8,
    pages: u32,
) -> Result<Image, Fail> {
    let mut regions = Vec::new(alloc);
    regions.push(RegionSpec {
        base: 0,
        pages: 1,
        rights: 7,
        content: content_of(rt, alloc, source)?,
    })?;
    for page in 1..pages {
        regions.push(RegionSpec {
            base: page.wrapping_mul(4096),
            pages: 1,
            rights: 3,
            content: Vec::new(alloc),
        })?;
    }
    let mut programs = Vec::new(alloc);
    programs.push(Program {
        entry: 0,
        threads,
        channels: 63,
        regions,
    })?;
    Ok(Image { programs })
}

/// The source of the calls of rows, one after another.
fn source_of(alloc: Global, rows: &[Row]) -> Result<String, Fail> {
    let mut source = String::new(alloc);
    for row in rows {
        write_call(&mut source, row.number, row.arguments.as_slice())?;
    }
    Ok(source)
}

/// Both machines of one core, in which a program with one thread makes the calls of some rows, and each has answered.
pub fn answers(rt: &impl Abort, alloc: Global, text: &str) -> Result<Beside, Fail>
    ensures { IfOk result (λ b. IsHeld b.kernel.calls b.kernel.accepted b.kernel.nvm) }
{
    let rows = rows_of(rt, alloc, text)?;
    assert!(rt; !rows.is_empty());
    let source = source_of(alloc, rows.as_slice())?;
    let image = image_of(rt, alloc, source.as_str(), 1, 1)?;
    let mut both = Beside::begin(rt, alloc, &image, 1)?;
    for (i, row) in rows.iter().enumerate() {
        both.ticks(rt, alloc, row.arguments.len().saturating_add(2))?;
        let x10 = both.thread(THREAD).x[10];
        assert!(rt;
            x10 == row.answer,
            "call {i}, number {}, answers {x10:#x}",
            row.number
        );
    }
    Ok(both)
}

/// An argument: mostly a small number, as a place of a capability, or an address in the first pages.
fn drawn_argument(draws: &mut Lcg) -> u32 {
    let draw = draws.next() >> 33;
    match draw % 8 {
        0 => 4096 * ((draw >> 8) % 4 + 1) as u32,
        1 => ((draw >> 8) % 2048) as u32,
        2 | 3 => ((draw >> 8) % 4) as u32,
        _ => ((draw >> 8) % 20) as u32,
    }
}

/// The source in which the program's thread of a number ends, and any other goes on behind it.
fn write_halt(source: &mut String, thread: u32) -> Result<(), Fail> {
    write!(source, "addi x8, x0, {thread}\nbne x9, x8, 12\n")?;
    write_call(source, HALT, &[])
}

/// The source of so many calls that are drawn, again from the begin. At each halt only one of the first threads ends.
pub fn drawn_source(alloc: Global, count: usize, seed: u64) -> Result<String, Fail> {
    let mut draws = Lcg { state: seed };
    let mut source = String::new(alloc);
    write!(source, "addi x9, x10, 0\nagain:\n")?;
    for _ in 0..count {
        let number = ((draws.next() >> 40) % CALLS.len() as u64) as u32;
        let mut arguments = [0; 6];
        for argument in arguments.iter_mut() {
            *argument = drawn_argument(&mut draws);
        }
        if number == HALT {
            write_halt(&mut source, arguments[5] % 5)?;
        } else {
            write_call(&mut source, number, arguments.as_slice())?;
        }
    }
    write!(source, "jal x0, again\n")?;
    Ok(source)
}
