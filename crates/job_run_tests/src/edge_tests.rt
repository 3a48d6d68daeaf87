//! Lines that can't be written, and want of memory.

use job_run::{Status, no_memory, run_job};
use pmem_model::Pmem;
use sls_io::{MemShelf, MemSink, MemSource, Sink, SinkError};
use std::alloc::Global;
use std::test::Fail;

/// A job whose report has three lines.
const JOB: &[u8] = b"cores 1\ncode 0000006F\ncheckpoint\ncut 0\nend\n";

/// The report of that job.
const REPORT: &[u8] = b"commit 1\nup 1\ndone\n";

/// The line of a run that finds no memory.
const MEMORY: &[u8] = b"memory\n";

/// A sink that answers the write with one number, from 1, that it has no memory, and counts the writes and its wants.
#[derive(Drop)]
struct NoMemoryAt {
    sink: MemSink,
    number: u64,
    writes: u64,
}

impl NoMemoryAt {
    fn new(alloc: Global, number: u64) -> Self {
        NoMemoryAt {
            sink: MemSink::new(alloc),
            number,
            writes: 0,
        }
    }
}

impl Sink for NoMemoryAt {
    ghost use Rattle.std.specs.Prelude.{Some};

    ghost written = { λ s. Some s.sink.bytes.items };

    ghost faults = { λ s. s.sink.faults };

    ghost wants = { λ s. s.sink.wants };

    fn write(&mut self, bytes: &[u8]) -> Result<(), SinkError> {
        self.writes = self.writes.saturating_add(1);
        if self.writes == self.number {
            self.sink.wants = self.sink.wants.saturating_add(1);
            return Err(SinkError::Memory);
        }
        self.sink.write(bytes)
    }
}

/// The words of a run.
fn run_words(alloc: Global) -> Result<Vec<String>, Fail> {
    let mut words = Vec::new(alloc);
    words.push(String::from_str(alloc, "run")?)?;
    Ok(words)
}

/// Runs the job with these words and this sink.
fn run<O: Sink>(alloc: Global, words: &[String], out: &mut O) -> Result<Status, Fail> {
    let mut job = MemSource::failing(Vec::from_slice(alloc, JOB)?, Vec::new(alloc));
    let mut shelf = MemShelf::new(alloc);
    let (status, _) = run_job(alloc, words, &mut job, out, &mut shelf, Pmem::new(alloc)?);
    Ok(status)
}

#[test]
fn nothing_follows_a_line_that_the_sink_has_no_memory_for(rt: HostRuntime) -> Result<(), Fail> {
    let words = run_words(rt.alloc())?;
    let mut out = NoMemoryAt::new(rt.alloc(), 2);
    let status = run(rt.alloc(), words.as_slice(), &mut out)?;
    assert!(rt; status == Status::Memory);
    assert_eq!(rt; out.sink.bytes.as_slice(), b"commit 1\n".as_slice());
    assert_eq!(rt; out.writes, 2);
    assert_eq!(rt; out.sink.wants, 1);
    Ok(())
}

#[test]
fn nothing_follows_the_line_of_a_status(rt: HostRuntime) -> Result<(), Fail> {
    let mut failing = MemSink::failing(Vec::from_slice(rt.alloc(), &[1])?);
    let status = run(rt.alloc(), &[], &mut failing)?;
    assert!(rt; status == Status::WriteFault);
    assert_eq!(rt; failing.bytes.as_slice(), b"usa".as_slice());
    assert_eq!(rt; failing.calls, 1);
    let mut full = NoMemoryAt::new(rt.alloc(), 1);
    let status = run(rt.alloc(), &[], &mut full)?;
    assert!(rt; status == Status::Memory);
    assert!(rt; full.sink.bytes.is_empty());
    assert_eq!(rt; full.writes, 1);
    assert_eq!(rt; full.sink.wants, 1);
    Ok(())
}

#[test]
fn want_of_memory_is_told(rt: HostRuntime) -> Result<(), Fail> {
    let mut out = MemSink::new(rt.alloc());
    let status = no_memory(&mut out);
    assert!(rt; status == Status::Memory);
    assert_eq!(rt; out.bytes.as_slice(), MEMORY);
    assert_eq!(rt; out.wants, 0);
    Ok(())
}

/// Where an allocation fails, the last line says so, and the lines before it are the first of the report. The sink has its
/// room before.
#[test]
fn a_run_ends_with_its_report_or_for_want_of_memory(rt: HostRuntime) -> Result<(), Fail> {
    let words = run_words(rt.alloc())?;
    let mut out = MemSink::new(rt.alloc());
    out.bytes = Vec::with_capacity(rt.alloc(), REPORT.len() + MEMORY.len())?;
    let status = run(rt.alloc(), words.as_slice(), &mut out)?;
    if status == Status::Done {
        assert_eq!(rt; out.bytes.as_slice(), REPORT);
    } else {
        assert!(rt; status == Status::Memory);
        let written = out.bytes.as_slice().strip_suffix(MEMORY);
        assert!(rt; written.is_some_and(|lines| REPORT.starts_with(lines)));
    }
    Ok(())
}
