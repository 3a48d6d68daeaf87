use itoa::Buffer;
use job_run::{Status, run_job};
use pmem_model::Pmem;
use sls_io::{MemShelf, MemSink, MemSource};
use std::alloc::Global;
use std::test::Fail;

/// The lines of a program that counts up in its page and puts each count on channel 0: nine instructions a round.
const PROGRAM: &str =
    "cores 1\ncode 04002283\ncode 00128293\ncode 04502023\ncode 00200513\ncode 04000593\ncode 00400613\ncode 00200893\ncode 00000073\ncode FE1FF06F\n";

/// What a run came to.
#[derive(Drop)]
struct Ended {
    status: Status,
    report: Vec<u8>,
}

/// The words of a run.
fn run_words(alloc: Global) -> Result<Vec<String>, Fail> {
    let mut words = Vec::new(alloc);
    words.push(String::from_str(alloc, "run")?)?;
    Ok(words)
}

/// The text of a job of the counting program.
fn whole_text(alloc: Global, lines: &str) -> Result<Vec<u8>, Fail> {
    let mut text = Vec::from_slice(alloc, PROGRAM.as_bytes())?;
    text.extend_from_slice(lines.as_bytes())?;
    Ok(text)
}

/// Runs a job of the counting program, with a sink and a source that fail the calls named.
fn run_with(
    alloc: Global,
    lines: &str,
    failing_reads: &[u64],
    failing_writes: &[u64],
) -> Result<Ended, Fail> {
    run_text(
        alloc,
        &run_words(alloc)?,
        whole_text(alloc, lines)?,
        failing_reads,
        failing_writes,
    )
}

/// Runs a job that is given as a whole.
fn run_text(
    alloc: Global,
    words: &[String],
    text: Vec<u8>,
    failing_reads: &[u64],
    failing_writes: &[u64],
) -> Result<Ended, Fail> {
    let mut job = MemSource::failing(text, Vec::from_slice(alloc, failing_reads)?);
    let mut out = MemSink::failing(Vec::from_slice(alloc, failing_writes)?);
    let mut shelf = MemShelf::new(alloc);
    let nvm = Pmem::new(alloc)?;
    let (status, _) = run_job(alloc, words, &mut job, &mut out, &mut shelf, nvm);
    Ok(Ended {
        status,
        report: out.bytes,
    })
}

/// A whole text of a job, run with ample memory and no failing call.
fn run_whole(alloc: Global, text: &[u8]) -> Result<Ended, Fail> {
    run_text(
        alloc,
        &run_words(alloc)?,
        Vec::from_slice(alloc, text)?,
        &[],
        &[],
    )
}

#[test]
fn jobs_report_as_worked_out_by_hand(rt: HostRuntime) -> Result<(), Fail> {
    for (lines, report) in [
        ("run 100\nend\n", "done\n"),
        (
            "run 9\ncheckpoint\nrun 9\ncut 0\ntake 0 9\nend\n",
            "commit 1\nup 1\nout 0 0 01000000\ndry 0\ndone\n",
        ),
        (
            "run 9\ncheckpoint\nrun 9\ncut 0\ntake 0 9\nrun 9\ncheckpoint\ntake 0 9\nend\n",
            "commit 1\nup 1\nout 0 0 01000000\ndry 0\ncommit 2\nout 0 1 02000000\ndry 0\ndone\n",
        ),
        ("run 9\ncut 0\ntake 0 1\nend\n", "up 0\ndry 0\ndone\n"),
    ] {
        let ended = run_with(rt.alloc(), lines, &[], &[])?;
        assert!(rt; ended.status == Status::Done, "{lines}");
        assert_eq!(rt; ended.report.as_slice(), report.as_bytes(), "{lines}");
    }
    Ok(())
}

#[test]
fn jobs_in_free_form_are_run(rt: HostRuntime) -> Result<(), Fail> {
    for (text, report) in [
        (
            b"cores 1\ncode 0000006F\nrun 100\nend\n".as_slice(),
            b"done\n".as_slice(),
        ),
        (
            b"# a loop\r\n\r\n  cores   01\r\ncode 0000006f  \r\n #run 1\r\n run  007 \r\ncheckpoint\r\n\r\n  cut 3\r\nend",
            b"commit 1\nup 1\ndone\n",
        ),
        (
            b"\n \n#\ncores 1\n# three words\ncode 00000013\ncode 00000013\n\ncode 0000006F\nrun 5\n  take   3   2\n# no more\nend  \n\n# behind the end\n",
            b"dry 3\ndone\n",
        ),
    ] {
        let ended = run_whole(rt.alloc(), text)?;
        assert!(rt; ended.status == Status::Done, "{text:?}");
        assert_eq!(rt; ended.report.as_slice(), report, "{text:?}");
    }
    Ok(())
}

/// The lines of the entries from one number up to another, where entry n is n + 1 in four bytes.
fn add_entries(alloc: Global, text: &mut Vec<u8>, from: u32, to: u32) -> Result<(), Fail> {
    let mut buffer = Buffer::new();
    for number in from..to {
        text.extend_from_slice(b"out 0 ")?;
        text.extend_from_slice(buffer.format(number).as_bytes())?;
        text.extend_from_slice(b" ")?;
        let digits = hex::encode(alloc, &(number + 1).to_le_bytes())?;
        text.extend_from_slice(digits.as_bytes())?;
        text.extend_from_slice(b"\n")?;
    }
    Ok(())
}

#[test]
fn a_full_ring_goes_on_behind_a_cut(rt: HostRuntime) -> Result<(), Fail> {
    let lines = "run 576\ncheckpoint\ntake 0 10\ncut 3\ntake 0 64\nend\n";
    let ended = run_with(rt.alloc(), lines, &[], &[])?;
    let mut report = Vec::from_slice(rt.alloc(), b"commit 1\n")?;
    add_entries(rt.alloc(), &mut report, 0, 10)?;
    report.extend_from_slice(b"up 1\n")?;
    add_entries(rt.alloc(), &mut report, 10, 64)?;
    report.extend_from_slice(b"dry 0\ndone\n")?;
    assert!(rt; ended.status == Status::Done);
    assert!(rt; ended.report.as_slice() == report.as_slice());
    Ok(())
}

#[test]
fn failing_reads_and_writes_end_a_run(rt: HostRuntime) -> Result<(), Fail> {
    let lines = "run 9\ncheckpoint\nrun 9\ncut 0\ntake 0 9\nend\n";
    let written = run_with(rt.alloc(), lines, &[], &[2])?;
    assert!(rt; written.status == Status::WriteFault);
    assert_eq!(rt; written.report.as_slice(), b"commit 1\nup".as_slice());
    let read = run_with(rt.alloc(), lines, &[1], &[])?;
    assert!(rt; read.status == Status::ReadFault);
    assert_eq!(rt; read.report.as_slice(), b"read fault\n".as_slice());
    Ok(())
}

/// Whether a run with these words is refused.
fn is_refused(alloc: Global, words: &[String]) -> Result<bool, Fail> {
    let ended = run_text(alloc, words, Vec::new(alloc), &[], &[])?;
    Ok(ended.status == Status::Usage && ended.report.as_slice() == b"usage\n".as_slice())
}

#[test]
fn other_words_are_no_run(rt: HostRuntime) -> Result<(), Fail> {
    let mut words = run_words(rt.alloc())?;
    words.push(String::from_str(rt.alloc(), "x")?)?;
    assert!(rt; is_refused(rt.alloc(), &[])?);
    assert!(rt; is_refused(rt.alloc(), words.as_slice())?);
    Ok(())
}

#[test]
fn a_bad_job_is_told_with_its_line_and_cause(rt: HostRuntime) -> Result<(), Fail> {
    for (text, report) in [
        (b"".as_slice(), b"bad job 1 NoEnd\n".as_slice()),
        (b"cores 1\ncode 0000006F\n", b"bad job 3 NoEnd\n"),
        (
            b"cores 1\ncode 0000006F\nrunn 9\nend\n",
            b"bad job 3 Word\n",
        ),
        (b"# eight\n\ncores 8\n", b"bad job 3 Word\n"),
        (b"cores 9\n", b"bad job 1 Number\n"),
        (b"cores 1\ncode 12\n", b"bad job 2 Hex\n"),
        (b"cores 1\ncores 1\n", b"bad job 2 Order\n"),
        (
            b"cores 1\ncode 0000006F\nrun 2000001\nend\n",
            b"bad job 3 Draws\n",
        ),
    ] {
        let ended = run_whole(rt.alloc(), text)?;
        assert!(rt; ended.status == Status::BadJob, "{text:?}");
        assert_eq!(rt; ended.report.as_slice(), report, "{text:?}");
    }
    Ok(())
}

#[test]
fn a_job_that_is_too_long_is_told(rt: HostRuntime) -> Result<(), Fail> {
    for (count, report) in [
        (5_000, b"bad job 4097 Lines\n".as_slice()),
        (70_000, b"bad job 0 TooLong\n"),
    ] {
        let mut text = Vec::new(rt.alloc());
        for _ in 0..count {
            text.push(b'\n')?;
        }
        let ended = run_whole(rt.alloc(), text.as_slice())?;
        assert!(rt; ended.status == Status::BadJob);
        assert_eq!(rt; ended.report.as_slice(), report);
    }
    Ok(())
}
