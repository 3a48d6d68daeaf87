use job_script::{JobCause, JobError, Line, read_job};
use std::alloc::{AllocError, Global};
use std::test::Fail;

/// The same lines as texts that differ in case, comments, spaces, zeros and the ends of lines.
const SAME: &[Line] = &[
    Line::Cores(1),
    Line::Code(0x6F),
    Line::Run(9),
    Line::Take { channel: 0, n: 2 },
    Line::End,
];

/// A line of each kind.
const EACH: &[Line] = &[
    Line::Cores(1),
    Line::Code(0x6F),
    Line::Code(0xDEAD_BEEF),
    Line::Run(9),
    Line::Checkpoint,
    Line::Cut(1),
    Line::Take { channel: 3, n: 2 },
    Line::End,
];

/// Texts and the lines that they say.
const JOBS: [(&[u8], &[Line]); 6] = [
    (
        b"cores 1\ncode 0000006F\ncode deadBEEF\nrun 9\ncheckpoint\ncut 1\ntake 3 2\nend\n",
        EACH,
    ),
    (b"cores 1\ncode 0000006f\nrun 9\ntake 0 2\nend\n", SAME),
    (b"cores 1\ncode 0000006f\nrun 9\ntake 0 2\nend", SAME),
    (
        b"cores 1\r\ncode 0000006f\r\nrun 9\r\ntake 0 2\r\nend\r\n",
        SAME,
    ),
    (
        b"  cores   01  \ncode  0000006F\n run 00000000000000000009\ntake  0  2 \nend ",
        SAME,
    ),
    (
        b"# a job\n\ncores 1\n  # one two three four\ncode 0000006f\n#run 8\nrun 9\n \r\ntake 0 2\nend\n#\n \n\n",
        SAME,
    ),
];

/// How many lines a text says, or the line at fault and its cause.
type Outcome = Result<usize, (u32, JobCause)>;

/// Texts and what comes of them.
const TEXTS: [(&[u8], Outcome); 38] = [
    // numbers have up to 20 digits, and are below 2^64
    (
        b"cores 1\ncode 0000006f\ncut 18446744073709551615\nend\n",
        Ok(4),
    ),
    (
        b"cores 1\ncode 0000006f\nrun 00000000000002000000\nrun 0\nend\n",
        Ok(5),
    ),
    (
        b"cores 1\ncode 0000006f\ntake 0 18446744073709551615\nend\n",
        Ok(4),
    ),
    (
        b"cores 1\ncode 0000006f\ncut 18446744073709551616\nend\n",
        Err((3, JobCause::Number)),
    ),
    (
        b"cores 1\ncode 0000006f\ncut 000000000000000000000\nend\n",
        Err((3, JobCause::Number)),
    ),
    (
        b"cores 1\ncode 0000006f\ncut +1\nend\n",
        Err((3, JobCause::Number)),
    ),
    (
        b"cores 1\ncode 0000006f\nrun 0x1\nend\n",
        Err((3, JobCause::Number)),
    ),
    (
        b"cores 1\ncode 0000006f\ntake 4 1\nend\n",
        Err((3, JobCause::Number)),
    ),
    (
        b"cores 1\ncode 0000006f\ntake 0 18446744073709551616\nend\n",
        Err((3, JobCause::Number)),
    ),
    // lines that there aren't
    (
        b"cores 1\ncode 0000006f\nimage p\nend\n",
        Err((3, JobCause::Word)),
    ),
    (
        b"cores 1\ncode 0000006f\nlcg 1\nend\n",
        Err((3, JobCause::Word)),
    ),
    (
        b"cores 1\ncode 0000006f\ncheckpoint-cut 0 1\nend\n",
        Err((3, JobCause::Word)),
    ),
    (
        b"cores 1\ncode 0000006f\nmash 1 1\nend\n",
        Err((3, JobCause::Word)),
    ),
    (
        b"cores 1\ncode 0000006f\nshow\nend\n",
        Err((3, JobCause::Word)),
    ),
    (
        b"cores 1\ncode 0000006f\nRUN 1\nend\n",
        Err((3, JobCause::Word)),
    ),
    // each cause, and which of several comes first
    (b"", Err((1, JobCause::NoEnd))),
    (b"cores 1\ncode 0000006F\n", Err((3, JobCause::NoEnd))),
    (b"cores 1\ncode 0000006F\n\n#", Err((5, JobCause::NoEnd))),
    (
        b"cores 1\ncode 0000006f\nrunn 9\nend\n",
        Err((3, JobCause::Word)),
    ),
    (b"cores 1\ncode 0000006f\nend\r", Err((3, JobCause::Word))),
    (b"cores\t1\n", Err((1, JobCause::Word))),
    (b"cores 1\ncode\n", Err((2, JobCause::Word))),
    (
        b"cores 1\ncode 0000006f\ntake 0 1 2\nend\n",
        Err((3, JobCause::Word)),
    ),
    (
        b"cores 1\ncode 0000006f\nend # now\n",
        Err((3, JobCause::Word)),
    ),
    (b"cores 2\n", Err((1, JobCause::Word))),
    (b"cores 1\ncores 8\n", Err((2, JobCause::Word))),
    (b"cores 0\n", Err((1, JobCause::Number))),
    (b"cores 9\n", Err((1, JobCause::Number))),
    (b"cores 1\ncores x\n", Err((2, JobCause::Number))),
    (b"code 12\n", Err((1, JobCause::Hex))),
    (b"cores 1\ncode 0000000g\n", Err((2, JobCause::Hex))),
    (b"cores 1\ncode 00000006f\n", Err((2, JobCause::Hex))),
    (b"cores 1\ncores 1\n", Err((2, JobCause::Order))),
    (b"cores 1\nrun 2000001\n", Err((2, JobCause::Order))),
    (
        b"cores 1\ncode 0000006f\nrun 1\ncode 0000006f\n",
        Err((4, JobCause::Order)),
    ),
    (
        b"cores 1\ncode 0000006f\nend\n\nend\n",
        Err((5, JobCause::Order)),
    ),
    (
        b"cores 1\ncode 0000006f\nrun 1000000\n\nrun 1000001\nrunn 9\n",
        Err((5, JobCause::Draws)),
    ),
    (
        b"cores 1\ncode 0000006f\nrun 1\nrun 18446744073709551615\n",
        Err((4, JobCause::Draws)),
    ),
];

/// A text: its front, a line, how often it stands there, and what follows.
type Long = (&'static [u8], &'static [u8], usize, &'static [u8]);

/// Texts on both sides of each limit, and what comes of them.
const LIMITS: [(Long, Outcome); 8] = [
    // 1,024 words
    (
        (b"cores 1\n", b"code 0000006f\n", 1_024, b"end\n"),
        Ok(1_026),
    ),
    (
        (b"cores 1\n", b"code 0000006f\n", 1_025, b"end\n"),
        Err((1_026, JobCause::Order)),
    ),
    // 4,096 lines
    ((b"cores 1\ncode 0000006f\n", b"\n", 4_093, b"end\n"), Ok(3)),
    (
        (b"cores 1\ncode 0000006f\n", b"\n", 4_093, b"end\n "),
        Err((4_097, JobCause::Lines)),
    ),
    (
        (b"cores 1\ncode 0000006f\n", b"\n", 4_094, b"end\n"),
        Err((4_097, JobCause::Lines)),
    ),
    (
        (b"cores 1\ncode 0000006f\n", b"\n", 4_094, b""),
        Err((4_097, JobCause::NoEnd)),
    ),
    // 65,536 bytes, of which the front has 26
    ((b"cores 1\ncode 0000006f\nend\n", b"#", 65_510, b""), Ok(3)),
    (
        (b"cores 1\ncode 0000006f\nend\n", b"#", 65_511, b""),
        Err((0, JobCause::TooLong)),
    ),
];

/// Whether a text is a job with these lines.
fn says(alloc: Global, text: &[u8], lines: &[Line]) -> bool {
    match read_job(alloc, text) {
        Ok(job) => job.lines.as_slice() == lines,
        Err(_) => false,
    }
}

/// What comes of a text; nothing where there is no memory.
fn outcome_of(alloc: Global, text: &[u8]) -> Option<Outcome> {
    match read_job(alloc, text) {
        Ok(job) => Some(Ok(job.lines.len())),
        Err(JobError::Bad { line, cause }) => Some(Err((line, cause))),
        Err(JobError::Memory) => None,
    }
}

/// The bytes of a long text.
fn bytes_of(alloc: Global, long: Long) -> Result<Vec<u8>, AllocError> {
    let (front, line, count, back) = long;
    let mut text = Vec::from_slice(alloc, front)?;
    for _ in 0..count {
        text.extend_from_slice(line)?;
    }
    text.extend_from_slice(back)?;
    Ok(text)
}

/// What comes of a long text.
fn long_outcome_of(alloc: Global, long: Long) -> Option<Outcome> {
    let text = bytes_of(alloc, long).ok()?;
    outcome_of(alloc, &text)
}

#[test]
fn each_line_is_read_and_comments_spaces_and_ends_of_lines_are_free(rt: HostRuntime) {
    for (text, lines) in &JOBS {
        assert!(rt; says(rt.alloc(), text, lines), "{text:?}");
    }
}

#[test]
fn the_first_line_at_fault_has_its_first_cause(rt: HostRuntime) {
    for (text, outcome) in &TEXTS {
        let found = outcome_of(rt.alloc(), text);
        assert_eq!(rt; found, Some(*outcome), "{text:?}");
    }
}

#[test]
fn words_lines_and_bytes_have_limits(rt: HostRuntime) {
    for (long, outcome) in &LIMITS {
        let found = long_outcome_of(rt.alloc(), *long);
        assert_eq!(rt; found, Some(*outcome));
    }
}

#[test]
fn faults_are_printed(rt: HostRuntime) -> Result<(), Fail> {
    let refused = JobError::Bad {
        line: 3,
        cause: JobCause::NoEnd,
    };
    let text = format!(in rt.alloc(); "{refused}")?;
    assert!(rt; text.as_str() == "bad job 3 NoEnd");
    Ok(())
}
