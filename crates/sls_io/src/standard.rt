//! The outside over the readers and writers of std, as over standard input and standard output.
//!
//! These forms tell nothing of their content, since nothing is known of what the system gives or takes. Where the reader
//! or the writer itself tells its bytes, the clauses `inner` say what a call does to them.

ghost use Rattle.std.specs.Prelude.{◌≡◌, ◌≤◌, ℕ, take, None, IfErr, OnOk, OnErr};
ghost use Rattle.std.specs.Io.{ReadsAtMost};
ghost use Rattle.std.specs.Io.KnownBytes.{Appends, ReadConsumes};
ghost use Rattle.sls_io.specs.Faults.{Rose};

use crate::faults::raise;
use crate::{Failed, Sink, SinkError, Source};
use std::io::{ErrorKind, Read, Write};

/// A source over a reader of std, as `StdSource::new(rt.stdin())`. It counts each error of the reader.
#[derive(Drop)]
pub struct StdSource<R> {
    pub inner: R,
    pub faults: u64,
}

impl<R> StdSource<R> {
    /// The source over `inner`, without a fault.
    pub fn new(inner: R) -> Self
        ensures inner { result.inner ≡ inner }
        ensures faults { result.faults ≡ 0 }
    {
        StdSource { inner, faults: 0 }
    }
}

impl<R: Read> Source for StdSource<R> {
    ghost left = { λ _. None };

    ghost faults = { λ s. s.faults };

    /// Reads again where the reader was interrupted.
    fn read(&mut self, buf: &mut [u8]) -> Result<usize, Failed>
        ensures bound { ReadsAtMost result buf.new }
        ensures never_falls { self.old.faults ≤ self.new.faults }
        ensures failed { OnErr result (Rose self.old.faults self.new.faults) }

        // What the reader itself tells of its bytes.
        ensures inner { ReadConsumes (R.remaining self.old.inner) (R.remaining self.new.inner)
            result buf.new }
    {
        for _ in 0..u64::MAX {
            match self.inner.read(buf) {
                Ok(count) => return Ok(count),
                Err(error) => {
                    raise(&mut self.faults);
                    if error.kind() != ErrorKind::Interrupted {
                        return Err(Failed);
                    }
                }
            }
        }
        raise(&mut self.faults);
        Err(Failed)
    }
}

/// A sink over a writer of std, as `StdSink::new(rt.stdout())`. It counts each error of the writer.
#[derive(Drop)]
pub struct StdSink<W> {
    pub inner: W,
    pub faults: u64,
}

impl<W> StdSink<W> {
    /// The sink over `inner`, without a fault.
    pub fn new(inner: W) -> Self
        ensures inner { result.inner ≡ inner }
        ensures faults { result.faults ≡ 0 }
    {
        StdSink { inner, faults: 0 }
    }
}

impl<W: Write> Sink for StdSink<W> {
    ghost written = { λ _. None };

    ghost faults = { λ s. s.faults };

    ghost wants = { λ _. 0 };

    /// Writes piece by piece until the writer has taken all, and again where it was interrupted. That the writer takes
    /// nothing of a piece is an error too.
    fn write(&mut self, bytes: &[u8]) -> Result<(), SinkError>
        ensures only_failed { IfErr result (λ error. error ≡ SinkError.Failed) }
        ensures never_falls { self.old.faults ≤ self.new.faults }
        ensures failed { OnErr result (Rose self.old.faults self.new.faults) }

        // What the writer itself tells of its bytes.
        ensures inner { OnOk result (
            Appends (W.contents self.old.inner) (W.contents self.new.inner) bytes.now) }
        ensures inner_prefix { OnErr result ((count : ℕ)
            × Appends (W.contents self.old.inner) (W.contents self.new.inner) (take count bytes.now)) }
    {
        let mut rest = bytes;
        for _ in 0..u64::MAX {
            if rest.is_empty() {
                return Ok(());
            }
            match self.inner.write(rest) {
                Ok(0) => break,
                Ok(count) => rest = &rest[count..],
                Err(error) => {
                    raise(&mut self.faults);
                    if error.kind() != ErrorKind::Interrupted {
                        return Err(SinkError::Failed);
                    }
                }
            }
        }
        raise(&mut self.faults);
        Err(SinkError::Failed)
    }
}
