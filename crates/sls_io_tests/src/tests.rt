ghost use Rattle.std.specs.Prelude.{◌≡◌, ◌≤◌, OnOk, IsErrOf};
ghost use Rattle.std.specs.List.{flat_map};
ghost use Rattle.std.specs.Io.KnownBytes.{append_known};
ghost use Rattle.sls_io.specs.Faults.{Rose};
ghost use Rattle.sls_io.specs.Sink.{AppendsPrefix, wants_after};

use sls_io::{
    Failed, Found, MemShelf, MemSink, MemSource, ReadError, Shelf, ShelfError, Sink, SinkError,
    Source, StdSink, StdSource, read_to_end,
};
use std::io;
use std::io::{ErrorKind, Read, Write};
use std::test::Fail;

/// Writes each line, through the bound.
fn write_lines<O: Sink>(out: &mut O, lines: &[&[u8]]) -> Result<(), SinkError>
    ensures written { let text = flat_map (λ line. line.now) lines.now in
        OnOk result (O.written out.new ≡ append_known (O.written out.old) text) }
    ensures prefix { let text = flat_map (λ line. line.now) lines.now in
        IsErrOf result SinkError.Failed → AppendsPrefix (O.written out.old) (O.written out.new) text }
    ensures never_falls { O.faults out.old ≤ O.faults out.new }
    ensures failed { IsErrOf result SinkError.Failed → Rose (O.faults out.old) (O.faults out.new) }
    ensures wants { O.wants out.new ≡ wants_after result (O.wants out.old) }
{
    for line in lines {
        out.write(line)?;
    }
    Ok(())
}

/// Puts each entry on the shelf, through the bound.
fn put_all<F: Shelf>(shelf: &mut F, entries: &[(&str, &str)]) -> Result<(), ShelfError> {
    for (name, text) in entries {
        shelf.put(name, text.as_bytes())?;
    }
    Ok(())
}

/// What was found, as a text.
fn shown(found: &Found) -> &[u8] {
    match found {
        Found::Bytes(bytes) => bytes,
        Found::Missing => b"(missing)",
        Found::Long => b"(long)",
    }
}

#[test]
fn reads_to_the_end_or_past_the_limit(rt: HostRuntime) -> Result<(), Fail> {
    let alloc = rt.alloc();
    for (there, limit, read) in [(0, 3, 0), (3, 3, 3), (6, 2, 3), (3_000, 3_000, 3_000)] {
        let mut source = MemSource::new(vec![in alloc; 7; there]?);
        let bytes = read_to_end(alloc, &mut source, limit)?;
        assert_eq!(rt; bytes.len(), read, "of {there} up to {limit}");
    }
    Ok(())
}

#[test]
fn a_source_fails_its_first_read(rt: HostRuntime) -> Result<(), Fail> {
    let alloc = rt.alloc();
    let mut source = MemSource::failing(vec![in alloc; 1, 2]?, vec![in alloc; 1]?);
    assert!(rt; matches!(read_to_end(alloc, &mut source, 9), Err(ReadError::Failed)));
    assert_eq!(rt; source.faults, 1);
    assert!(rt; read_to_end(alloc, &mut source, 9)?.as_slice() == [1, 2].as_slice());
    Ok(())
}

#[test]
fn a_sink_fails_its_second_write_and_keeps_half(rt: HostRuntime) -> Result<(), Fail> {
    let alloc = rt.alloc();
    let lines = [b"ab".as_slice(), b"vwxyz".as_slice(), b"cd".as_slice()];
    let mut sink = MemSink::failing(vec![in alloc; 2]?);
    assert_eq!(rt; write_lines(&mut sink, &lines), Err(SinkError::Failed));
    assert_eq!(rt; sink.bytes.as_slice(), b"abvw".as_slice());
    let mut sound = MemSink::new(alloc);
    assert_eq!(rt; write_lines(&mut sound, &lines), Ok(()));
    assert_eq!(rt; sound.bytes.as_slice(), b"abvwxyzcd".as_slice());
    Ok(())
}

#[test]
fn a_shelf_gives_what_was_put(rt: HostRuntime) -> Result<(), Fail> {
    let alloc = rt.alloc();
    let mut shelf = MemShelf::new(alloc);
    put_all(&mut shelf, &[("one", "old"), ("two", ""), ("one", "abc")])?;
    for (name, limit, text) in [
        ("one", 3, "abc"),
        ("one", 2, "(long)"),
        ("two", 0, ""),
        ("three", 9, "(missing)"),
    ] {
        let found = shelf.get(name, limit)?;
        assert_eq!(rt; shown(&found), text.as_bytes(), "{name} up to {limit}");
    }
    Ok(())
}

#[test]
fn a_shelf_fails_its_second_call(rt: HostRuntime) -> Result<(), Fail> {
    let alloc = rt.alloc();
    let mut shelf = MemShelf::failing(vec![in alloc; 2]?);
    let put = put_all(&mut shelf, &[("one", "abc"), ("one", "no")]);
    assert_eq!(rt; put, Err(ShelfError::Failed));
    let found = shelf.get("one", 3)?;
    assert_eq!(rt; shown(&found), b"abc".as_slice());
    Ok(())
}

/// A reader that is interrupted, then fills the buffer, and then fails.
#[derive(Drop)]
struct Reader {
    calls: u8,
}

impl Read for Reader {
    fn read(&mut self, buf: &mut [u8]) -> io::Result<usize> {
        self.calls = self.calls.saturating_add(1);
        match self.calls {
            1 => Err(io::Error::from(ErrorKind::Interrupted)),
            2 => {
                buf.fill(7);
                Ok(buf.len())
            }
            _ => Err(io::Error::from(ErrorKind::BrokenPipe)),
        }
    }
}

#[test]
fn a_source_over_std_counts_each_error(rt: HostRuntime) {
    let mut source = StdSource::new(Reader { calls: 0 });
    let mut buf = [0; 4];
    assert_eq!(rt; source.read(&mut buf), Ok(4));
    assert_eq!(rt; source.faults, 1);
    assert_eq!(rt; source.read(&mut buf), Err(Failed));
    assert_eq!(rt; source.faults, 2);
    assert_eq!(rt; StdSource::new(rt.stdin()).faults, 0);
}

/// A writer that is interrupted, then takes at most two bytes at a time, and has room for `room` bytes.
#[derive(Drop)]
struct Writer {
    calls: u8,
    room: usize,
}

impl Write for Writer {
    fn write(&mut self, buf: &[u8]) -> io::Result<usize> {
        self.calls = self.calls.saturating_add(1);
        if self.calls == 1 {
            return Err(io::Error::from(ErrorKind::Interrupted));
        }
        let count = buf.len().min(2).min(self.room);
        self.room -= count;
        Ok(count)
    }

    fn flush(&mut self) -> io::Result<()> {
        Ok(())
    }
}

#[test]
fn a_sink_over_std_writes_on_until_nothing_is_taken(rt: HostRuntime) {
    let mut sink = StdSink::new(Writer { calls: 0, room: 6 });
    assert_eq!(rt; sink.write(b"abcde"), Ok(()));
    assert_eq!(rt; sink.inner.room, 1);
    assert_eq!(rt; sink.faults, 1);
    assert_eq!(rt; sink.write(b"fg"), Err(SinkError::Failed));
    assert_eq!(rt; sink.inner.room, 0);
    assert_eq!(rt; sink.faults, 2);
    assert_eq!(rt; StdSink::new(rt.stdout()).write(b""), Ok(()));
}
