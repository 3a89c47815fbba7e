//! Sources and sinks in memory, and those that adapt a reader or a writer.
use std::io;
use std::io::{ErrorKind, Read, Write};
use std::process::Abort;
use std::test::Fail;
use um_driver::{MemorySink, MemorySource, ReadSource, Sink, Source, WriteSink};
use um_io::Failed;

// Checks the result of one read, and the room afterwards.
fn check_take(
    rt: &impl Abort,
    source: &mut impl Source,
    room: &mut [u8],
    expected: Result<usize, Failed>,
    octets: &[u8],
) {
    assert_eq!(rt; source.take(room), expected);
    assert_eq!(rt; &*room, octets);
}

// Checks the result of one write.
fn check_put(rt: &impl Abort, sink: &mut impl Sink, piece: &[u8], expected: Result<usize, Failed>) {
    assert_eq!(rt; sink.put(piece), expected);
}

#[test]
fn a_source_fails_at_given_calls(rt: HostRuntime) {
    let mut source = MemorySource::new(b"ab", 1, &[2]);
    let mut room = [0u8; 3];
    check_take(&rt, &mut source, &mut room, Ok(1), b"a\0\0");
    check_take(&rt, &mut source, &mut room, Err(Failed), b"a\0\0");
    check_take(&rt, &mut source, &mut room, Ok(1), b"b\0\0");
    check_take(&rt, &mut source, &mut room, Ok(0), b"b\0\0");
}

#[test]
fn a_sink_fails_as_given_or_when_full(rt: HostRuntime) -> Result<(), Fail> {
    let mut sink = MemorySink::new(rt.alloc(), 2, 1, &[2])?;
    check_put(&rt, &mut sink, b"abc", Ok(1));
    check_put(&rt, &mut sink, b"bc", Err(Failed));
    check_put(&rt, &mut sink, b"bc", Ok(1));
    check_put(&rt, &mut sink, b"c", Err(Failed));
    check_put(&rt, &mut sink, b"", Ok(0));
    assert_eq!(rt; sink.octets(), b"ab".as_slice());
    Ok(())
}

/// A reader that returns two octets, then fails, then is at the end of its input.
#[derive(Drop)]
struct FailingReader(u8);

impl Read for FailingReader {
    fn read(&mut self, buf: &mut [u8]) -> io::Result<usize> {
        self.0 = self.0.saturating_add(1);
        if self.0 == 2 {
            return Err(ErrorKind::BrokenPipe.into());
        }
        if self.0 > 2 || buf.len() < 2 {
            return Ok(0);
        }
        buf[0] = 7;
        buf[1] = 8;
        Ok(2)
    }
}

#[test]
fn an_error_of_the_reader_is_a_fault(rt: HostRuntime) {
    let mut source = ReadSource::new(FailingReader(0));
    let mut room = [0u8; 4];
    check_take(&rt, &mut source, &mut room, Ok(2), &[7, 8, 0, 0]);
    check_take(&rt, &mut source, &mut room, Err(Failed), &[7, 8, 0, 0]);
    check_take(&rt, &mut source, &mut room, Ok(0), &[7, 8, 0, 0]);
}

/// A writer that takes one octet, then none, then fails.
#[derive(Drop)]
struct FailingWriter(u8);

impl Write for FailingWriter {
    fn write(&mut self, buf: &[u8]) -> io::Result<usize> {
        self.0 = self.0.saturating_add(1);
        match self.0 {
            1 => Ok(buf.len().min(1)),
            2 => Ok(0),
            _ => Err(ErrorKind::StorageFull.into()),
        }
    }

    fn flush(&mut self) -> io::Result<()> {
        Ok(())
    }
}

#[test]
fn a_writer_that_takes_nothing_or_fails_is_a_fault(rt: HostRuntime) {
    let mut sink = WriteSink::new(FailingWriter(0));
    check_put(&rt, &mut sink, b"ab", Ok(1));
    check_put(&rt, &mut sink, b"b", Err(Failed));
    check_put(&rt, &mut sink, b"b", Err(Failed));
}
