//! Adapters that make a source from any `Read` and a sink from any `Write`.
ghost use Rattle.std.specs.Prelude.{◌≡◌, ◌≤◌, OnOk, OnErr};
ghost use Rattle.std.specs.Io.{ReadsAtMost, WritesAtMost};
ghost use Rattle.std.specs.Io.KnownBytes.{ReadConsumes, WriteAppends};
ghost use Rattle.um_io.specs.Streams.{next_failure_count, FailureCountRose, TakesAtLeastOneOctet};

use crate::streams::{Failed, Sink, Source, count_failure};
use std::io::{Read, Write};

/// A source that reads from a `Read` and counts each error of the reader as a failure.
///
/// If the contract of the reader says which octets remain, so does the contract of the source.
#[derive(Debug, Drop)]
pub struct ReadSource<R> {
    reader: R,
    faults: u64,
}

impl<R: Read> ReadSource<R> {
    pub fn new(reader: R) -> Self
        ensures left { ⟦<ReadSource<R> as Source>⟧.left result ≡ R.remaining reader }
        ensures faults { ⟦<ReadSource<R> as Source>⟧.faults result ≡ 0 }
    {
        ReadSource { reader, faults: 0 }
    }
}

impl<R: Read> Source for ReadSource<R> {
    ghost left = { λ s. R.remaining s.reader };

    ghost faults = { λ s. s.faults };

    fn take(&mut self, into: &mut [u8]) -> Result<usize, Failed>
        ensures bound { ReadsAtMost result into.new }
        ensures octets { let left = ⟦<ReadSource<R> as Source>⟧.left in
            ReadConsumes (left self.old) (left self.new) result into.new }
        ensures later { let count = ⟦<ReadSource<R> as Source>⟧.faults in count self.old ≤ count self.new }
        ensures cause { let count = ⟦<ReadSource<R> as Source>⟧.faults in
            OnErr result (FailureCountRose (count self.old) (count self.new)) }
        ensures unchanged { let count = ⟦<ReadSource<R> as Source>⟧.faults in
            OnOk result (count self.new ≡ count self.old) }
        ensures counted { let count = ⟦<ReadSource<R> as Source>⟧.faults in
            OnErr result (count self.new ≡ next_failure_count (count self.old)) }
    {
        match self.reader.read(into) {
            Ok(count) => Ok(count),
            Err(_) => Err(count_failure(&mut self.faults)),
        }
    }
}

/// A sink that writes to a `Write`. It counts as a failure each error of the writer, and each call in which the writer takes none of the
/// octets offered.
///
/// If the contract of the writer says which octets were taken, so does the contract of the sink.
#[derive(Debug, Drop)]
pub struct WriteSink<W> {
    writer: W,
    faults: u64,
}

impl<W: Write> WriteSink<W> {
    pub fn new(writer: W) -> Self
        ensures taken { ⟦<WriteSink<W> as Sink>⟧.taken result ≡ W.contents writer }
        ensures faults { ⟦<WriteSink<W> as Sink>⟧.faults result ≡ 0 }
    {
        WriteSink { writer, faults: 0 }
    }
}

impl<W: Write> Sink for WriteSink<W> {
    ghost taken = { λ s. W.contents s.writer };

    ghost faults = { λ s. s.faults };

    fn put(&mut self, piece: &[u8]) -> Result<usize, Failed>
        ensures bound { WritesAtMost result piece.now }
        ensures some { TakesAtLeastOneOctet result piece.now }
        ensures octets { let taken = ⟦<WriteSink<W> as Sink>⟧.taken in
            WriteAppends (taken self.old) (taken self.new) result piece.now }
        ensures later { let count = ⟦<WriteSink<W> as Sink>⟧.faults in count self.old ≤ count self.new }
        ensures cause { let count = ⟦<WriteSink<W> as Sink>⟧.faults in
            OnErr result (FailureCountRose (count self.old) (count self.new)) }
        ensures unchanged { let count = ⟦<WriteSink<W> as Sink>⟧.faults in
            OnOk result (count self.new ≡ count self.old) }
        ensures counted { let count = ⟦<WriteSink<W> as Sink>⟧.faults in
            OnErr result (count self.new ≡ next_failure_count (count self.old)) }
    {
        match self.writer.write(piece) {
            Ok(count) if count > 0 || piece.is_empty() => Ok(count),
            _ => Err(count_failure(&mut self.faults)),
        }
    }
}
