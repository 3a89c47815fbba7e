//! The line reader, with sources in memory.
ghost use Rattle.std.specs.Prelude.{None};

use std::process::Abort;
use std::test::Fail;
use um_driver::{MemorySource, PlainSource, Source};
use um_io::{Failed, Lines, Next};

// Checks the result of reading one more line.
fn check_next<S: Source>(rt: &impl Abort, lines: &mut Lines, source: &mut S, expected: Next<'_>) {
    assert_eq!(rt; lines.next(source), expected);
}

// Checks the number of the last line that was read.
fn check_number(rt: &impl Abort, lines: &Lines, expected: u64) {
    assert_eq!(rt; lines.number(), expected);
}

#[test]
fn the_last_line_needs_no_line_feed(rt: HostRuntime) -> Result<(), Fail> {
    let mut source = PlainSource::new(b"a\nb", 1);
    let mut lines = Lines::new(rt.alloc())?;
    check_number(&rt, &lines, 0);
    check_next(&rt, &mut lines, &mut source, Next::Line(b"a"));
    check_number(&rt, &lines, 1);
    check_next(&rt, &mut lines, &mut source, Next::Line(b"b"));
    check_number(&rt, &lines, 2);
    check_next(&rt, &mut lines, &mut source, Next::End);
    check_next(&rt, &mut lines, &mut source, Next::End);
    Ok(())
}

#[test]
fn a_line_of_4096_octets_is_answered_and_one_more_is_long(rt: HostRuntime) -> Result<(), Fail> {
    let octets = [b'#'; 4097];
    let mut good = Lines::new(rt.alloc())?;
    let mut source = PlainSource::new(&octets[..4096], 5000);
    check_next(&rt, &mut good, &mut source, Next::Line(&octets[..4096]));
    check_next(&rt, &mut good, &mut source, Next::End);

    let mut long = Lines::new(rt.alloc())?;
    let mut source = PlainSource::new(&octets, 5000);
    check_next(&rt, &mut long, &mut source, Next::Long);
    check_next(&rt, &mut long, &mut source, Next::End);
    check_number(&rt, &long, 0);
    Ok(())
}

#[test]
fn nothing_is_read_after_a_failure_or_the_end(rt: HostRuntime) -> Result<(), Fail> {
    let mut source = MemorySource::new(b"a\n", 9, &[1]);
    let mut failed = Lines::new(rt.alloc())?;
    check_next(&rt, &mut failed, &mut source, Next::Failed);
    check_next(&rt, &mut failed, &mut source, Next::End);

    let mut source = MemorySource::new(b"a", 9, &[3]);
    let mut lines = Lines::new(rt.alloc())?;
    check_next(&rt, &mut lines, &mut source, Next::Line(b"a"));
    check_next(&rt, &mut lines, &mut source, Next::End);
    assert_eq!(rt;
        source.take(&mut [0; 1]),
        Err(Failed),
        "this is the third call"
    );
    Ok(())
}

#[test]
fn only_a_line_feed_ends_a_line(rt: HostRuntime) -> Result<(), Fail> {
    let mut source = PlainSource::new(b"\0\r\n\xff\x80\n\n \t", 9);
    let mut lines = Lines::new(rt.alloc())?;
    check_next(&rt, &mut lines, &mut source, Next::Line(b"\0\r"));
    check_next(&rt, &mut lines, &mut source, Next::Line(b"\xff\x80"));
    check_next(&rt, &mut lines, &mut source, Next::Line(b""));
    check_next(&rt, &mut lines, &mut source, Next::Line(b" \t"));
    check_next(&rt, &mut lines, &mut source, Next::End);
    Ok(())
}

#[test]
fn a_read_asks_for_as_much_as_fits(rt: HostRuntime) -> Result<(), Fail> {
    let octets = [b'\n'; 5000];
    let mut source = PlainSource::new(&octets, 5000);
    let mut lines = Lines::new(rt.alloc())?;
    assert!(rt; !lines.is_ready());
    check_next(&rt, &mut lines, &mut source, Next::Line(b""));
    assert!(rt; lines.is_ready());
    assert_eq!(rt; source.take(&mut [0; 5000]), Ok(903));
    Ok(())
}

/// A source of line feeds; the field holds how many of them remain.
#[derive(Drop)]
struct LineFeedSource(usize);

impl Source for LineFeedSource {
    ghost left = { λ _. None };

    ghost faults = { λ _. 0 };

    fn take(&mut self, into: &mut [u8]) -> Result<usize, Failed> {
        let count = self.0.min(into.len());
        into[..count].fill(b'\n');
        self.0 -= count;
        Ok(count)
    }
}

#[test]
fn reading_stops_at_the_input_limit(rt: HostRuntime) -> Result<(), Fail> {
    for past in 0..2 {
        let mut source = LineFeedSource(67_108_864 + past);
        let mut lines = Lines::new(rt.alloc())?;
        for _ in 0..67_108_864 {
            assert!(rt; lines.next(&mut source) == Next::Line(b""));
        }
        let end = if past == 0 { Next::End } else { Next::TooMany };
        check_next(&rt, &mut lines, &mut source, end);
        check_next(&rt, &mut lines, &mut source, Next::End);
        check_number(&rt, &lines, 67_108_864);
    }
    Ok(())
}
