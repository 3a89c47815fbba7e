//! Runs with a failing source or sink.
use crate::code::ACCESS_BURST;
use crate::outside::{StreamLimits, check_run, check_status};
use std::alloc::Global;
use std::process::Abort;
use std::test::Fail;
use um_cli::{MemorySink, PlainRadio, PlainSource, Source, Status};

const ONE_LINE: &[u8] = b"rach 00000000 000000\n";

const TWO_LINES: &[u8] = b"rach 00000000 000000\nrach 00000000 000000\n";

const THREE_LINES: &[u8] = b"rach 00000000 000000\nrach 00000000 000000\nrach 00000000 000000\n";

/// The answers to the three lines, 294 octets.
fn rach_answers(alloc: Global) -> Result<Vec<u8>, Fail> {
    let mut all = Vec::new(alloc);
    for _ in 0..3 {
        all.extend_from_slice(ACCESS_BURST)?;
    }
    Ok(all)
}

// Runs `code` over the input, and checks the status and the output.
fn check_code(
    rt: &(impl Abort + AllocGlobal),
    input: &[u8],
    outside: StreamLimits<'_>,
    status: Status,
    output: &[u8],
) {
    check_run(rt, &["code"], input, outside, status, output);
}

// Runs `code` over an input that begins with `ONE_LINE`, and expects the refusal of its second line after the answer to the first.
fn check_second_line_refused(
    rt: &(impl Abort + AllocGlobal),
    input: &[u8],
    outside: StreamLimits<'_>,
    refusal: &[u8],
) -> Result<(), Fail> {
    let mut output = ACCESS_BURST.to_vec(rt.alloc())?;
    output.extend_from_slice(refusal)?;
    check_code(rt, input, outside, Status::BadInput, output.as_slice());
    Ok(())
}

/// A source that returns one line per read, and a sink that accepts each answer in two writes of 50 and 48 octets.
fn one_line_per_read(failing_puts: &[u64]) -> StreamLimits<'_> {
    StreamLimits {
        max_per_take: 21,
        failing_takes: &[],
        max_per_put: 50,
        failing_puts,
        sink_capacity: 100_000,
    }
}

#[test]
fn a_failed_read_leaves_the_answers_to_the_lines_before(rt: HostRuntime) {
    let third = StreamLimits::failing(8, &[3], &[]);
    check_code(&rt, ONE_LINE, third, Status::ReadFault, b"");
    let second = StreamLimits::failing(21, &[2], &[]);
    check_code(&rt, TWO_LINES, second, Status::ReadFault, ACCESS_BURST);
}

#[test]
fn a_bad_line_is_refused_although_a_later_read_or_write_fails(rt: HostRuntime) -> Result<(), Fail> {
    let second = StreamLimits::failing(25, &[2], &[]);
    let input = b"rach 00000000 000000\nfoo\n";
    check_second_line_refused(&rt, input, second, b"refused 2 word\n")
}

#[test]
fn a_long_line_is_refused_with_its_line_number(rt: HostRuntime) -> Result<(), Fail> {
    let mut input = ONE_LINE.to_vec(rt.alloc())?;
    input.extend_from_slice(&[b'#'; 4097])?;
    let ample = StreamLimits::moving_at_most(10_000);
    check_second_line_refused(&rt, input.as_slice(), ample, b"refused 2 long\n")
}

#[test]
fn a_failed_write_ends_the_run(rt: HostRuntime) {
    let first = StreamLimits::failing(100, &[], &[1]);
    let full = StreamLimits::with_sink_capacity(0);
    for (input, outside) in [(ONE_LINE, first), (ONE_LINE, full), (b"foo", full)] {
        check_code(&rt, input, outside, Status::WriteFault, b"");
    }
}

#[test]
fn any_read_may_fail(rt: HostRuntime) -> Result<(), Fail> {
    let all = rach_answers(rt.alloc())?;
    for (call, status, taken) in [
        (1, Status::ReadFault, 0),
        (2, Status::ReadFault, 98),
        (3, Status::ReadFault, 196),
        (4, Status::ReadFault, 294),
        (5, Status::Done, 294),
    ] {
        let front = all.get(..taken).ok_or("294 octets")?;
        check_code(
            &rt,
            THREE_LINES,
            StreamLimits::failing(21, &[call], &[]),
            status,
            front,
        );
    }
    Ok(())
}

#[test]
fn any_write_may_fail(rt: HostRuntime) -> Result<(), Fail> {
    let all = rach_answers(rt.alloc())?;
    for (call, status, taken) in [
        (1, Status::WriteFault, 0),
        (2, Status::WriteFault, 50),
        (3, Status::WriteFault, 98),
        (4, Status::WriteFault, 148),
        (5, Status::WriteFault, 196),
        (6, Status::WriteFault, 246),
        (7, Status::Done, 294),
    ] {
        let front = all.get(..taken).ok_or("294 octets")?;
        check_code(&rt, THREE_LINES, one_line_per_read(&[call]), status, front);
    }
    Ok(())
}

#[test]
fn at_most_one_buffer_is_read_before_a_line_is_answered(rt: HostRuntime) -> Result<(), Fail> {
    let mut input = Vec::new(rt.alloc());
    for _ in 0..300 {
        input.extend_from_slice(ONE_LINE)?;
    }
    let mut source = PlainSource::new(input.as_slice(), 4097);
    let mut sink = MemorySink::new(rt.alloc(), 100_000, 100_000, &[1])
        .ok()
        .ok_or("no memory")?;
    let mut radio = PlainRadio::new();
    check_status(
        &rt,
        &["code"],
        &mut source,
        &mut sink,
        &mut radio,
        Status::WriteFault,
    );
    assert_eq!(rt; sink.octets(), b"".as_slice());
    let mut rest = [0; 5000];
    let given = source.take(&mut rest).ok().ok_or("no failure")?;
    assert!(rt; given >= 2203, "{given} octets are left");
    Ok(())
}
