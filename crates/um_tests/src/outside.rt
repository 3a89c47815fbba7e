//! Runs a command over octets in memory, and compares the results with the expected ones.
ghost use Rattle.std.specs.Prelude.{◌≤◌};

use std::process::Abort;
use std::test::Fail;
use um_cli::{MemorySink, MemorySource, PlainRadio, PlainSource, Source, Status, Words, run};

/// How many octets a read or a write moves at most, and which reads and writes fail.
#[derive(Clone, Copy)]
pub struct StreamLimits<'a> {
    pub max_per_take: usize,
    pub failing_takes: &'a [u64],
    pub max_per_put: usize,
    pub failing_puts: &'a [u64],
    pub sink_capacity: usize,
    ghost positive_take: { 1 ≤ max_per_take },
    ghost positive_put: { 1 ≤ max_per_put },
}

impl<'a> StreamLimits<'a> {
    /// A source and a sink that never fail, and move at most `most` octets in each call.
    pub fn moving_at_most(most: usize) -> StreamLimits<'a>
        requires { 1 ≤ most }
    {
        StreamLimits::failing(most, &[], &[])
    }

    /// A source and a sink that move at most `most` octets in each call, and fail in the calls with these numbers.
    pub fn failing(
        most: usize,
        failing_takes: &'a [u64],
        failing_puts: &'a [u64],
    ) -> StreamLimits<'a>
        requires { 1 ≤ most }
    {
        StreamLimits {
            max_per_take: most,
            failing_takes,
            max_per_put: most,
            failing_puts,
            sink_capacity: 100_000,
        }
    }

    /// A source and a sink that never fail; the sink has room for this many octets.
    pub fn with_sink_capacity(sink_capacity: usize) -> StreamLimits<'a> {
        StreamLimits {
            max_per_take: 100_000,
            failing_takes: &[],
            max_per_put: 100_000,
            failing_puts: &[],
            sink_capacity,
        }
    }
}

/// Runs the command with this source and this sink, and checks the status.
pub fn check_status<S: Source>(
    rt: &(impl Abort + AllocGlobal),
    words: &[&str],
    source: &mut S,
    sink: &mut MemorySink<'_>,
    radio: &mut PlainRadio,
    status: Status,
) {
    let mut held = Words::new();
    for word in words {
        held.add(word);
    }
    assert_eq!(rt; run(rt.alloc(), &held, source, sink, radio), status);
}

/// Runs the command over the input, and checks the status and the output.
pub fn check_run(
    rt: &(impl Abort + AllocGlobal),
    words: &[&str],
    input: &[u8],
    outside: StreamLimits<'_>,
    status: Status,
    output: &[u8],
) {
    let mut source = MemorySource::new(input, outside.max_per_take, outside.failing_takes);
    let mut sink = MemorySink::new(
        rt.alloc(),
        outside.sink_capacity,
        outside.max_per_put,
        outside.failing_puts,
    )
    .expect(rt, "the sink finds its memory");
    check_status(
        rt,
        words,
        &mut source,
        &mut sink,
        &mut PlainRadio::new(),
        status,
    );
    assert_eq!(rt; sink.octets(), output);
}

/// Runs `check_run` with one, two, seven and many octets in each call.
pub fn check_run_in_pieces(
    rt: &(impl Abort + AllocGlobal),
    words: &[&str],
    input: &[u8],
    status: Status,
    output: &[u8],
) {
    for most in [1, 2, 7, 100_000] {
        check_run(
            rt,
            words,
            input,
            StreamLimits::moving_at_most(most),
            status,
            output,
        );
    }
}

/// Runs `check_run_in_pieces`, and expects the refusal of this line as the whole output.
pub fn check_refusal(
    rt: &(impl Abort + AllocGlobal),
    words: &[&str],
    input: &[u8],
    line: usize,
    reason: &str,
) -> Result<(), Fail> {
    let output = format!(in rt.alloc(); "refused {line} {reason}\n")?;
    check_run_in_pieces(rt, words, input, Status::BadInput, output.as_bytes());
    Ok(())
}

/// Checks that the command reads a line of 4096 octets and refuses a line of 4097 octets.
pub fn check_longest_lines(rt: &(impl Abort + AllocGlobal), words: &[&str]) -> Result<(), Fail> {
    let mut line = vec![in rt.alloc(); b'#'; 4096]?;
    check_run_in_pieces(rt, words, line.as_slice(), Status::Done, b"");
    line.push(b'#')?;
    check_refusal(rt, words, line.as_slice(), 1, "long")
}

/// Checks that the command reads an input of 67,108,864 line feeds, and that one more line feed exceeds the limit.
pub fn check_line_feeds(rt: &(impl Abort + AllocGlobal), words: &[&str]) -> Result<(), Fail> {
    let most = StreamLimits::moving_at_most(5000);
    let mut feeds = vec![in rt.alloc(); b'\n'; 67_108_864]?;
    check_run(rt, words, feeds.as_slice(), most, Status::Done, b"");
    feeds.push(b'\n')?;
    check_run(rt, words, feeds.as_slice(), most, Status::TooLong, b"");
    Ok(())
}

/// The output of the `code` command for this input.
pub fn output_of_code(rt: &(impl Abort + AllocGlobal), input: &[u8]) -> Result<Vec<u8>, Fail> {
    output_of_run(rt, &["code"], input)
}

/// The output of a successful run for this input.
pub fn output_of_run(
    rt: &(impl Abort + AllocGlobal),
    words: &[&str],
    input: &[u8],
) -> Result<Vec<u8>, Fail> {
    let mut source = PlainSource::new(input, 100);
    let mut sink = MemorySink::new(rt.alloc(), 10_000, 10_000, &[])
        .ok()
        .ok_or("no memory")?;
    check_status(
        rt,
        words,
        &mut source,
        &mut sink,
        &mut PlainRadio::new(),
        Status::Done,
    );
    Ok(sink.octets().to_vec(rt.alloc())?)
}
