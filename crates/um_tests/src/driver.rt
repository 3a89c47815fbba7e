//! Runs of a command for tests, with reads and writes of a few octets that fail at each call in turn.
ghost use Rattle.std.specs.Prelude.{◌≡◌, ◌==◌, Bool, Some, None, Ok, Err, [], length, nat_lt, not, if◌then◌else◌};
ghost use Rattle.um_driver.specs.um_lines.Refusals.{refused_text};

use std::process::Abort;
use std::test::Fail;
use um_driver::{Command, MemorySink, MemorySource, PlainSource, Source, Status, Text, drive};
use um_io::Failed;
use um_text::{LineFault, refused_line};

/// A command for tests, whose answer to a line depends on the length of the line. A line of one octet inverts `open`, a line of three
/// octets is refused, and the input must not end while `open` is true.
#[derive(Drop)]
struct LineLengthCommand {
    open: bool,
}

impl Command for LineLengthCommand {
    ghost use Rattle.um_driver.specs.um_lines.declared.fault.LineFault.TheVariants.{Word, Order, Twice};

    ghost State = { Bool };

    ghost rules = { record {
      step = λ a line.
          if length line == 3 then Err Word
          else Ok (if nat_lt (length line) 2 then [] else refused_text (length line) Twice, if length line == 1 then not a else a);
      end_fault = λ a. if a then Some Order else None;
    } };

    ghost start = { λ s. s.open };

    ghost represents = { λ s a. s.open ≡ a };

    ghost FixedPart = { Unit {0} };

    ghost kept = { λ _. tt };

    fn answer(&mut self, line: &[u8], out: &mut Text) -> Result<(), LineFault> {
        match line.len() {
            0 => {}
            1 => self.open = !self.open,
            3 => return Err(LineFault::Word),
            count => refused_line(out, count as u64, LineFault::Twice),
        }
        Ok(())
    }

    fn finish(&self) -> Option<LineFault> {
        if self.open {
            Some(LineFault::Order)
        } else {
            None
        }
    }
}

// Checks how a run ends and which octets it writes. The case, a text and a number, is the message of a failed check.
fn check_run<S: Source>(
    rt: &(impl Abort + AllocGlobal),
    case: (&str, u64),
    source: &mut S,
    sink: &mut MemorySink<'_>,
    status: Status,
    output: &[u8],
) {
    let mut sizes = LineLengthCommand { open: false };
    let ended = drive(rt.alloc(), &mut sizes, source, sink);
    let (name, number) = case;
    assert_eq!(rt; ended, status, "{name}, {number}");
    assert_eq!(rt; sink.octets(), output, "{name}, {number}");
}

const EXPECTED_RUNS: [(&str, Status, &str); 12] = [
    ("", Status::Done, ""),
    ("\n", Status::Done, ""),
    (
        "ab\n\nhello\n",
        Status::Done,
        "refused 2 twice\nrefused 5 twice\n",
    ),
    (
        "ab\n\nhello",
        Status::Done,
        "refused 2 twice\nrefused 5 twice\n",
    ),
    ("bad\n", Status::BadInput, "refused 1 word\n"),
    (
        "ab\n\nbad\nhello\n",
        Status::BadInput,
        "refused 2 twice\nrefused 3 word\n",
    ),
    (
        "ab\nbad",
        Status::BadInput,
        "refused 2 twice\nrefused 2 word\n",
    ),
    ("(", Status::BadInput, "refused 2 order\n"),
    ("(\n", Status::BadInput, "refused 2 order\n"),
    (
        "(\nab\n\n",
        Status::BadInput,
        "refused 2 twice\nrefused 4 order\n",
    ),
    ("(\nab\n)", Status::Done, "refused 2 twice\n"),
    ("(\nbad\n", Status::BadInput, "refused 2 word\n"),
];

#[test]
fn lines_are_answered_up_to_the_first_bad_one(rt: HostRuntime) -> Result<(), Fail> {
    for (input, status, output) in EXPECTED_RUNS {
        for most in [1, 2, 7, 5000] {
            let mut source = PlainSource::new(input.as_bytes(), most);
            let mut sink = MemorySink::new(rt.alloc(), 100, most, &[])?;
            let case = (input, most as u64);
            check_run(&rt, case, &mut source, &mut sink, status, output.as_bytes());
        }
    }
    Ok(())
}

// Three lines. If each read returns four octets, the lines end in the first, the third and the fourth read.
const THREE_LINES: &[u8] = b"ab\nhello\nxyzzy\n";

const THREE_ANSWERS: &[u8] = b"refused 2 twice\nrefused 5 twice\nrefused 5 twice\n";

#[test]
fn a_failed_read_leaves_the_answers_to_earlier_lines(rt: HostRuntime) -> Result<(), Fail> {
    let calls = [
        (1, Status::ReadFault, 0),
        (2, Status::ReadFault, 16),
        (3, Status::ReadFault, 16),
        (4, Status::ReadFault, 32),
        (5, Status::ReadFault, 48),
        (6, Status::Done, 48),
    ];
    for (call, status, count) in calls {
        let fails = [call];
        let mut source = MemorySource::new(THREE_LINES, 4, &fails);
        let mut sink = MemorySink::new(rt.alloc(), 48, 48, &[])?;
        let output = &THREE_ANSWERS[..count];
        check_run(&rt, ("read", call), &mut source, &mut sink, status, output);
    }
    Ok(())
}

#[test]
fn a_failed_write_leaves_a_prefix_of_the_answers(rt: HostRuntime) -> Result<(), Fail> {
    let taken = [0, 5, 10, 15, 16, 21, 26, 31, 32, 37, 42, 47, 48];
    for (before, count) in taken.iter().enumerate() {
        let fails = [before as u64 + 1];
        let mut source = PlainSource::new(THREE_LINES, 4);
        let mut sink = MemorySink::new(rt.alloc(), 48, 5, &fails)?;
        let status = if *count < 48 {
            Status::WriteFault
        } else {
            Status::Done
        };
        let case = ("write", before as u64 + 1);
        let output = &THREE_ANSWERS[..*count];
        check_run(&rt, case, &mut source, &mut sink, status, output);
    }
    Ok(())
}

#[test]
fn a_line_of_4096_octets_is_answered_and_one_more_is_long(rt: HostRuntime) -> Result<(), Fail> {
    let mut octets = [b'x'; 4099];
    octets[1] = b'\n';
    let runs: [(&[u8], Status, &[u8]); 3] = [
        (&octets[2..4098], Status::Done, b"refused 4096 twice\n"),
        (&octets[2..], Status::BadInput, b"refused 1 long\n"),
        (&octets, Status::BadInput, b"refused 2 long\n"),
    ];
    for (input, status, output) in runs {
        let mut source = PlainSource::new(input, 1000);
        let mut sink = MemorySink::new(rt.alloc(), 100, 100, &[])?;
        let case = ("octets", input.len() as u64);
        check_run(&rt, case, &mut source, &mut sink, status, output);
    }
    Ok(())
}

#[test]
fn at_most_one_buffer_is_read_beyond_the_answered_lines(rt: HostRuntime) -> Result<(), Fail> {
    let mut octets = [b'x'; 6300];
    for i in 0..300 {
        octets[21 * i + 20] = b'\n';
    }
    let mut source = PlainSource::new(&octets, 4097);
    let mut sink = MemorySink::new(rt.alloc(), 5100, 5100, &[1])?;
    let case = ("write", 1);
    check_run(&rt, case, &mut source, &mut sink, Status::WriteFault, b"");
    assert_eq!(rt; source.take(&mut [0; 6300]), Ok(2203));
    Ok(())
}

/// A source that never ends, with lines of 4,095 octets.
#[derive(Drop)]
struct EndlessSource(usize);

impl Source for EndlessSource {
    ghost left = { λ _. None };

    ghost faults = { λ _. 0 };

    fn take(&mut self, into: &mut [u8]) -> Result<usize, Failed> {
        for octet in into.iter_mut() {
            self.0 = self.0.wrapping_add(1) % 4096;
            *octet = if self.0 == 0 { b'\n' } else { b'x' };
        }
        Ok(into.len())
    }
}

#[test]
fn an_input_above_the_limit_is_answered_up_to_the_limit(rt: HostRuntime) -> Result<(), Fail> {
    let mut source = EndlessSource(0);
    let mut sink = MemorySink::new(rt.alloc(), 400_000, 400_000, &[])?;
    let mut sizes = LineLengthCommand { open: false };
    let ended = drive(rt.alloc(), &mut sizes, &mut source, &mut sink);
    assert_eq!(rt; ended, Status::TooLong);
    assert_eq!(rt; sink.octets().len(), 16_384 * 19);
    Ok(())
}

const EXIT_NUMBERS: [(Status, u8); 7] = [
    (Status::Done, 0),
    (Status::BadWords, 2),
    (Status::BadInput, 3),
    (Status::ReadFault, 4),
    (Status::WriteFault, 5),
    (Status::NoMemory, 6),
    (Status::TooLong, 7),
];

#[test]
fn each_status_has_its_exit_number(rt: HostRuntime) {
    for (status, number) in EXIT_NUMBERS {
        assert_eq!(rt; status.number(), number);
    }
}
