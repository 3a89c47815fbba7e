//! Scripts of `link` that invert many bits, the longest lines that are allowed, and lines that are refused.
use crate::outside::{StreamLimits, check_refusal, check_run, check_run_in_pieces, output_of_run};
use std::alloc::Global;
use std::process::Abort;
use std::test::Fail;
use um_cli::Status;

const LINK_SDCCH_WORDS: [&str; 2] = ["link", "0"];

/// A script that inverts seven bits of a block, which yields another codeword, and three training bits, which does not change the data.
const INVERTED_BITS_SCRIPT: &[u8] = b"net idle
down flip 3 131 263 277 318 450 541
net idle
down flip 61 62 63
";

const INVERTED_BITS_ANSWERS: &[u8] = b"net sends 0303012b2b2b2b2b2b2b2b2b2b2b2b2b2b2b2b2b2b2b2b
ok
mob drops tsc 7 train 0 metric 57912 data 0203012b2b2b2b2b2b2b2b2b2b2b2b2b2b2b2b2b2b2b2b check 2c4e540233
ok
net sends 0303012b2b2b2b2b2b2b2b2b2b2b2b2b2b2b2b2b2b2b2b
ok
mob takes 0303012b2b2b2b2b2b2b2b2b2b2b2b2b2b2b2b2b2b2b2b tsc 7 train 3 metric 57912
ok
";

#[test]
fn seven_inverted_bits_give_another_codeword(rt: HostRuntime) {
    check_run_in_pieces(
        &rt,
        &["link", "7"],
        INVERTED_BITS_SCRIPT,
        Status::Done,
        INVERTED_BITS_ANSWERS,
    );
}

/// Ranges of bits of a block to invert: the first index, and the index after the last.
const INVERTED_BIT_RANGES: [(u32, u32); 8] = [
    (0, 10),
    (61, 87),
    (3, 60),
    (0, 148),
    (148, 296),
    (0, 296),
    (0, 591),
    (0, 592),
];

/// Returns the lines of bursts with the bits from index `from` up to but excluding `until` inverted.
fn inverted_bursts(bursts: &[u8], from: u32, until: u32, alloc: Global) -> Result<Vec<u8>, Fail> {
    let mut digits = bursts.to_vec(alloc)?;
    let mut place: u32 = 0;
    for octet in digits.as_mut_slice().iter_mut() {
        if *octet == b'0' || *octet == b'1' {
            if place >= from && place < until {
                *octet ^= 1;
            }
            place = place.saturating_add(1);
        }
    }
    Ok(digits)
}

/// The word with index `place` in the first line of a report.
fn report_word(report: &[u8], place: usize) -> &[u8] {
    let line = report.split(|octet| *octet == b'\n').next().unwrap_or(b"");
    line.split(|octet| *octet == b' ').nth(place).unwrap_or(b"")
}

/// The fields of an answer of `link` if it takes the block: the name, and the index of the value in the report of `replay`.
const FIELDS_IF_TAKEN: [(&[u8], usize); 4] = [
    (b"mob takes ", 10),
    (b" tsc ", 2),
    (b" train ", 4),
    (b" metric ", 6),
];

/// The fields of an answer of `link` if it drops the block.
const FIELDS_IF_DROPPED: [(&[u8], usize); 5] = [
    (b"mob drops tsc ", 2),
    (b" train ", 4),
    (b" metric ", 6),
    (b" data ", 10),
    (b" check ", 12),
];

/// The output of `link` for a block that is sent and received, computed from the report of `replay` on the same block.
fn link_answer_for(report: &[u8], alloc: Global) -> Result<Vec<u8>, Fail> {
    let fields = if report_word(report, 8) == b"ok".as_slice() {
        &FIELDS_IF_TAKEN[..]
    } else {
        &FIELDS_IF_DROPPED
    };
    let mut answer = IDLE_ANSWER.to_vec(alloc)?;
    for (name, place) in fields {
        answer.extend_from_slice(name)?;
        answer.extend_from_slice(report_word(report, *place))?;
    }
    answer.extend_from_slice(b"\nok\n")?;
    Ok(answer)
}

/// Returns the text, followed by the numbers from `from` up to but excluding `until`.
fn with_places(text: &[u8], from: u32, until: u32, alloc: Global) -> Result<Vec<u8>, Fail> {
    let mut line = text.to_vec(alloc)?;
    for place in from..until {
        line.extend_from_slice(format!(in alloc; " {place}")?.as_bytes())?;
    }
    Ok(line)
}

// Runs `link` on SDCCH over the input, and expects this output.
fn check_link(rt: &(impl Abort + AllocGlobal), input: &[u8], output: &[u8]) {
    let ample = StreamLimits::moving_at_most(10_000);
    check_run(rt, &LINK_SDCCH_WORDS, input, ample, Status::Done, output);
}

const IDLE_ANSWER: &[u8] = b"net sends 0303012b2b2b2b2b2b2b2b2b2b2b2b2b2b2b2b2b2b2b2b\nok\n";

#[test]
fn link_receives_inverted_bits_as_replay_does(rt: HostRuntime) -> Result<(), Fail> {
    let block = b"block 0 0303012b2b2b2b2b2b2b2b2b2b2b2b2b2b2b2b2b2b2b2b\n";
    let bursts = output_of_run(&rt, &["code"], block)?;
    for (from, until) in INVERTED_BIT_RANGES {
        let recorded = inverted_bursts(bursts.as_slice(), from, until, rt.alloc())?;
        let report = output_of_run(&rt, &["replay"], recorded.as_slice())?;
        let output = link_answer_for(report.as_slice(), rt.alloc())?;
        let input = with_places(b"net idle\ndown flip", from, until, rt.alloc())?;
        check_link(&rt, input.as_slice(), output.as_slice());
    }
    Ok(())
}

#[test]
fn the_longest_lines_are_answered(rt: HostRuntime) -> Result<(), Fail> {
    let ample = StreamLimits::moving_at_most(10_000);
    for words in [&["code"][..], &["replay"], &["show"], &LINK_SDCCH_WORDS] {
        check_run(&rt, words, &[b'#'; 4096], ample, Status::Done, b"");
    }
    let mut send = [b'0'; 4095];
    send[..9].copy_from_slice(b"mob send ");
    check_link(&rt, &send, b"no notopen\n");
    let flip = with_places(b"up flip", 0, 592, rt.alloc())?;
    check_link(&rt, flip.as_slice(), b"no nothing\n");
    Ok(())
}

/// Lines that are refused, each with the reason.
const REFUSED_LINES: [(&str, &str); 5] = [
    ("up flip 592", "place"),
    ("up flip 5 5", "twice"),
    ("net open 01", "word"),
    ("mob send 0", "length"),
    ("mob3 idle", "word"),
];

#[test]
fn malformed_script_lines_are_refused(rt: HostRuntime) -> Result<(), Fail> {
    for (line, reason) in REFUSED_LINES {
        check_refusal(&rt, &LINK_SDCCH_WORDS, line.as_bytes(), 1, reason)?;
    }
    let few = StreamLimits::moving_at_most(7);
    for (words, status) in [
        (&["link", "8"][..], Status::BadWords),
        (&["link"], Status::BadWords),
        (&["link", "sacch", "0"], Status::BadWords),
        (&["link", "0", "sdcch"], Status::BadWords),
        (&LINK_SDCCH_WORDS, Status::Done),
    ] {
        check_run(&rt, words, b"", few, status, b"");
    }
    Ok(())
}
