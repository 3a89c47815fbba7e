//! Tests of the functions that write frames and reports, and of the parser for the lines of `show`.
use std::process::Abort;
use std::test::Fail;
use um_text::{
    BLOCK_BITS, BLOCK_OCTETS, Bits, LineFault, Received, ReceivedAccess, ReceivedSync, ShowLine,
    Text, access_report, block_report, frame_line, octets_line, parse_show, sync_report,
};

// Blocks, each given by its first octets and the octet that fills the rest, and the line that `frame_line` writes for it.
const FRAME_CASES: [([u8; 5], u8, &str); 24] = [
    (
        [0x01, 0x03, 0x01, 0x2b, 0x2b],
        0x2b,
        "frame sapi 0 cr 0 ui p 0 info -\n",
    ),
    (
        [0x03, 0x03, 0x01, 0xff, 0xff],
        0xff,
        "frame sapi 0 cr 1 ui p 0 info -\n",
    ),
    (
        [0x03, 0x75, 0x01, 0x2b, 0x2b],
        0x2b,
        "frame sapi 0 cr 1 rnr nr 3 pf 1\n",
    ),
    ([0x49, 0x06, 0x1b, 0x00, 0x00], 0x00, "unread lpd\n"),
    ([0x00, 0x00, 0x00, 0x00, 0x00], 0x00, "unread ea\n"),
    ([0x01, 0x0d, 0x01, 0x2b, 0x2b], 0x2b, "unread control\n"),
    ([0x01, 0x03, 0x00, 0x2b, 0x2b], 0x2b, "unread el\n"),
    ([0x01, 0x00, 0x55, 0x2b, 0x2b], 0x2b, "unread length\n"),
    ([0x01, 0x01, 0x05, 0x2b, 0x2b], 0x2b, "unread length\n"),
    ([0x01, 0x00, 0x01, 0x2b, 0x2b], 0x2b, "unread empty\n"),
    ([0x01, 0x03, 0x03, 0x2b, 0x2b], 0x2b, "unread more\n"),
    ([0x01, 0x00, 0x03, 0x2b, 0x2b], 0x2b, "unread empty\n"),
    (
        [0x01, 0x5a, 0x09, 0x06, 0x01],
        0x2b,
        "frame sapi 0 cr 0 i ns 5 nr 2 p 1 m 0 info 0601\n",
    ),
    (
        [0x1f, 0xa4, 0x07, 0xab, 0xff],
        0xff,
        "frame sapi 7 cr 1 i ns 2 nr 5 p 0 m 1 info ab\n",
    ),
    (
        [0x0d, 0x20, 0x53, 0x0f, 0x0f],
        0x0f,
        "frame sapi 3 cr 0 i ns 0 nr 1 p 0 m 1 info 0f0f0f0f0f0f0f0f0f0f0f0f0f0f0f0f0f0f0f0f\n",
    ),
    (
        [0x03, 0xe1, 0x01, 0x2b, 0x2b],
        0x2b,
        "frame sapi 0 cr 1 rr nr 7 pf 0\n",
    ),
    (
        [0x01, 0x19, 0x01, 0x00, 0x00],
        0x00,
        "frame sapi 0 cr 0 rej nr 0 pf 1\n",
    ),
    (
        [0x01, 0x3f, 0x05, 0xe2, 0x2b],
        0x2b,
        "frame sapi 0 cr 0 sabm p 1 info e2\n",
    ),
    (
        [0x01, 0x2f, 0x01, 0x2b, 0x2b],
        0x2b,
        "frame sapi 0 cr 0 sabm p 0 info -\n",
    ),
    (
        [0x03, 0x1f, 0x01, 0x2b, 0x2b],
        0x2b,
        "frame sapi 0 cr 1 dm f 1\n",
    ),
    (
        [0x0d, 0x53, 0x01, 0x2b, 0x2b],
        0x2b,
        "frame sapi 3 cr 0 disc p 1\n",
    ),
    (
        [0x01, 0x73, 0x01, 0x2b, 0x2b],
        0x2b,
        "frame sapi 0 cr 0 ua f 1 info -\n",
    ),
    (
        [0x01, 0x63, 0x51, 0xa0, 0xa0],
        0xa0,
        "frame sapi 0 cr 0 ua f 0 info a0a0a0a0a0a0a0a0a0a0a0a0a0a0a0a0a0a0a0a0\n",
    ),
    (
        [0x03, 0x13, 0x51, 0x00, 0x00],
        0x00,
        "frame sapi 0 cr 1 ui p 1 info 0000000000000000000000000000000000000000\n",
    ),
];

fn block_filled_with(first: &[u8; 5], fill: u8) -> [u8; BLOCK_OCTETS] {
    let mut octets = [fill; BLOCK_OCTETS];
    octets[..5].copy_from_slice(first);
    octets
}

// Checks the text that was written.
fn check_written(rt: &impl Abort, out: &Text, expected: &str) {
    assert_eq!(rt; out.octets(), expected.as_bytes(), "{expected}");
}

#[test]
fn octets_are_written_as_their_frame_or_as_unread(rt: HostRuntime) {
    for (first, fill, text) in FRAME_CASES {
        let octets = block_filled_with(&first, fill);
        let mut out = Text::new();
        frame_line(&mut out, &octets);
        check_written(&rt, &out, text);
    }
    let mut out = Text::new();
    octets_line(&mut out, &[0xc5; BLOCK_OCTETS]);
    check_written(
        &rt,
        &out,
        "octets c5c5c5c5c5c5c5c5c5c5c5c5c5c5c5c5c5c5c5c5c5c5c5\n",
    );
}

// Lines that describe frames, each with the first octets of its block; the rest is filled with 2b.
const LINE_CASES: [(&str, [u8; 5]); 7] = [
    (
        "frame sapi 0 cr 0 i ns 5 nr 2 p 1 m 0 info 0601",
        [0x01, 0x5a, 0x09, 0x06, 0x01],
    ),
    (
        "frame sapi 0 cr 1 rr nr 7 pf 0",
        [0x03, 0xe1, 0x01, 0x2b, 0x2b],
    ),
    (
        "frame sapi 7 cr 1 i ns 2 nr 5 p 0 m 1 info aB",
        [0x1f, 0xa4, 0x07, 0xab, 0x2b],
    ),
    ("frame sapi 3 cr 0 disc p 1", [0x0d, 0x53, 0x01, 0x2b, 0x2b]),
    ("frame sapi 0 cr 1 dm f 1", [0x03, 0x1f, 0x01, 0x2b, 0x2b]),
    (
        "frame sapi 0 cr 0 sabm p 1 info E2",
        [0x01, 0x3f, 0x05, 0xe2, 0x2b],
    ),
    (
        "frame sapi 0 cr 0 ua f 1 info -",
        [0x01, 0x73, 0x01, 0x2b, 0x2b],
    ),
];

// Checks how a line of `show` is read.
fn check_show(rt: &impl Abort, line: &str, expected: Result<ShowLine, LineFault>) {
    assert_eq!(rt; parse_show(line.as_bytes()), expected, "{line}");
}

#[test]
fn the_line_of_a_frame_gives_its_canonical_octets(rt: HostRuntime) {
    for (line, first) in LINE_CASES {
        let octets = block_filled_with(&first, 0x2b);
        check_show(&rt, line, Ok(ShowLine::Frame(octets)));
    }
    let line = "octets 0aA00000000000000000000000000000000000000000Ff";
    let mut octets = [0; BLOCK_OCTETS];
    octets[0] = 0x0a;
    octets[1] = 0xa0;
    octets[22] = 0xff;
    check_show(&rt, line, Ok(ShowLine::Octets(octets)));
    check_show(&rt, "# frame", Ok(ShowLine::Skip));
}

const REFUSED_LINES: [(&str, LineFault); 19] = [
    (
        "frame sapi 0 cr 0 i ns 0 nr 0 p 0 m 0 info -",
        LineFault::Length,
    ),
    (
        "frame sapi 0 cr 0 ui p 0 info 000000000000000000000000000000000000000000",
        LineFault::Length,
    ),
    ("frame sapi 0 cr 0 ui p 0 info 0", LineFault::Length),
    ("frame sapi 0 cr 0 ui p 0 info ", LineFault::Length),
    ("frame sapi 0 cr 0 ui p 0 info -0", LineFault::Digits),
    ("frame sapi 0 cr 0 ui p 2 info 0", LineFault::Digits),
    ("frame sapi 8 cr 0 rr nr 0 pf 0", LineFault::Digits),
    ("frame sapi 00 cr 0 rr nr 0 pf 0", LineFault::Digits),
    ("frame sapi 0 cr 2 rr nr 0 pf 0", LineFault::Digits),
    ("frame sapi  cr 0 rr nr 7 pf 0", LineFault::Digits),
    ("frame sapi 8 cr 0 rr nr 0 p 0", LineFault::Word),
    ("frame sapi 0 cr 0 dm p 0", LineFault::Word),
    ("frame sapi 0 cr 0 rr nr 0 pf 0 info -", LineFault::Word),
    ("frame sapi 9 cr 0 frmr f 0", LineFault::Word),
    ("frame cr 0 sapi 0 disc p 0", LineFault::Word),
    ("frame sapi 0 cr 0 disc p 0 ", LineFault::Word),
    ("octets -", LineFault::Digits),
    ("octets 00", LineFault::Length),
    ("frame", LineFault::Word),
];

#[test]
fn a_bad_line_of_show_has_its_first_reason(rt: HostRuntime) {
    for (line, fault) in REFUSED_LINES {
        check_show(&rt, line, Err(fault));
    }
}

#[test]
fn a_block_is_reported_with_its_frame_if_the_crc_holds(rt: HostRuntime) {
    let mut r = Received {
        u: Bits::zero(),
        metric: -2147483648,
        tsc: 3,
        wrong_training: 104,
        accepted: None,
    };
    let mut out = Text::new();
    block_report(&mut out, &r);
    check_written(
        &rt,
        &out,
        "block tsc 3 train 104 metric -2147483648 parity bad \
data 0000000000000000000000000000000000000000000000 check 0000000000\n",
    );
    for i in BLOCK_BITS..224 {
        r.u.set(i, 1);
    }
    r.accepted = Some([0; BLOCK_OCTETS]);
    r.metric = 57912;
    out.clear();
    block_report(&mut out, &r);
    check_written(
        &rt,
        &out,
        "block tsc 3 train 104 metric 57912 parity ok \
data 0000000000000000000000000000000000000000000000 check ffffffffff\nunread ea\n",
    );
}

#[test]
fn an_access_burst_is_reported_with_data_and_check(rt: HostRuntime) -> Result<(), Fail> {
    let mut out = Text::new();
    let mut r = ReceivedAccess {
        u: Bits::from_slice(&[1, 0, 0, 0, 0, 0, 0, 1, 0, 1, 1, 1, 1, 1, 0, 0, 0, 0]).ok_or(
            "18 bits",
        )?,
        metric: 30,
        wrong_training: 41,
        accepted: None,
    };
    let bsic = Bits::from_slice(&[1, 1, 0, 1, 1, 1]).ok_or("six bits")?;
    access_report(&mut out, &bsic, &r);
    check_written(
        &rt,
        &out,
        "access 110111 train 41 metric 30 parity bad data 10000001 check 011111\n",
    );
    r.accepted = Some(Bits::zero());
    r.u = Bits::zero();
    r.metric = 4572;
    r.wrong_training = 0;
    out.clear();
    access_report(&mut out, &Bits::zero(), &r);
    check_written(
        &rt,
        &out,
        "access 000000 train 0 metric 4572 parity ok data 00000000 check 000000\n",
    );
    Ok(())
}

#[test]
fn a_synchronisation_burst_is_reported_with_data_and_check(rt: HostRuntime) {
    let mut out = Text::new();
    let mut u = Bits::zero();
    for i in 25..35 {
        u.set(i, 1);
    }
    let r = ReceivedSync {
        u,
        metric: 9906,
        wrong_training: 0,
        accepted: Some(Bits::zero()),
    };
    sync_report(&mut out, &r);
    check_written(
        &rt,
        &out,
        "sync train 0 metric 9906 parity ok data 0000000000000000000000000 check 1111111111\n",
    );
}
