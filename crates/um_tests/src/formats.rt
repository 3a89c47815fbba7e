//! Lines of blocks and bursts that are parsed, refused and written.
use std::process::Abort;
use std::test::Fail;
use um_block::BURST_BITS;
use um_text::{
    Bits, BurstLine, CodeLine, LineFault, Text, access_line, parse_burst, parse_code, refused_line,
};

const ZEROS: &str = "0000000000000000000000000000000000000000000000";

const REFUSED_LINES: [(&str, &str, LineFault); 18] = [
    ("rach 0000000 000000", "", LineFault::Length),
    ("rach 0000000x 000000", "", LineFault::Digits),
    ("rach 2 0", "", LineFault::Digits),
    ("rach  000000", "", LineFault::Length),
    ("rach 00000000 00000\r", "", LineFault::Digits),
    ("rach 00000000", "", LineFault::Word),
    ("sch 000000000000000000000000", "", LineFault::Length),
    ("sch 0000000000000000000000000 ", "", LineFault::Word),
    ("block 8 ", ZEROS, LineFault::Digits),
    ("block  ", ZEROS, LineFault::Digits),
    ("block 07 ", ZEROS, LineFault::Digits),
    ("block 0  ", ZEROS, LineFault::Word),
    ("block 0 0", ZEROS, LineFault::Length),
    ("block 0 g", ZEROS, LineFault::Digits),
    ("block 8 00", "", LineFault::Digits),
    ("Block 0 ", ZEROS, LineFault::Word),
    ("foo", "", LineFault::Word),
    (" #", "", LineFault::Word),
];

#[test]
fn a_bad_line_has_its_first_reason(rt: HostRuntime) -> Result<(), Fail> {
    for (front, back, fault) in REFUSED_LINES {
        let line = format!(in rt.alloc(); "{front}{back}")?;
        assert_eq!(rt; parse_code(line.as_bytes()), Err(fault), "{line}");
    }
    Ok(())
}

// Checks how a line of blocks is read.
fn check_code(rt: &impl Abort, line: &[u8], expected: Result<CodeLine, LineFault>) {
    assert_eq!(rt; parse_code(line), expected);
}

#[test]
fn a_comment_above_the_line_limit_is_refused_as_long(rt: HostRuntime) {
    check_code(&rt, &[b'#'; 4097], Err(LineFault::Long));
    check_code(&rt, &[b'#'; 4096], Ok(CodeLine::Skip));
    check_code(&rt, b"", Ok(CodeLine::Skip));
}

#[test]
fn hex_digits_of_either_case_are_read_high_digit_first(rt: HostRuntime) -> Result<(), Fail> {
    let line = b"block 7 030301000102030405060708090A0b0C0d0E0f1F2e3DfF";
    let octets = [
        3, 3, 1, 0, 1, 2, 3, 4, 5, 6, 7, 8, 9, 10, 11, 12, 13, 14, 15, 31, 46, 61, 255,
    ];
    check_code(&rt, line, Ok(CodeLine::Block { tsc: 7, octets }));
    let info = Bits::from_slice(&[0, 1, 0, 0, 0, 0, 0, 1]).ok_or("eight bits")?;
    let bsic = Bits::from_slice(&[1, 0, 0, 0, 1, 1]).ok_or("six bits")?;
    let rach = Ok(CodeLine::Rach { info, bsic });
    check_code(&rt, b"rach 01000001 100011", rach);
    Ok(())
}

const REFUSED_BURSTS: [(&str, u8, LineFault); 12] = [
    ("a xx yy", 1, LineFault::Order),
    ("a xx yy", 0, LineFault::Digits),
    ("S ", 3, LineFault::Order),
    ("a 000000", 1, LineFault::Word),
    ("n 0g", 2, LineFault::Digits),
    ("N 0g", 2, LineFault::Digits),
    ("n ", 0, LineFault::Length),
    ("n", 0, LineFault::Word),
    ("S 80", 0, LineFault::Length),
    ("A 00000 80", 0, LineFault::Length),
    ("lost ", 0, LineFault::Word),
    ("lost\r", 0, LineFault::Word),
];

// Checks how a line is read after some bursts of a block.
fn check_burst(rt: &impl Abort, line: &str, held: u8, expected: Result<BurstLine, LineFault>) {
    assert!(rt; held <= 3);
    assert_eq!(rt; parse_burst(line.as_bytes(), held), expected, "{line}");
}

#[test]
fn a_bad_burst_has_its_first_reason(rt: HostRuntime) {
    for (line, held, fault) in REFUSED_BURSTS {
        check_burst(&rt, line, held, Err(fault));
    }
}

#[test]
fn soft_values_are_signed_octets(rt: HostRuntime) -> Result<(), Fail> {
    let line = format!(in rt.alloc();
        "A 100011 {ZEROS}{ZEROS}{ZEROS}000000000000000000000000000000007F81ff"
    )?;
    let bsic = Bits::from_slice(&[1, 0, 0, 0, 1, 1]).ok_or("six bits")?;
    let mut soft = [0; 88];
    soft[85] = 127;
    soft[86] = -127;
    soft[87] = -1;
    check_burst(&rt, &line, 0, Ok(BurstLine::Access { bsic, soft }));
    let lowest = format!(in rt.alloc();
        "A 100011 {ZEROS}{ZEROS}{ZEROS}00000000000000000000000000000000000080"
    )?;
    check_burst(&rt, &lowest, 0, Err(LineFault::Soft));
    Ok(())
}

#[test]
fn hard_bits_become_127_or_minus_127_and_a_lost_burst_zeros(rt: HostRuntime) -> Result<(), Fail> {
    let line = format!(in rt.alloc(); "n {ZEROS}{ZEROS}{ZEROS}0000000001")?;
    let mut soft = [127; BURST_BITS];
    soft[147] = -127;
    check_burst(&rt, &line, 3, Ok(BurstLine::Normal(soft)));
    check_burst(&rt, "lost", 3, Ok(BurstLine::Normal([0; BURST_BITS])));
    Ok(())
}

// The access burst whose 8 information bits and 6 BSIC bits are all 0.
const ACCESS_BURST: [u8; 88] = [
    0, 0, 1, 1, 1, 0, 1, 0, 0, 1, 0, 0, 1, 0, 1, 1, 0, 1, 1, 1, 1, 1, 1, 1, 1, 0, 0, 1, 1, 0, 0, 1,
    1, 0, 1, 0, 1, 0, 1, 0, 0, 0, 1, 1, 1, 1, 0, 0, 0, 0, 0, 0, 0, 0, 0, 0, 0, 0, 0, 0, 0, 0, 0, 0,
    0, 1, 1, 1, 0, 1, 0, 0, 1, 1, 0, 1, 0, 0, 1, 0, 0, 0, 0, 1, 1, 0, 0, 0,
];

// Checks the text that was written.
fn check_written(rt: &impl Abort, out: &Text, expected: &str) {
    assert_eq!(rt; out.octets(), expected.as_bytes());
}

#[test]
fn an_access_burst_is_written_with_its_identity_code(rt: HostRuntime) -> Result<(), Fail> {
    let bits = Bits::<88>::from_slice(&ACCESS_BURST).ok_or("88 bits")?;
    let burst: &[u8; 88] = bits.as_slice().try_into().ok().ok_or("88 bits")?;
    let mut out = Text::new();
    access_line(&mut out, &Bits::zero(), burst);
    let line =
        "a 000000 0011101001001011011111111001100110101010001111000000000000000000011101001101001000011000\n";
    check_written(&rt, &out, line);
    Ok(())
}

#[test]
fn a_refusal_names_the_line_and_the_reason(rt: HostRuntime) {
    let mut out = Text::new();
    refused_line(&mut out, 18446744073709551615, LineFault::Twice);
    check_written(&rt, &out, "refused 18446744073709551615 twice\n");
    out.clear();
    refused_line(&mut out, 3, LineFault::Word);
    check_written(&rt, &out, "refused 3 word\n");
}
