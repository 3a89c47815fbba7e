//! Runs of the `code` command on values computed by hand, and lines that it refuses.
use crate::outside::{
    StreamLimits, check_line_feeds, check_longest_lines, check_refusal, check_run,
    check_run_in_pieces,
};
use std::process::Abort;
use std::test::Fail;
use um_cli::Status;

/// The access burst of eight zero bits for BSIC 000000. The CRC of these bits is six ones.
pub const ACCESS_BURST: &[u8] =
    b"a 000000 0011101001001011011111111001100110101010001111000000000000000000011101001101001000011000\n";

/// The access burst of eight zero bits for BSIC 111111. The modulo 2 sum of CRC and BSIC is 000000.
pub const ACCESS_BURST_OF_ZEROS: &[u8] =
    b"a 111111 0011101001001011011111111001100110101010001111000000000000000000000000000000000000000000\n";

/// The four bursts of 23 zero octets, whose CRC is forty ones.
pub const BLOCK_OF_ZEROS: &[u8] =
    b"n 00000000001000010000000010000101000000100001010000001000000110010010111000010001001011110000001000000100\
00001010000100000010100001000000001000010000\n\
n 00000000000000000000000000010000000000000000000000000000000010010010111000010001001011110000000000000000000000\
00000000000000000000000000000000010000\n\
n 00000010000101000000100000010000001010000100000010100001000010010010111000010001001011110000100001000000001000\
01000000001000010000000010000101000000\n\
n 00000000000000000000100000000000000000000000001000000000000010010010111000010001001011110000000000000000000000\
00000000000000000000000000000000000000\n";

/// The synchronisation burst of 25 zero bits, whose CRC is ten ones.
pub const SYNC_BURST: &[u8] =
    b"s 00000000000000000000000000000000000000000010111001011000100000010000001111001011010100010101110110000110\
11000000000001110100110101010101001000011000\n";

// Runs `code` over the input in pieces, and expects this output.
fn check_code(rt: &(impl Abort + AllocGlobal), input: &[u8], output: &[u8]) {
    check_run_in_pieces(rt, &["code"], input, Status::Done, output);
}

#[test]
fn eight_zeros_with_bsic_000000_have_this_access_burst(rt: HostRuntime) {
    check_code(&rt, b"rach 00000000 000000", ACCESS_BURST);
    check_code(&rt, b"rach 00000000 000000\n", ACCESS_BURST);
}

#[test]
fn eight_zeros_with_bsic_111111_have_this_access_burst(rt: HostRuntime) {
    check_code(&rt, b"rach 00000000 111111\n", ACCESS_BURST_OF_ZEROS);
}

#[test]
fn a_block_of_zeros_has_these_four_normal_bursts(rt: HostRuntime) {
    let line = b"block 0 0000000000000000000000000000000000000000000000\n";
    check_code(&rt, line, BLOCK_OF_ZEROS);
}

#[test]
fn twenty_five_zeros_have_this_synchronisation_burst(rt: HostRuntime) {
    check_code(&rt, b"sch 0000000000000000000000000\n", SYNC_BURST);
}

#[test]
fn an_empty_input_has_an_empty_output(rt: HostRuntime) {
    check_code(&rt, b"", b"");
}

#[test]
fn unknown_command_words_write_nothing(rt: HostRuntime) {
    let few = StreamLimits::moving_at_most(8);
    for words in [
        &[][..],
        &["code", "x"],
        &["--help"],
        &["codecodecode"],
        &["code", "", "", "", ""],
    ] {
        check_run(
            &rt,
            words,
            b"rach 00000000 000000",
            few,
            Status::BadWords,
            b"",
        );
    }
}

// Checks that `code` refuses each input with this line number and this reason.
fn check_refusals(
    rt: &(impl Abort + AllocGlobal),
    rows: &[(&[u8], usize, &str)],
) -> Result<(), Fail> {
    for (input, line, reason) in rows {
        check_refusal(rt, &["code"], input, *line, reason)?;
    }
    Ok(())
}

/// Inputs that end the run, each with the number and the reason of the refused line.
const REFUSED_INPUTS: [(&[u8], usize, &str); 4] = [
    (b"rach 0000000 000000", 1, "length"),
    (b"rach 0000000x 000000", 1, "digits"),
    (
        b"block 8 0000000000000000000000000000000000000000000000",
        1,
        "digits",
    ),
    (b"\n# a\nfoo\n", 3, "word"),
];

#[test]
fn a_bad_line_ends_the_run_with_its_number_and_reason(rt: HostRuntime) -> Result<(), Fail> {
    check_refusals(&rt, &REFUSED_INPUTS)
}

/// Inputs with octets that are no part of a word, each with the number and the reason of the refused line.
const REFUSED_OCTETS: [(&[u8], usize, &str); 4] = [
    (b"\r\n", 1, "word"),
    (b"\n\0", 2, "word"),
    (b" #", 1, "word"),
    (b"rach 00000000 000000\r\n", 1, "digits"),
];

#[test]
fn carriage_returns_and_zero_octets_belong_to_the_line(rt: HostRuntime) -> Result<(), Fail> {
    check_code(&rt, b"#\xff\x80\0\r\n", b"");
    check_refusals(&rt, &REFUSED_OCTETS)
}

#[test]
fn a_line_may_have_4096_octets_and_no_more(rt: HostRuntime) -> Result<(), Fail> {
    check_longest_lines(&rt, &["code"])
}

#[test]
fn an_input_above_67108864_octets_is_too_long(rt: HostRuntime) -> Result<(), Fail> {
    check_line_feeds(&rt, &["code"])
}
