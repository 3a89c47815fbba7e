//! Runs of the `replay` command on values computed by hand, and lines that it refuses.
ghost use Rattle.std.specs.Prelude.{◌≤◌};

use crate::code::{ACCESS_BURST, ACCESS_BURST_OF_ZEROS, BLOCK_OF_ZEROS, SYNC_BURST};
use crate::outside::{
    StreamLimits, check_longest_lines, check_refusal, check_run, check_run_in_pieces,
    output_of_code,
};
use std::process::Abort;
use std::test::Fail;
use um_cli::Status;

/// The bursts of a network's fill frame, with training sequence 7. The coded bits were made by libosmocoding.
const FILL_FRAME: &[u8] =
    b"n 00010000001000111010101000000001010000000011111110101000000111110111100010010111011110010100001000101110\
10100000000101000010000010101010100000010000\n\
n 00010101011111111110100000010101010111111111111010000000010011110111100010010111011110010101111111111110101010\
00000001010101011011101010000001000000\n\
n 00000000001111101010101000010000001000101011101010100001010011110111100010010111011110010010100011111010100010\
00010000000000101110101010100000010000\n\
n 00000010000101010101011110111010101000000001010111011111101011110111100010010111011110011000100000010101010110\
11101010001000010001011101111010101000\n";

/// What `replay` writes for the bursts in `FILL_FRAME`.
const FILL_FRAME_REPORT: &[u8] =
    b"block tsc 7 train 0 metric 57912 parity ok data 0303012b2b2b2b2b2b2b2b2b2b2b2b2b2b2b2b2b2b2b2b check 2c4e540233\n\
frame sapi 0 cr 1 ui p 0 info -\n";

/// The bursts in `FILL_FRAME`, with bits 10, 20 and 30 of the second burst inverted.
pub const BURSTS_WITH_THREE_WRONG_BITS: &[u8] =
    b"n 00010000001000111010101000000001010000000011111110101000000111110111100010010111011110010100001000101110\
10100000000101000010000010101010100000010000\n\
n 00010101010111111110000000010111010111111111111010000000010011110111100010010111011110010101111111111110101010\
00000001010101011011101010000001000000\n\
n 00000000001111101010101000010000001000101011101010100001010011110111100010010111011110010010100011111010100010\
00010000000000101110101010100000010000\n\
n 00000010000101010101011110111010101000000001010111011111101011110111100010010111011110011000100000010101010110\
11101010001000010001011101111010101000\n";

/// The bursts in `FILL_FRAME` with seven coded bits inverted: those that are 1 in the code sequence of a single 1 followed by zeros. The
/// result is a codeword of the convolutional code, but its CRC does not hold.
const BURSTS_WITH_SEVEN_WRONG_BITS: &[u8] =
    b"n 00000000001000111010101000000001010000000011111110101000000111110111100010010111011110010100001000101110\
10100000000101000010000010111010100000010000\n\
n 00010101011111111110100000010101010111111111111010000000010011110111100010010111011110010101111111111110101010\
00000101010101011010101010000001000000\n\
n 00000000001111101010100000010000001000101011101010100001010011110111100010010111011110010010100011111010100010\
00010000000000101110101010100000010000\n\
n 00000000000101010101011110111010101000000001010111011111101011110111100010010111011110011000100001010101010110\
11101010001000010001011101111010101000\n";

const BURST_WITH_OTHER_BSIC: &[u8] =
    b"a 000000 0011101001001011011111111001100110101010001111000000000000000000000000000000000000000000\n";

// Runs `replay` over the bursts in pieces, and expects this report.
fn check_replay(rt: &(impl Abort + AllocGlobal), bursts: &[u8], report: &[u8]) {
    check_run_in_pieces(rt, &["replay"], bursts, Status::Done, report);
}

#[test]
fn the_crc_of_an_access_burst_holds_only_for_its_bsic(rt: HostRuntime) {
    check_replay(
        &rt,
        ACCESS_BURST_OF_ZEROS,
        b"access 111111 train 0 metric 4572 parity ok data 00000000 check 000000\n",
    );
    check_replay(
        &rt,
        BURST_WITH_OTHER_BSIC,
        b"access 000000 train 0 metric 4572 parity bad data 00000000 check 000000\n",
    );
    check_replay(
        &rt,
        ACCESS_BURST,
        b"access 000000 train 0 metric 4572 parity ok data 00000000 check 111111\n",
    );
}

#[test]
fn a_synchronisation_burst_is_reported_with_its_check(rt: HostRuntime) {
    check_replay(
        &rt,
        SYNC_BURST,
        b"sync train 0 metric 9906 parity ok data 0000000000000000000000000 check 1111111111\n",
    );
}

#[test]
fn a_block_of_zeros_is_reported_as_unread(rt: HostRuntime) {
    check_replay(
        &rt,
        BLOCK_OF_ZEROS,
        b"block tsc 0 train 0 metric 57912 parity ok data 0000000000000000000000000000000000000000000000 check ffffffffff\nunread ea\n",
    );
}

#[test]
fn a_block_with_only_its_last_bit_set_has_this_crc(rt: HostRuntime) -> Result<(), Fail> {
    let bursts = output_of_code(
        &rt,
        b"block 3 0000000000000000000000000000000000000000000080\n",
    )?;
    check_replay(
        &rt,
        bursts.as_slice(),
        b"block tsc 3 train 0 metric 57912 parity ok data 0000000000000000000000000000000000000000000080 check ffdfbeff6f\nunread ea\n",
    );
    Ok(())
}

#[test]
fn a_fill_frame_is_reported_as_a_frame(rt: HostRuntime) {
    check_replay(&rt, FILL_FRAME, FILL_FRAME_REPORT);
}

#[test]
fn four_lost_bursts_are_reported_as_the_first_codeword(rt: HostRuntime) {
    check_replay(
        &rt,
        b"lost\nlost\n# comment\n\nlost\nlost",
        b"block tsc 0 train 104 metric 0 parity bad data 0000000000000000000000000000000000000000000000 check 0000000000\n",
    );
}

#[test]
fn a_block_with_a_lost_burst_is_restored(rt: HostRuntime) -> Result<(), Fail> {
    let mut input = BLOCK_OF_ZEROS[..151].to_vec(rt.alloc())?;
    input.extend_from_slice(b"lost\n")?;
    input.extend_from_slice(&BLOCK_OF_ZEROS[302..])?;
    check_replay(
        &rt,
        input.as_slice(),
        b"block tsc 0 train 26 metric 43434 parity ok data 0000000000000000000000000000000000000000000000 check ffffffffff\nunread ea\n",
    );
    Ok(())
}

#[test]
fn three_wrong_bits_are_corrected_but_seven_give_another_codeword(rt: HostRuntime) {
    check_replay(
        &rt,
        BURSTS_WITH_THREE_WRONG_BITS,
        b"block tsc 7 train 0 metric 57150 parity ok data 0303012b2b2b2b2b2b2b2b2b2b2b2b2b2b2b2b2b2b2b2b check 2c4e540233\n\
frame sapi 0 cr 1 ui p 0 info -\n",
    );
    check_replay(
        &rt,
        BURSTS_WITH_SEVEN_WRONG_BITS,
        b"block tsc 7 train 0 metric 57912 parity bad data 0203012b2b2b2b2b2b2b2b2b2b2b2b2b2b2b2b2b2b2b2b check 2c4e540233\n",
    );
}

/// Access bursts whose soft values are 0 except for the 36 coded bits, which follow 49 zeros: the BSIC in the line, the soft values of the
/// coded bits, and the report after the BSIC.
const SOFT_BURSTS: [(&str, &str, &str); 5] = [
    (
        "111111",
        "fbfbfb040404040404040404040404040404040404040404040404040404040404040404",
        "train 41 metric 117 parity ok data 00000000 check 000000",
    ),
    (
        "111111",
        "f90101010101010101010101010101010101010101010101010101010101010101010101",
        "train 41 metric 30 parity bad data 10000000 check 000000",
    ),
    (
        "111111",
        "000000000000000000000000000000000000000000000000000000000000000000000000",
        "train 41 metric 0 parity ok data 00000000 check 000000",
    ),
    (
        "000000",
        "000000000000000000000000000000000000000000000000000000000000000000000000",
        "train 41 metric 0 parity bad data 00000000 check 000000",
    ),
    (
        "111111",
        "01010101010101010101010101010101010101010101010101010101010101010101ffff",
        "train 41 metric 32 parity ok data 00000000 check 000000",
    ),
];

#[test]
fn soft_values_are_weighted_and_the_first_of_tied_words_is_reported(
    rt: HostRuntime,
) -> Result<(), Fail> {
    let zeros =
        "00000000000000000000000000000000000000000000000000000000000000000000000000000000000000000000000000";
    let few = StreamLimits::moving_at_most(7);
    for (code, values, report) in SOFT_BURSTS {
        let line = format!(in rt.alloc(); "A {code} {zeros}{values}000000\n")?;
        let output = format!(in rt.alloc(); "access {code} {report}\n")?;
        check_run(
            &rt,
            &["replay"],
            line.as_bytes(),
            few,
            Status::Done,
            output.as_bytes(),
        );
    }
    Ok(())
}

#[test]
fn an_input_that_ends_inside_a_block_is_refused_at_its_end(rt: HostRuntime) -> Result<(), Fail> {
    let mut mixed = b"lost\nlost\n".to_vec(rt.alloc())?;
    mixed.extend_from_slice(ACCESS_BURST)?;
    for (input, line) in [
        (&BLOCK_OF_ZEROS[..453], 4),
        (b"lost\n\n#", 4),
        (mixed.as_slice(), 3),
    ] {
        check_refusal(&rt, &["replay"], input, line, "order")?;
    }
    Ok(())
}

#[test]
fn a_soft_value_of_minus_128_is_refused(rt: HostRuntime) -> Result<(), Fail> {
    let mut line = b"S 80".to_vec(rt.alloc())?;
    for _ in 0..147 {
        line.extend_from_slice(b"00")?;
    }
    check_refusal(&rt, &["replay"], line.as_slice(), 1, "soft")
}

#[test]
fn replay_skips_empty_lines_and_comments_only(rt: HostRuntime) -> Result<(), Fail> {
    check_replay(&rt, b"", b"");
    check_refusal(&rt, &["replay"], b"foo", 1, "word")?;
    check_refusal(&rt, &["replay"], b"\nlost\r\n", 2, "word")?;
    check_longest_lines(&rt, &["replay"])
}

/// The line number and the reason of the refusal if the fill frame's bursts are cut off after this many lines and this many octets of the
/// next line.
fn refusal_of_cut_input(lines: usize, octets: usize) -> (usize, &'static str)
    requires { lines ≤ 4 }
{
    match octets {
        0 => (lines + 1, "order"),
        1 => (lines + 1, "word"),
        150 => (lines + 2, "order"),
        _ => (lines + 1, "length"),
    }
}

/// Runs `replay` over the fill frame's bursts, cut off after `lines` lines and `octets` octets of the next line. Only an empty input, and
/// one that lacks just the last line feed, are not refused.
fn check_cut_replay(
    rt: &(impl Abort + AllocGlobal),
    lines: usize,
    octets: usize,
) -> Result<(), Fail>
    requires lines { lines ≤ 3 }
    requires octets { octets ≤ 150 }
{
    let count = 151 * lines + octets;
    let input = FILL_FRAME.get(..count).ok_or("604 octets")?;
    let (line, reason) = refusal_of_cut_input(lines, octets);
    let refusal = format!(in rt.alloc(); "refused {line} {reason}\n")?;
    let (status, output) = match count {
        0 => (Status::Done, b"".as_slice()),
        603 => (Status::Done, FILL_FRAME_REPORT),
        _ => (Status::BadInput, refusal.as_bytes()),
    };
    let ample = StreamLimits::moving_at_most(100);
    check_run(rt, &["replay"], input, ample, status, output);
    Ok(())
}

#[test]
fn a_recording_cut_at_any_octet_is_refused_where_it_is_cut(rt: HostRuntime) -> Result<(), Fail> {
    for lines in 0..4 {
        for octets in 0..151 {
            check_cut_replay(&rt, lines, octets)?;
        }
    }
    Ok(())
}

// Runs `replay` over the fill frame's bursts, and checks the status and the output.
fn check_fill_frame(
    rt: &(impl Abort + AllocGlobal),
    outside: StreamLimits<'_>,
    status: Status,
    output: &[u8],
) {
    check_run(rt, &["replay"], FILL_FRAME, outside, status, output);
}

#[test]
fn failing_reads_and_writes_leave_a_prefix_of_the_report(rt: HostRuntime) {
    let all = FILL_FRAME_REPORT;
    for call in 1..8 {
        check_fill_frame(
            &rt,
            StreamLimits::failing(100, &[call], &[]),
            Status::ReadFault,
            b"",
        );
    }
    for (call, status) in [(8, Status::ReadFault), (9, Status::Done)] {
        check_fill_frame(&rt, StreamLimits::failing(100, &[call], &[]), status, all);
    }
    let full = StreamLimits::with_sink_capacity(0);
    check_fill_frame(&rt, full, Status::WriteFault, b"");
}

/// A sink that takes at most 50 octets in each call, and fails in the calls with these numbers.
fn sink_of_fifty_octets(failing_puts: &[u64]) -> StreamLimits<'_> {
    StreamLimits {
        max_per_take: 100,
        failing_takes: &[],
        max_per_put: 50,
        failing_puts,
        sink_capacity: 1000,
    }
}

#[test]
fn any_write_of_a_report_may_fail(rt: HostRuntime) -> Result<(), Fail> {
    for (call, status, taken) in [
        (1, Status::WriteFault, 0),
        (2, Status::WriteFault, 50),
        (3, Status::WriteFault, 100),
        (4, Status::Done, FILL_FRAME_REPORT.len()),
    ] {
        let front = FILL_FRAME_REPORT.get(..taken).ok_or("144 octets")?;
        check_fill_frame(&rt, sink_of_fifty_octets(&[call]), status, front);
    }
    Ok(())
}
