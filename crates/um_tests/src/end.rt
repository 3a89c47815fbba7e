//! Runs of the `end` command on values computed by hand, and lines that it refuses. A separate script coded the bursts in the same way as
//! the blocks in `vectors/`.
use crate::outside::{StreamLimits, check_run, check_run_in_pieces, output_of_code};
use std::test::Fail;
use um_cli::Status;

/// The bursts of the SABM that establishes SAPI 0 with information 01. Their training sequence is 3.
pub const SABM_BURSTS: &[u8] =
    b"n 00010100001000111111101010100101010000000011101110101000000110100011110110100010001111010100001010001111\
10101010000001000010001011111010101010010000\n\
n 00010101110110111110100000010101010101011110111010001000010010100011110110100010001111010101111101101110100010\
10010101010111111011111010101001000000\n\
n 00000010001011111010001000000100000010001111101010001000010010100011110110100010001111010010000011101010101010\
00000100001000101010101010000000000000\n\
n 00000010000100010101110111101010000010010001010111011010101010100011110110100010001111011010000101000101110111\
10101010001000010101011101101011101000\n";

/// The answer of a network to the SABM: the received block, the open link, its UA, and the bursts of the UA.
const ESTABLISHMENT: &[u8] =
    b"net takes 013f05012b2b2b2b2b2b2b2b2b2b2b2b2b2b2b2b2b2b2b tsc 3 train 0 metric 57912\n\
net opened 01\n\
net sends 017305012b2b2b2b2b2b2b2b2b2b2b2b2b2b2b2b2b2b2b\n\
ok\n\
n 00010100001010111011101010000000010000100010101110100000000010100011110110100010001111010100001010001011101000\
00000101000000101010111010100000010000\n\
n 00010101111110101110101000000101010111011110111010001000010110100011110110100010001111010101111101111110100010\
10010101010111011111111010000000000000\n\
n 00000010001110111010001000010000000000001010101000101000010010100011110110100010001111010010000011101010101010\
00000100000010101010101000100100000000\n\
n 00000010000101010101010111111010000010010001011111011110101010100011110110100010001111011000000101000101110111\
10101010101000010101011101101111101000\n";

/// The answer of a mobile to `mob idle`: its fill frame and the bursts of the fill frame.
const FILL_FRAME_ANSWER: &[u8] = b"mob sends 0103012b2b2b2b2b2b2b2b2b2b2b2b2b2b2b2b2b2b2b2b\n\
ok\n\
n 00010000001000111010101000000100010000100010101110101000000010010010111000010001001011110100000000101010101000\
10000101000000100011111010100000000000\n\
n 00010101011111101110101000000101010101011110111010100000010010010010111000010001001011110101011111111110100000\
00010101010101011011101010100000000000\n\
n 00000000001110101010001000010000000000101111101010000001010010010010111000010001001011110010000011101010100010\
01000000000000111010101000100000010000\n\
n 00000010000001010111011110111010100000000001011111011110101010010010111000010001001011111010100101010101110110\
10101010101000000001011101101110101000\n";

/// The answer of a network to four lost bursts.
const FOUR_LOST_BURSTS_ANSWER: &[u8] =
    b"net drops tsc 0 train 104 metric 0 data 0000000000000000000000000000000000000000000000 check 0000000000\nok\n";

#[test]
fn a_network_answers_the_bursts_of_a_sabm(rt: HostRuntime) {
    check_run_in_pieces(
        &rt,
        &["end", "net", "3"],
        SABM_BURSTS,
        Status::Done,
        ESTABLISHMENT,
    );
}

// The bursts in these tests are the output of `code` for the blocks of the SABM and the UA.
#[test]
fn the_bursts_of_end_equal_those_of_code(rt: HostRuntime) -> Result<(), Fail> {
    let sabm = output_of_code(
        &rt,
        b"block 3 013f05012b2b2b2b2b2b2b2b2b2b2b2b2b2b2b2b2b2b2b",
    )?;
    assert!(rt; sabm.as_slice() == SABM_BURSTS);
    let ua = output_of_code(
        &rt,
        b"block 3 017305012b2b2b2b2b2b2b2b2b2b2b2b2b2b2b2b2b2b2b",
    )?;
    assert!(rt; ESTABLISHMENT.ends_with(ua.as_slice()));
    Ok(())
}

#[test]
fn a_call_of_idle_sends_a_fill_frame(rt: HostRuntime) {
    check_run_in_pieces(
        &rt,
        &["end", "mob", "0"],
        b"mob idle",
        Status::Done,
        FILL_FRAME_ANSWER,
    );
}

#[test]
fn four_lost_bursts_are_received_as_a_dropped_block(rt: HostRuntime) {
    check_run_in_pieces(
        &rt,
        &["end", "net", "0"],
        b"lost\nlost\n# comment\n\nlost\nlost",
        Status::Done,
        FOUR_LOST_BURSTS_ANSWER,
    );
}

/// Inputs that are refused, each with the side that receives them and the output.
const REFUSED_LINES: [(&str, &[u8], &[u8]); 9] = [
    ("mob", b"net idle", b"refused 1 word\n"),
    ("net", b"lost\nnet idle", b"refused 2 order\n"),
    ("net", b"lost", b"refused 2 order\n"),
    ("net", b"lost\n\n#\n", b"refused 4 order\n"),
    ("net", b"lost\nmob idle", b"refused 2 word\n"),
    ("mob", b"lost\nmob send 0", b"refused 2 order\n"),
    ("mob", b"lost\na xx yy", b"refused 2 word\n"),
    ("mob", b"up deliver", b"refused 1 word\n"),
    ("mob", b"mob3 idle", b"refused 1 word\n"),
];

#[test]
fn lines_that_end_does_not_have_are_refused(rt: HostRuntime) {
    for (side, input, output) in REFUSED_LINES {
        check_run(
            &rt,
            &["end", side, "0"],
            input,
            StreamLimits::moving_at_most(1000),
            Status::BadInput,
            output,
        );
    }
}

// A refused call is answered by one line, and does not change the endpoint.
#[test]
fn a_refused_call_is_answered_by_one_line(rt: HostRuntime) {
    check_run(
        &rt,
        &["end", "mob", "0"],
        b"mob send aa\nmob3 tick\nmob open -\nmob unit -\n",
        StreamLimits::moving_at_most(1000),
        Status::Done,
        b"no notopen\nno notrunning\nno empty\nno empty\n",
    );
}

#[test]
fn other_words_do_not_name_the_command_end(rt: HostRuntime) {
    for words in [
        ["end", "mob", "8"].as_slice(),
        &["end", "bts", "0"],
        &["end", "0", "mob"],
        &["end", "mob"],
        &["end", "mob", "sacch"],
        &["mob", "end", "0"],
    ] {
        check_run(
            &rt,
            words,
            b"mob idle",
            StreamLimits::moving_at_most(1000),
            Status::BadWords,
            b"",
        );
    }
}
