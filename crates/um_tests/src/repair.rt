//! Runs of the `repair` command.
use crate::outside::{StreamLimits, check_refusal, check_run, check_run_in_pieces};
use std::test::Fail;
use um_cli::Status;

#[test]
fn a_word_whose_crc_holds_is_reported_as_holding(rt: HostRuntime) {
    check_run_in_pieces(
        &rt,
        &["repair"],
        b"# comment\n\nword 0000000000000000000000000000000000000000000080 FFDFBEFF6F\nword 0303012b2b2b2b2b2b2b\
2b2b2b2b2b2b2b2b2b2b2b2b2b 2c4e540233",
        Status::Done,
        b"holds\nholds\n",
    );
}

// The wrong bits of the six words, line by line, have the indices 184; 184 and 195; 0; 0 and 11; 212 and 223; 223.
#[test]
fn error_bursts_of_twelve_bits_are_repaired_anywhere_in_the_word(rt: HostRuntime) {
    check_run(
        &rt,
        &["repair"],
        b"word 0000000000000000000000000000000000000000000000 feffffffff
word 0000000000000000000000000000000000000000000000 fef7ffffff
word 0100000000000000000000000000000000000000000000 ffffffffff
word 0108000000000000000000000000000000000000000000 ffffffffff
word 0000000000000000000000000000000000000000000000 ffffffef7f
word 0000000000000000000000000000000000000000000000 ffffffff7f
",
        StreamLimits::moving_at_most(1000),
        Status::Done,
        b"repaired first 184 span 1 data 0000000000000000000000000000000000000000000000 check ffffffffff
repaired first 184 span 12 data 0000000000000000000000000000000000000000000000 check ffffffffff
repaired first 0 span 1 data 0000000000000000000000000000000000000000000000 check ffffffffff
repaired first 0 span 12 data 0000000000000000000000000000000000000000000000 check ffffffffff
repaired first 212 span 12 data 0000000000000000000000000000000000000000000000 check ffffffffff
repaired first 223 span 1 data 0000000000000000000000000000000000000000000000 check ffffffffff
",
    );
}

// The wrong bits of the five words, line by line, have the indices 184, 192 and 200; 0 and 12; 211 and 223; 0 and 223; 0 to 3 and 219 to
// 223.
#[test]
fn wider_or_wrapped_error_bursts_are_not_repaired(rt: HostRuntime) {
    check_run(
        &rt,
        &["repair"],
        b"word 0000000000000000000000000000000000000000000000 fefefeffff
word 0110000000000000000000000000000000000000000000 ffffffffff
word 0000000000000000000000000000000000000000000000 fffffff77f
word 0100000000000000000000000000000000000000000000 ffffffff7f
word 0f00000000000000000000000000000000000000000000 ffffffff07
",
        StreamLimits::moving_at_most(1000),
        Status::Done,
        b"none\nnone\nnone\nnone\nnone\n",
    );
}

/// Lines that are refused, each with the reason.
const REFUSED_LINES: [(&str, &str); 6] = [
    (
        "word 0000000000000000000000000000000000000000000000 ff",
        "length",
    ),
    ("word 00 ffffffffff", "length"),
    (
        "word 0000000000000000000000000000000000000000000000 fffffffffg",
        "digits",
    ),
    ("word 0g ff", "digits"),
    (
        "word 0000000000000000000000000000000000000000000000",
        "word",
    ),
    (
        "block 0000000000000000000000000000000000000000000000 ffffffffff",
        "word",
    ),
];

#[test]
fn lines_without_a_valid_form_are_refused(rt: HostRuntime) -> Result<(), Fail> {
    for (line, reason) in REFUSED_LINES {
        check_refusal(&rt, &["repair"], line.as_bytes(), 1, reason)?;
    }
    Ok(())
}
