//! Runs of the `show` command on values computed by hand, and lines that it refuses.
use crate::outside::{
    StreamLimits, check_line_feeds, check_longest_lines, check_refusal, check_run,
    check_run_in_pieces,
};
use std::test::Fail;
use um_cli::Status;

/// Blocks, each given by its first octets and the octet that fills the rest, and the line that `show` writes for it.
const OCTETS_AND_LINES: [(&str, &str, &str); 12] = [
    ("010301", "2b", "frame sapi 0 cr 0 ui p 0 info -"),
    ("030301", "2b", "frame sapi 0 cr 1 ui p 0 info -"),
    ("030301", "ff", "frame sapi 0 cr 1 ui p 0 info -"),
    ("037501", "2b", "frame sapi 0 cr 1 rnr nr 3 pf 1"),
    ("49061b", "00", "unread lpd"),
    ("000000", "00", "unread ea"),
    ("010d01", "2b", "unread control"),
    ("010300", "2b", "unread el"),
    ("010055", "2b", "unread length"),
    ("010105", "2b", "unread length"),
    ("010001", "2b", "unread empty"),
    ("010303", "2b", "unread more"),
];

/// The line of a frame, and the octets that `show` writes for it.
const FRAME_CASES: [(&str, &str); 2] = [
    (
        "frame sapi 0 cr 0 i ns 5 nr 2 p 1 m 0 info 0601",
        "octets 015a0906012b2b2b2b2b2b2b2b2b2b2b2b2b2b2b2b2b2b",
    ),
    (
        "frame sapi 0 cr 1 rr nr 7 pf 0",
        "octets 03e1012b2b2b2b2b2b2b2b2b2b2b2b2b2b2b2b2b2b2b2b",
    ),
];

/// Lines that are refused, each with the reason.
const REFUSED_LINES: [(&str, &str); 8] = [
    ("frame sapi 0 cr 0 i ns 0 nr 0 p 0 m 0 info -", "length"),
    ("frame sapi 0 cr 0 ui p 0 info 0", "length"),
    ("frame sapi 8 cr 0 rr nr 7 pf 0", "digits"),
    ("frame sapi 00 cr 0 rr nr 7 pf 0", "digits"),
    ("frame sapi  cr 0 rr nr 7 pf 0", "digits"),
    ("frame sapi 0 cr 0 dm p 0", "word"),
    ("frame sapi 0 cr 0 disc p 0 info -", "word"),
    ("octets 00", "length"),
];

#[test]
fn octets_are_shown_as_a_frame_or_as_unread(rt: HostRuntime) -> Result<(), Fail> {
    for (front, fill, shown) in OCTETS_AND_LINES {
        let mut line = format!(in rt.alloc(); "octets {front}")?;
        for _ in 0..20 {
            line.push_str(fill)?;
        }
        line.push('\n')?;
        let output = format!(in rt.alloc(); "{shown}\n")?;
        check_run(
            &rt,
            &["show"],
            line.as_bytes(),
            StreamLimits::moving_at_most(7),
            Status::Done,
            output.as_bytes(),
        );
    }
    Ok(())
}

#[test]
fn a_frame_is_shown_as_its_octets(rt: HostRuntime) -> Result<(), Fail> {
    for (line, shown) in FRAME_CASES {
        let output = format!(in rt.alloc(); "{shown}\n")?;
        check_run_in_pieces(
            &rt,
            &["show"],
            line.as_bytes(),
            Status::Done,
            output.as_bytes(),
        );
    }
    Ok(())
}

#[test]
fn malformed_lines_are_refused(rt: HostRuntime) -> Result<(), Fail> {
    for (line, reason) in REFUSED_LINES {
        check_refusal(&rt, &["show"], line.as_bytes(), 1, reason)?;
    }
    check_run_in_pieces(&rt, &["show"], b"", Status::Done, b"");
    Ok(())
}

#[test]
fn show_accepts_line_feeds_up_to_the_input_limit(rt: HostRuntime) -> Result<(), Fail> {
    check_line_feeds(&rt, &["show"])
}

#[test]
fn a_line_of_show_may_have_4096_octets_and_no_more(rt: HostRuntime) -> Result<(), Fail> {
    check_longest_lines(&rt, &["show"])
}
