//! Sessions of the `link` command, computed by hand.
use crate::outside::check_status;
use crate::script::Script;
use std::process::Abort;
use std::test::Fail;
use um_cli::{MemorySink, PlainRadio, PlainSource, Status};

const LINK_SDCCH_WORDS: [&str; 2] = ["link", "0"];

const LINK_SACCH_WORDS: [&str; 3] = ["link", "0", "sacch"];

/// The SABM is lost and sent again, and then a message is sent in a UI frame.
const REPEATED_SABM_SESSION: [(&str, &str); 16] = [
    ("mob open -", "no empty"),
    (
        "mob open 000000000000000000000000000000000000000000",
        "no toolong",
    ),
    ("mob send aa", "no notopen"),
    ("mob tick", "no notrunning"),
    (
        "mob open 0102030405060708090a0b0c0d0e0f1011121314",
        "mob sends 013f510102030405060708090a0b0c0d0e0f1011121314, ok",
    ),
    ("mob open 01", "no notidle"),
    ("up lose", "ok"),
    (
        "mob tick",
        "mob sends 013f510102030405060708090a0b0c0d0e0f1011121314, ok",
    ),
    (
        "mob tick",
        "mob sends 013f510102030405060708090a0b0c0d0e0f1011121314, ok",
    ),
    (
        "up deliver",
        "net takes 013f510102030405060708090a0b0c0d0e0f1011121314, net opened 0102030405060708090a0b0c0d0e0f1011121314, \
net sends 0173510102030405060708090a0b0c0d0e0f1011121314, ok",
    ),
    (
        "up deliver",
        "net takes 013f510102030405060708090a0b0c0d0e0f1011121314, net sends 0173510102030405060708090a0b0c0d0e0f1011121314, ok",
    ),
    (
        "down deliver",
        "mob takes 0173510102030405060708090a0b0c0d0e0f1011121314, mob opened 0102030405060708090a0b0c0d0e0f1011121314, ok",
    ),
    (
        "down deliver",
        "mob takes 0173510102030405060708090a0b0c0d0e0f1011121314, ok",
    ),
    ("net unit 0a0b", "net sends 0303090a0b, ok"),
    ("down deliver", "mob takes 0303090a0b, mob unit 0a0b, ok"),
    (
        "mob send 0000000000000000000000000000000000000000000000000000000000000000000000000000000000000000000000\
0000000000000000000000000000000000000000000000000000000000000000000000000000000000000000000000000000000000000000\
0000000000000000000000000000000000000000000000000000000000000000000000000000000000000000000000000000000000000000\
0000000000000000000000000000000000000000000000000000000000000000000000000000000000000000000000000000000000000000\
00000000000000000000000000000000000000000000000000000000000000000000000000",
        "no toolong",
    ),
];

/// Two mobiles try to establish a link to the same network at the same time.
const CONTENTION_SESSION: [(&str, &str); 10] = [
    ("rival 02", "rival sends 013f0502, ok"),
    ("mob open 01", "mob sends 013f0501, ok"),
    (
        "up deliver",
        "net takes 013f0502, net opened 02, net sends 01730502, ok",
    ),
    ("net send aa", "net sends 030005aa, ok"),
    ("net tick", "net sends 031005aa, ok"),
    ("up deliver", "net takes 013f0501, ok"),
    (
        "down deliver",
        "mob takes 01730502, mob closed contention, ok",
    ),
    ("down deliver", "mob takes 030005aa, ok"),
    ("down deliver", "mob takes 031005aa, mob sends 031f01, ok"),
    ("up deliver", "net takes 031f01, net closed failed, ok"),
];

/// The mobile establishes the link of SAPI 0.
const ESTABLISHMENT: [(&str, &str); 3] = [
    ("mob open 01", "mob sends 013f0501, ok"),
    (
        "up deliver",
        "net takes 013f0501, net opened 01, net sends 01730501, ok",
    ),
    ("down deliver", "mob takes 01730501, mob opened 01, ok"),
];

/// Messages in both directions; one is acknowledged by an I frame.
const MESSAGES_IN_BOTH_DIRECTIONS: [(&str, &str); 8] = [
    ("mob send aa", "mob sends 010005aa, ok"),
    ("mob send cc", "ok"),
    (
        "up deliver",
        "net takes 010005aa, net got aa, net sends 012101, ok",
    ),
    ("down lose", "ok"),
    ("net send bb", "net sends 032005bb, ok"),
    (
        "down deliver",
        "mob takes 032005bb, mob acked 1, mob got bb, mob sends 012205cc, ok",
    ),
    (
        "up deliver",
        "net takes 012205cc, net acked 1, net got cc, net sends 014101, ok",
    ),
    ("down deliver", "mob takes 014101, mob acked 2, ok"),
];

/// A REJ and an RR are in transit at the same time, in opposite directions.
const CROSSING_REJ_AND_RR: [(&str, &str); 11] = [
    ("mob send aa", "mob sends 010005aa, ok"),
    ("mob tick", "mob sends 011005aa, ok"),
    (
        "up deliver",
        "net takes 010005aa, net got aa, net sends 012101, ok",
    ),
    ("up deliver", "net takes 011005aa, net sends 013901, ok"),
    ("mob send dd", "ok"),
    (
        "down deliver",
        "mob takes 012101, mob acked 1, mob sends 010205dd, ok",
    ),
    ("down deliver", "mob takes 013901, mob sends 010205dd, ok"),
    (
        "up deliver",
        "net takes 010205dd, net got dd, net sends 014101, ok",
    ),
    ("up deliver", "net takes 010205dd, net sends 014901, ok"),
    ("down deliver", "mob takes 014101, mob acked 2, ok"),
    ("down deliver", "mob takes 014901, ok"),
];

/// The mobile releases the link while messages are not acknowledged yet.
const RELEASE_WITH_UNACKED_MESSAGES: [(&str, &str); 9] = [
    ("mob send aa", "mob sends 010005aa, ok"),
    ("mob send bb", "ok"),
    ("mob send cc", "ok"),
    ("mob close", "mob sends 015301, ok"),
    (
        "up deliver",
        "net takes 010005aa, net got aa, net sends 012101, ok",
    ),
    (
        "up deliver",
        "net takes 015301, net closed released, net sends 017301, ok",
    ),
    ("down deliver", "mob takes 012101, ok"),
    ("down deliver", "mob takes 017301, mob closed released, ok"),
    ("mob close", "no notopen"),
];

/// Both sides release the link at the same time.
const BOTH_SIDES_RELEASE: [(&str, &str); 6] = [
    ("mob close", "mob sends 015301, ok"),
    ("net close", "net sends 035301, ok"),
    ("up deliver", "net takes 015301, net sends 017301, ok"),
    ("down deliver", "mob takes 035301, mob sends 037301, ok"),
    ("down deliver", "mob takes 017301, mob closed released, ok"),
    ("up deliver", "net takes 037301, net closed released, ok"),
];

/// Both sides establish SAPI 3 at the same time.
const SAPI_3_COLLISION: [(&str, &str); 11] = [
    ("mob3 open", "mob sends 0d3f01, ok"),
    ("net3 open", "net sends 0f3f01, ok"),
    ("up deliver", "net takes 0d3f01, net sends 0d7301, ok"),
    ("down deliver", "mob takes 0f3f01, mob sends 0f7301, ok"),
    ("up deliver", "net takes 0f7301, net3 opened -, ok"),
    ("down deliver", "mob takes 0d7301, mob3 opened -, ok"),
    ("mob3 open", "no notidle"),
    ("mob3 send aa", "mob sends 0d0005aa, ok"),
    (
        "up deliver",
        "net takes 0d0005aa, net3 got aa, net sends 0d2101, ok",
    ),
    ("down deliver", "mob takes 0d2101, mob3 acked 1, ok"),
    ("mob send aa", "no notopen"),
];

/// Only the mobile establishes SAPI 3.
const MOBILE_ESTABLISHES_SAPI_3: [(&str, &str); 3] = [
    ("mob3 open", "mob sends 0d3f01, ok"),
    (
        "up deliver",
        "net takes 0d3f01, net3 opened -, net sends 0d7301, ok",
    ),
    ("down deliver", "mob takes 0d7301, mob3 opened -, ok"),
];

/// A message that takes two segments on SACCH.
const TWO_SEGMENTS_ON_SACCH: [(&str, &str); 9] = [
    (
        "mob open 00000000000000000000000000000000000000",
        "no toolong",
    ),
    ("mob open 01", "mob sends 0000013f0501, ok"),
    (
        "up deliver",
        "net takes 0000013f0501, net opened 01, net sends 000001730501, ok",
    ),
    ("down deliver", "mob takes 000001730501, mob opened 01, ok"),
    (
        "mob send 000102030405060708090a0b0c0d0e0f101112",
        "mob sends 000001004b000102030405060708090a0b0c0d0e0f1011, ok",
    ),
    (
        "up deliver",
        "net takes 000001004b000102030405060708090a0b0c0d0e0f1011, net sends 0000012101, ok",
    ),
    (
        "down deliver",
        "mob takes 0000012101, mob sends 000001020512, ok",
    ),
    (
        "up deliver",
        "net takes 000001020512, net got 000102030405060708090a0b0c0d0e0f101112, net sends 0000014101, ok",
    ),
    ("down deliver", "mob takes 0000014101, mob acked 1, ok"),
];

/// The sender gives up when T200 expires after the last retransmission. T200 then no longer runs.
const FAILURE_AFTER_LAST_REPETITION: [(&str, &str); 2] = [
    ("mob tick", "mob closed failed, ok"),
    ("mob tick", "no notrunning"),
];

/// If the queue of a side is full, `airfull` is reported before the call is checked, and before a block is received that the side might
/// answer.
const FULL_QUEUE: [(&str, &str); 6] = [
    ("net idle", "no airfull"),
    ("net tick", "no airfull"),
    ("mob idle", "mob sends 010301, ok"),
    ("up deliver", "no airfull"),
    ("down lose", "ok"),
    ("up deliver", "net takes 010301, ok"),
];

/// The mobile's I frame acknowledges the network's message. The next message of the network waits for this acknowledgement.
const ACK_BY_I_FRAME: [(&str, &str); 7] = [
    ("net send bb", "net sends 030005bb, ok"),
    ("net send cc", "ok"),
    (
        "down deliver",
        "mob takes 030005bb, mob got bb, mob sends 032101, ok",
    ),
    ("up lose", "ok"),
    ("mob send aa", "mob sends 012005aa, ok"),
    ("up lose", "ok"),
    ("mob tick", "mob sends 013005aa, ok"),
];

/// A message of 251 octets: 00 to fa.
const MESSAGE_OF_251_OCTETS: &str =
    "000102030405060708090a0b0c0d0e0f101112131415161718191a1b1c1d1e1f202122232425262728292a2b2c2d2e2f30313233343\
5363738393a3b3c3d3e3f404142434445464748494a4b4c4d4e4f505152535455565758595a5b5c5d5e5f606162636465666768696a6b6c6\
d6e6f707172737475767778797a7b7c7d7e7f808182838485868788898a8b8c8d8e8f909192939495969798999a9b9c9d9e9fa0a1a2a3a4a\
5a6a7a8a9aaabacadaeafb0b1b2b3b4b5b6b7b8b9babbbcbdbebfc0c1c2c3c4c5c6c7c8c9cacbcccdcecfd0d1d2d3d4d5d6d7d8d9dadbdcd\
ddedfe0e1e2e3e4e5e6e7e8e9eaebecedeeeff0f1f2f3f4f5f6f7f8f9fa";

/// The frames for each segment of the message: its I frame, the retransmission with P = 1, the RR, and the REJ with F = 1.
const SEGMENT_FRAMES: [(&str, &str, &str, &str); 13] = [
    (
        "010053000102030405060708090a0b0c0d0e0f10111213",
        "011053000102030405060708090a0b0c0d0e0f10111213",
        "012101",
        "013901",
    ),
    (
        "0102531415161718191a1b1c1d1e1f2021222324252627",
        "0112531415161718191a1b1c1d1e1f2021222324252627",
        "014101",
        "015901",
    ),
    (
        "01045328292a2b2c2d2e2f303132333435363738393a3b",
        "01145328292a2b2c2d2e2f303132333435363738393a3b",
        "016101",
        "017901",
    ),
    (
        "0106533c3d3e3f404142434445464748494a4b4c4d4e4f",
        "0116533c3d3e3f404142434445464748494a4b4c4d4e4f",
        "018101",
        "019901",
    ),
    (
        "010853505152535455565758595a5b5c5d5e5f60616263",
        "011853505152535455565758595a5b5c5d5e5f60616263",
        "01a101",
        "01b901",
    ),
    (
        "010a536465666768696a6b6c6d6e6f7071727374757677",
        "011a536465666768696a6b6c6d6e6f7071727374757677",
        "01c101",
        "01d901",
    ),
    (
        "010c5378797a7b7c7d7e7f808182838485868788898a8b",
        "011c5378797a7b7c7d7e7f808182838485868788898a8b",
        "01e101",
        "01f901",
    ),
    (
        "010e538c8d8e8f909192939495969798999a9b9c9d9e9f",
        "011e538c8d8e8f909192939495969798999a9b9c9d9e9f",
        "010101",
        "011901",
    ),
    (
        "010053a0a1a2a3a4a5a6a7a8a9aaabacadaeafb0b1b2b3",
        "011053a0a1a2a3a4a5a6a7a8a9aaabacadaeafb0b1b2b3",
        "012101",
        "013901",
    ),
    (
        "010253b4b5b6b7b8b9babbbcbdbebfc0c1c2c3c4c5c6c7",
        "011253b4b5b6b7b8b9babbbcbdbebfc0c1c2c3c4c5c6c7",
        "014101",
        "015901",
    ),
    (
        "010453c8c9cacbcccdcecfd0d1d2d3d4d5d6d7d8d9dadb",
        "011453c8c9cacbcccdcecfd0d1d2d3d4d5d6d7d8d9dadb",
        "016101",
        "017901",
    ),
    (
        "010653dcdddedfe0e1e2e3e4e5e6e7e8e9eaebecedeeef",
        "011653dcdddedfe0e1e2e3e4e5e6e7e8e9eaebecedeeef",
        "018101",
        "019901",
    ),
    (
        "01082df0f1f2f3f4f5f6f7f8f9fa",
        "01182df0f1f2f3f4f5f6f7f8f9fa",
        "01a101",
        "01b901",
    ),
];

/// All sessions: the command-line words, whether the session begins with `ESTABLISHMENT`, and the script with its answers.
const SESSIONS: [(&[&str], bool, &[(&str, &str)]); 9] = [
    (&LINK_SDCCH_WORDS, false, &REPEATED_SABM_SESSION),
    (&LINK_SDCCH_WORDS, false, &CONTENTION_SESSION),
    (&LINK_SDCCH_WORDS, true, &MESSAGES_IN_BOTH_DIRECTIONS),
    (&LINK_SDCCH_WORDS, true, &CROSSING_REJ_AND_RR),
    (&LINK_SDCCH_WORDS, true, &RELEASE_WITH_UNACKED_MESSAGES),
    (&LINK_SDCCH_WORDS, true, &BOTH_SIDES_RELEASE),
    (&LINK_SDCCH_WORDS, false, &SAPI_3_COLLISION),
    (&LINK_SDCCH_WORDS, false, &MOBILE_ESTABLISHES_SAPI_3),
    (&LINK_SACCH_WORDS, false, &TWO_SEGMENTS_ON_SACCH),
];

// Checks the answers to a script made up of these parts. Each part is given so many times.
fn check_parts(
    rt: &(impl Abort + AllocGlobal),
    words: &[&str],
    parts: &[(u32, &[(&str, &str)])],
) -> Result<(), Fail> {
    let mut script = Script::new(rt.alloc());
    for (times, rows) in parts {
        script.add_times(*times, rows)?;
    }
    script.check(rt, words);
    Ok(())
}

#[test]
fn example_sessions_are_answered_line_by_line(rt: HostRuntime) -> Result<(), Fail> {
    for (words, opens, rows) in SESSIONS {
        check_parts(&rt, words, &[(u32::from(opens), &ESTABLISHMENT), (1, rows)])?;
    }
    Ok(())
}

#[test]
fn a_long_message_is_delivered_once(rt: HostRuntime) -> Result<(), Fail> {
    let mut script = Script::new(rt.alloc());
    script.add_all(&ESTABLISHMENT)?;
    let got = format!(in rt.alloc(); ", net got {MESSAGE_OF_251_OCTETS}")?;
    let send = format!(in rt.alloc(); "mob send {MESSAGE_OF_251_OCTETS}")?;
    script.add(
        send.as_str(),
        "mob sends 010053000102030405060708090a0b0c0d0e0f10111213, ok",
    )?;
    for (place, (piece, again, ready, rejected)) in SEGMENT_FRAMES.iter().enumerate() {
        let handed_up = if place == 12 { got.as_str() } else { "" };
        let arrives = format!(in rt.alloc();
            "net takes {piece}{handed_up}, net sends {ready}, ok"
        )?;
        let repeats = format!(in rt.alloc(); "mob sends {again}, ok")?;
        let returns = format!(in rt.alloc(); "net takes {again}, net sends {rejected}, ok")?;
        let next = match SEGMENT_FRAMES.get(place.saturating_add(1)) {
            Some((piece, _, _, _)) => format!(in rt.alloc(); "mob sends {piece}")?,
            None => format!(in rt.alloc(); "mob acked 1")?,
        };
        let goes_on = format!(in rt.alloc(); "mob takes {rejected}, {next}, ok")?;
        script.add_all(&[
            ("up deliver", arrives.as_str()),
            ("down lose", "ok"),
            ("mob tick", repeats.as_str()),
            ("up deliver", returns.as_str()),
            ("down deliver", goes_on.as_str()),
        ])?;
    }
    script.check(&rt, &LINK_SDCCH_WORDS);
    Ok(())
}

/// Checks that the sender gives up if its block and all retransmissions of the block are lost.
fn check_failure_after(
    rt: &(impl Abort + AllocGlobal),
    script: &mut Script,
    words: &[&str],
    times: u32,
    again: &str,
) -> Result<(), Fail> {
    script.add("up lose", "ok")?;
    script.add_times(times, &[("mob tick", again), ("up lose", "ok")])?;
    script.add_all(&FAILURE_AFTER_LAST_REPETITION)?;
    script.check(rt, words);
    Ok(())
}

#[test]
fn a_side_reports_failure_after_n200_repetitions(rt: HostRuntime) -> Result<(), Fail> {
    let mut opening = Script::new(rt.alloc());
    opening.add("mob open 01", "mob sends 013f0501, ok")?;
    check_failure_after(
        &rt,
        &mut opening,
        &LINK_SDCCH_WORDS,
        5,
        "mob sends 013f0501, ok",
    )?;
    let mut open = Script::new(rt.alloc());
    open.add_all(&ESTABLISHMENT)?;
    open.add("mob send aa", "mob sends 010005aa, ok")?;
    check_failure_after(
        &rt,
        &mut open,
        &LINK_SDCCH_WORDS,
        23,
        "mob sends 011005aa, ok",
    )?;
    let mut other = Script::new(rt.alloc());
    other.add("mob open 01", "mob sends 0000013f0501, ok")?;
    check_failure_after(
        &rt,
        &mut other,
        &LINK_SACCH_WORDS,
        5,
        "mob sends 0000013f0501, ok",
    )
}

/// An empty queue, and then a full one.
const EMPTY_AND_FULL_QUEUE: [(u32, &[(&str, &str)]); 3] = [
    (1, &[("up lose", "no nothing"), ("rival -", "no empty")]),
    (63, &[("net idle", "net sends 030301, ok")]),
    (1, &FULL_QUEUE),
];

#[test]
fn a_full_queue_is_reported_before_other_refusals(rt: HostRuntime) -> Result<(), Fail> {
    check_parts(&rt, &LINK_SDCCH_WORDS, &EMPTY_AND_FULL_QUEUE)
}

/// A script that fills the queue of the network up to its last block.
const QUEUE_OF_64_BLOCKS: [(u32, &[(&str, &str)]); 6] = [
    (1, &ESTABLISHMENT),
    (1, &ACK_BY_I_FRAME),
    (62, &[("net idle", "net sends 030301, ok")]),
    (
        1,
        &[(
            "up deliver",
            "net takes 013005aa, net acked 1, net got aa, net sends 013101, net sends 032205cc, ok",
        )],
    ),
    (62, &[("down deliver", "mob takes 030301, ok")]),
    (1, &[("down deliver", "mob takes 013101, mob acked 1, ok")]),
];

#[test]
fn a_queue_holds_64_blocks(rt: HostRuntime) -> Result<(), Fail> {
    check_parts(&rt, &LINK_SDCCH_WORDS, &QUEUE_OF_64_BLOCKS)
}

/// The mobile has eight messages that are not acknowledged yet, and refuses the ninth.
const NINE_MESSAGES: [(u32, &[(&str, &str)]); 4] = [
    (1, &ESTABLISHMENT),
    (1, &[("mob send aa", "mob sends 010005aa, ok")]),
    (7, &[("mob send aa", "ok")]),
    (1, &[("mob send aa", "no full")]),
];

#[test]
fn an_endpoint_holds_eight_messages(rt: HostRuntime) -> Result<(), Fail> {
    check_parts(&rt, &LINK_SDCCH_WORDS, &NINE_MESSAGES)
}

#[test]
fn the_radio_is_called_for_each_block(rt: HostRuntime) -> Result<(), Fail> {
    let mut script = Script::new(rt.alloc());
    script.add_all(&REPEATED_SABM_SESSION)?;
    let mut source = PlainSource::new(script.input(), 100);
    let mut sink = MemorySink::new(rt.alloc(), 10_000, 10_000, &[])
        .ok()
        .ok_or("no memory")?;
    let mut radio = PlainRadio::new();
    check_status(
        &rt,
        &LINK_SDCCH_WORDS,
        &mut source,
        &mut sink,
        &mut radio,
        Status::Done,
    );
    assert_eq!(&rt; (radio.sent(), radio.heard()), (6, 5));
    Ok(())
}
