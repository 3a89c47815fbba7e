//! Script lines that are parsed and refused, and the answers to them.
use std::process::Abort;
use std::test::Fail;
use um_block::{BLOCK_OCTETS, Bits, ENCODER_INPUT_BITS, from_octets};
use um_link::{
    Air, Call, Effects, End, Event, Frames, Message, No, Notice, Notices, Reason, Received, Sapi,
    Step, Way, Who,
};
use um_text::{LineFault, Room, ScriptLine, Text, parse_script, step_lines};

const REFUSED_LINES: [(&str, LineFault); 26] = [
    ("up flip 592", LineFault::Place),
    ("up flip 5 5", LineFault::Twice),
    ("net open 01", LineFault::Word),
    ("mob send 0", LineFault::Length),
    ("up flip 5 5 592", LineFault::Place),
    ("up flip 592 x", LineFault::Digits),
    ("up flop 5 5 592 x", LineFault::Word),
    ("up flip 18446744073709551616", LineFault::Place),
    ("up flip 05", LineFault::Digits),
    ("up flip -1", LineFault::Digits),
    ("up flip ", LineFault::Digits),
    ("up flip", LineFault::Word),
    ("down deliver ", LineFault::Word),
    ("mob close 0", LineFault::Word),
    ("mob open", LineFault::Word),
    ("mob3 open -", LineFault::Word),
    ("net3 idle", LineFault::Word),
    ("rival", LineFault::Word),
    ("rival 01 02", LineFault::Word),
    ("rival ", LineFault::Length),
    ("mob send 0g0", LineFault::Digits),
    ("mob unit 00-", LineFault::Digits),
    ("Mob idle", LineFault::Word),
    ("mob idle\r", LineFault::Word),
    ("net open 0", LineFault::Word),
    ("up flip 5 5 x", LineFault::Digits),
];

#[test]
fn a_bad_script_line_has_its_first_reason(rt: HostRuntime) {
    let mut room = Room::new();
    for (line, fault) in REFUSED_LINES {
        assert_eq!(rt;
            parse_script(line.as_bytes(), &mut room).err(),
            Some(fault),
            "{line}"
        );
    }
    for octet in [b'#', b'x'] {
        let fault = parse_script(&[octet; 4097], &mut room).err();
        assert_eq!(rt; fault, Some(LineFault::Long), "{octet}");
    }
    assert!(rt; matches!(parse_script(&[b'#'; 4096], &mut room), Ok(ScriptLine::Skip)));
}

#[test]
fn digits_are_read_in_both_cases(rt: HostRuntime) {
    let mut room = Room::new();
    assert!(rt;
        matches!(
            parse_script(b"rival 0aFAf0Af", &mut room),
            Ok(ScriptLine::Step(Event::Rival(octets))) if octets == [0x0a, 0xfa, 0xf0, 0xaf].as_slice()
        )
    );
}

#[test]
fn the_longest_lines_are_read(rt: HostRuntime) -> Result<(), Fail> {
    let mut room = Room::new();
    let mut line = [b'0'; 4095];
    line[..9].copy_from_slice(b"mob send ");
    assert!(rt;
        matches!(
            parse_script(&line, &mut room),
            Ok(ScriptLine::Step(Event::End(End::Mobile, Sapi::Zero, Call::Send(octets)))) if octets.len() == 2043
        )
    );
    let mut line = Vec::new(rt.alloc());
    line.extend_from_slice(b"up flip")?;
    for place in 0..592 {
        let word = format!(in rt.alloc(); " {place}")?;
        line.extend_from_slice(word.as_bytes())?;
    }
    assert!(rt;
        matches!(
            parse_script(line.as_slice(), &mut room),
            Ok(ScriptLine::Step(Event::Air(Way::Up, Air::Flip(places)))) if places.get(591..) == Some([591].as_slice())
        )
    );
    Ok(())
}

/// Returns a block that begins with these octets and continues with fill octets.
fn block(front: [u8; 4]) -> [u8; BLOCK_OCTETS] {
    let mut octets = [0x2b; BLOCK_OCTETS];
    octets[..4].copy_from_slice(&front);
    octets
}

/// Returns the report on a received block. Its CRC is correct if and only if `accepted` holds octets.
fn reception_quality(
    u: Bits<ENCODER_INPUT_BITS>,
    tsc: u8,
    accepted: Option<[u8; BLOCK_OCTETS]>,
) -> Option<Received> {
    Some(Received {
        u,
        metric: 57912,
        tsc,
        wrong_training: 0,
        accepted,
    })
}

fn frames_with_block(front: [u8; 4]) -> Frames {
    let mut frames = Frames::new();
    frames.push(block(front));
    frames
}

fn notices_with(notice: Notice) -> Notices {
    let mut notices = Notices::new();
    notices.push(notice);
    notices
}

// Checks the octets of a text.
fn check_text(rt: &impl Abort, text: &Text, expected: &str) {
    assert!(rt; text.octets() == expected.as_bytes());
}

#[test]
fn a_sabm_of_another_mobile_is_written(rt: HostRuntime) {
    let mut out = Text::new();
    let effects = Effects {
        frames: frames_with_block([1, 0x3f, 5, 2]),
        notices: Notices::new(),
    };
    step_lines(
        &mut out,
        &Ok(Step {
            who: Who::Rival,
            sapi: Sapi::Zero,
            received: None,
            effects,
        }),
    );
    check_text(
        &rt,
        &out,
        "rival sends 013f05022b2b2b2b2b2b2b2b2b2b2b2b2b2b2b2b2b2b2b\nok\n",
    );
}

#[test]
fn reception_notice_and_sent_frame_are_written_in_order(rt: HostRuntime) {
    let mut out = Text::new();
    let effects = Effects {
        frames: frames_with_block([0x0d, 0x21, 1, 0x2b]),
        notices: notices_with(Notice::Got(Message::new(&[0xaa]))),
    };
    step_lines(
        &mut out,
        &Ok(Step {
            who: Who::Network,
            sapi: Sapi::Three,
            received: reception_quality(Bits::zero(), 0, Some(block([0x0d, 0, 5, 0xaa]))),
            effects,
        }),
    );
    check_text(
        &rt,
        &out,
        "net takes 0d0005aa2b2b2b2b2b2b2b2b2b2b2b2b2b2b2b2b2b2b2b tsc 0 train 0 metric 57912\n\
net3 got aa\n\
net sends 0d21012b2b2b2b2b2b2b2b2b2b2b2b2b2b2b2b2b2b2b2b\n\
ok\n",
    );
}

#[test]
fn a_closing_by_contention_is_written(rt: HostRuntime) {
    let mut out = Text::new();
    let effects = Effects {
        frames: Frames::new(),
        notices: notices_with(Notice::Closed(Reason::Contention)),
    };
    step_lines(
        &mut out,
        &Ok(Step {
            who: Who::Mobile,
            sapi: Sapi::Zero,
            received: reception_quality(Bits::zero(), 0, Some(block([1, 0x73, 5, 2]))),
            effects,
        }),
    );
    check_text(
        &rt,
        &out,
        "mob takes 017305022b2b2b2b2b2b2b2b2b2b2b2b2b2b2b2b2b2b2b tsc 0 train 0 metric 57912\n\
mob closed contention\n\
ok\n",
    );
}

#[test]
fn a_block_with_a_bad_crc_is_written_as_dropped(rt: HostRuntime) -> Result<(), Fail> {
    let mut octets = [0x2b; 28];
    octets[..3].copy_from_slice(&[2, 3, 1]);
    octets[BLOCK_OCTETS..].copy_from_slice(&[0x2c, 0x4e, 0x54, 0x02, 0x33]);
    let mut bits = [0; ENCODER_INPUT_BITS];
    from_octets(&octets, &mut bits[..224]);
    let Some(u) = Bits::from_slice(&bits) else {
        return Err("no bits".into());
    };
    let effects = Effects {
        frames: Frames::new(),
        notices: Notices::new(),
    };
    let mut out = Text::new();
    step_lines(
        &mut out,
        &Ok(Step {
            who: Who::Mobile,
            sapi: Sapi::Zero,
            received: reception_quality(u, 7, None),
            effects,
        }),
    );
    check_text(
        &rt,
        &out,
        "mob drops tsc 7 train 0 metric 57912 data 0203012b2b2b2b2b2b2b2b2b2b2b2b2b2b2b2b2b2b2b2b check 2c4e540233\n\
ok\n",
    );
    out.clear();
    step_lines(&mut out, &Err(No::NotRunning));
    check_text(&rt, &out, "no notrunning\n");
    Ok(())
}
