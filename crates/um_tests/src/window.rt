//! Worked sessions of a send and receive window.
use lapdm_window::{Acked, Frames, Info, Joined, Message, Notice, Notices, Refused, Timer, Window};
use segmenting::{BLOCK_OCTETS, Channel, Piece};
use std::process::Abort;
use std::test::Fail;

// Checks whether the window takes this message.
fn check_put(rt: &impl Abort, window: &mut Window, message: &[u8], expected: Result<(), Refused>) {
    assert_eq!(rt; window.put(message), expected);
}

// Checks whether the window has a segment to send now.
fn check_send(rt: &impl Abort, window: &mut Window, expected: bool) {
    assert!(rt; window.send_next() == expected);
}

// Checks whether a REJ frame finds a sent segment that awaits its acknowledgement.
fn check_reject(rt: &impl Abort, window: &Window, expected: bool) {
    assert!(rt; window.on_reject() == expected);
}

// Checks what the timer does when it runs out.
fn check_timer(rt: &impl Abort, window: &mut Window, expected: Timer) {
    assert_eq!(rt; window.on_timer(), expected);
}

// Checks what an acknowledgement with this number does.
fn check_ack(rt: &impl Abort, window: &mut Window, nr: u8, expected: Acked) {
    assert!(rt; nr <= 7);
    assert_eq!(rt; window.on_ack(nr), expected);
}

// Checks what a received I frame with this number, P bit and segment does.
fn check_info(
    rt: &impl Abort,
    window: &mut Window,
    ns: u8,
    p: bool,
    piece: Piece<'_>,
    expected: Info,
) {
    assert!(rt; ns <= 7 && !piece.octets.is_empty() && piece.octets.len() <= 20);
    assert_eq!(rt; window.on_info(ns, p, piece.octets, piece.more), expected);
}

// Checks the send state variable V(S) or the receive state variable V(R).
fn check_state_variable(rt: &impl Abort, number: u8, expected: u8) {
    assert_eq!(rt; number, expected);
}

// Checks the message that was received last.
fn check_message(rt: &impl Abort, window: &Window, expected: &[u8]) {
    assert_eq!(rt; window.message(), expected);
}

fn fill_with_messages(rt: &impl Abort, window: &mut Window) {
    for i in 0..8 {
        check_put(rt, window, &[i], Ok(()));
    }
    check_put(rt, window, &[8], Err(Refused::Full));
}

fn fails_after_retries(rt: &impl Abort, window: &mut Window, retries: u32) {
    for _ in 0..retries {
        check_timer(rt, window, Timer::Again);
    }
    check_timer(rt, window, Timer::Spent);
}

#[test]
fn sends_as_in_an_example_session(rt: HostRuntime) {
    let mut window = Window::new();
    check_put(&rt, &mut window, &[], Err(Refused::Empty));
    check_put(&rt, &mut window, &[0; 252], Err(Refused::TooLong));
    fill_with_messages(&rt, &mut window);
    check_timer(&rt, &mut window, Timer::NotRunning);
    check_send(&rt, &mut window, true);
    check_send(&rt, &mut window, false);
    check_ack(&rt, &mut window, 0, Acked::Nothing);
    check_ack(&rt, &mut window, 1, Acked::Message(1));
    check_put(&rt, &mut window, &[9], Ok(()));
    check_send(&rt, &mut window, true);
    fails_after_retries(&rt, &mut window, 23);
}

#[test]
fn fails_after_five_repetitions_on_sacch(rt: HostRuntime) {
    let mut window = Window::new_on(Channel::Sacch);
    check_put(&rt, &mut window, &[1], Ok(()));
    check_send(&rt, &mut window, true);
    fails_after_retries(&rt, &mut window, 5);
}

#[test]
fn receives_as_in_an_example_session(rt: HostRuntime) {
    let mut window = Window::new();
    let piece = Piece {
        octets: &[0xaa],
        more: false,
    };
    for (p, reject) in [(false, true), (false, false), (true, true)] {
        let info = Info::OutOfSequence { reject };
        check_info(&rt, &mut window, 1, p, piece, info);
    }
    let info = Info::Accepted(Joined::Whole);
    check_info(&rt, &mut window, 0, false, piece, info);
    check_message(&rt, &window, &[0xaa]);
    check_state_variable(&rt, window.vr(), 1);
}

// Carries the next segment from one window to the other, and its acknowledgement back.
fn carry_segment_and_ack(
    rt: &impl Abort,
    from: &mut Window,
    to: &mut Window,
    joined: Joined,
    acked: Acked,
) {
    check_reject(rt, from, false);
    check_send(rt, from, true);
    check_reject(rt, from, true);
    let ns = from.va();
    let piece = from.waiting().expect(rt, "a segment waits");
    check_info(rt, to, ns, false, piece, Info::Accepted(joined));
    check_state_variable(rt, from.vs(), to.vr());
    check_ack(rt, from, to.vr(), acked);
}

#[test]
fn carries_251_octets_on_either_channel(rt: HostRuntime) {
    let mut octets = [0u8; 251];
    for (i, octet) in octets.iter_mut().enumerate() {
        *octet = i as u8;
    }
    for (channel, pieces) in [(Channel::Sdcch, 13), (Channel::Sacch, 14)] {
        let mut from = Window::new_on(channel);
        let mut to = Window::new_on(channel);
        check_put(&rt, &mut from, &octets, Ok(()));
        for _ in 1..pieces {
            carry_segment_and_ack(&rt, &mut from, &mut to, Joined::More, Acked::Piece);
        }
        carry_segment_and_ack(&rt, &mut from, &mut to, Joined::Whole, Acked::Message(1));
        check_message(&rt, &to, &octets);
    }
}

#[test]
fn carries_eight_messages_three_times(rt: HostRuntime) {
    let mut from = Window::new();
    let mut to = Window::new();
    for round in 0..3u64 {
        fill_with_messages(&rt, &mut from);
        for i in 0..8u8 {
            let acked = Acked::Message(8 * round + u64::from(i) + 1);
            carry_segment_and_ack(&rt, &mut from, &mut to, Joined::Whole, acked);
            check_message(&rt, &to, &[i]);
        }
        check_state_variable(&rt, from.vs(), 0);
    }
}

#[test]
fn keeps_frames_and_notices_in_order(rt: HostRuntime) {
    let mut frames = Frames::new();
    frames.push([1; BLOCK_OCTETS]);
    frames.push([2; BLOCK_OCTETS]);
    assert_eq!(rt;
        frames.as_slice(),
        [[1; BLOCK_OCTETS], [2; BLOCK_OCTETS]].as_slice()
    );
    let mut notices = Notices::new();
    notices.push(Notice::Got(Message::new(&[7, 8])));
    notices.push(Notice::Acked(3));
    assert!(rt;
        matches!(notices.as_slice(), [Notice::Got(m), Notice::Acked(3)] if m.octets() == [7, 8].as_slice())
    );
}

const REFUSAL_TEXTS: [(Refused, &str); 6] = [
    (Refused::NotIdle, "the link was opened before"),
    (Refused::NotOpen, "the link is not open"),
    (
        Refused::NotRunning,
        "the timer T200 is not running: no frame awaits an answer",
    ),
    (
        Refused::Empty,
        "the message is empty, expected at least one octet",
    ),
    (
        Refused::TooLong,
        "the message is too long: more than 251 octets, or more than N201 in one frame",
    ),
    (
        Refused::Full,
        "eight messages are not wholly acknowledged, the most that a link holds",
    ),
];

#[test]
fn each_refused_call_has_its_text(rt: HostRuntime) -> Result<(), Fail> {
    for (refusal, text) in REFUSAL_TEXTS {
        let shown = format!(in rt.alloc(); "{refusal}")?;
        assert_eq!(rt; shown.as_str(), text);
    }
    Ok(())
}
