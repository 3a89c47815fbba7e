//! Worked sessions of an endpoint of the mobile.
ghost use Rattle.std.specs.Prelude.{◌≡◌};
ghost use Rattle.lapdm_end.specs.lapdm_frame.declared.Channel.TheVariants as C;
ghost use Rattle.lapdm_end.specs.lapdm_window.declared.Sapi.TheVariants as S;
ghost use Rattle.lapdm_end.specs.Abstraction.{channel_of, sapi_of};
ghost use Rattle.lapdm_mobile.specs.Ends.{endpoint_of};

use lapdm_end::{
    Body, Channel, Effects, FrameView, Message, Notice, Reason, Refused, Sapi, State, fits, fits_on,
};
use lapdm_mobile::Mobile;
use std::process::Abort;

// An endpoint of SAPI 0, and its channel.
#[derive(Drop)]
struct Session {
    end: Mobile,
    channel: Channel,
    ghost same_channel: { channel_of (endpoint_of end) ≡ channel },
    ghost zero: { sapi_of (endpoint_of end) ≡ S.Zero },
}

impl Session {
    fn new(channel: Channel) -> Session {
        Session {
            end: Mobile::new_on(Sapi::Zero, channel),
            channel,
        }
    }

    fn take(&mut self, rt: &impl Abort, frame: &FrameView<'_>) -> Effects {
        assert!(rt; fits_on(frame, self.channel));
        self.end.take(frame)
    }

    // Passes a frame of SAPI 0 to the endpoint, and checks the frames and notices that result.
    fn take_and_check(
        &mut self,
        rt: &impl Abort,
        cr: bool,
        body: Body<'_>,
        sent: &[u8],
        expected_notice: Option<Notice>,
    ) {
        let effects = self.take(rt, &FrameView { sapi: 0, cr, body });
        assert!(rt; sends_only(&effects, sent));
        assert!(rt; reports_only(&effects, &expected_notice));
    }
}

// Returns whether the endpoint sent exactly one block, made up of these octets and fill octets, or no block if `octets` is empty.
pub fn sends_only(effects: &Effects, octets: &[u8]) -> bool {
    match effects.frames.as_slice() {
        [] => octets.is_empty(),
        [block] => {
            !octets.is_empty()
                && block.starts_with(octets)
                && block.iter().skip(octets.len()).all(|octet| *octet == 0x2b)
        }
        _ => false,
    }
}

pub fn reports_only(effects: &Effects, expected_notice: &Option<Notice>) -> bool {
    match (effects.notices.as_slice(), expected_notice) {
        ([], None) => true,
        ([one], Some(other)) => is_same_notice(one, other),
        _ => false,
    }
}

fn is_same_notice(one: &Notice, other: &Notice) -> bool {
    match (one, other) {
        (Notice::Opened(a), Notice::Opened(b))
        | (Notice::Got(a), Notice::Got(b))
        | (Notice::Unit(a), Notice::Unit(b)) => a.octets() == b.octets(),
        (Notice::Acked(a), Notice::Acked(b)) => *a == *b,
        (Notice::Oversize, Notice::Oversize) => true,
        (Notice::Closed(a), Notice::Closed(b)) => *a == *b,
        _ => false,
    }
}

// Checks that a call is answered with these octets, and with this notice.
pub fn check_answer(
    rt: &impl Abort,
    answer: &Result<Effects, Refused>,
    sent: &[u8],
    expected_notice: Option<Notice>,
) {
    assert!(rt;
        matches!(answer, Ok(effects) if sends_only(effects, sent) && reports_only(effects, &expected_notice))
    );
}

// Checks that a call is refused for this reason.
pub fn check_refused(rt: &impl Abort, answer: &Result<Effects, Refused>, reason: Refused) {
    assert!(rt; matches!(answer, Err(other) if *other == reason));
}

// Checks that the mobile refuses to establish the link when its state is not Idle.
fn open_is_refused(rt: &impl Abort, session: &mut Session) {
    check_refused(rt, &session.end.open(&[1]), Refused::NotIdle);
}

// Checks that the mobile refuses to send a message and to release the link when its state is not Open.
fn send_and_close_are_refused(rt: &impl Abort, session: &mut Session) {
    check_refused(rt, &session.end.send(&[]), Refused::NotOpen);
    check_refused(rt, &session.end.close(), Refused::NotOpen);
}

// Checks that the mobile refuses T200 expiry while T200 is not running.
fn t200_expiry_is_refused(rt: &impl Abort, session: &mut Session) {
    check_refused(rt, &session.end.timer(), Refused::NotRunning);
}

// Checks the calls that are possible in every state: sending a UI frame and sending the fill frame.
fn sends_ui_frames(rt: &impl Abort, session: &mut Session) {
    check_refused(rt, &session.end.unit(&[]), Refused::Empty);
    check_refused(rt, &session.end.unit(&[7; 21]), Refused::TooLong);
    check_answer(rt, &session.end.unit(&[9]), &[0x01, 0x03, 0x05, 9], None);
    assert!(rt; sends_only(&session.end.idle(), &[0x01, 0x03, 0x01]));
}

// A mobile that has sent its SABM, with the information 01 02.
fn mobile_in_opening(rt: &impl Abort) -> Session {
    let mut session = Session::new(Channel::Sdcch);
    send_and_close_are_refused(rt, &mut session);
    t200_expiry_is_refused(rt, &mut session);
    sends_ui_frames(rt, &mut session);
    check_refused(rt, &session.end.open(&[]), Refused::Empty);
    check_refused(rt, &session.end.open(&[7; 21]), Refused::TooLong);
    check_answer(
        rt,
        &session.end.open(&[1, 2]),
        &[0x01, 0x3f, 0x09, 1, 2],
        None,
    );
    open_is_refused(rt, &mut session);
    send_and_close_are_refused(rt, &mut session);
    sends_ui_frames(rt, &mut session);
    session
}

fn session_with_open_link(rt: &impl Abort) -> Session {
    let mut session = mobile_in_opening(rt);
    let expected_notice = Some(Notice::Opened(Message::new(&[1, 2])));
    let ua = Body::Ua {
        f: true,
        info: &[1, 2],
    };
    session.take_and_check(rt, false, ua, &[], expected_notice);
    open_is_refused(rt, &mut session);
    t200_expiry_is_refused(rt, &mut session);
    sends_ui_frames(rt, &mut session);
    session
}

#[test]
fn closes_at_a_ua_with_other_information(rt: HostRuntime) {
    let others: [&[u8]; 5] = [&[], &[1], &[1, 3], &[1, 2, 0], &[2]];
    for info in others {
        let mut session = mobile_in_opening(&rt);
        let contention = Some(Notice::Closed(Reason::Contention));
        session.take_and_check(&rt, false, Body::Ua { f: false, info }, &[], None);
        session.take_and_check(&rt, false, Body::Ua { f: true, info }, &[], contention);
        open_is_refused(&rt, &mut session);
        send_and_close_are_refused(&rt, &mut session);
        t200_expiry_is_refused(&rt, &mut session);
        sends_ui_frames(&rt, &mut session);
    }
}

#[test]
fn is_refused_by_dm(rt: HostRuntime) {
    let mut session = mobile_in_opening(&rt);
    let refused = Some(Notice::Closed(Reason::Refused));
    session.take_and_check(&rt, false, Body::Dm { f: true }, &[], refused);
    assert_eq!(rt; session.end.state(), State::Closed);
}

#[test]
fn fails_after_23_repetitions(rt: HostRuntime) {
    let mut session = session_with_open_link(&rt);
    check_answer(
        &rt,
        &session.end.send(&[0xaa]),
        &[0x01, 0x00, 0x05, 0xaa],
        None,
    );
    for _ in 0..23 {
        check_answer(&rt, &session.end.timer(), &[0x01, 0x10, 0x05, 0xaa], None);
    }
    let failed = Some(Notice::Closed(Reason::Failed));
    check_answer(&rt, &session.end.timer(), &[], failed);
}

#[test]
fn fails_after_5_repetitions_on_sacch(rt: HostRuntime) {
    let mut session = Session::new(Channel::Sacch);
    let sabm = [0x00, 0x00, 0x01, 0x3f, 0x05, 0x01];
    check_refused(&rt, &session.end.open(&[7; 19]), Refused::TooLong);
    check_answer(&rt, &session.end.open(&[1]), &sabm, None);
    for _ in 0..5 {
        check_answer(&rt, &session.end.timer(), &sabm, None);
    }
    let failed = Some(Notice::Closed(Reason::Failed));
    check_answer(&rt, &session.end.timer(), &[], failed);
}

#[test]
fn closes_the_link(rt: HostRuntime) {
    let mut session = session_with_open_link(&rt);
    check_answer(&rt, &session.end.close(), &[0x01, 0x53, 0x01], None);
    open_is_refused(&rt, &mut session);
    send_and_close_are_refused(&rt, &mut session);
    sends_ui_frames(&rt, &mut session);
    check_answer(&rt, &session.end.timer(), &[0x01, 0x53, 0x01], None);
    let ua = |info| Body::Ua { f: true, info };
    session.take_and_check(&rt, false, ua(&[1, 2]), &[], None);
    let released = Some(Notice::Closed(Reason::Released));
    session.take_and_check(&rt, false, ua(&[]), &[], released);
    open_is_refused(&rt, &mut session);
    send_and_close_are_refused(&rt, &mut session);
    t200_expiry_is_refused(&rt, &mut session);
    sends_ui_frames(&rt, &mut session);
}

// Passes a frame of SAPI 3 to the endpoint, and checks the frames and notices that result.
fn take_sapi_3_frame(
    rt: &impl Abort,
    mobile: &mut Mobile,
    cr: bool,
    body: Body<'_>,
    sent: &[u8],
    expected_notice: Option<Notice>,
)
    requires { channel_of (endpoint_of mobile.old) ≡ C.Sdcch }
    ensures { channel_of (endpoint_of mobile.new) ≡ C.Sdcch }
{
    let frame = FrameView { sapi: 3, cr, body };
    assert!(rt; fits(&frame));
    check_answer(rt, &Ok(mobile.take(&frame)), sent, expected_notice);
}

#[test]
fn opens_sapi_3_from_both_ends_at_once(rt: HostRuntime) {
    assert_eq!(rt; Mobile::new().sapi(), Sapi::Zero);
    let mut mobile = Mobile::with_sapi(Sapi::Three);
    assert_eq!(rt; mobile.sapi(), Sapi::Three);
    check_answer(&rt, &mobile.open_bare(), &[0x0d, 0x3f, 0x01], None);
    check_refused(&rt, &mobile.open_bare(), Refused::NotIdle);
    let sabm = Body::Sabm { p: true, info: &[] };
    take_sapi_3_frame(&rt, &mut mobile, true, sabm, &[0x0f, 0x73, 0x01], None);
    let ua = Body::Ua { f: true, info: &[] };
    let opened = Some(Notice::Opened(Message::new(&[])));
    take_sapi_3_frame(&rt, &mut mobile, false, ua, &[], opened);
}
