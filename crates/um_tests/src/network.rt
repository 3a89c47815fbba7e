//! Worked sessions of an endpoint of the network.
ghost use Rattle.std.specs.Prelude.{◌≡◌};
ghost use Rattle.lapdm_end.specs.Abstraction.{channel_of};
ghost use Rattle.lapdm_network.specs.Ends.{endpoint_of};

use crate::mobile::{check_answer, check_refused, reports_only, sends_only};
use lapdm_end::{
    Body, Channel, Effects, FrameView, Message, Notice, Refused, Sapi, State, fits_on,
};
use lapdm_network::Network;
use std::process::Abort;

// An endpoint, and its channel.
#[derive(Drop)]
struct Session {
    end: Network,
    channel: Channel,
    ghost same_channel: { channel_of (endpoint_of end) ≡ channel },
}

impl Session {
    fn new(sapi: Sapi, channel: Channel) -> Session {
        Session {
            end: Network::new_on(sapi, channel),
            channel,
        }
    }

    fn take(&mut self, rt: &impl Abort, frame: &FrameView<'_>) -> Effects {
        assert!(rt; fits_on(frame, self.channel));
        self.end.take(frame)
    }

    // Passes a frame of SAPI 0 to the endpoint, and checks the frames and notices that result.
    fn take_and_check(
        &mut self,
        rt: &impl Abort,
        cr: bool,
        body: Body<'_>,
        sent: &[u8],
        expected_notice: Option<Notice>,
    ) {
        let effects = self.take(rt, &FrameView { sapi: 0, cr, body });
        assert!(rt; sends_only(&effects, sent));
        assert!(rt; reports_only(&effects, &expected_notice));
    }

    // Passes the last segment of a message, which is one octet, and checks the frames and notices that result.
    fn take_last_segment(
        &mut self,
        rt: &impl Abort,
        ns: u8,
        octet: u8,
        sent: &[u8],
        expected_notice: Option<Notice>,
    ) {
        self.take_and_check(
            rt,
            false,
            i_frame(ns, 0, false, &[octet]),
            sent,
            expected_notice,
        );
    }
}

// The notice of a message that is the octet aa.
fn got_aa() -> Option<Notice> {
    Some(Notice::Got(Message::new(&[0xaa])))
}

fn i_frame<'a>(ns: u8, nr: u8, more: bool, info: &'a [u8]) -> Body<'a> {
    Body::I {
        ns,
        nr,
        p: false,
        more,
        info,
    }
}

fn session_with_open_link(rt: &impl Abort) -> Session {
    let mut session = Session::new(Sapi::Zero, Channel::Sdcch);
    let sabm = Body::Sabm {
        p: true,
        info: &[1],
    };
    let expected_notice = Some(Notice::Opened(Message::new(&[1])));
    session.take_and_check(rt, false, sabm, &[0x01, 0x73, 0x05, 0x01], expected_notice);
    session
}

#[test]
fn answers_a_repeated_sabm_and_rejects_a_repeated_segment_once(rt: HostRuntime) {
    let mut session = session_with_open_link(&rt);
    let sabm = |info| Body::Sabm { p: true, info };
    session.take_last_segment(&rt, 0, 0xaa, &[0x01, 0x21, 0x01], got_aa());
    session.take_and_check(&rt, false, sabm(&[1]), &[0x01, 0x73, 0x05, 0x01], None);
    for info in [&[2][..], &[1, 0], &[]] {
        session.take_and_check(&rt, false, sabm(info), &[], None);
    }
    session.take_last_segment(&rt, 0, 0xaa, &[0x01, 0x29, 0x01], None);
    session.take_last_segment(&rt, 0, 0xaa, &[], None);
}

#[test]
fn discards_a_message_that_its_last_segment_makes_too_long(rt: HostRuntime) {
    let mut session = session_with_open_link(&rt);
    for i in 0..13u8 {
        let ready = [0x01, 32 * ((i + 1) % 8) + 1, 0x01];
        session.take_and_check(&rt, false, i_frame(i % 8, 0, true, &[7; 20]), &ready, None);
    }
    session.take_last_segment(&rt, 5, 7, &[0x01, 0xc1, 0x01], Some(Notice::Oversize));
    session.take_last_segment(&rt, 6, 0xaa, &[0x01, 0xe1, 0x01], got_aa());
}

#[test]
fn ignores_what_the_mobile_does_not_send(rt: HostRuntime) {
    let mut session = session_with_open_link(&rt);
    session.take_and_check(&rt, true, i_frame(0, 0, false, &[0xaa]), &[], None);
    let other = FrameView {
        sapi: 5,
        cr: false,
        body: i_frame(0, 0, false, &[0xaa]),
    };
    let effects = session.take(&rt, &other);
    assert!(rt; sends_only(&effects, &[]) && reports_only(&effects, &None));
    session.take_and_check(&rt, false, Body::Rnr { nr: 0, pf: true }, &[], None);
    session.take_and_check(&rt, false, Body::Ua { f: true, info: &[] }, &[], None);
    assert_eq!(rt; session.end.state(), State::Open);
    session.take_last_segment(&rt, 0, 0xaa, &[0x01, 0x21, 0x01], got_aa());
}

// Checks that an RR acknowledges nothing unless its N(R) is `number`. With `number` 8, the check covers every N(R).
fn ignores_other_nr(rt: &impl Abort, session: &mut Session, number: u8) {
    for nr in 0..8u8 {
        if nr != number {
            session.take_and_check(rt, true, Body::Rr { nr, pf: false }, &[], None);
        }
    }
}

#[test]
fn ignores_every_wrong_nr_in_any_state_of_the_window(rt: HostRuntime) {
    let mut session = session_with_open_link(&rt);
    for round in 0..9u8 {
        let va = round % 8;
        ignores_other_nr(&rt, &mut session, 8);
        let sent = session.end.send(&[round]);
        check_answer(&rt, &sent, &[0x03, 2 * va, 0x05, round], None);
        let next = (va + 1) % 8;
        ignores_other_nr(&rt, &mut session, next);
        let acked = Some(Notice::Acked(u64::from(round) + 1));
        session.take_and_check(
            &rt,
            true,
            Body::Rr {
                nr: next,
                pf: false,
            },
            &[],
            acked,
        );
    }
}

#[test]
fn makes_endpoints_of_both_sapis(rt: HostRuntime) {
    assert_eq!(rt; Network::new().sapi(), Sapi::Zero);
    let mut network = Network::with_sapi(Sapi::Three);
    assert_eq!(rt; network.sapi(), Sapi::Three);
    assert!(rt; sends_only(&network.idle(), &[0x03, 0x03, 0x01]));
    check_answer(&rt, &network.unit(&[9]), &[0x0f, 0x03, 0x05, 9], None);
    check_refused(&rt, &network.close(), Refused::NotOpen);
    check_refused(&rt, &network.timer(), Refused::NotRunning);
    check_answer(&rt, &network.open_bare(), &[0x0f, 0x3f, 0x01], None);
    assert_eq!(rt; network.state(), State::Opening);
}
