//! Chooses an endpoint's reply to a received frame, depending on the endpoint's state.

ghost use Rattle.std.specs.Prelude.{◌≡◌, ◌≤◌, length};
ghost use Rattle.lapdm_frame.specs.Layout.{largest_n201};
ghost use Rattle.lapdm_frame.specs.Content.{content_of_body};
ghost use Rattle.lapdm_frame.specs.Frames.{InformationFits};
ghost use Rattle.lapdm_window.specs.Ends.{EndpointState};
ghost use Rattle.lapdm_window.specs.Tables.{is_accepted_kind, is_poll, dm_if_polled, reply_to_ui};
ghost use Rattle.lapdm_end.specs.declared.ends.Endpoint.{Endpoint as LinkEnd};
ghost use Rattle.lapdm_end.specs.Replies.{spec_reply_of, IsPossibleReply};

use crate::Role;
use crate::ends::Endpoint;
use lapdm_frame::Body;
use lapdm_window::{Reason, Sapi, State};

/// The reaction of an endpoint to a received frame. The functions below choose it and `carry_out_reply` carries it out, so that most
/// properties of frames are proved by cases on the replies.
#[derive(Clone, Copy)]
pub(crate) enum Reply<'a> {
    Nothing,
    Dm,
    Ua(&'a [u8]),
    // The peer's SABM establishes the link, and the endpoint answers with a UA.
    AcceptSabm(&'a [u8]),
    // A UA confirms the establishment that this endpoint started.
    Opened(&'a [u8]),
    Closed(Reason),
    // The peer's DISC releases the link, and the endpoint answers with a UA.
    Released,
    Unit(&'a [u8]),
    I {
        ns: u8,
        nr: u8,
        p: bool,
        more: bool,
        info: &'a [u8],
    },
    Rr {
        nr: u8,
        poll: bool,
    },
    Rej {
        nr: u8,
        poll: bool,
    },
}

// Returns whether an endpoint accepts a frame of this kind as a command, or as a response if `is_command` is false. It never accepts an
// RNR.
pub(crate) fn is_accepted_kind(is_command: bool, body: &Body<'_>) -> bool
    ensures { result ≡ is_accepted_kind is_command (content_of_body body.now) }
{
    match *body {
        Body::I { .. } | Body::Sabm { .. } | Body::Ui { .. } | Body::Disc { .. } => is_command,
        Body::Rr { .. } | Body::Rej { .. } => true,
        Body::Rnr { .. } => false,
        Body::Dm { .. } | Body::Ua { .. } => !is_command,
    }
}

fn is_poll(is_command: bool, body: &Body<'_>) -> bool
    ensures { result ≡ is_poll is_command (content_of_body body.now) }
{
    match *body {
        Body::I { p, .. } => is_command && p,
        Body::Rr { pf, .. } | Body::Rej { pf, .. } => is_command && pf,
        _ => false,
    }
}

fn dm_if_polled<'a>(poll: bool) -> Reply<'a>
    ensures reply { spec_reply_of result ≡ dm_if_polled poll }
    ensures possible { (m : LinkEnd) → IsPossibleReply m result }
{
    if poll { Reply::Dm } else { Reply::Nothing }
}

fn reply_to_ui<'a>(info: &'a [u8]) -> Reply<'a>
    requires information { length info.now ≤ largest_n201 }
    ensures reply { spec_reply_of result ≡ reply_to_ui info.now }
    ensures possible { (m : LinkEnd) → IsPossibleReply m result }
{
    if info.is_empty() {
        Reply::Nothing
    } else {
        Reply::Unit(info)
    }
}

impl Endpoint {
    ghost use Rattle.std.specs.Str.{bytes_eq};
    ghost use Rattle.lapdm_frame.specs.Layout.{n201};
    ghost use Rattle.lapdm_window.specs.declared.State.TheVariants as S;
    ghost use Rattle.lapdm_frame.specs.Frames.{NsAndNrFit};
    ghost use Rattle.lapdm_window.specs.Tables.{reply_to_sabm_in_idle, reply_in_idle, reply_to_sabm_in_opening, reply_to_ua_in_opening};
    ghost use Rattle.lapdm_window.specs.Tables.{reply_in_opening, reply_to_sabm_in_open, reply_in_open};
    ghost use Rattle.lapdm_window.specs.Tables.{reply_in_closing, reply_in_closed, reply_in_state, reply};
    ghost use Rattle.lapdm_end.specs.Abstraction.{Represents, channel_of, state_of};

    // To compare only the shorter length would let two mobiles open one link.
    fn equals_sabm_information(&self, info: &[u8]) -> bool
        ensures { (e : EndpointState) → Represents self.now e → result ≡ bytes_eq info.now e.sabm_info }
    {
        info == self.sabm_info.octets()
    }

    fn reply_to_sabm_in_idle<'a>(&self, info: &'a [u8]) -> Reply<'a>
        requires idle { state_of self.now ≡ S.Idle }
        requires information { length info.now ≤ n201 (channel_of self.now) }
        ensures reply { (e : EndpointState) → Represents self.now e
            → spec_reply_of result ≡ reply_to_sabm_in_idle e.sapi e.role info.now }
        ensures possible { IsPossibleReply self.now result }
    {
        match (self.address.sapi, self.address.role) {
            (Sapi::Zero, Role::Mobile) => Reply::Dm,
            (Sapi::Zero, Role::Network) => {
                if info.is_empty() {
                    Reply::Nothing
                } else {
                    Reply::AcceptSabm(info)
                }
            }
            (Sapi::Three, _) => {
                if info.is_empty() {
                    Reply::AcceptSabm(info)
                } else {
                    Reply::Nothing
                }
            }
        }
    }

    fn reply_in_idle<'a>(&self, poll: bool, body: &Body<'a>) -> Reply<'a>
        requires idle { state_of self.now ≡ S.Idle }
        requires information { InformationFits (channel_of self.now) (content_of_body body.now) }
        ensures reply { (e : EndpointState) → Represents self.now e
            → spec_reply_of result ≡ reply_in_idle poll (content_of_body body.now) e }
        ensures possible { IsPossibleReply self.now result }
    {
        match *body {
            Body::Sabm { info, .. } => self.reply_to_sabm_in_idle(info),
            Body::Disc { .. } => Reply::Dm,
            _ => dm_if_polled(poll),
        }
    }

    fn reply_to_sabm_in_opening<'a>(&self, info: &'a [u8]) -> Reply<'a>
        requires information { length info.now ≤ n201 (channel_of self.now) }
        ensures reply { (e : EndpointState) → Represents self.now e
            → spec_reply_of result ≡ reply_to_sabm_in_opening e.sapi info.now }
        ensures possible { IsPossibleReply self.now result }
    {
        match self.address.sapi {
            Sapi::Zero => Reply::Nothing,
            Sapi::Three => {
                if info.is_empty() {
                    Reply::Ua(info)
                } else {
                    Reply::Nothing
                }
            }
        }
    }

    // On SAPI 0, a UA whose information differs from that of the SABM sent is meant for another mobile.
    fn reply_to_ua_in_opening<'a>(&self, info: &'a [u8]) -> Reply<'a>
        requires opening { state_of self.now ≡ S.Opening }
        requires information { length info.now ≤ n201 (channel_of self.now) }
        ensures reply { (e : EndpointState) → Represents self.now e
            → spec_reply_of result ≡ reply_to_ua_in_opening info.now e }
        ensures possible { IsPossibleReply self.now result }
    {
        if self.equals_sabm_information(info) {
            return Reply::Opened(info);
        }
        match self.address.sapi {
            Sapi::Zero => Reply::Closed(Reason::Contention),
            Sapi::Three => Reply::Nothing,
        }
    }

    fn reply_in_opening<'a>(&self, body: &Body<'a>) -> Reply<'a>
        requires opening { state_of self.now ≡ S.Opening }
        requires information { InformationFits (channel_of self.now) (content_of_body body.now) }
        ensures reply { (e : EndpointState) → Represents self.now e
            → spec_reply_of result ≡ reply_in_opening (content_of_body body.now) e }
        ensures possible { IsPossibleReply self.now result }
    {
        match *body {
            Body::Sabm { info, .. } => self.reply_to_sabm_in_opening(info),
            Body::Ua { f: true, info } => self.reply_to_ua_in_opening(info),
            Body::Dm { f: true } => Reply::Closed(Reason::Refused),
            Body::Disc { .. } => Reply::Dm,
            _ => Reply::Nothing,
        }
    }

    // The endpoint repeats its UA and keeps its state variables, so that a lost UA does no harm: a peer that repeats its SABM has sent no I
    // frame, so both begin at 0.
    fn reply_to_sabm_in_open<'a>(&self, info: &'a [u8]) -> Reply<'a>
        requires information { length info.now ≤ n201 (channel_of self.now) }
        ensures reply { (e : EndpointState) → Represents self.now e
            → spec_reply_of result ≡ reply_to_sabm_in_open info.now e }
        ensures possible { IsPossibleReply self.now result }
    {
        if let (Sapi::Zero, Role::Mobile) = (self.address.sapi, self.address.role) {
            return Reply::Nothing;
        }
        if self.equals_sabm_information(info) {
            Reply::Ua(info)
        } else {
            Reply::Nothing
        }
    }

    fn reply_in_open<'a>(&self, command: bool, body: &Body<'a>) -> Reply<'a>
        requires open { state_of self.now ≡ S.Open }
        requires numbers { NsAndNrFit (content_of_body body.now) }
        requires information { InformationFits (channel_of self.now) (content_of_body body.now) }
        ensures reply { (e : EndpointState) → Represents self.now e
            → spec_reply_of result ≡ reply_in_open command (content_of_body body.now) e }
        ensures possible { IsPossibleReply self.now result }
    {
        match *body {
            Body::I {
                ns,
                nr,
                p,
                more,
                info,
            } => Reply::I {
                ns,
                nr,
                p,
                more,
                info,
            },
            Body::Rr { nr, pf } => Reply::Rr {
                nr,
                poll: command && pf,
            },
            Body::Rej { nr, pf } => Reply::Rej {
                nr,
                poll: command && pf,
            },
            Body::Sabm { info, .. } => self.reply_to_sabm_in_open(info),
            Body::Disc { .. } => Reply::Released,
            Body::Dm { .. } => Reply::Closed(Reason::Failed),
            _ => Reply::Nothing,
        }
    }

    // A UA with information is ignored, so that a late UA to a repeated SABM does not end the release.
    fn reply_in_closing<'a>(&self, body: &Body<'a>) -> Reply<'a>
        requires closing { state_of self.now ≡ S.Closing }
        ensures reply { spec_reply_of result ≡ reply_in_closing (content_of_body body.now) }
        ensures possible { IsPossibleReply self.now result }
    {
        match *body {
            Body::Ua { f: true, info } => {
                if info.is_empty() {
                    Reply::Closed(Reason::Released)
                } else {
                    Reply::Nothing
                }
            }
            Body::Dm { f: true } => Reply::Closed(Reason::Released),
            Body::Disc { .. } => Reply::Ua(&[]),
            _ => Reply::Nothing,
        }
    }

    // A SABM gets a DM, because a closed endpoint stays closed: its caller makes a new one.
    fn reply_in_closed<'a>(&self, poll: bool, body: &Body<'a>) -> Reply<'a>
        ensures reply { spec_reply_of result ≡ reply_in_closed poll (content_of_body body.now) }
        ensures possible { IsPossibleReply self.now result }
    {
        match *body {
            Body::Sabm { .. } | Body::Disc { .. } => Reply::Dm,
            _ => dm_if_polled(poll),
        }
    }

    fn reply_in_state<'a>(&self, command: bool, body: &Body<'a>) -> Reply<'a>
        requires numbers { NsAndNrFit (content_of_body body.now) }
        requires information { InformationFits (channel_of self.now) (content_of_body body.now) }
        ensures reply { (e : EndpointState) → Represents self.now e
            → spec_reply_of result ≡ reply_in_state e.state command (content_of_body body.now) e }
        ensures possible { IsPossibleReply self.now result }
    {
        match self.state {
            State::Idle => self.reply_in_idle(is_poll(command, body), body),
            State::Opening => self.reply_in_opening(body),
            State::Open => self.reply_in_open(command, body),
            State::Closing => self.reply_in_closing(body),
            State::Closed => self.reply_in_closed(is_poll(command, body), body),
        }
    }

    // A UI frame has the same reply in every state.
    pub(crate) fn reply<'a>(&self, command: bool, body: &Body<'a>) -> Reply<'a>
        requires numbers { NsAndNrFit (content_of_body body.now) }
        requires information { InformationFits (channel_of self.now) (content_of_body body.now) }
        ensures reply { (e : EndpointState) → Represents self.now e
            → spec_reply_of result ≡ reply command (content_of_body body.now) e }
        ensures possible { IsPossibleReply self.now result }
    {
        if let Body::Ui { info, .. } = *body {
            return reply_to_ui(info);
        }
        self.reply_in_state(command, body)
    }
}
