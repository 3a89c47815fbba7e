//! Processes the frames that an endpoint receives.

ghost use Rattle.std.specs.Prelude.{◌≡◌, ◌≢◌, ◌≤◌, [], ◌∷◌, ◌++◌, length};
ghost use Rattle.lapdm_frame.specs.Layout.{n201};
ghost use Rattle.lapdm_frame.specs.Content.{content_of_body, frame_of_view};
ghost use Rattle.lapdm_frame.specs.Frames.{NsAndNrFit, InformationFits, FrameFits, octets_of};
ghost use Rattle.lapdm_window.specs.declared.State.TheVariants as S;
ghost use Rattle.lapdm_window.specs.Ends.{EndpointState, response_frame};
ghost use Rattle.lapdm_window.specs.Tables.{AcceptsDisc, AcceptsSabm, opens_and_reports, closes_and_reports, outcome_of_reply};
ghost use Rattle.lapdm_window.specs.Tables.{frame_outcome};

use crate::ends::Endpoint;
use crate::replies::{Reply, is_accepted_kind};
use lapdm_frame::{Body, FrameView};
use lapdm_window::{Effects, Message, Notice, Piece, Reason, State};

impl Endpoint {
    ghost use Rattle.lapdm_end.specs.Replies.{spec_reply_of, IsPossibleReply, MayAcceptSabmWith};
    ghost use Rattle.lapdm_end.specs.Abstraction.{Represents, channel_of, role_of, sapi_of, state_of};
    ghost use Rattle.lapdm_end.specs.Refinement.{StepRefines, StepAppendsOutcomeOfRule};

    /// Processes a received frame, and replaces the effects with the frames that the endpoint sends and the notices that it reports. It
    /// writes into the caller's buffer because effects take some 850 octets.
    pub fn take_frame_into(&mut self, frame: &FrameView<'_>, effects: &mut Effects)
        requires { FrameFits (channel_of self.old) (frame_of_view frame.now) }
        ensures refines { StepRefines (frame_outcome (frame_of_view frame.now)) self.old effects.new self.new }
        ensures role { role_of self.new ≡ role_of self.old }
        ensures sapi { sapi_of self.new ≡ sapi_of self.old }
        ensures channel { channel_of self.new ≡ channel_of self.old }
    {
        effects.clear();
        let command = frame.cr != self.address.command_cr();
        if frame.sapi != self.address.sapi_number() || !is_accepted_kind(command, &frame.body) {
            return;
        }
        let reply = self.reply(command, &frame.body);
        self.carry_out_reply(reply, effects);
    }

    fn carry_out_reply(&mut self, reply: Reply<'_>, effects: &mut Effects)
        requires ready { IsPossibleReply self.old reply }
        requires no_frames { effects.old.frames ≡ [] }
        requires no_notices { effects.old.notices ≡ [] }
        ensures refines { StepAppendsOutcomeOfRule
            (outcome_of_reply (spec_reply_of reply.entry)) self.old self.new effects.old effects.new }
        ensures role { role_of self.new ≡ role_of self.old }
        ensures sapi { sapi_of self.new ≡ sapi_of self.old }
        ensures channel { channel_of self.new ≡ channel_of self.old }
    {
        match reply {
            Reply::Nothing => {}
            Reply::Dm => self.answer(Body::Dm { f: true }, effects),
            Reply::Ua(info) => self.answer(Body::Ua { f: true, info }, effects),
            Reply::AcceptSabm(info) => self.accept_sabm(info, effects),
            Reply::Opened(info) => self.confirm_establishment(info, effects),
            Reply::Closed(reason) => self.close_and_report(reason, effects),
            Reply::Released => self.accept_disc(effects),
            Reply::Unit(info) => effects.notices.push(Notice::Unit(Message::new(info))),
            Reply::I {
                ns,
                nr,
                p,
                more,
                info,
            } => {
                let piece = Piece { octets: info, more };
                self.address
                    .take_i_frame(ns, nr, p, piece, &mut self.window, effects);
            }
            Reply::Rr { nr, poll } => self.address.take_rr(nr, poll, &mut self.window, effects),
            Reply::Rej { nr, poll } => self.address.take_rej(nr, poll, &mut self.window, effects),
        }
    }

    fn answer(&self, body: Body<'_>, effects: &mut Effects)
        requires numbers { NsAndNrFit (content_of_body body) }
        requires information { InformationFits (channel_of self.now) (content_of_body body) }
        requires no_frames { effects.old.frames ≡ [] }
        ensures frames { (e : EndpointState) → Represents self.now e
            → effects.new.frames ≡ effects.old.frames
            ++ octets_of (channel_of self.now) (response_frame e (content_of_body body.entry)) ∷ [] }
        ensures notices { effects.new.notices ≡ effects.old.notices }
    {
        self.address.send_response(body, effects);
    }

    fn accept_sabm(&mut self, info: &[u8], effects: &mut Effects)
        requires may { MayAcceptSabmWith self.old info.now }
        requires no_frames { effects.old.frames ≡ [] }
        requires no_notices { effects.old.notices ≡ [] }
        ensures refines { StepAppendsOutcomeOfRule (outcome_of_reply (AcceptsSabm info.now)) self.old self.new effects.old effects.new }
        ensures role { role_of self.new ≡ role_of self.old }
        ensures sapi { sapi_of self.new ≡ sapi_of self.old }
        ensures channel { channel_of self.new ≡ channel_of self.old }
    {
        self.state = State::Open;
        self.sabm_info = Message::new(info);
        effects.notices.push(Notice::Opened(Message::new(info)));
        self.answer(Body::Ua { f: true, info }, effects);
    }

    fn confirm_establishment(&mut self, info: &[u8], effects: &mut Effects)
        requires opening { state_of self.old ≡ S.Opening }
        requires information { length info.now ≤ n201 (channel_of self.old) }
        requires no_notices { effects.old.notices ≡ [] }
        ensures refines { StepAppendsOutcomeOfRule (opens_and_reports info.now) self.old self.new effects.old effects.new }
        ensures role { role_of self.new ≡ role_of self.old }
        ensures sapi { sapi_of self.new ≡ sapi_of self.old }
        ensures channel { channel_of self.new ≡ channel_of self.old }
    {
        self.state = State::Open;
        self.retries = 0;
        effects.notices.push(Notice::Opened(Message::new(info)));
    }

    pub(crate) fn close_and_report(&mut self, reason: Reason, effects: &mut Effects)
        requires begun { state_of self.old ≢ S.Idle }
        requires no_notices { effects.old.notices ≡ [] }
        ensures frames { effects.new.frames ≡ effects.old.frames }
        ensures refines { StepAppendsOutcomeOfRule (closes_and_reports reason) self.old self.new effects.old effects.new }
        ensures role { role_of self.new ≡ role_of self.old }
        ensures sapi { sapi_of self.new ≡ sapi_of self.old }
        ensures channel { channel_of self.new ≡ channel_of self.old }
    {
        self.state = State::Closed;
        self.retries = 0;
        self.window.stop_repeating();
        effects.notices.push(Notice::Closed(reason));
    }

    fn accept_disc(&mut self, effects: &mut Effects)
        requires open { state_of self.old ≡ S.Open }
        requires no_frames { effects.old.frames ≡ [] }
        requires no_notices { effects.old.notices ≡ [] }
        ensures refines { StepAppendsOutcomeOfRule (outcome_of_reply AcceptsDisc) self.old self.new effects.old effects.new }
        ensures role { role_of self.new ≡ role_of self.old }
        ensures sapi { sapi_of self.new ≡ sapi_of self.old }
        ensures channel { channel_of self.new ≡ channel_of self.old }
    {
        self.close_and_report(Reason::Released, effects);
        let body = Body::Ua { f: true, info: &[] };
        self.answer(body, effects);
    }
}
