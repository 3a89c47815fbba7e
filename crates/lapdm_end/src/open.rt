//! The rules of state Open, which update the window and append frames and notices to the effects.

ghost use Rattle.std.specs.Prelude.{◌≡◌, ◌+◌, ◌≤◌, [], ◌++◌, Bool, length};
ghost use Rattle.lapdm_frame.specs.Layout.{n201};
ghost use Rattle.lapdm_window.specs.segmenting.Joining.{completed_message};
ghost use Rattle.lapdm_window.specs.Ends.{EndpointState};
ghost use Rattle.lapdm_window.specs.Rules.{sends_next_segment, evaluates_nr, segment_notices, sends_rr, answers_segment, answers_poll};
ghost use Rattle.lapdm_window.specs.Rules.{resends_outstanding_segment, takes_i_frame, takes_rr, takes_rej};
ghost use Rattle.lapdm_window.specs.Abstraction.{Represents, channel_of};

use crate::link::Address;
use lapdm_frame::Body;
use lapdm_window::{Acked, Effects, Info, Joined, Message, Notice, Piece, Window};

fn report_message(joined: Joined, more: bool, window: &Window, effects: &mut Effects)
    requires space { length effects.old.notices ≤ 2 }
    ensures frames { effects.new.frames ≡ effects.old.frames }
    ensures notices { (e : EndpointState) → Represents window.now e
        → effects.new.notices ≡ effects.old.notices ++ segment_notices joined more (completed_message e.accepted_segments) }
{
    match joined {
        Joined::Whole => effects
            .notices
            .push(Notice::Got(Message::new(window.message()))),
        Joined::Oversize => {
            if !more {
                effects.notices.push(Notice::Oversize);
            }
        }
        Joined::More => {}
    }
}

impl Address {
    ghost use Rattle.lapdm_end.specs.Windows.{
      OpenStepAppendsOutcomeOfRule,
      sends_outstanding_segment,
      sends_rej,
      answers_out_of_sequence_segment,
      takes_segment,
    };

    pub(crate) fn send_outstanding_segment(self, p: bool, window: &Window, effects: &mut Effects)
        requires channel { channel_of window.now ≡ self.channel }
        requires space { length effects.old.frames ≤ 1 }
        ensures most { length effects.new.frames ≤ length effects.old.frames + 1 }
        ensures refines { OpenStepAppendsOutcomeOfRule (sends_outstanding_segment p) self window.now window.now
            effects.old effects.new }
    {
        let Some(piece) = window.waiting() else {
            return;
        };
        let body = Body::I {
            ns: window.va(),
            nr: window.vr(),
            p,
            more: piece.more,
            info: piece.octets,
        };
        self.send_command(body, effects);
    }

    pub(crate) fn send_next(self, window: &mut Window, effects: &mut Effects)
        requires channel { channel_of window.old ≡ self.channel }
        requires space { length effects.old.frames ≤ 1 }
        ensures channel { channel_of window.new ≡ channel_of window.old }
        ensures most { length effects.new.frames ≤ length effects.old.frames + 1 }
        ensures refines { OpenStepAppendsOutcomeOfRule sends_next_segment self window.old window.new
            effects.old effects.new }
    {
        if !window.send_next() {
            return;
        }
        self.send_outstanding_segment(false, window, effects);
    }

    fn evaluate_nr(self, nr: u8, window: &mut Window, effects: &mut Effects)
        requires number { nr ≤ 7 }
        requires space { length effects.old.notices ≤ 2 }
        ensures channel { channel_of window.new ≡ channel_of window.old }
        ensures frames { effects.new.frames ≡ effects.old.frames }
        ensures most { length effects.new.notices ≤ length effects.old.notices + 1 }
        ensures refines { OpenStepAppendsOutcomeOfRule (evaluates_nr nr) self window.old window.new
            effects.old effects.new }
    {
        match window.on_ack(nr) {
            Acked::Nothing | Acked::Piece => {}
            Acked::Message(number) => effects.notices.push(Notice::Acked(number)),
        }
    }

    fn send_rr(self, final_bit: bool, window: &Window, effects: &mut Effects)
        requires space { length effects.old.frames ≤ 1 }
        ensures most { length effects.new.frames ≤ length effects.old.frames + 1 }
        ensures refines { OpenStepAppendsOutcomeOfRule (sends_rr final_bit) self window.now window.now
            effects.old effects.new }
    {
        let nr = window.vr();
        self.send_response(Body::Rr { nr, pf: final_bit }, effects);
    }

    // Acknowledges an accepted segment: if P = 1, with an RR, followed by the next I frame if one may be sent; if P = 0, with the next I
    // frame or, if none may be sent, with an RR.
    fn answer_segment(self, p: bool, window: &mut Window, effects: &mut Effects)
        requires channel { channel_of window.old ≡ self.channel }
        requires space { effects.old.frames ≡ [] }
        ensures channel { channel_of window.new ≡ channel_of window.old }
        ensures refines { OpenStepAppendsOutcomeOfRule (answers_segment p) self window.old window.new
            effects.old effects.new }
    {
        if p {
            self.send_rr(true, window, effects);
            self.send_next(window, effects);
            return;
        }
        if window.send_next() {
            self.send_outstanding_segment(false, window, effects);
            return;
        }
        self.send_rr(false, window, effects);
    }

    fn send_rej(self, rej_due: bool, poll: bool, window: &Window, effects: &mut Effects)
        requires space { length effects.old.frames ≤ 1 }
        ensures most { length effects.new.frames ≤ length effects.old.frames + 1 }
        ensures refines { OpenStepAppendsOutcomeOfRule (sends_rej rej_due poll) self window.now window.now
            effects.old effects.new }
    {
        if !rej_due {
            return;
        }
        let nr = window.vr();
        self.send_response(Body::Rej { nr, pf: poll }, effects);
    }

    fn answer_out_of_sequence_segment(
        self,
        rej_due: bool,
        poll: bool,
        window: &mut Window,
        effects: &mut Effects,
    )
        requires channel { channel_of window.old ≡ self.channel }
        requires space { effects.old.frames ≡ [] }
        ensures channel { channel_of window.new ≡ channel_of window.old }
        ensures refines { OpenStepAppendsOutcomeOfRule (answers_out_of_sequence_segment rej_due poll) self window.old window.new
            effects.old effects.new }
    {
        self.send_rej(rej_due, poll, window, effects);
        self.send_next(window, effects);
    }

    fn answer_poll(self, poll: bool, window: &Window, effects: &mut Effects)
        requires space { length effects.old.frames ≤ 1 }
        ensures most { length effects.new.frames ≤ length effects.old.frames + 1 }
        ensures refines { OpenStepAppendsOutcomeOfRule (answers_poll poll) self window.now window.now
            effects.old effects.new }
    {
        if !poll {
            return;
        }
        self.send_rr(true, window, effects);
    }

    // Sends the outstanding segment again or, if none is outstanding, the next one.
    fn resend_outstanding_segment(self, window: &mut Window, effects: &mut Effects)
        requires channel { channel_of window.old ≡ self.channel }
        requires space { length effects.old.frames ≤ 1 }
        ensures channel { channel_of window.new ≡ channel_of window.old }
        ensures refines { OpenStepAppendsOutcomeOfRule resends_outstanding_segment self window.old window.new
            effects.old effects.new }
    {
        if window.on_reject() {
            self.send_outstanding_segment(false, window, effects);
            return;
        }
        self.send_next(window, effects);
    }

    pub(crate) fn take_rr(self, nr: u8, poll: bool, window: &mut Window, effects: &mut Effects)
        requires number { nr ≤ 7 }
        requires channel { channel_of window.old ≡ self.channel }
        requires no_frames { effects.old.frames ≡ [] }
        requires no_notices { effects.old.notices ≡ [] }
        ensures channel { channel_of window.new ≡ channel_of window.old }
        ensures refines { OpenStepAppendsOutcomeOfRule (takes_rr nr poll) self window.old window.new
            effects.old effects.new }
    {
        self.evaluate_nr(nr, window, effects);
        self.answer_poll(poll, window, effects);
        self.send_next(window, effects);
    }

    pub(crate) fn take_rej(self, nr: u8, poll: bool, window: &mut Window, effects: &mut Effects)
        requires number { nr ≤ 7 }
        requires channel { channel_of window.old ≡ self.channel }
        requires no_frames { effects.old.frames ≡ [] }
        requires no_notices { effects.old.notices ≡ [] }
        ensures channel { channel_of window.new ≡ channel_of window.old }
        ensures refines { OpenStepAppendsOutcomeOfRule (takes_rej nr poll) self window.old window.new
            effects.old effects.new }
    {
        self.evaluate_nr(nr, window, effects);
        self.answer_poll(poll, window, effects);
        self.resend_outstanding_segment(window, effects);
    }

    // Accepts or discards the segment of a received I frame and answers it, after the N(R) has been evaluated.
    fn take_segment(
        self,
        ns: u8,
        poll: bool,
        segment: Piece<'_>,
        window: &mut Window,
        effects: &mut Effects,
    )
        requires number { ns ≤ 7 }
        requires some { 1 ≤ length segment.octets.now }
        requires size { length segment.octets.now ≤ n201 self.channel }
        requires channel { channel_of window.old ≡ self.channel }
        requires no_frames { effects.old.frames ≡ [] }
        requires space { length effects.old.notices ≤ 1 }
        ensures channel { channel_of window.new ≡ channel_of window.old }
        ensures refines { OpenStepAppendsOutcomeOfRule (takes_segment ns poll (segment.entry.octets.now, segment.entry.more))
            self window.old window.new effects.old effects.new }
    {
        match window.on_info(ns, poll, segment.octets, segment.more) {
            Info::Accepted(joined) => {
                report_message(joined, segment.more, window, effects);
                self.answer_segment(poll, window, effects);
            }
            Info::OutOfSequence { reject } => self.answer_out_of_sequence_segment(
                reject, poll, window, effects,
            ),
        }
    }

    pub(crate) fn take_i_frame(
        self,
        ns: u8,
        nr: u8,
        poll: bool,
        segment: Piece<'_>,
        window: &mut Window,
        effects: &mut Effects,
    )
        requires ns { ns ≤ 7 }
        requires nr { nr ≤ 7 }
        requires some { 1 ≤ length segment.octets.now }
        requires size { length segment.octets.now ≤ n201 self.channel }
        requires channel { channel_of window.old ≡ self.channel }
        requires no_frames { effects.old.frames ≡ [] }
        requires no_notices { effects.old.notices ≡ [] }
        ensures channel { channel_of window.new ≡ channel_of window.old }
        ensures refines { OpenStepAppendsOutcomeOfRule (takes_i_frame ns nr poll (segment.entry.octets.now, segment.entry.more))
            self window.old window.new effects.old effects.new }
    {
        self.evaluate_nr(nr, window, effects);
        self.take_segment(ns, poll, segment, window, effects);
    }
}
