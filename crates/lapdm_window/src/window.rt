//! A window of one I frame: at most one segment is outstanding.

ghost use Rattle.std.specs.Prelude.{◌≡◌, ◌≢◌, ◌+◌, ◌<◌, ◌≤◌, ◌↔◌, length, [], slice_index_or, All};
ghost use Rattle.std.specs.Prelude.{IsTrue, IsSome, IfSome};
ghost use Rattle.segmenting.specs.lapdm_frame.Layout.{n201, largest_n201};
ghost use Rattle.segmenting.specs.Segments.{IsValidMessage, max_message_octets, number_of_segments};

use crate::held::HeldMessageBuffers;
use crate::{Acked, Info, Refused, State, Timer, n200};
use segmenting::{Channel, Joiner, LONGEST_MESSAGE, Piece, Pieces};

mod parts;

pub use parts::LapdmWindowView;

/// The window of an endpoint: the messages not yet fully acknowledged, the outstanding segment, and the reassembly of received segments.
#[derive(Debug, Drop)]
pub struct Window {
    // The large fields come first, so that a new window is one fill of memory.
    held: HeldMessageBuffers,
    joiner: Joiner,
    // The index of the outstanding segment in the first held message or, if none is outstanding, the index of the next segment to send.
    segment_index: usize,
    // Saturates at the greatest `u64`, while the definition counts without bound.
    acked_messages: u64,
    channel: Channel,
    vs: u8,
    va: u8,
    vr: u8,
    rejecting: bool,
    retries: u8,
    ghost at_most_8: { length held.items ≤ 8 },
    ghost messages: { All IsValidMessage held.items },
    ghost in_range: { segment_index < number_of_segments (n201 channel) (slice_index_or held.items 0 []) },
    ghost waiting: { vs ≢ va → 1 ≤ length held.items },
    ghost vs_fits: { vs ≤ 7 },
    ghost va_fits: { va ≤ 7 },
    ghost vr_fits: { vr ≤ 7 },
}

impl Window {
    ghost use Rattle.std.specs.Prelude.{OnOk, OnErr, if◌then◌else◌, Some, slice_get};
    ghost use Rattle.std.specs.Option.{option_map};
    ghost use Rattle.std.specs.Result.{result_err};
    ghost use Rattle.segmenting.specs.Segments.{segments};
    ghost use Rattle.segmenting.specs.Joining.{completed_message};
    ghost use Rattle.lapdm_window.specs.declared.Sapi.{Sapi};
    ghost use Rattle.lapdm_window.specs.Ends.{EndpointState, Role, initial_endpoint, awaits_ack, vs, va, vr};
    ghost use Rattle.lapdm_window.specs.Rules.{has_segment_to_send, with_segment_sent, evaluates_nr};
    ghost use Rattle.lapdm_window.specs.Calls.{with_queued_message};
    ghost use Rattle.lapdm_window.specs.Answers.{
      message_refusal,
      outstanding_segment,
      acknowledgement_by_nr,
      received_segment_result,
      state_after_i_frame,
    };
    ghost use Rattle.lapdm_window.specs.Answers.{t200_result, state_after_t200};
    ghost use Rattle.lapdm_window.specs.Abstraction.{Represents, HasOutstandingSegment, channel_of};
    ghost use Rattle.lapdm_window.specs.Parts.{values_of};

    /// Creates a window for SDCCH in its initial state.
    pub fn new() -> Window
        ensures represents { (role : Role) (sapi : Sapi)
            → Represents result (initial_endpoint role sapi Channel.Sdcch) }
        ensures channel { channel_of result ≡ Channel.Sdcch }
    {
        Window::new_on(Channel::Sdcch)
    }

    /// Creates a window for this channel in its initial state.
    pub fn new_on(channel: Channel) -> Window
        ensures represents { (role : Role) (sapi : Sapi) → Represents result (initial_endpoint role sapi channel) }
        ensures channel { channel_of result ≡ channel }
    {
        Window {
            held: HeldMessageBuffers::new(),
            joiner: Joiner::new(),
            segment_index: 0,
            acked_messages: 0,
            channel,
            vs: 0,
            va: 0,
            vr: 0,
            rejecting: false,
            retries: 0,
        }
    }

    /// Queues a message of 1 to 251 octets for sending. Refusals: `Empty`, `TooLong`, `Full`.
    pub fn put(&mut self, message: &[u8]) -> Result<(), Refused>
        ensures answer { (e : EndpointState) → Represents self.old e
            → result_err result ≡ message_refusal message.now e }
        ensures taken { (e : EndpointState) → Represents self.old e
            → OnOk result (Represents self.new (with_queued_message message.now e)) }
        ensures refused { OnErr result (self.new ≡ self.old) }
        ensures channel { channel_of self.new ≡ channel_of self.old }
    {
        if message.is_empty() {
            return Err(Refused::Empty);
        }
        if message.len() > LONGEST_MESSAGE {
            return Err(Refused::TooLong);
        }
        if self.held.is_full() {
            return Err(Refused::Full);
        }
        self.held.push(message);
        Ok(())
    }

    /// Makes the next segment outstanding if there is one and no segment is outstanding. Returns whether it did so.
    pub fn send_next(&mut self) -> bool
        ensures answer { (e : EndpointState) → Represents self.old e → result ≡ has_segment_to_send e }
        ensures sent { (e : EndpointState) → Represents self.old e
            → Represents self.new (if result then with_segment_sent e else e) }
        ensures waiting { IsTrue result → HasOutstandingSegment self.new }
        ensures channel { channel_of self.new ≡ channel_of self.old }
    {
        if self.vs != self.va || self.held.is_empty() {
            return false;
        }
        self.vs = (self.vs + 1) % 8;
        self.retries = 0;
        true
    }

    /// Returns the outstanding segment, if there is one.
    pub fn waiting(&self) -> Option<Piece<'_>>
        ensures piece { (e : EndpointState) → Represents self.now e
            → option_map (λ p. (p.octets.now, p.more)) result ≡ outstanding_segment e }
        ensures waiting { IsSome result ↔ HasOutstandingSegment self.now }
        ensures size { IfSome result (λ p. (1 ≤ length p.octets.now)
            × (length p.octets.now ≤ n201 (channel_of self.now))) }
    {
        if self.vs == self.va {
            return None;
        }
        Some(self.next())
    }

    /// Evaluates a received N(R). If a segment is outstanding, an N(R) equal to V(S) acknowledges it; any other N(R) acknowledges nothing.
    pub fn on_ack(&mut self, nr: u8) -> Acked
        requires { nr ≤ 7 }
        ensures answer { (e : EndpointState) → Represents self.old e → result ≡ acknowledgement_by_nr nr e }
        ensures counted { (e : EndpointState) → Represents self.old e → Represents self.new (evaluates_nr nr e).new_state }
        ensures channel { channel_of self.new ≡ channel_of self.old }
    {
        if self.vs == self.va || nr != self.vs {
            return Acked::Nothing;
        }
        let more = self.next().more;
        self.va = self.vs;
        self.retries = 0;
        if more {
            self.segment_index += 1;
            return Acked::Piece;
        }
        self.held.remove_first_message();
        self.segment_index = 0;
        self.acked_messages = self.acked_messages.saturating_add(1);
        Acked::Message(self.acked_messages)
    }

    /// Accepts the segment of a received I frame if its N(S) equals V(R). Otherwise, discards it and returns whether a REJ must be sent:
    /// with P = 1 always, with P = 0 only once until a segment is accepted.
    pub fn on_info(&mut self, ns: u8, p: bool, piece: &[u8], more: bool) -> Info
        requires ns { ns ≤ 7 }
        requires some { 1 ≤ length piece.now }
        requires most { length piece.now ≤ largest_n201 }
        ensures answer { (e : EndpointState) → Represents self.old e
            → result ≡ received_segment_result ns p (piece.now, more) e }
        ensures taken { (e : EndpointState) → Represents self.old e
            → Represents self.new (state_after_i_frame result (piece.now, more) e) }
        ensures channel { channel_of self.new ≡ channel_of self.old }
    {
        if ns != self.vr {
            let reject = p || !self.rejecting;
            self.rejecting = true;
            return Info::OutOfSequence { reject };
        }
        self.vr = (self.vr + 1) % 8;
        self.rejecting = false;
        Info::Accepted(self.joiner.take(piece, more))
    }

    /// Handles a received REJ: returns whether a segment is outstanding and must be repeated.
    pub fn on_reject(&self) -> bool
        ensures answer { (e : EndpointState) → Represents self.now e → result ≡ awaits_ack e }
        ensures waiting { IsTrue result ↔ HasOutstandingSegment self.now }
    {
        self.vs != self.va
    }

    /// Handles T200 expiry: returns whether the outstanding segment must be repeated and, if so, counts the repetition.
    pub fn on_timer(&mut self) -> Timer
        ensures answer { (e : EndpointState) → Represents self.old e → result ≡ t200_result e }
        ensures counted { (e : EndpointState) → Represents self.old e
            → Represents self.new (state_after_t200 result e) }
        ensures waiting { result ≡ Timer.Again → HasOutstandingSegment self.new }
        ensures unchanged { result ≢ Timer.Again → self.new ≡ self.old }
        ensures channel { channel_of self.new ≡ channel_of self.old }
    {
        if self.vs == self.va {
            return Timer::NotRunning;
        }
        if self.retries >= n200(self.channel, State::Open) {
            return Timer::Spent;
        }
        self.retries += 1;
        Timer::Again
    }

    /// Sets the count of repetitions to 0, for when the link is released or lost: a count that nothing uses is 0, so that an endpoint has
    /// only one state as plain data.
    pub fn stop_repeating(&mut self)
        ensures values { values_of self.new ≡ record (values_of self.old) { retries = 0 } }
        ensures channel { channel_of self.new ≡ channel_of self.old }
    {
        self.retries = 0;
    }

    /// Returns V(S), the N(S) of the next segment to be sent.
    pub fn vs(&self) -> u8
        ensures number { (e : EndpointState) → Represents self.now e → result ≡ vs e }
        ensures fits { result ≤ 7 }
    {
        self.vs
    }

    /// Returns V(A), the N(S) of the oldest unacknowledged segment.
    pub fn va(&self) -> u8
        ensures number { (e : EndpointState) → Represents self.now e → result ≡ va e }
        ensures fits { result ≤ 7 }
    {
        self.va
    }

    /// Returns V(R), the N(S) of the segment that is expected next.
    pub fn vr(&self) -> u8
        ensures number { (e : EndpointState) → Represents self.now e → result ≡ vr e }
        ensures fits { result ≤ 7 }
    {
        self.vr
    }

    /// Returns the message that the last accepted segment completed, or no octets if it completed none.
    pub fn message(&self) -> &[u8]
        ensures completed_message { (e : EndpointState) → Represents self.now e →
            result.now ≡ completed_message e.accepted_segments }
        ensures most { length result.now ≤ max_message_octets }
    {
        self.joiner.message()
    }

    // Returns the outstanding segment or, if none is outstanding, the next segment to send; either belongs to the first held message.
    fn next(&self) -> Piece<'_>
        requires { 1 ≤ length self.now.held.items }
        ensures { let first = slice_index_or self.now.held.items 0 [] in
            slice_get (segments (n201 self.now.channel) first) self.now.segment_index
            ≡ Some (result.octets.now, result.more) }
    {
        Pieces::new_on(self.held.first(), self.channel).piece(self.segment_index)
    }
}
