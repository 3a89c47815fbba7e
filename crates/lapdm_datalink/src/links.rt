//! One link of a data link: what its endpoint sends, slot by slot.

ghost use Rattle.std.specs.Prelude.{◌≡◌, ◌≤◌, ◌<◌, ◌↔◌, ◌&&◌, [], ◌∷◌, if◌then◌else◌, map, length};
ghost use Rattle.std.specs.Prelude.{true};
ghost use Rattle.std.specs.Prelude.{false, All, List, IsTrue, IfOk, OnErr};
ghost use Rattle.std.specs.Prelude.{OnOk, Option, Some, None};
ghost use Rattle.std.specs.Option.{option_map};
ghost use Rattle.std.specs.Str.{bytes_eq};
ghost use Rattle.std.specs.Result.{result_err};
ghost use Rattle.lapdm_frame.specs.Content.{Frame, content_of_body, frame_of_view};
ghost use Rattle.lapdm_frame.specs.Frames.{FrameFits, InformationFits, NsAndNrFit, octets_of};
ghost use Rattle.lapdm_frame.specs.declared.Channel.{Channel as ChannelOf};
ghost use Rattle.lapdm_end.specs.lapdm_window.Calls.{endpoint_call_of, IsCallAllowedFor, OpensWithoutInfo, SendsUi};
ghost use Rattle.lapdm_end.specs.lapdm_window.Calls.{refusal_of, call_outcome};
ghost use Rattle.lapdm_end.specs.lapdm_window.Ends.{initial_endpoint, awaits_answer, sapi_number};
ghost use Rattle.lapdm_end.specs.lapdm_window.segmenting.Buffers.{octets_in_buffer};
ghost use Rattle.lapdm_end.specs.lapdm_window.Tables.{SendsDm, outcome_of_reply, frame_outcome, is_command, answers_repeated_sabm};
ghost use Rattle.lapdm_end.specs.lapdm_window.declared.Sapi.TheVariants as P;
ghost use Rattle.lapdm_end.specs.Addresses.{spec_role_of};
ghost use Rattle.lapdm_datalink.specs.Links.{
  LinkState,
  link_with,
  afresh,
  as_normal,
  unacked_messages,
  is_awaiting_kind,
  with_frame,
  with_frames,
  with_outcome,
  IsLinkCall,
  for_call,
  is_reopened_by_call,
  is_opening_content,
  may_be_established,
  for_establishment,
  after_establishment,
  for_frame,
  is_reopened_by_frame,
  after_call,
  after_frame,
  frame_notices,
  received_outcome,
  refuses,
  as_taken,
  content_as_taken,
  nr_as_taken,
  is_numbered,
  is_opened_again,
  is_return,
  renewed_for,
  heard_with,
  after_received,
  received_notices,
  ui_frame,
  is_unnumbered_answer,
  is_too_early,
  is_unasked_dm,
  ignores,
  is_due,
  is_plain_rr,
  sabm_goes_first,
  without_needless_answer,
  keeps_back,
  expires,
  sends_due_frame,
  slot_outcome,
};
ghost use Rattle.lapdm_datalink.specs.DataLinks.{on_sapi0};
ghost use Rattle.lapdm_datalink.specs.Abstraction.{channel_of, role_of, sapi_of, Represents, MayBeReturned, notices_if};

use lapdm_end::{Call, Channel, Effects, Endpoint, MessageBuffer, Refused, Role, Sapi, State};
use lapdm_frame::{BLOCK_OCTETS, Body, FrameView, read_on, write_on};

/// A link of one SAPI, and what it has to send.
#[derive(Debug, Drop)]
pub struct Link {
    pub(crate) endpoint: Endpoint,
    // T200 in slots.
    pub(crate) t200: u8,
    // The answer that waits for a slot.
    pub(crate) answer: Option<[u8; BLOCK_OCTETS]>,
    // Whether the frame that awaits an answer was sent.
    pub(crate) is_sent: bool,
    // The slots until that frame is due.
    pub(crate) clock: u8,
    // Whether an I, RR, RNR or REJ was received in Open.
    pub(crate) heard: bool,
}

/// What a link does in a slot.
#[derive(Clone, Copy, Debug)]
pub struct LinkSlot {
    /// The block to send, if any.
    pub block: Option<[u8; BLOCK_OCTETS]>,
    /// Whether the link was given up in this slot: it is closed as failed.
    pub gave_up: bool,
}

// Returns whether a frame with this body awaits an answer.
pub(crate) fn is_awaiting_kind(body: &Body<'_>) -> bool
    ensures { result ≡ is_awaiting_kind (content_of_body body.now) }
{
    match *body {
        Body::I { .. } | Body::Sabm { .. } | Body::Disc { .. } => true,
        _ => false,
    }
}

// Returns whether a side sends a frame with this body in Open alone.
fn is_numbered(is_command: bool, body: &Body<'_>) -> bool
    ensures { result ≡ is_numbered is_command (content_of_body body.now) }
{
    match *body {
        Body::I { .. } => is_command,
        Body::Rr { .. } | Body::Rnr { .. } | Body::Rej { .. } => true,
        _ => false,
    }
}

fn is_unnumbered_answer(body: &Body<'_>) -> bool
    ensures { result ≡ is_unnumbered_answer (content_of_body body.now) }
{
    match *body {
        Body::Ua { .. } | Body::Dm { .. } => true,
        _ => false,
    }
}

fn may_be_established(state: State) -> bool
    ensures { result ≡ may_be_established state }
{
    match state {
        State::Opening | State::Closing => false,
        State::Idle | State::Open | State::Closed => true,
    }
}

// Returns whether this is the body of a SABM without information.
fn is_opening_body(body: &Body<'_>) -> bool
    ensures { result ≡ is_opening_content (content_of_body body.now) }
{
    match body {
        Body::Sabm { info, .. } => info.is_empty(),
        _ => false,
    }
}

pub(crate) fn sapi_number(sapi: Sapi) -> u8
    ensures { result ≡ sapi_number sapi }
{
    match sapi {
        Sapi::Zero => 0,
        Sapi::Three => 3,
    }
}

// Returns the block of an endpoint with this SAPI as the link of SAPI 0 sends it: with SAPI 0 in its address octet.
pub(crate) fn on_sapi0(
    endpoint_sapi: Sapi,
    channel: Channel,
    block: [u8; BLOCK_OCTETS],
) -> [u8; BLOCK_OCTETS]
    ensures { (f : Frame) → block ≡ octets_of channel f → result ≡ octets_of channel (on_sapi0 endpoint_sapi f) }
{
    let mut sent = block;
    // The two lowest bits are C/R and EA.
    match (endpoint_sapi, channel) {
        (Sapi::Zero, _) => {}
        (Sapi::Three, Channel::Sdcch) => sent[0] = block[0] % 4,
        (Sapi::Three, Channel::Sacch) => sent[2] = block[2] % 4,
    }
    sent
}

/// Returns the block of an endpoint with this SAPI, if any, as the link of SAPI 0 sends it.
pub fn any_on_sapi0(
    endpoint_sapi: Sapi,
    channel: Channel,
    block: Option<[u8; BLOCK_OCTETS]>,
) -> Option<[u8; BLOCK_OCTETS]>
    ensures { (sent : Option Frame) → block ≡ option_map (octets_of channel) sent
        → result ≡ option_map (octets_of channel) (option_map (on_sapi0 endpoint_sapi) sent) }
{
    match block {
        None => None,
        Some(block) => Some(on_sapi0(endpoint_sapi, channel, block)),
    }
}

// Returns whether the block encodes an RR with F = 0.
fn is_plain_rr(block: &[u8; BLOCK_OCTETS], channel: Channel) -> bool
    ensures { (f : Frame) → FrameFits channel f → block.now ≡ octets_of channel f → result ≡ is_plain_rr f.content }
{
    match read_on(block, channel) {
        Err(_) => false,
        Ok(frame) => match frame.body {
            Body::Rr { pf, .. } => !pf,
            _ => false,
        },
    }
}

impl Link {
    /// Creates a link in Idle with this role, SAPI and channel, and T200 in slots.
    pub fn new_on(role: Role, sapi: Sapi, channel: Channel, t200: u8) -> Link
        ensures represents { Represents result (link_with (initial_endpoint (spec_role_of role) sapi channel) t200) }
        ensures role { role_of result ≡ spec_role_of role }
        ensures sapi { sapi_of result ≡ sapi }
        ensures channel { channel_of result ≡ channel }
    {
        Link {
            endpoint: Endpoint::new_on(role, sapi, channel),
            t200,
            answer: None,
            is_sent: false,
            clock: 0,
            heard: false,
        }
    }

    /// Starts the link afresh: with a new endpoint, which owes nothing and has sent nothing.
    pub fn restart(&mut self)
        ensures represents { (l : LinkState) → Represents self.old l → Represents self.new (afresh l) }
        ensures fresh { Represents self.new
            (link_with (initial_endpoint (role_of self.old) (sapi_of self.old) (channel_of self.old)) self.old.t200) }
        ensures role { role_of self.new ≡ role_of self.old }
        ensures sapi { sapi_of self.new ≡ sapi_of self.old }
        ensures channel { channel_of self.new ≡ channel_of self.old }
    {
        let sapi = self.endpoint.sapi();
        self.restart_with(sapi);
    }

    // Starts the link afresh as one of normal establishment.
    fn restart_as_normal(&mut self)
        ensures represents { (l : LinkState) → Represents self.old l → Represents self.new (as_normal l) }
        ensures fresh { Represents self.new (link_with (initial_endpoint (role_of self.old) P.Three (channel_of self.old)) self.old.t200) }
        ensures role { role_of self.new ≡ role_of self.old }
        ensures sapi { sapi_of self.new ≡ P.Three }
        ensures channel { channel_of self.new ≡ channel_of self.old }
    {
        self.restart_with(Sapi::Three);
    }

    // Starts the link afresh, with an endpoint of this SAPI.
    fn restart_with(&mut self, sapi: Sapi)
        ensures fresh { Represents self.new (link_with (initial_endpoint (role_of self.old) sapi (channel_of self.old)) self.old.t200) }
        ensures role { role_of self.new ≡ role_of self.old }
        ensures sapi { sapi_of self.new ≡ sapi }
        ensures channel { channel_of self.new ≡ channel_of self.old }
    {
        let end = &self.endpoint;
        let fresh = Endpoint::new_on(end.role(), sapi, end.channel());
        self.endpoint = fresh;
        self.answer = None;
        self.is_sent = false;
        self.clock = 0;
        self.heard = false;
    }

    /// Carries out a call of layer 3 that opens, sends over or closes the link. A link that is closed or open starts afresh first if the
    /// call opens it without information. A refused call changes nothing.
    pub fn call(&mut self, call: &Call<'_>) -> Result<(), Refused>
        requires allowed { IsCallAllowedFor (role_of self.old) (sapi_of self.old) (endpoint_call_of call.now) }
        requires of_link { IsLinkCall (endpoint_call_of call.now) }
        ensures refusal { (l : LinkState) → Represents self.old l
            → result_err result ≡ refusal_of (endpoint_call_of call.now) (for_call (endpoint_call_of call.now) l).endpoint }
        ensures done { OnOk result ((l : LinkState) → Represents self.old l
            → Represents self.new (after_call (endpoint_call_of call.now) l)) }
        ensures refused { OnErr result (self.new ≡ self.old) }
        ensures role { role_of self.new ≡ role_of self.old }
        ensures sapi { sapi_of self.new ≡ sapi_of self.old }
        ensures channel { channel_of self.new ≡ channel_of self.old }
    {
        if self.is_reopened_by_call(call) {
            self.restart();
            return self.call_endpoint(call);
        }
        self.call_endpoint(call)
    }

    /// Begins to establish the link without information. A link that is closed or open starts afresh first; one with contention resolution
    /// becomes one of normal establishment. A refused call changes nothing.
    pub fn establish(&mut self) -> Result<(), Refused>
        ensures refusal { (l : LinkState) → Represents self.old l
            → result_err result ≡ refusal_of OpensWithoutInfo (for_establishment l).endpoint }
        ensures done { OnOk result ((l : LinkState) → Represents self.old l → Represents self.new (after_establishment l)) }
        ensures refused { OnErr result (self.new ≡ self.old) }
        ensures role { role_of self.new ≡ role_of self.old }
        ensures normal { sapi_of self.old ≡ P.Three → sapi_of self.new ≡ P.Three }
        ensures channel { channel_of self.new ≡ channel_of self.old }
    {
        if let Sapi::Three = self.endpoint.sapi() {
            return self.call(&Call::OpenBare);
        }
        if !may_be_established(self.endpoint.state()) {
            return Err(Refused::NotIdle);
        }
        self.restart_as_normal();
        self.call_endpoint(&Call::OpenBare)
    }

    // Returns whether the link is closed or open and this call opens it again.
    fn is_reopened_by_call(&self, call: &Call<'_>) -> bool
        ensures reopened { (l : LinkState) → Represents self.now l → result ≡ is_reopened_by_call (endpoint_call_of call.now) l }
        ensures opens { IsTrue result → endpoint_call_of call.now ≡ OpensWithoutInfo }
    {
        match *call {
            Call::OpenBare => match self.endpoint.state() {
                State::Closed | State::Open => true,
                State::Idle | State::Opening | State::Closing => false,
            },
            _ => false,
        }
    }

    // Passes a call to the endpoint, and keeps the frames that it returns.
    fn call_endpoint(&mut self, call: &Call<'_>) -> Result<(), Refused>
        requires allowed { IsCallAllowedFor (role_of self.old) (sapi_of self.old) (endpoint_call_of call.now) }
        requires of_link { IsLinkCall (endpoint_call_of call.now) }
        ensures refusal { (l : LinkState) → Represents self.old l
            → result_err result ≡ refusal_of (endpoint_call_of call.now) l.endpoint }
        ensures done { OnOk result ((l : LinkState) → Represents self.old l
            → Represents self.new (with_outcome (call_outcome (endpoint_call_of call.now) l.endpoint) l)) }
        ensures refused { OnErr result (self.new ≡ self.old) }
        ensures role { role_of self.new ≡ role_of self.old }
        ensures sapi { sapi_of self.new ≡ sapi_of self.old }
        ensures channel { channel_of self.new ≡ channel_of self.old }
    {
        let mut effects = Effects::new();
        match self.endpoint.call(call, &mut effects) {
            Err(refusal) => Err(refusal),
            Ok(()) => {
                self.keep_all(effects.frames.as_slice());
                Ok(())
            }
        }
    }

    // Keeps of a frame that the endpoint returned what the slots need: an answer, or that the frame that awaits one is due.
    fn keep(&mut self, block: &[u8; BLOCK_OCTETS])
        ensures kept { (f : Frame) (l : LinkState) → MayBeReturned l.endpoint f → block.now ≡ octets_of l.endpoint.channel f
            → Represents self.old l → Represents self.new (with_frame f l) }
        ensures role { role_of self.new ≡ role_of self.old }
        ensures sapi { sapi_of self.new ≡ sapi_of self.old }
        ensures channel { channel_of self.new ≡ channel_of self.old }
    {
        let Ok(frame) = read_on(block, self.endpoint.channel()) else {
            return;
        };
        if is_awaiting_kind(&frame.body) {
            self.is_sent = false;
            self.clock = 0;
            return;
        }
        self.answer = Some(*block);
    }

    // Keeps at most two frames that the endpoint returned.
    fn keep_all(&mut self, blocks: &[[u8; BLOCK_OCTETS]])
        requires { length blocks.now ≤ 2 }
        ensures kept { (fs : List Frame) (l : LinkState) → All (MayBeReturned l.endpoint) fs
            → blocks.now ≡ map (octets_of l.endpoint.channel) fs → Represents self.old l → Represents self.new (with_frames fs l) }
        ensures role { role_of self.new ≡ role_of self.old }
        ensures sapi { sapi_of self.new ≡ sapi_of self.old }
        ensures channel { channel_of self.new ≡ channel_of self.old }
    {
        if blocks.is_empty() {
            return;
        }
        self.keep(&blocks[0]);
        if blocks.len() == 1 {
            return;
        }
        self.keep(&blocks[1]);
    }

    // Returns whether the frame answers a SABM or DISC that was not sent yet.
    fn is_too_early(&self, frame: &FrameView<'_>) -> bool
        ensures { (l : LinkState) → Represents self.now l → result ≡ is_too_early (frame_of_view frame.now) l }
    {
        if self.is_sent || !is_unnumbered_answer(&frame.body) {
            return false;
        }
        match self.endpoint.state() {
            State::Opening | State::Closing => true,
            State::Idle | State::Open | State::Closed => false,
        }
    }

    // Returns whether the frame is a DM with F = 1 that no frame of this open link asked for: no repeat with P = 1 awaits its answer.
    fn is_unasked_dm(&self, frame: &FrameView<'_>) -> bool
        ensures { (l : LinkState) → Represents self.now l → result ≡ is_unasked_dm (frame_of_view frame.now) l.endpoint }
    {
        let Body::Dm { f: true } = frame.body else {
            return false;
        };
        self.endpoint.state() == State::Open && self.endpoint.parts().window.retries == 0
    }

    fn ignores(&self, frame: &FrameView<'_>) -> bool
        ensures { (l : LinkState) → Represents self.now l → result ≡ ignores (frame_of_view frame.now) l }
    {
        self.is_too_early(frame) || self.is_unasked_dm(frame)
    }

    // Returns whether the link is closed and this received frame opens it again.
    fn is_reopened_by(&self, frame: &FrameView<'_>) -> bool
        ensures { (l : LinkState) → Represents self.now l → result ≡ is_reopened_by_frame (frame_of_view frame.now) l }
    {
        self.endpoint.sapi() == Sapi::Three
            && self.endpoint.state() == State::Closed
            && is_opening_body(&frame.body)
            && self.is_command(frame)
    }

    /// Processes a received frame of this link, and writes the notices that the link reports to `effects`, without frames. A SABM in Open
    /// opens the link again once an I, RR, RNR or REJ was received; before that it is a repeat. One without information brings a mobile
    /// back to the network's link that was opened with some.
    pub fn receive(&mut self, frame: &FrameView<'_>, effects: &mut Effects)
        requires { FrameFits (channel_of self.old) (frame_of_view frame.now) }
        ensures done { (l : LinkState) → Represents self.old l → Represents self.new (after_received (frame_of_view frame.now) l) }
        ensures notices { (l : LinkState) → Represents self.old l
            → effects.new.notices ≡ received_notices (frame_of_view frame.now) l }
        ensures frames { effects.new.frames ≡ [] }
        ensures role { role_of self.new ≡ role_of self.old }
        ensures normal { sapi_of self.old ≡ P.Three → sapi_of self.new ≡ P.Three }
        ensures channel { channel_of self.new ≡ channel_of self.old }
    {
        self.restart_if_opened_again_by(frame);
        let heard = self.has_heard_with(frame);
        self.take(frame, effects);
        self.heard = heard;
    }

    // Returns whether a received SABM opens this open link again.
    fn is_opened_again_by(&self, frame: &FrameView<'_>) -> bool
        ensures { (l : LinkState) → Represents self.now l → result ≡ is_opened_again (frame_of_view frame.now) l }
    {
        if !self.heard || self.endpoint.state() != State::Open {
            return false;
        }
        let Body::Sabm { info, .. } = frame.body else {
            return false;
        };
        self.is_command(frame) && self.was_opened_with(info)
    }

    // Returns whether this is the information of the SABM that opened this open link, as its endpoint answers it.
    fn was_opened_with(&self, info: &[u8]) -> bool
        ensures { (l : LinkState) → Represents self.now l
            → result ≡ answers_repeated_sabm l.endpoint.sapi l.endpoint.role && bytes_eq info.now l.endpoint.sabm_info }
    {
        if let (Sapi::Zero, Role::Mobile) = (self.endpoint.sapi(), self.endpoint.role()) {
            return false;
        }
        info == self.endpoint.parts().sabm_info
    }

    // Returns whether a received SABM says that the mobile returns to this link.
    fn is_return(&self, frame: &FrameView<'_>) -> bool
        ensures { (l : LinkState) → Represents self.now l → result ≡ is_return (frame_of_view frame.now) l }
    {
        let (Sapi::Zero, Role::Network) = (self.endpoint.sapi(), self.endpoint.role()) else {
            return false;
        };
        is_opening_body(&frame.body)
            && self.is_command(frame)
            && self.endpoint.state() == State::Open
    }

    fn restart_if_opened_again_by(&mut self, frame: &FrameView<'_>)
        ensures represents { (l : LinkState) → Represents self.old l → Represents self.new (renewed_for (frame_of_view frame.now) l) }
        ensures role { role_of self.new ≡ role_of self.old }
        ensures normal { sapi_of self.old ≡ P.Three → sapi_of self.new ≡ P.Three }
        ensures channel { channel_of self.new ≡ channel_of self.old }
    {
        if self.is_opened_again_by(frame) {
            self.restart();
            return;
        }
        if self.is_return(frame) {
            self.restart_as_normal();
        }
    }

    fn is_command(&self, frame: &FrameView<'_>) -> bool
        ensures { (l : LinkState) → Represents self.now l → result ≡ is_command l.endpoint (frame_of_view frame.now) }
    {
        frame.cr == (self.endpoint.role() == Role::Mobile)
    }

    // Returns whether an I, RR, RNR or REJ was received in Open, this frame included. A closed link that it opens again has heard none.
    fn has_heard_with(&self, frame: &FrameView<'_>) -> bool
        ensures { (l : LinkState) → Represents self.now l → result ≡ heard_with (frame_of_view frame.now) l }
    {
        if self.heard {
            return !self.is_reopened_by(frame);
        }
        self.endpoint.state() == State::Open && is_numbered(self.is_command(frame), &frame.body)
    }

    // Processes a received frame that does not open an open link again.
    fn take(&mut self, frame: &FrameView<'_>, effects: &mut Effects)
        requires { FrameFits (channel_of self.old) (frame_of_view frame.now) }
        ensures done { (l : LinkState) → Represents self.old l → Represents self.new (after_frame (frame_of_view frame.now) l) }
        ensures notices { (l : LinkState) → Represents self.old l
            → effects.new.notices ≡ frame_notices (frame_of_view frame.now) l }
        ensures frames { effects.new.frames ≡ [] }
        ensures role { role_of self.new ≡ role_of self.old }
        ensures sapi { sapi_of self.new ≡ sapi_of self.old }
        ensures channel { channel_of self.new ≡ channel_of self.old }
    {
        if self.ignores(frame) {
            effects.clear();
            return;
        }
        self.restart_if_reopened_by(frame);
        self.take_considered(frame, effects);
    }

    fn restart_if_reopened_by(&mut self, frame: &FrameView<'_>)
        ensures represents { (l : LinkState) → Represents self.old l → Represents self.new (for_frame (frame_of_view frame.now) l) }
        ensures role { role_of self.new ≡ role_of self.old }
        ensures sapi { sapi_of self.new ≡ sapi_of self.old }
        ensures channel { channel_of self.new ≡ channel_of self.old }
    {
        if self.is_reopened_by(frame) {
            self.restart();
        }
    }

    // Returns whether the link refuses a received frame: a SABM, while it is being released.
    fn refuses(&self, frame: &FrameView<'_>) -> bool
        ensures { (l : LinkState) → Represents self.now l → result ≡ refuses (frame_of_view frame.now) l.endpoint }
    {
        let Body::Sabm { .. } = frame.body else {
            return false;
        };
        self.endpoint.state() == State::Closing && self.is_command(frame)
    }

    // Owes the DM that refuses a SABM.
    fn owe_dm(&mut self)
        ensures represents { (l : LinkState) → Represents self.old l
            → Represents self.new (with_outcome (outcome_of_reply SendsDm l.endpoint) l) }
        ensures role { role_of self.new ≡ role_of self.old }
        ensures sapi { sapi_of self.new ≡ sapi_of self.old }
        ensures channel { channel_of self.new ≡ channel_of self.old }
    {
        let dm = FrameView {
            sapi: sapi_number(self.endpoint.sapi()),
            cr: self.endpoint.role() == Role::Mobile,
            body: Body::Dm { f: true },
        };
        self.answer = Some(write_on(&dm, self.endpoint.channel()));
    }

    // Refuses a frame, or passes it to the endpoint.
    fn take_considered(&mut self, frame: &FrameView<'_>, effects: &mut Effects)
        requires { FrameFits (channel_of self.old) (frame_of_view frame.now) }
        ensures done { (l : LinkState) → Represents self.old l
            → Represents self.new (with_outcome (received_outcome (frame_of_view frame.now) l) l) }
        ensures notices { (l : LinkState) → Represents self.old l
            → effects.new.notices ≡ (received_outcome (frame_of_view frame.now) l).notices }
        ensures frames { effects.new.frames ≡ [] }
        ensures role { role_of self.new ≡ role_of self.old }
        ensures sapi { sapi_of self.new ≡ sapi_of self.old }
        ensures channel { channel_of self.new ≡ channel_of self.old }
    {
        if self.refuses(frame) {
            effects.clear();
            self.owe_dm();
            return;
        }
        self.pass(frame, effects);
    }

    // Returns N(R) as the endpoint takes it: V(A) in place of V(S) while the frame that awaits an answer waits for its slot.
    fn nr_as_taken(&self, nr: u8) -> u8
        ensures value { (l : LinkState) → Represents self.now l → result ≡ nr_as_taken nr l }
        ensures fits { nr ≤ 7 → result ≤ 7 }
    {
        let window = self.endpoint.parts().window;
        if !self.is_sent && nr == window.vs {
            window.va
        } else {
            nr
        }
    }

    // Returns the body as the endpoint takes it, with an RR in place of a REJ.
    fn body_as_taken<'a>(&self, body: Body<'a>) -> Body<'a>
        ensures value { (l : LinkState) → Represents self.now l
            → content_of_body result ≡ content_as_taken (content_of_body body.entry) l }
        ensures numbers { NsAndNrFit (content_of_body body.entry) → NsAndNrFit (content_of_body result) }
        ensures information { (channel : ChannelOf) → InformationFits channel (content_of_body body.entry)
            → InformationFits channel (content_of_body result) }
    {
        match body {
            Body::I {
                ns,
                nr,
                p,
                more,
                info,
            } => Body::I {
                ns,
                nr: self.nr_as_taken(nr),
                p,
                more,
                info,
            },
            Body::Rr { nr, pf } | Body::Rej { nr, pf } => Body::Rr {
                nr: self.nr_as_taken(nr),
                pf,
            },
            other => other,
        }
    }

    // Passes a frame to the endpoint, and keeps the frames that it returns.
    fn pass(&mut self, frame: &FrameView<'_>, effects: &mut Effects)
        requires { FrameFits (channel_of self.old) (frame_of_view frame.now) }
        ensures done { (l : LinkState) → Represents self.old l
            → Represents self.new
            (with_outcome (frame_outcome (as_taken (frame_of_view frame.now) l) l.endpoint) l) }
        ensures notices { (l : LinkState) → Represents self.old l
            → effects.new.notices ≡ (frame_outcome (as_taken (frame_of_view frame.now) l) l.endpoint).notices }
        ensures frames { effects.new.frames ≡ [] }
        ensures role { role_of self.new ≡ role_of self.old }
        ensures sapi { sapi_of self.new ≡ sapi_of self.old }
        ensures channel { channel_of self.new ≡ channel_of self.old }
    {
        let taken = FrameView {
            sapi: sapi_number(self.endpoint.sapi()),
            cr: frame.cr,
            body: self.body_as_taken(frame.body),
        };
        self.endpoint.take_frame_into(&taken, effects);
        self.keep_all(effects.frames.as_slice());
        effects.frames.clear();
    }

    /// Returns the messages that were passed to the link and are not completely acknowledged, oldest first.
    pub fn unacked(&self) -> &[MessageBuffer]
        ensures { (l : LinkState) → Represents self.now l → map octets_in_buffer result.now ≡ unacked_messages l.endpoint }
    {
        self.endpoint.parts().window.held
    }

    /// Returns the SAPI of the link's endpoint: for SAPI 0 with normal establishment that is 3.
    pub fn endpoint_sapi(&self) -> Sapi
        ensures { result ≡ sapi_of self.now }
    {
        self.endpoint.sapi()
    }

    /// Encodes a UI frame, for a slot that is free.
    pub fn unit(&self, message: &[u8]) -> Result<[u8; BLOCK_OCTETS], Refused>
        ensures refusal { (l : LinkState) → Represents self.now l → result_err result ≡ refusal_of (SendsUi message.now) l.endpoint }
        ensures block { IfOk result (λ block. (l : LinkState) → Represents self.now l
            → block ≡ octets_of (channel_of self.now) (ui_frame message.now l.endpoint)) }
    {
        self.endpoint.ui_block(message)
    }

    fn is_due(&self) -> bool
        ensures { (l : LinkState) → Represents self.now l → result ≡ is_due l }
    {
        self.clock == 0 && self.endpoint.awaits_answer()
    }

    // Returns whether the own SABM was not sent yet, so that it goes before the UA to the SABM of the other side.
    fn sabm_goes_first(&self) -> bool
        ensures { (l : LinkState) → Represents self.now l → result ≡ sabm_goes_first l }
    {
        !self.is_sent && self.endpoint.state() == State::Opening && self.is_due()
    }

    // Returns whether the link keeps back this answer in a slot.
    fn keeps_back(&self, block: &[u8; BLOCK_OCTETS]) -> bool
        ensures { (f : Frame) (l : LinkState) → FrameFits l.endpoint.channel f → block.now ≡ octets_of l.endpoint.channel f
            → Represents self.now l → result ≡ keeps_back f l }
    {
        if self.sabm_goes_first() {
            return true;
        }
        self.endpoint.state() == State::Open
            && self.is_due()
            && is_plain_rr(block, self.endpoint.channel())
    }

    /// Returns what the link does in a slot that it may use: it sends the answer that it owes, or the frame that is due.
    pub fn slot(&mut self) -> LinkSlot
        ensures represents { (l : LinkState) → Represents self.old l → Represents self.new (slot_outcome l).link }
        ensures block { (l : LinkState) → Represents self.old l
            → result.block ≡ option_map (octets_of l.endpoint.channel) (slot_outcome l).frame }
        ensures gave_up { (l : LinkState) → Represents self.old l → notices_if result.gave_up ≡ (slot_outcome l).notices }
        ensures role { role_of self.new ≡ role_of self.old }
        ensures sapi { sapi_of self.new ≡ sapi_of self.old }
        ensures channel { channel_of self.new ≡ channel_of self.old }
    {
        let Some(block) = self.answer else {
            return self.send_due_frame();
        };
        if self.keeps_back(&block) {
            return self.send_due_frame();
        }
        self.answer = None;
        LinkSlot {
            block: Some(block),
            gave_up: false,
        }
    }

    fn send_due_frame(&mut self) -> LinkSlot
        ensures represents { (l : LinkState) → Represents self.old l → Represents self.new (sends_due_frame l).link }
        ensures block { (l : LinkState) → Represents self.old l
            → result.block ≡ option_map (octets_of l.endpoint.channel) (sends_due_frame l).frame }
        ensures gave_up { (l : LinkState) → Represents self.old l → notices_if result.gave_up ≡ (sends_due_frame l).notices }
        ensures role { role_of self.new ≡ role_of self.old }
        ensures sapi { sapi_of self.new ≡ sapi_of self.old }
        ensures channel { channel_of self.new ≡ channel_of self.old }
    {
        if !self.is_due() {
            return LinkSlot {
                block: None,
                gave_up: false,
            };
        }
        self.drop_needless_answer();
        if self.is_sent {
            return self.expire();
        }
        self.is_sent = true;
        self.clock = self.t200;
        LinkSlot {
            block: self.endpoint.awaited(),
            gave_up: false,
        }
    }

    // Drops the answer that the frame that is due makes needless.
    fn drop_needless_answer(&mut self)
        ensures represents { (l : LinkState) → Represents self.old l → Represents self.new (without_needless_answer l) }
        ensures role { role_of self.new ≡ role_of self.old }
        ensures sapi { sapi_of self.new ≡ sapi_of self.old }
        ensures channel { channel_of self.new ≡ channel_of self.old }
    {
        if !self.sabm_goes_first() {
            self.answer = None;
        }
    }

    // Handles T200 expiry: repeats the frame that awaits an answer, or gives the link up.
    fn expire(&mut self) -> LinkSlot
        ensures represents { (l : LinkState) → awaits_answer l.endpoint ≡ true → Represents self.old l
            → Represents self.new (expires l).link }
        ensures block { (l : LinkState) → awaits_answer l.endpoint ≡ true → Represents self.old l
            → result.block ≡ option_map (octets_of l.endpoint.channel) (expires l).frame }
        ensures gave_up { (l : LinkState) → awaits_answer l.endpoint ≡ true → Represents self.old l
            → notices_if result.gave_up ≡ (expires l).notices }
        ensures role { role_of self.new ≡ role_of self.old }
        ensures sapi { sapi_of self.new ≡ sapi_of self.old }
        ensures channel { channel_of self.new ≡ channel_of self.old }
    {
        let mut effects = Effects::new();
        self.clock = self.t200;
        match self.endpoint.call(&Call::Timer, &mut effects) {
            Err(_) => LinkSlot {
                block: None,
                gave_up: false,
            },
            Ok(()) => LinkSlot {
                block: effects.frames.as_slice().first().copied(),
                gave_up: !effects.notices.as_slice().is_empty(),
            },
        }
    }
}
