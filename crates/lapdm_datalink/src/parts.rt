//! Exports the state of a link as plain data, and restores a link from it.

ghost use Rattle.std.specs.Prelude.{◌≡◌, ◌≢◌, ◌≤◌, ◌↔◌, false, IsTrue};
ghost use Rattle.lapdm_frame.specs.Content.{content_of_body, frame_of_view};
ghost use Rattle.lapdm_end.specs.Addresses.{spec_role_of};
ghost use Rattle.lapdm_datalink.specs.Links.{LinkState};
ghost use Rattle.lapdm_datalink.specs.DataLinks.{DataLinkState, IsDataLink, having_main};
ghost use Rattle.lapdm_datalink.specs.Abstraction as L;
ghost use Rattle.lapdm_datalink.specs.Abstraction.{Represents, IsAnswer, is_answer_kind, role_of, sapi_of, channel_of as link_channel};
ghost use Rattle.lapdm_datalink.specs.Parts.{values_of, values_of_parts, ValuesRepresent, SomeLinkHasValues, IsTimed};
ghost use Rattle.lapdm_datalink.specs.Parts.{IsAnswerBlock, HasAnswerBlockIfAny, IsAtSameAddress, CanBeRestored, IsWritable};
ghost use Rattle.lapdm_datalink.specs.Parts.{data_link_values_of, data_link_values_of_parts, RepresentDataLink, RepresentSomeDataLink};

use crate::data_links::DataLink;
use crate::links::{Link, sapi_number};
use lapdm_end::{Channel, EndpointView, Role, Sapi};
use lapdm_frame::{BLOCK_OCTETS, Body, FrameView, read_on, write_on};

/// The state of a link as plain data.
#[derive(Clone, Copy, Debug)]
pub struct LinkView<'a> {
    pub endpoint: EndpointView<'a>,
    /// T200 in slots, not 0.
    pub t200: u8,
    /// The answer that waits for a slot: a UA, DM, RR or REJ.
    pub answer: Option<[u8; BLOCK_OCTETS]>,
    /// Whether the frame that awaits an answer was sent.
    pub is_sent: bool,
    /// The slots until that frame is due, at most `t200`.
    pub clock: u8,
    /// Whether an I, RR, RNR or REJ was received in Open.
    pub heard: bool,
}

/// The state of a data link as plain data.
#[derive(Clone, Copy, Debug)]
pub struct DataLinkView<'a> {
    /// The link of SAPI 0.
    pub link0: LinkView<'a>,
    /// The link of SAPI 3.
    pub link3: LinkView<'a>,
    /// Whether a frame of SAPI 0 other than UI was received since the last slot.
    pub heard_sapi0: bool,
    /// On SACCH, whether the link of SAPI 0 on the main channel is established.
    pub is_main_established: bool,
}

fn is_answer_kind(body: &Body<'_>) -> bool
    ensures { result ≡ is_answer_kind (content_of_body body.now) }
{
    match *body {
        Body::Ua { .. } | Body::Dm { .. } | Body::Rr { .. } | Body::Rej { .. } => true,
        _ => false,
    }
}

// Returns whether the frame is an answer of a link with this role and SAPI.
fn is_answer(frame: &FrameView<'_>, role: Role, sapi: Sapi) -> bool
    ensures { IsTrue result ↔ IsAnswer (spec_role_of role) sapi (frame_of_view frame.now) }
{
    is_answer_kind(&frame.body)
        && frame.sapi == sapi_number(sapi)
        && frame.cr == (role == Role::Mobile)
}

// Returns whether the block is the coding of an answer of a link with this role, SAPI and channel.
fn is_answer_block(block: &[u8; BLOCK_OCTETS], role: Role, sapi: Sapi, channel: Channel) -> bool
    ensures { IsTrue result ↔ IsAnswerBlock (spec_role_of role) sapi channel block.now }
{
    match read_on(block, channel) {
        Err(_) => false,
        Ok(frame) => {
            if !is_answer(&frame, role, sapi) {
                return false;
            }
            write_on(&frame, channel) == *block
        }
    }
}

// Inlined, and the block is copied before it is lent: a view of which nothing is lent need not be written, and most links owe no answer.
#[inline(always)]
fn has_answer_block_if_any(parts: &LinkView<'_>) -> bool
    ensures { IsTrue result ↔ HasAnswerBlockIfAny (values_of_parts parts.now) }
{
    match &parts.answer {
        None => true,
        Some(block) => {
            let copy = *block;
            is_answer_block(
                &copy,
                parts.endpoint.role,
                parts.endpoint.sapi,
                parts.endpoint.window.channel,
            )
        }
    }
}

impl LinkView<'_> {
    /// Returns whether some link has this state.
    pub fn is_link(&self) -> bool
        ensures { IsTrue result ↔ SomeLinkHasValues (values_of_parts self.now) }
    {
        has_answer_block_if_any(self) && self.endpoint.is_endpoint()
    }
}

pub(crate) fn is_same_role(role: Role, other: Role) -> bool
    ensures { IsTrue result ↔ (spec_role_of role ≡ spec_role_of other) }
{
    match (role, other) {
        (Role::Mobile, Role::Mobile) | (Role::Network, Role::Network) => true,
        _ => false,
    }
}

// Returns whether this T200 is not 0, and the clock is not longer.
pub(crate) fn is_timed(t200: u8, clock: u8) -> bool
    ensures { IsTrue result ↔ IsTimed t200 clock }
{
    t200 != 0 && clock <= t200
}

impl Link {
    pub fn parts(&self) -> LinkView<'_>
        ensures values { values_of_parts result ≡ values_of self.now }
        ensures fits { IsWritable result }
    {
        LinkView {
            endpoint: self.endpoint.parts(),
            t200: self.t200,
            answer: self.answer,
            is_sent: self.is_sent,
            clock: self.clock,
            heard: self.heard,
        }
    }

    // Returns whether this state is that of a link with the same SAPI and channel.
    fn has_address_of(&self, parts: &LinkView<'_>) -> bool
        ensures { IsTrue result ↔ IsAtSameAddress self.now (values_of_parts parts.now) }
    {
        is_same_role(parts.endpoint.role, self.endpoint.role())
            && parts.endpoint.sapi == self.endpoint.sapi()
            && parts.endpoint.window.channel == self.endpoint.channel()
    }

    /// Restores a link from its state, whatever role, SAPI and channel it has. Returns false and changes nothing if no link can have this
    /// state.
    pub fn restore_any(&mut self, parts: &LinkView<'_>) -> bool
        ensures same { IsTrue result → values_of self.new ≡ values_of_parts parts.now }
        ensures represents { IsTrue result → (l : LinkState) → ValuesRepresent (values_of_parts parts.now) l → Represents self.new l }
        ensures valid { IsTrue result ↔ SomeLinkHasValues (values_of_parts parts.now) }
        ensures refused { result ≡ false → self.new ≡ self.old }
    {
        if !has_answer_block_if_any(parts) {
            return false;
        }
        if !self.endpoint.restore(&parts.endpoint) {
            return false;
        }
        self.t200 = parts.t200;
        self.answer = parts.answer;
        self.is_sent = parts.is_sent;
        self.clock = parts.clock;
        self.heard = parts.heard;
        true
    }

    /// Restores a link from its state. Returns false and changes nothing if no link with this SAPI and channel can have this state.
    pub fn restore(&mut self, parts: &LinkView<'_>) -> bool
        ensures same { IsTrue result → values_of self.new ≡ values_of_parts parts.now }
        ensures represents { IsTrue result → (l : LinkState) → ValuesRepresent (values_of_parts parts.now) l → Represents self.new l }
        ensures valid { IsTrue result ↔ CanBeRestored self.old (values_of_parts parts.now) }
        ensures refused { result ≡ false → self.new ≡ self.old }
        ensures role { role_of self.new ≡ role_of self.old }
        ensures sapi { sapi_of self.new ≡ sapi_of self.old }
        ensures channel { link_channel self.new ≡ link_channel self.old }
    {
        if !self.has_address_of(parts) {
            return false;
        }
        self.restore_any(parts)
    }
}

impl DataLink {
    ghost use Rattle.lapdm_datalink.specs.Sides.{link_of, other, channel_of, role_of as data_link_role, Represents as DataLinkRepresents};

    // Restores the link with this SAPI. Returns false and changes nothing if no link with this SAPI and the data link's channel can have
    // this state.
    fn restore_link(&mut self, sapi: Sapi, parts: &LinkView<'_>) -> bool
        ensures same { IsTrue result → values_of (link_of sapi self.new) ≡ values_of_parts parts.now }
        ensures represents { IsTrue result → (l : LinkState) → ValuesRepresent (values_of_parts parts.now) l
            → Represents (link_of sapi self.new) l }
        ensures valid { IsTrue result ↔ CanBeRestored (link_of sapi self.old) (values_of_parts parts.now) }
        ensures others { link_of (other sapi) self.new ≡ link_of (other sapi) self.old }
        ensures heard { self.new.heard_sapi0 ≡ self.old.heard_sapi0 }
        ensures main { self.new.is_main_established ≡ self.old.is_main_established }
        ensures role { data_link_role self.new ≡ data_link_role self.old }
        ensures channel { channel_of self.new ≡ channel_of self.old }
    {
        match sapi {
            Sapi::Zero => self.link0.restore(parts),
            Sapi::Three => self.link3.restore(parts),
        }
    }

    // Returns whether each link has a T200, and no clock that is longer.
    fn is_data_link(&self) -> bool
        ensures { (s : DataLinkState) → L.Represents self.now.link0 s.link0 → L.Represents self.now.link3 s.link3
            → IsTrue result ↔ IsDataLink s }
    {
        if !is_timed(self.link0.t200, self.link0.clock) {
            return false;
        }
        is_timed(self.link3.t200, self.link3.clock)
    }

    // Makes this a data link with this role and channel, whose link of SAPI 0 has an endpoint of this SAPI.
    fn move_to(&mut self, role: Role, channel: Channel, endpoint_sapi: Sapi)
        ensures role { data_link_role self.new ≡ spec_role_of role }
        ensures channel { channel_of self.new ≡ channel }
        ensures sapi { sapi_of self.new.link0 ≡ endpoint_sapi }
    {
        if is_same_role(role, self.role())
            && channel == self.channel()
            && endpoint_sapi == self.link0.endpoint_sapi()
        {
            return;
        }
        *self = DataLink::with_endpoint(endpoint_sapi, role, channel, 1, 1);
    }

    /// Restores a data link from its state. Returns false if no data link can have this state; this data link then has to be restored
    /// again.
    pub fn restore(&mut self, parts: &DataLinkView<'_>) -> bool
        ensures same { IsTrue result → data_link_values_of self.new ≡ data_link_values_of_parts parts.now }
        ensures represents { IsTrue result
            → (s : DataLinkState) → RepresentDataLink (data_link_values_of_parts parts.now) s → DataLinkRepresents self.new s }
        ensures valid { IsTrue result ↔ RepresentSomeDataLink (data_link_values_of_parts parts.now) }
    {
        let end = &parts.link0.endpoint;
        self.move_to(end.role, end.window.channel, end.sapi);
        if !self.restore_link(Sapi::Zero, &parts.link0) {
            return false;
        }
        if !self.restore_link(Sapi::Three, &parts.link3) {
            return false;
        }
        self.heard_sapi0 = parts.heard_sapi0;
        self.is_main_established = parts.is_main_established;
        self.is_data_link()
    }

    /// Says whether the link of SAPI 0 on the main channel is established.
    pub fn set_main_established(&mut self, is_established: bool)
        ensures represents { (s : DataLinkState) → DataLinkRepresents self.old s
            → DataLinkRepresents self.new (having_main is_established s) }
        ensures role { data_link_role self.new ≡ data_link_role self.old }
        ensures channel { channel_of self.new ≡ channel_of self.old }
    {
        self.is_main_established = is_established;
    }

    pub fn parts(&self) -> DataLinkView<'_>
        ensures values { data_link_values_of_parts result ≡ data_link_values_of self.now }
        ensures fits0 { IsWritable result.link0 }
        ensures fits3 { IsWritable result.link3 }
    {
        DataLinkView {
            link0: self.link0.parts(),
            link3: self.link3.parts(),
            heard_sapi0: self.heard_sapi0,
            is_main_established: self.is_main_established,
        }
    }
}
