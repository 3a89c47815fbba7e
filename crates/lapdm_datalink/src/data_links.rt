//! A data link: both links of one side of a channel, slot by slot.

ghost use Rattle.std.specs.Prelude.{◌≡◌, ◌≢◌, false, map, IfOk, OnOk, OnErr};
ghost use Rattle.std.specs.Result.{result_err};
ghost use Rattle.lapdm_frame.specs.Content.{frame_of_view};
ghost use Rattle.lapdm_frame.specs.Frames.{octets_of};
ghost use Rattle.lapdm_end.specs.lapdm_window.Calls.{endpoint_call_of, IsCallAllowedFor, OpensWithoutInfo, SendsUi, refusal_of};
ghost use Rattle.lapdm_end.specs.lapdm_window.segmenting.Buffers.{octets_in_buffer};
ghost use Rattle.lapdm_end.specs.lapdm_window.declared.Sapi.TheVariants as P;
ghost use Rattle.lapdm_end.specs.Addresses.{spec_role_of};
ghost use Rattle.lapdm_end.specs.lapdm_window.Ends.{initial_endpoint};
ghost use Rattle.lapdm_datalink.specs.Links.{link_with, afresh, IsLinkCall, for_call, after_call};
ghost use Rattle.lapdm_datalink.specs.Links.{for_establishment, after_establishment, unacked_messages};
ghost use Rattle.lapdm_datalink.specs.Abstraction as L;
ghost use Rattle.lapdm_datalink.specs.DataLinks.{
  DataLinkState,
  initial_data_link,
  link_with_sapi,
  with_link,
  holds_up_sapi3,
  unit_frame,
};
ghost use Rattle.lapdm_datalink.specs.Abstraction.{channel_of as link_channel, role_of as link_role, sapi_of};

use crate::links::{Link, on_sapi0};
use lapdm_end::{Call, Channel, MessageBuffer, Refused, Role, Sapi};
use lapdm_frame::{BLOCK_OCTETS, Body, FrameView};

/// How the link of SAPI 0 is established.
#[derive(Clone, Copy, Debug, PartialEq, Eq)]
pub enum Establishment {
    /// By the mobile, with contention resolution: the SABM and the UA carry its first message.
    Contention,
    /// By either side, without information, as SAPI 3: after an assignment, a handover or a return.
    Normal,
}

/// A data link: both links of a mobile or of a network, and what it knows of the slot.
#[derive(Debug, Drop)]
pub struct DataLink {
    pub(crate) link0: Link,
    pub(crate) link3: Link,
    // Whether a frame of SAPI 0 other than UI was received since the last slot.
    pub(crate) heard_sapi0: bool,
    // On SACCH, whether the link of SAPI 0 on the main channel is established.
    pub(crate) is_main_established: bool,
    ghost one_role: { link_role link3 ≡ link_role link0 },
    ghost one_channel: { link_channel link3 ≡ link_channel link0 },
    ghost sapi3: { sapi_of link3 ≡ P.Three },
}

/// What a data link does in a slot.
#[derive(Clone, Copy, Debug)]
pub struct Slot {
    /// The block to send, or `None` if the slot is free.
    pub block: Option<[u8; BLOCK_OCTETS]>,
    /// Whether the link of SAPI 0 was given up in this slot: it is closed as failed.
    pub gave_up0: bool,
    /// Whether the link of SAPI 3 was given up in this slot.
    pub gave_up3: bool,
}

impl DataLink {
    ghost use Rattle.lapdm_datalink.specs.Sides.{Represents, link_of, other, channel_of, role_of};

    /// Creates a data link with both links in Idle, and T200 of each in slots. With a T200 of 0, which would act as 1, it represents none.
    pub fn new_on(
        role: Role,
        channel: Channel,
        establishment: Establishment,
        t200: u8,
        t200_sapi3: u8,
    ) -> DataLink
        ensures represents { t200 ≢ 0 → t200_sapi3 ≢ 0
            → Represents result (initial_data_link (spec_role_of role) channel establishment t200 t200_sapi3) }
        ensures role { role_of result ≡ spec_role_of role }
        ensures channel { channel_of result ≡ channel }
    {
        let endpoint_sapi = match establishment {
            Establishment::Contention => Sapi::Zero,
            Establishment::Normal => Sapi::Three,
        };
        DataLink::with_endpoint(endpoint_sapi, role, channel, t200, t200_sapi3)
    }

    // Creates a data link whose link of SAPI 0 has an endpoint of this SAPI.
    pub(crate) fn with_endpoint(
        endpoint_sapi: Sapi,
        role: Role,
        channel: Channel,
        t200: u8,
        t200_sapi3: u8,
    ) -> DataLink
        ensures link0 { L.Represents result.link0 (link_with (initial_endpoint (spec_role_of role) endpoint_sapi channel) t200) }
        ensures link3 { L.Represents result.link3 (link_with (initial_endpoint (spec_role_of role) P.Three channel) t200_sapi3) }
        ensures heard { result.heard_sapi0 ≡ false }
        ensures main { result.is_main_established ≡ false }
        ensures role { role_of result ≡ spec_role_of role }
        ensures sapi { sapi_of result.link0 ≡ endpoint_sapi }
        ensures channel { channel_of result ≡ channel }
    {
        DataLink {
            link0: Link::new_on(role, endpoint_sapi, channel, t200),
            link3: Link::new_on(role, Sapi::Three, channel, t200_sapi3),
            heard_sapi0: false,
            is_main_established: false,
        }
    }

    /// Carries out a call of layer 3 that opens, sends over or closes the link with this SAPI. A link that is closed or open starts afresh
    /// first if the call opens it without information. A refused call changes nothing.
    pub fn call(&mut self, sapi: Sapi, call: &Call<'_>) -> Result<(), Refused>
        requires allowed { IsCallAllowedFor (role_of self.old) (sapi_of (link_of sapi self.old)) (endpoint_call_of call.now) }
        requires of_link { IsLinkCall (endpoint_call_of call.now) }
        ensures refusal { (s : DataLinkState) → Represents self.old s → result_err result
            ≡ refusal_of (endpoint_call_of call.now) (for_call (endpoint_call_of call.now) (link_with_sapi sapi s)).endpoint }
        ensures done { OnOk result ((s : DataLinkState) → Represents self.old s
            → Represents self.new (with_link sapi (after_call (endpoint_call_of call.now) (link_with_sapi sapi s)) s)) }
        ensures refused { OnErr result (self.new ≡ self.old) }
        ensures others { link_of (other sapi) self.new ≡ link_of (other sapi) self.old }
        ensures role { role_of self.new ≡ role_of self.old }
        ensures channel { channel_of self.new ≡ channel_of self.old }
    {
        match sapi {
            Sapi::Zero => self.link0.call(call),
            Sapi::Three => self.link3.call(call),
        }
    }

    /// Begins to establish the link of this SAPI without information: it starts afresh, and that of SAPI 0 is of normal establishment from
    /// then on. A refused call changes nothing.
    pub fn establish(&mut self, sapi: Sapi) -> Result<(), Refused>
        ensures refusal { (s : DataLinkState) → Represents self.old s
            → result_err result ≡ refusal_of OpensWithoutInfo (for_establishment (link_with_sapi sapi s)).endpoint }
        ensures done { OnOk result ((s : DataLinkState) → Represents self.old s
            → Represents self.new (with_link sapi (after_establishment (link_with_sapi sapi s)) s)) }
        ensures refused { OnErr result (self.new ≡ self.old) }
        ensures others { link_of (other sapi) self.new ≡ link_of (other sapi) self.old }
        ensures role { role_of self.new ≡ role_of self.old }
        ensures channel { channel_of self.new ≡ channel_of self.old }
    {
        match sapi {
            Sapi::Zero => self.link0.establish(),
            Sapi::Three => self.link3.establish(),
        }
    }

    /// Returns the messages that were passed to the link of this SAPI and are not completely acknowledged, oldest first.
    pub fn unacked(&self, sapi: Sapi) -> &[MessageBuffer]
        ensures { (s : DataLinkState) → Represents self.now s
            → map octets_in_buffer result.now ≡ unacked_messages (link_with_sapi sapi s).endpoint }
    {
        match sapi {
            Sapi::Zero => self.link0.unacked(),
            Sapi::Three => self.link3.unacked(),
        }
    }

    /// Returns the SAPI of the endpoint of the link with this SAPI: for SAPI 0 with normal establishment that is 3.
    pub fn endpoint_sapi(&self, sapi: Sapi) -> Sapi
        ensures sapi { result ≡ sapi_of (link_of sapi self.now) }
        ensures represents { (s : DataLinkState) → Represents self.now s → result ≡ (link_with_sapi sapi s).endpoint.sapi }
    {
        match sapi {
            Sapi::Zero => self.link0.endpoint_sapi(),
            Sapi::Three => self.link3.endpoint_sapi(),
        }
    }

    /// Encodes a UI frame with this SAPI, for a slot that is free.
    pub fn unit(&self, sapi: Sapi, message: &[u8]) -> Result<[u8; BLOCK_OCTETS], Refused>
        ensures refusal { (s : DataLinkState) → Represents self.now s
            → result_err result ≡ refusal_of (SendsUi message.now) (link_with_sapi sapi s).endpoint }
        ensures block { IfOk result (λ block. (s : DataLinkState) → Represents self.now s
            → block ≡ octets_of (channel_of self.now) (unit_frame sapi message.now s)) }
    {
        match sapi {
            Sapi::Zero => {
                let block = self.link0.unit(message)?;
                Ok(on_sapi0(self.link0.endpoint_sapi(), self.channel(), block))
            }
            Sapi::Three => self.link3.unit(message),
        }
    }

    /// Starts the link of this SAPI afresh (local end release): nothing is sent or reported.
    pub fn restart(&mut self, sapi: Sapi)
        ensures represents { (s : DataLinkState) → Represents self.old s
            → Represents self.new (with_link sapi (afresh (link_with_sapi sapi s)) s) }
        ensures others { link_of (other sapi) self.new ≡ link_of (other sapi) self.old }
        ensures role { role_of self.new ≡ role_of self.old }
        ensures channel { channel_of self.new ≡ channel_of self.old }
    {
        match sapi {
            Sapi::Zero => self.link0.restart(),
            Sapi::Three => self.link3.restart(),
        }
    }

    /// Returns the side of the data link.
    pub fn role(&self) -> Role
        ensures role { spec_role_of result ≡ role_of self.now }
        ensures represents { (s : DataLinkState) → Represents self.now s → spec_role_of result ≡ s.link0.endpoint.role }
    {
        self.link0.endpoint.role()
    }

    /// Returns the channel of the data link.
    pub fn channel(&self) -> Channel
        ensures channel { result ≡ channel_of self.now }
        ensures represents { (s : DataLinkState) → Represents self.now s → result ≡ s.link0.endpoint.channel }
    {
        self.link0.endpoint.channel()
    }
}

/// Returns whether this received frame took the slot of an answer on SAPI 3.
pub fn holds_up_sapi3(frame: &FrameView<'_>) -> bool
    ensures { result ≡ holds_up_sapi3 (frame_of_view frame.now) }
{
    match frame.body {
        Body::Ui { .. } => false,
        _ => frame.sapi == 0,
    }
}
