//! A side (mobile or network): its endpoints for SAPI 0 and SAPI 3.

ghost use Rattle.std.specs.Prelude.{◌≡◌, ◌≢◌, OnOk, OnErr, Option};
ghost use Rattle.lapdm_frame.specs.AcceptedBlocks.{ReadsFrame};
ghost use Rattle.lapdm_frame.specs.Content.{Frame, frame_of_view};
ghost use Rattle.lapdm_frame.specs.Frames.{FrameFits};
ghost use Rattle.lapdm_window.specs.declared.Sapi.TheVariants as S;
ghost use Rattle.lapdm_window.specs.Calls.{endpoint_call_of, IsCallAllowedFor};
ghost use Rattle.lapdm_window.specs.Sides.{idle_side, layer3_call_step, step_for_frame, step_for_read_frame};
ghost use Rattle.lapdm_end.specs.Addresses.{spec_role_of};
ghost use Rattle.lapdm_end.specs.Abstraction.{channel_of as end_channel, role_of as end_role, sapi_of};
ghost use Rattle.lapdm_end.specs.Refinement.{RefusesAsSpecified};

use crate::Role;
use crate::ends::Endpoint;
use lapdm_frame::{BLOCK_OCTETS, Channel, FrameView, read_on};
use lapdm_window::{Call, Effects, Refused, Sapi};

/// A side: both endpoints of a mobile or of a network.
#[derive(Debug, Drop)]
pub struct Side {
    pub(crate) link0: Endpoint,
    pub(crate) link3: Endpoint,
    ghost one_role: { end_role link3 ≡ end_role link0 },
    ghost one_channel: { end_channel link3 ≡ end_channel link0 },
    ghost sapi0: { sapi_of link0 ≡ S.Zero },
    ghost sapi3: { sapi_of link3 ≡ S.Three },
}

impl Side {
    ghost use Rattle.lapdm_end.specs.Sides.{Represents, StepRefines, endpoint_of, other, channel_of, role_of};

    /// Creates a side with both endpoints in Idle.
    pub fn new_on(role: Role, channel: Channel) -> Side
        ensures represents { Represents result (idle_side (spec_role_of role) channel) }
        ensures role { role_of result ≡ spec_role_of role }
        ensures channel { channel_of result ≡ channel }
    {
        Side {
            link0: Endpoint::new_on(role, Sapi::Zero, channel),
            link3: Endpoint::new_on(role, Sapi::Three, channel),
        }
    }

    /// Carries out a layer 3 call to the endpoint with this SAPI and replaces the effects with its frames and notices. A refused call
    /// leaves the effects unchanged.
    // Inlined, as `Endpoint::call`, because most callers pass a constant call.
    #[inline(always)]
    pub fn call(
        &mut self,
        sapi: Sapi,
        call: &Call<'_>,
        effects: &mut Effects,
    ) -> Result<(), Refused>
        requires { IsCallAllowedFor (role_of self.old) sapi (endpoint_call_of call.now) }
        ensures refusal { RefusesAsSpecified (endpoint_call_of call.now) (endpoint_of sapi self.old) result }
        ensures refines { OnOk result
            (StepRefines (layer3_call_step sapi (endpoint_call_of call.now)) self.old sapi effects.new self.new) }
        ensures others { endpoint_of (other sapi) self.new ≡ endpoint_of (other sapi) self.old }
        ensures refused { OnErr result (self.new ≡ self.old) }
        ensures out_unchanged { OnErr result (effects.new ≡ effects.old) }
        ensures role { role_of self.new ≡ role_of self.old }
        ensures channel { channel_of self.new ≡ channel_of self.old }
    {
        match sapi {
            Sapi::Zero => self.link0.call(call, effects),
            Sapi::Three => self.link3.call(call, effects),
        }
    }

    /// Passes a received frame to the endpoint with the SAPI of the frame, and replaces the effects with the frames and notices of that
    /// endpoint. Returns the SAPI of the endpoint, or SAPI 0 if no endpoint has the SAPI of the frame.
    pub fn take(&mut self, frame: &FrameView<'_>, effects: &mut Effects) -> Sapi
        requires { FrameFits (channel_of self.old) (frame_of_view frame.now) }
        ensures refines { StepRefines (step_for_frame (frame_of_view frame.now)) self.old result effects.new self.new }
        ensures others { endpoint_of (other result) self.new ≡ endpoint_of (other result) self.old }
        ensures other_sapi { frame.now.sapi ≢ 0 → frame.now.sapi ≢ 3 → self.new ≡ self.old }
        ensures role { role_of self.new ≡ role_of self.old }
        ensures channel { channel_of self.new ≡ channel_of self.old }
    {
        if frame.sapi == 0 {
            self.link0.take_frame_into(frame, effects);
            return Sapi::Zero;
        }
        if frame.sapi == 3 {
            self.link3.take_frame_into(frame, effects);
            return Sapi::Three;
        }
        effects.clear();
        Sapi::Zero
    }

    /// Reads the frame in the accepted octets of a block, and passes it to the endpoint with its SAPI. Replaces the effects with the frames
    /// and notices of that endpoint. Returns its SAPI, or SAPI 0 if no endpoint receives a frame.
    pub fn take_block(
        &mut self,
        accepted: &Option<[u8; BLOCK_OCTETS]>,
        effects: &mut Effects,
    ) -> Sapi
        ensures refines { (read : Option Frame) → ReadsFrame (channel_of self.old) accepted.now read
            → StepRefines (step_for_read_frame read) self.old result effects.new self.new }
        ensures role { role_of self.new ≡ role_of self.old }
        ensures channel { channel_of self.new ≡ channel_of self.old }
    {
        effects.clear();
        let Some(octets) = accepted else {
            return Sapi::Zero;
        };
        match read_on(octets, self.link0.channel()) {
            Ok(frame) => self.take(&frame, effects),
            Err(_) => Sapi::Zero,
        }
    }
}
