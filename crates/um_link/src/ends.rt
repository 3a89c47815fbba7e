//! The endpoints of both sides, mobile and network, for SAPI 0 and 3.

ghost use Rattle.std.specs.Prelude.{◌≡◌, OnOk, OnErr};
ghost use Rattle.std.specs.Result.{result_err};
ghost use Rattle.um_air.specs.lapdm_window.Calls.{endpoint_call_of, IsCallAllowedFor, refusal_of};
ghost use Rattle.um_air.specs.lapdm_link.Events as E;
ghost use Rattle.um_link.specs.Naming.{spec_role_of};

use crate::events::End;
use lapdm_end::{Call, Effects, Refused, Role, Sapi, Side};
use lapdm_frame::{BLOCK_OCTETS, Channel};

/// The four endpoints: two sides, each with SAPI 0 and SAPI 3.
#[derive(Drop)]
pub(crate) struct BothSides {
    mobile: Side,
    network: Side,
}

impl BothSides {
    ghost use Rattle.um_link.specs.FourEndpoints.{AreSidesOn, Represents, StepRefines, TakesBlock, channel_of_ends};

    /// Creates the four endpoints, all in state Idle.
    pub(crate) fn new_on(channel: Channel) -> BothSides
        ensures represents { Represents result (E.idle_endpoints channel) }
        ensures channel { AreSidesOn channel result }
    {
        BothSides {
            mobile: Side::new_on(Role::Mobile, channel),
            network: Side::new_on(Role::Network, channel),
        }
    }

    /// Carries out a layer 3 call to the endpoint with this side and SAPI.
    pub(crate) fn ask(
        &mut self,
        end: End,
        sapi: Sapi,
        call: &Call<'_>,
        effects: &mut Effects,
    ) -> Result<(), Refused>
        requires on { AreSidesOn (channel_of_ends self.old) self.old }
        requires call { IsCallAllowedFor (spec_role_of end) sapi (endpoint_call_of call.now) }
        ensures refusal { (es : E.BothSides) → Represents self.old es
            → result_err result ≡ refusal_of (endpoint_call_of call.now) (E.endpoint_at (spec_role_of end) sapi es) }
        ensures refines { OnOk result
            (StepRefines (channel_of_ends self.old) (E.layer3_call_step (spec_role_of end) sapi (endpoint_call_of call.now)) self.old
            effects.new self.new) }
        ensures on { AreSidesOn (channel_of_ends self.old) self.new }
        ensures refused { OnErr result (self.new ≡ self.old) }
        ensures out_unchanged { OnErr result (effects.new ≡ effects.old) }
    {
        match end {
            End::Mobile => self.mobile.call(sapi, call, effects),
            End::Network => self.network.call(sapi, call, effects),
        }
    }

    /// Passes the accepted octets of a block to a side, whose endpoint with the SAPI of their frame receives it. Returns that SAPI, or 0 if
    /// no endpoint receives a frame.
    pub(crate) fn take_block(
        &mut self,
        end: End,
        accepted: &Option<[u8; BLOCK_OCTETS]>,
        effects: &mut Effects,
    ) -> Sapi
        requires on { AreSidesOn (channel_of_ends self.old) self.old }
        ensures takes { TakesBlock (spec_role_of end) accepted.now self.old result effects.new self.new }
        ensures on { AreSidesOn (channel_of_ends self.old) self.new }
    {
        match end {
            End::Mobile => self.mobile.take_block(accepted, effects),
            End::Network => self.network.take_block(accepted, effects),
        }
    }
}
