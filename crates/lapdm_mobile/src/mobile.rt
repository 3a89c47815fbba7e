//! The calls of the mobile's endpoint.

ghost use Rattle.std.specs.Prelude.{◌≡◌, IfOk, OnErr};
ghost use Rattle.lapdm_end.specs.lapdm_frame.declared.Channel.TheVariants as C;
ghost use Rattle.lapdm_end.specs.lapdm_frame.Content.{frame_of_view};
ghost use Rattle.lapdm_end.specs.lapdm_frame.Frames.{FrameFits};
ghost use Rattle.lapdm_end.specs.lapdm_window.declared.Sapi.TheVariants as S;
ghost use Rattle.lapdm_end.specs.lapdm_window.Ends.{EndpointState, initial_endpoint};
ghost use Rattle.lapdm_end.specs.lapdm_window.Ends as E;
ghost use Rattle.lapdm_end.specs.lapdm_window.Calls.{call_outcome, Opens, OpensWithoutInfo, Sends, SendsUi, Closes, T200Expires};
ghost use Rattle.lapdm_end.specs.lapdm_window.Calls.{SendsFillFrame};
ghost use Rattle.lapdm_end.specs.lapdm_window.Tables.{frame_outcome};
ghost use Rattle.lapdm_end.specs.Abstraction.{Represents, role_of, sapi_of, channel_of};
ghost use Rattle.lapdm_end.specs.Refinement.{StepRefines, RefusesAsSpecified};

use lapdm_end::{Call, Channel, Effects, Endpoint, FrameView, Refused, Role, Sapi, State};

/// The mobile's endpoint of a data link. A refused call changes nothing.
#[derive(Debug, Drop)]
pub struct Mobile {
    pub(crate) endpoint: Endpoint,
    ghost role: { role_of endpoint ≡ E.Mobile },
}

impl Mobile {
    ghost use Rattle.lapdm_mobile.specs.Ends.{endpoint_of};

    /// Creates an endpoint in Idle, for SAPI 0 on SDCCH.
    pub fn new() -> Mobile
        ensures represents { Represents (endpoint_of result) (initial_endpoint E.Mobile S.Zero C.Sdcch) }
        ensures sapi { sapi_of (endpoint_of result) ≡ S.Zero }
        ensures channel { channel_of (endpoint_of result) ≡ C.Sdcch }
    {
        Mobile::new_on(Sapi::Zero, Channel::Sdcch)
    }

    /// Creates an endpoint in Idle, for this SAPI on SDCCH.
    pub fn with_sapi(sapi: Sapi) -> Mobile
        ensures represents { Represents (endpoint_of result) (initial_endpoint E.Mobile sapi C.Sdcch) }
        ensures sapi { sapi_of (endpoint_of result) ≡ sapi }
        ensures channel { channel_of (endpoint_of result) ≡ C.Sdcch }
    {
        Mobile::new_on(sapi, Channel::Sdcch)
    }

    /// Creates an endpoint in Idle, for this SAPI on this channel.
    pub fn new_on(sapi: Sapi, channel: Channel) -> Mobile
        ensures represents { Represents (endpoint_of result) (initial_endpoint E.Mobile sapi channel) }
        ensures sapi { sapi_of (endpoint_of result) ≡ sapi }
        ensures channel { channel_of (endpoint_of result) ≡ channel }
    {
        Mobile {
            endpoint: Endpoint::new_on(Role::Mobile, sapi, channel),
        }
    }

    pub fn sapi(&self) -> Sapi
        ensures sapi { result ≡ sapi_of (endpoint_of self.now) }
        ensures represents { (e : EndpointState) → Represents (endpoint_of self.now) e → result ≡ e.sapi }
    {
        self.endpoint.sapi()
    }

    pub fn state(&self) -> State
        ensures { (e : EndpointState) → Represents (endpoint_of self.now) e → result ≡ e.state }
    {
        self.endpoint.state()
    }

    /// Begins to establish the link of SAPI 0: sends a SABM with this information, 1 to N201 octets. Refusals: `NotIdle`, `Empty`,
    /// `TooLong`.
    pub fn open(&mut self, info: &[u8]) -> Result<Effects, Refused>
        requires { sapi_of (endpoint_of self.old) ≡ S.Zero }
        ensures refusal { RefusesAsSpecified (Opens info.now) (endpoint_of self.old) result }
        ensures refines { IfOk result
            (λ effects. StepRefines (call_outcome (Opens info.now)) (endpoint_of self.old) effects
            (endpoint_of self.new)) }
        ensures refused { OnErr result (self.new ≡ self.old) }
        ensures sapi { sapi_of (endpoint_of self.new) ≡ sapi_of (endpoint_of self.old) }
        ensures channel { channel_of (endpoint_of self.new) ≡ channel_of (endpoint_of self.old) }
    {
        self.endpoint.call_returning_effects(&Call::Open(info))
    }

    /// Begins to establish the link of SAPI 3: sends a SABM without information. Refusal: `NotIdle`.
    pub fn open_bare(&mut self) -> Result<Effects, Refused>
        requires { sapi_of (endpoint_of self.old) ≡ S.Three }
        ensures refusal { RefusesAsSpecified OpensWithoutInfo (endpoint_of self.old) result }
        ensures refines { IfOk result
            (λ effects. StepRefines (call_outcome OpensWithoutInfo)
            (endpoint_of self.old) effects (endpoint_of self.new)) }
        ensures refused { OnErr result (self.new ≡ self.old) }
        ensures sapi { sapi_of (endpoint_of self.new) ≡ sapi_of (endpoint_of self.old) }
        ensures channel { channel_of (endpoint_of self.new) ≡ channel_of (endpoint_of self.old) }
    {
        self.endpoint.call_returning_effects(&Call::OpenBare)
    }

    /// Sends a message of 1 to 251 octets in I frames, which the network acknowledges. Refusals: `NotOpen`, `Empty`, `TooLong`, `Full`.
    pub fn send(&mut self, message: &[u8]) -> Result<Effects, Refused>
        ensures refusal { RefusesAsSpecified (Sends message.now) (endpoint_of self.old) result }
        ensures refines { IfOk result
            (λ effects. StepRefines (call_outcome (Sends message.now)) (endpoint_of self.old) effects
            (endpoint_of self.new)) }
        ensures refused { OnErr result (self.new ≡ self.old) }
        ensures sapi { sapi_of (endpoint_of self.new) ≡ sapi_of (endpoint_of self.old) }
        ensures channel { channel_of (endpoint_of self.new) ≡ channel_of (endpoint_of self.old) }
    {
        self.endpoint.call_returning_effects(&Call::Send(message))
    }

    /// Sends a message of 1 to N201 octets in one UI frame, which is not acknowledged. Refusals: `Empty`, `TooLong`.
    pub fn unit(&mut self, message: &[u8]) -> Result<Effects, Refused>
        ensures refusal { RefusesAsSpecified (SendsUi message.now) (endpoint_of self.old) result }
        ensures refines { IfOk result
            (λ effects. StepRefines (call_outcome (SendsUi message.now)) (endpoint_of self.old) effects
            (endpoint_of self.new)) }
        ensures refused { OnErr result (self.new ≡ self.old) }
        ensures sapi { sapi_of (endpoint_of self.new) ≡ sapi_of (endpoint_of self.old) }
        ensures channel { channel_of (endpoint_of self.new) ≡ channel_of (endpoint_of self.old) }
    {
        self.endpoint.call_returning_effects(&Call::Unit(message))
    }

    /// Begins to release the link: sends a DISC. Unacknowledged messages are discarded. Refusal: `NotOpen`.
    pub fn close(&mut self) -> Result<Effects, Refused>
        ensures refusal { RefusesAsSpecified Closes (endpoint_of self.old) result }
        ensures refines { IfOk result
            (λ effects. StepRefines (call_outcome Closes) (endpoint_of self.old) effects (endpoint_of self.new)) }
        ensures refused { OnErr result (self.new ≡ self.old) }
        ensures sapi { sapi_of (endpoint_of self.new) ≡ sapi_of (endpoint_of self.old) }
        ensures channel { channel_of (endpoint_of self.new) ≡ channel_of (endpoint_of self.old) }
    {
        self.endpoint.call_returning_effects(&Call::Close)
    }

    /// Handles T200 expiry: repeats the frame that awaits an answer or, if it was already repeated N200 times, closes the link. Refusal:
    /// `NotRunning`.
    pub fn timer(&mut self) -> Result<Effects, Refused>
        ensures refusal { RefusesAsSpecified T200Expires (endpoint_of self.old) result }
        ensures refines { IfOk result
            (λ effects. StepRefines (call_outcome T200Expires) (endpoint_of self.old) effects (endpoint_of self.new)) }
        ensures refused { OnErr result (self.new ≡ self.old) }
        ensures sapi { sapi_of (endpoint_of self.new) ≡ sapi_of (endpoint_of self.old) }
        ensures channel { channel_of (endpoint_of self.new) ≡ channel_of (endpoint_of self.old) }
    {
        self.endpoint.call_returning_effects(&Call::Timer)
    }

    /// Sends the fill frame, for use when there is nothing else to send in a block.
    pub fn idle(&self) -> Effects
        ensures { StepRefines (call_outcome SendsFillFrame) (endpoint_of self.now) result (endpoint_of self.now) }
    {
        self.endpoint.idle()
    }

    /// Processes a received frame, and returns the frames that the mobile sends and the notices that it reports.
    pub fn take(&mut self, frame: &FrameView<'_>) -> Effects
        requires { FrameFits (channel_of (endpoint_of self.old)) (frame_of_view frame.now) }
        ensures refines { StepRefines (frame_outcome (frame_of_view frame.now)) (endpoint_of self.old) result
            (endpoint_of self.new) }
        ensures sapi { sapi_of (endpoint_of self.new) ≡ sapi_of (endpoint_of self.old) }
        ensures channel { channel_of (endpoint_of self.new) ≡ channel_of (endpoint_of self.old) }
    {
        self.endpoint.take(frame)
    }
}
