//! An endpoint, with one function for each call. A refused call changes nothing.

ghost use Rattle.std.specs.Prelude.{◌≡◌, ◌≢◌, ◌≤◌, length};
ghost use Rattle.lapdm_frame.specs.Layout.{n201};
ghost use Rattle.lapdm_window.specs.Abstraction.{channel_of as window_channel};

use crate::Role;
use crate::link::Address;
use lapdm_frame::{Body, Channel};
use lapdm_window::{Effects, Message, Reason, Refused, Sapi, State, Timer, Window, n200};

/// An endpoint of a data link.
#[derive(Debug, Drop)]
pub struct Endpoint {
    // The large fields come first, so that a new endpoint is one fill of memory.
    pub(crate) window: Window,
    // The information of the SABM that this endpoint sent, or of the SABM that established its link.
    pub(crate) sabm_info: Message,
    pub(crate) address: Address,
    pub(crate) state: State,
    // How many times the SABM or DISC that awaits a response has been repeated.
    pub(crate) retries: u8,
    ghost one_channel: { window_channel window ≡ address.channel },
    ghost sabm_info_fits: { length sabm_info ≤ n201 address.channel },
}

impl Endpoint {
    ghost use Rattle.std.specs.Prelude.{[], ◌∷◌, OnErr, OnOk, IfNone};
    ghost use Rattle.lapdm_frame.specs.Frames.{octets_of};
    ghost use Rattle.lapdm_window.specs.declared.State.TheVariants as S;
    ghost use Rattle.lapdm_window.specs.Ends.{EndpointState, Mobile, IsPossibleSabmInfo, initial_endpoint};
    ghost use Rattle.lapdm_window.specs.Calls.{first_refusal, single_frame_refusal_checks, call_outcome, sends_sabm, sabm, disc};
    ghost use Rattle.lapdm_window.specs.Calls.{t200_expiry, Opens, OpensWithoutInfo, Sends, SendsUi, Closes, T200Expires, SendsFillFrame};
    ghost use Rattle.lapdm_window.specs.Tables.{closes_and_reports};
    ghost use Rattle.lapdm_end.specs.Addresses.{spec_role_of};
    ghost use Rattle.lapdm_end.specs.Abstraction.{Represents, channel_of, role_of, sapi_of, state_of};
    ghost use Rattle.lapdm_end.specs.Refinement.{StepRefines, RefusesAsSpecified};

    /// Creates an endpoint in Idle, with this role, SAPI and channel.
    pub fn new_on(role: Role, sapi: Sapi, channel: Channel) -> Endpoint
        ensures represents { Represents result (initial_endpoint (spec_role_of role) sapi channel) }
        ensures role { role_of result ≡ spec_role_of role }
        ensures sapi { sapi_of result ≡ sapi }
        ensures channel { channel_of result ≡ channel }
    {
        Endpoint {
            window: Window::new_on(channel),
            sabm_info: Message::new(&[]),
            address: Address {
                role,
                sapi,
                channel,
            },
            state: State::Idle,
            retries: 0,
        }
    }

    pub fn sapi(&self) -> Sapi
        ensures sapi { result ≡ sapi_of self.now }
        ensures represents { (e : EndpointState) → Represents self.now e → result ≡ e.sapi }
    {
        self.address.sapi
    }

    pub fn state(&self) -> State
        ensures { (e : EndpointState) → Represents self.now e → result ≡ e.state }
    {
        self.state
    }

    /// Begins to establish the link: sends a SABM with this information.
    pub(crate) fn open_into(&mut self, info: &[u8], effects: &mut Effects) -> Result<(), Refused>
        requires sapi { sapi_of self.old ≡ Sapi.Zero }
        requires role { role_of self.old ≡ Mobile }
        ensures refusal { RefusesAsSpecified (Opens info.now) self.old result }
        ensures refines { OnOk result
            (StepRefines (call_outcome (Opens info.now)) self.old effects.new self.new) }
        ensures refused { OnErr result (self.new ≡ self.old) }
        ensures out_unchanged { OnErr result (effects.new ≡ effects.old) }
        ensures role { role_of self.new ≡ role_of self.old }
        ensures sapi { sapi_of self.new ≡ sapi_of self.old }
        ensures channel { channel_of self.new ≡ channel_of self.old }
    {
        if self.state != State::Idle {
            return Err(Refused::NotIdle);
        }
        if let Some(refusal) = self.single_frame_refusal(info) {
            return Err(refusal);
        }
        self.begin_establishment(info, effects);
        Ok(())
    }

    /// Begins to establish the link: sends a SABM without information.
    pub(crate) fn open_without_info_into(&mut self, effects: &mut Effects) -> Result<(), Refused>
        requires { sapi_of self.old ≡ Sapi.Three }
        ensures refusal { RefusesAsSpecified OpensWithoutInfo self.old result }
        ensures refines { OnOk result
            (StepRefines (call_outcome OpensWithoutInfo) self.old effects.new self.new) }
        ensures refused { OnErr result (self.new ≡ self.old) }
        ensures out_unchanged { OnErr result (effects.new ≡ effects.old) }
        ensures role { role_of self.new ≡ role_of self.old }
        ensures sapi { sapi_of self.new ≡ sapi_of self.old }
        ensures channel { channel_of self.new ≡ channel_of self.old }
    {
        if self.state != State::Idle {
            return Err(Refused::NotIdle);
        }
        self.begin_establishment(&[], effects);
        Ok(())
    }

    /// Sends a message in I frames, which the other endpoint acknowledges.
    pub(crate) fn send_into(&mut self, message: &[u8], effects: &mut Effects) -> Result<(), Refused>
        ensures refusal { RefusesAsSpecified (Sends message.now) self.old result }
        ensures refines { OnOk result
            (StepRefines (call_outcome (Sends message.now)) self.old effects.new self.new) }
        ensures refused { OnErr result (self.new ≡ self.old) }
        ensures out_unchanged { OnErr result (effects.new ≡ effects.old) }
        ensures role { role_of self.new ≡ role_of self.old }
        ensures sapi { sapi_of self.new ≡ sapi_of self.old }
        ensures channel { channel_of self.new ≡ channel_of self.old }
    {
        if self.state != State::Open {
            return Err(Refused::NotOpen);
        }
        if let Err(refusal) = self.window.put(message) {
            return Err(refusal);
        }
        effects.clear();
        self.address.send_next(&mut self.window, effects);
        Ok(())
    }

    /// Sends a message in one UI frame, which is not acknowledged.
    pub(crate) fn send_ui_into(
        &mut self,
        message: &[u8],
        effects: &mut Effects,
    ) -> Result<(), Refused>
        ensures refusal { RefusesAsSpecified (SendsUi message.now) self.old result }
        ensures refines { OnOk result
            (StepRefines (call_outcome (SendsUi message.now)) self.old effects.new self.new) }
        ensures unchanged { self.new ≡ self.old }
        ensures out_unchanged { OnErr result (effects.new ≡ effects.old) }
    {
        if let Some(refusal) = self.single_frame_refusal(message) {
            return Err(refusal);
        }
        let body = Body::Ui {
            p: false,
            info: message,
        };
        self.address.send_only_command(body, effects);
        Ok(())
    }

    /// Begins to release the link: sends a DISC. Unacknowledged messages are discarded.
    pub(crate) fn close_into(&mut self, effects: &mut Effects) -> Result<(), Refused>
        ensures refusal { RefusesAsSpecified Closes self.old result }
        ensures refines { OnOk result
            (StepRefines (call_outcome Closes) self.old effects.new self.new) }
        ensures refused { OnErr result (self.new ≡ self.old) }
        ensures out_unchanged { OnErr result (effects.new ≡ effects.old) }
        ensures role { role_of self.new ≡ role_of self.old }
        ensures sapi { sapi_of self.new ≡ sapi_of self.old }
        ensures channel { channel_of self.new ≡ channel_of self.old }
    {
        if self.state != State::Open {
            return Err(Refused::NotOpen);
        }
        self.state = State::Closing;
        self.retries = 0;
        self.window.stop_repeating();
        self.send_disc(effects);
        Ok(())
    }

    /// Handles T200 expiry: repeats the frame that awaits an answer or, if it was already repeated N200 times, closes the link.
    pub(crate) fn handle_t200_expiry_into(&mut self, effects: &mut Effects) -> Result<(), Refused>
        ensures refusal { RefusesAsSpecified T200Expires self.old result }
        ensures refines { OnOk result
            (StepRefines (call_outcome T200Expires) self.old effects.new self.new) }
        ensures refused { OnErr result (self.new ≡ self.old) }
        ensures out_unchanged { OnErr result (effects.new ≡ effects.old) }
        ensures role { role_of self.new ≡ role_of self.old }
        ensures sapi { sapi_of self.new ≡ sapi_of self.old }
        ensures channel { channel_of self.new ≡ channel_of self.old }
    {
        match self.state {
            State::Idle | State::Closed => Err(Refused::NotRunning),
            State::Opening => {
                self.t200_expiry_in_opening(effects);
                Ok(())
            }
            State::Closing => {
                self.t200_expiry_in_closing(effects);
                Ok(())
            }
            State::Open => self.t200_expiry_in_open(effects),
        }
    }

    /// Sends the fill frame, for use when there is nothing else to send in a block. Replaces the effects with this frame.
    pub fn send_fill_frame_into(&self, effects: &mut Effects)
        ensures { StepRefines (call_outcome SendsFillFrame) self.now effects.new self.now }
    {
        self.address.send_only_fill_frame(effects);
    }

    pub(crate) fn single_frame_refusal(&self, message: &[u8]) -> Option<Refused>
        ensures refusal { (e : EndpointState) → Represents self.now e
            → result ≡ first_refusal (single_frame_refusal_checks message.now e) }
        ensures some { IfNone result (1 ≤ length message.now) }
        ensures fits { IfNone result (length message.now ≤ n201 (channel_of self.now)) }
    {
        if message.is_empty() {
            return Some(Refused::Empty);
        }
        if message.len() > self.address.channel.n201() {
            return Some(Refused::TooLong);
        }
        None
    }

    fn begin_establishment(&mut self, info: &[u8], effects: &mut Effects)
        requires idle { state_of self.old ≡ S.Idle }
        requires fits { length info.now ≤ n201 (channel_of self.old) }
        requires possible { IsPossibleSabmInfo S.Opening (sapi_of self.old) info.now }
        requires mobile_opens_sapi0 { sapi_of self.old ≡ Sapi.Zero → role_of self.old ≡ Mobile }
        ensures refines { StepRefines (sends_sabm info.now) self.old effects.new self.new }
        ensures role { role_of self.new ≡ role_of self.old }
        ensures sapi { sapi_of self.new ≡ sapi_of self.old }
        ensures channel { channel_of self.new ≡ channel_of self.old }
    {
        self.state = State::Opening;
        self.sabm_info = Message::new(info);
        self.retries = 0;
        self.send_sabm(effects);
    }

    fn send_sabm(&self, effects: &mut Effects)
        ensures frames { (e : EndpointState) → Represents self.now e
            → effects.new.frames ≡ octets_of e.channel (sabm e) ∷ [] }
        ensures notices { effects.new.notices ≡ [] }
    {
        let body = Body::Sabm {
            p: true,
            info: self.sabm_info.octets(),
        };
        self.address.send_only_command(body, effects);
    }

    fn send_disc(&self, effects: &mut Effects)
        ensures frames { (e : EndpointState) → Represents self.now e
            → effects.new.frames ≡ octets_of e.channel (disc e) ∷ [] }
        ensures notices { effects.new.notices ≡ [] }
    {
        self.address
            .send_only_command(Body::Disc { p: true }, effects);
    }

    fn close_and_report_into(&mut self, reason: Reason, effects: &mut Effects)
        requires { state_of self.old ≢ S.Idle }
        ensures refines { StepRefines (closes_and_reports reason) self.old effects.new self.new }
        ensures role { role_of self.new ≡ role_of self.old }
        ensures sapi { sapi_of self.new ≡ sapi_of self.old }
        ensures channel { channel_of self.new ≡ channel_of self.old }
    {
        effects.clear();
        self.close_and_report(reason, effects);
    }

    fn t200_expiry_in_opening(&mut self, effects: &mut Effects)
        requires opening { state_of self.old ≡ S.Opening }
        ensures refines { StepRefines t200_expiry self.old effects.new self.new }
        ensures role { role_of self.new ≡ role_of self.old }
        ensures sapi { sapi_of self.new ≡ sapi_of self.old }
        ensures channel { channel_of self.new ≡ channel_of self.old }
    {
        if self.retries >= n200(self.address.channel, State::Opening) {
            self.close_and_report_into(Reason::Failed, effects);
            return;
        }
        self.retries += 1;
        self.send_sabm(effects);
    }

    fn t200_expiry_in_closing(&mut self, effects: &mut Effects)
        requires closing { state_of self.old ≡ S.Closing }
        ensures refines { StepRefines t200_expiry self.old effects.new self.new }
        ensures role { role_of self.new ≡ role_of self.old }
        ensures sapi { sapi_of self.new ≡ sapi_of self.old }
        ensures channel { channel_of self.new ≡ channel_of self.old }
    {
        if self.retries >= n200(self.address.channel, State::Closing) {
            self.close_and_report_into(Reason::Failed, effects);
            return;
        }
        self.retries += 1;
        self.send_disc(effects);
    }

    fn t200_expiry_in_open(&mut self, effects: &mut Effects) -> Result<(), Refused>
        requires open { state_of self.old ≡ S.Open }
        ensures refusal { RefusesAsSpecified T200Expires self.old result }
        ensures refines { OnOk result (StepRefines t200_expiry self.old effects.new self.new) }
        ensures refused { OnErr result (self.new ≡ self.old) }
        ensures out_unchanged { OnErr result (effects.new ≡ effects.old) }
        ensures role { role_of self.new ≡ role_of self.old }
        ensures sapi { sapi_of self.new ≡ sapi_of self.old }
        ensures channel { channel_of self.new ≡ channel_of self.old }
    {
        match self.window.on_timer() {
            Timer::NotRunning => Err(Refused::NotRunning),
            Timer::Spent => {
                self.close_and_report_into(Reason::Failed, effects);
                Ok(())
            }
            Timer::Again => {
                effects.clear();
                self.address
                    .send_outstanding_segment(true, &self.window, effects);
                Ok(())
            }
        }
    }
}
