//! Exports the state of an endpoint as plain data, and restores an endpoint from it.

ghost use Rattle.std.specs.Prelude.{◌≡◌, ◌↔◌, ◌<◌, ◌≤◌, [], false, length, IsTrue, IsSome, IfSome};
ghost use Rattle.lapdm_frame.specs.Layout.{n201, largest_n201};
ghost use Rattle.lapdm_window.specs.segmenting.Joiners.{HoldsReassemblyOf};
ghost use Rattle.lapdm_window.specs.segmenting.Segments.{max_message_octets, max_segments_per_message};
ghost use Rattle.lapdm_window.specs.Ends.{EndpointState, IsPossibleSabmInfo, awaits_answer, awaits_answer_in_state};
ghost use Rattle.lapdm_window.specs.Parts.{values_of_parts as window_by};
ghost use Rattle.lapdm_end.specs.Addresses.{spec_role_of};
ghost use Rattle.lapdm_end.specs.Parts.{values_of, values_of_parts, ValuesRepresent, SomeEndpointHasValues, IsInitialWindow};
ghost use Rattle.lapdm_end.specs.Parts.{IsWindowInitialBeforeOpen, HasNoRepeats, AreConsistent};
ghost use Rattle.lapdm_end.specs.Abstraction.{Represents, channel_of, role_of};

use crate::Role;
use crate::ends::Endpoint;
use crate::link::Address;
use lapdm_frame::Channel;
use lapdm_window::{LapdmWindowView, ReassemblyState, Sapi, State};

/// The state of an endpoint as plain data, with borrowed messages and octets. The endpoint has the channel of its window.
#[derive(Clone, Copy, Debug)]
pub struct EndpointView<'a> {
    pub role: Role,
    pub sapi: Sapi,
    pub state: State,
    /// The information of the SABM that this endpoint sent, or of the SABM that established its link.
    pub sabm_info: &'a [u8],
    /// How many times the SABM or DISC that awaits a response has been repeated.
    pub retries: u8,
    pub window: LapdmWindowView<'a>,
}

impl EndpointView<'_> {
    // Returns whether an endpoint can have this state, given that a window can have the state in `window`.
    fn are_consistent(&self) -> bool
        ensures { IsTrue result ↔ AreConsistent (values_of_parts self.now) }
    {
        self.sabm_info.len() <= self.window.channel.n201()
            && self.has_possible_sabm_information()
            && self.mobile_opens_sapi0()
            && has_no_repeats(self.state, self.retries, self.window.retries)
            && is_window_initial_before_open(self.state, &self.window)
    }

    /// Returns whether some endpoint has this state.
    pub fn is_endpoint(&self) -> bool
        ensures { IsTrue result ↔ SomeEndpointHasValues (values_of_parts self.now) }
    {
        self.are_consistent() && self.window.is_window()
    }

    /// Returns whether a frame awaits an answer: the SABM, the DISC, or an I frame.
    pub fn awaits_answer(&self) -> bool
        ensures { (e : EndpointState) → ValuesRepresent (values_of_parts self.now) e → result ≡ awaits_answer e }
    {
        awaits_answer_in_state(self.state, self.window.vs != self.window.va)
    }

    fn has_possible_sabm_information(&self) -> bool
        ensures { IsTrue result ↔ IsPossibleSabmInfo self.now.state self.now.sapi self.now.sabm_info.now }
    {
        match (self.state, self.sapi) {
            (State::Idle, _) | (_, Sapi::Three) => self.sabm_info.is_empty(),
            (_, Sapi::Zero) => !self.sabm_info.is_empty(),
        }
    }

    fn mobile_opens_sapi0(&self) -> bool
        ensures { IsTrue result ↔ (self.now.state ≡ State.Opening → self.now.sapi ≡ Sapi.Zero → self.now.role ≡ Role.Mobile) }
    {
        match (self.state, self.sapi, self.role) {
            (State::Opening, Sapi::Zero, Role::Network) => false,
            _ => true,
        }
    }
}

fn awaits_answer_in_state(state: State, is_waiting: bool) -> bool
    ensures { result ≡ awaits_answer_in_state state is_waiting }
{
    match state {
        State::Idle | State::Closed => false,
        State::Opening | State::Closing => true,
        State::Open => is_waiting,
    }
}

// A count that nothing uses must be 0, so that an endpoint has only one state as plain data.
fn has_no_repeats(state: State, retries: u8, segment_repeats: u8) -> bool
    ensures { IsTrue result ↔ HasNoRepeats state retries segment_repeats }
{
    match state {
        State::Opening | State::Closing => segment_repeats == 0,
        State::Open => retries == 0,
        State::Idle | State::Closed => retries == 0 && segment_repeats == 0,
    }
}

fn is_window_initial_before_open(state: State, window: &LapdmWindowView<'_>) -> bool
    ensures { IsTrue result ↔ IsWindowInitialBeforeOpen state (window_by window.now) }
{
    match state {
        State::Idle | State::Opening => is_initial_window(window),
        State::Open | State::Closing | State::Closed => true,
    }
}

fn is_initial_window(window: &LapdmWindowView<'_>) -> bool
    ensures { IsTrue result ↔ IsInitialWindow (window_by window.now) }
{
    window.held.is_empty()
        && window.vs == 0
        && window.va == 0
        && window.vr == 0
        && window.acked_messages == 0
        && has_reassembled_nothing(window.part, window.reassembly)
}

fn has_reassembled_nothing(reassembly: ReassemblyState, octets: &[u8]) -> bool
    ensures { IsTrue result ↔ HoldsReassemblyOf reassembly octets.now [] }
{
    match reassembly {
        ReassemblyState::Open => octets.is_empty(),
        ReassemblyState::Whole | ReassemblyState::Discarding => false,
    }
}

impl Endpoint {
    pub fn role(&self) -> Role
        ensures role { spec_role_of result ≡ role_of self.now }
        ensures represents { (e : EndpointState) → Represents self.now e → spec_role_of result ≡ e.role }
    {
        self.address.role
    }

    pub fn channel(&self) -> Channel
        ensures channel { result ≡ channel_of self.now }
        ensures represents { (e : EndpointState) → Represents self.now e → result ≡ e.channel }
    {
        self.address.channel
    }

    pub fn parts(&self) -> EndpointView<'_>
        ensures values { values_of_parts result ≡ values_of self.now }
        ensures sabm_info { length result.sabm_info.now ≤ largest_n201 }
        ensures size { length result.window.held.now ≤ 8 }
        ensures place { result.window.segment_index < max_segments_per_message result.window.channel }
        ensures most { length result.window.reassembly.now ≤ max_message_octets }
    {
        EndpointView {
            role: self.address.role,
            sapi: self.address.sapi,
            state: self.state,
            sabm_info: self.sabm_info.octets(),
            retries: self.retries,
            window: self.window.parts(),
        }
    }

    /// Restores an endpoint from its state. Returns false and changes nothing if no endpoint can have this state. A C program keeps the
    /// state as plain data, because a pointer into the library's memory would have to be trusted.
    pub fn restore(&mut self, parts: &EndpointView<'_>) -> bool
        ensures same { IsTrue result → values_of self.new ≡ values_of_parts parts.now }
        ensures represents { IsTrue result → (e : EndpointState) → ValuesRepresent (values_of_parts parts.now) e
            → Represents self.new e }
        ensures valid { IsTrue result ↔ SomeEndpointHasValues (values_of_parts parts.now) }
        ensures refused { result ≡ false → self.new ≡ self.old }
    {
        // The window is tested last, because its test also restores it.
        if !parts.are_consistent() || !self.window.restore(&parts.window) {
            return false;
        }
        self.address = Address {
            role: parts.role,
            sapi: parts.sapi,
            channel: parts.window.channel,
        };
        self.state = parts.state;
        self.sabm_info.write(parts.sabm_info);
        self.retries = parts.retries;
        true
    }

    /// Returns the endpoint with this state, or `None` if no endpoint can have it.
    pub fn from_parts(parts: &EndpointView<'_>) -> Option<Endpoint>
        ensures same { IfSome result (λ end. values_of end ≡ values_of_parts parts.now) }
        ensures represents { IfSome result
            (λ end. (e : EndpointState) → ValuesRepresent (values_of_parts parts.now) e → Represents end e) }
        ensures valid { IsSome result ↔ SomeEndpointHasValues (values_of_parts parts.now) }
    {
        let mut end = Endpoint::new_on(parts.role, parts.sapi, parts.window.channel);
        if end.restore(parts) { Some(end) } else { None }
    }
}
