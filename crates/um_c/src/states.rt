//! The state of an endpoint as numbers and arrays in the caller's memory. A call reads the state, changes it, and writes it back in place;
//! only the octets in use are copied from each message.
ghost use Rattle.std.specs.Prelude.{◌≡◌, ◌≤◌, ◌<◌, ◌↔◌, Some, None, false, length, map, IsTrue, MatchOption};
ghost use Rattle.um_air.specs.segmenting.Buffers.{octets_in_buffer};
ghost use Rattle.um_air.specs.lapdm_window.Ends.{EndpointState};
ghost use Rattle.um_air.specs.lapdm_window.Parts.{values_of_parts as window_by};
ghost use Rattle.lapdm_end.specs.Parts.{values_of, values_of_parts};
ghost use Rattle.lapdm_end.specs.Abstraction.{Represents};
ghost use Rattle.lapdm_frame.specs.Layout.{largest_n201};
ghost use Rattle.um_air.specs.segmenting.Segments.{max_message_octets, max_segments_per_message};
ghost use Rattle.um_c.specs.Plain.{channel_of};
ghost use Rattle.um_c.specs.States.{role_of, sapi_of, state_of, reassembly_from_number, window_values_from, endpoint_values_from};
ghost use Rattle.um_c.specs.States.{StructRepresents, RepresentsSomeEndpoint, IsCanonicalStruct, role_number, sapi_number, channel_number};
ghost use Rattle.um_c.specs.States.{state_number, reassembly_number, buffers_of_messages, c_endpoint};
ghost use Rattle.um_c.specs.declared.states.CEndpoint.{CEndpoint as Struct};

use crate::frames::channel_of;
use lapdm_end::{
    Endpoint, EndpointView, LapdmWindowView, MessageBuffer, ReassemblyState, Role, Sapi, State,
};
use lapdm_frame::Channel;

/// The state of one endpoint.
#[repr(C)]
#[derive(Drop)]
pub struct CEndpoint {
    /// The number of fully acknowledged messages.
    pub done: u64,
    /// The role: 0 mobile, 1 network.
    pub role: u8,
    /// The SAPI: 0 or 3.
    pub sapi: u8,
    /// The channel: 0 SDCCH, 1 SACCH.
    pub channel: u8,
    /// The state of the link: 0 idle, 1 opening, 2 open, 3 closing, 4 closed.
    pub state: u8,
    /// How often the SABM or DISC that awaits a response has been retransmitted.
    pub retries: u8,
    /// The send state variable V(S), 0 to 7.
    pub vs: u8,
    /// The acknowledge state variable V(A), 0 to 7.
    pub va: u8,
    /// The receive state variable V(R), 0 to 7.
    pub vr: u8,
    /// How often the outstanding I frame has been retransmitted.
    pub repeats: u8,
    /// The reject condition: 1 if a REJ was sent and no segment has been accepted since, otherwise 0.
    pub rejecting: u8,
    /// The index of the outstanding segment in the first held message; if none is outstanding, the index of the next segment.
    pub place: u8,
    /// The number of messages held because they are not yet fully acknowledged.
    pub held_count: u8,
    /// The state of the reassembly buffer: 0 if it holds the beginning of a message, 1 if it holds a delivered message, 2 if it is empty
    /// while the rest of an oversize message is discarded.
    pub part: u8,
    /// The information of the SABM that this endpoint sent, or of the SABM that established its link.
    pub kept: MessageBuffer,
    pub joined: MessageBuffer,
    pub held: [MessageBuffer; 8],
}

/// Law: two structs in canonical form that represent the same endpoint are equal, octet by octet.
pub fn law_equal_endpoints_have_equal_structs()
    ensures { (a b : Struct) (e : EndpointState) → StructRepresents a e → StructRepresents b e → IsCanonicalStruct a
        → IsCanonicalStruct b → a ≡ b }
{}

/// Reads the state into `end` and returns true if it represents an endpoint; otherwise returns false and leaves `end` unchanged.
pub(crate) fn read_endpoint(c_struct: &CEndpoint, end: &mut Endpoint) -> bool
    ensures decoded { IsTrue result → endpoint_values_from c_struct.now ≡ Some (values_of end.new) }
    ensures represents { IsTrue result → (e : EndpointState) → StructRepresents c_struct.now e → Represents end.new e }
    ensures valid { IsTrue result ↔ RepresentsSomeEndpoint c_struct.now }
    ensures refused { result ≡ false → end.new ≡ end.old }
{
    match endpoint_view_of(c_struct) {
        Some(parts) => end.restore(&parts),
        None => false,
    }
}

pub(crate) fn endpoint_view_of(c_struct: &CEndpoint) -> Option<EndpointView<'_>>
    ensures { MatchOption result (endpoint_values_from c_struct.now ≡ None)
        (λ parts. endpoint_values_from c_struct.now ≡ Some (values_of_parts parts)) }
{
    let role = role_of(c_struct.role)?;
    let sapi = sapi_of(c_struct.sapi)?;
    let state = state_of(c_struct.state)?;
    let window = window_view_of(c_struct)?;
    Some(EndpointView {
        role,
        sapi,
        state,
        sabm_info: c_struct.kept.octets(),
        retries: c_struct.retries,
        window,
    })
}

fn window_view_of(c_struct: &CEndpoint) -> Option<LapdmWindowView<'_>>
    ensures { MatchOption result (window_values_from c_struct.now ≡ None)
        (λ parts. window_values_from c_struct.now ≡ Some (window_by parts)) }
{
    let channel = channel_of(c_struct.channel)?;
    let part = reassembly_from_number(c_struct.part)?;
    if c_struct.held_count > 8 {
        return None;
    }
    Some(LapdmWindowView {
        channel,
        held: &c_struct.held[..usize::from(c_struct.held_count)],
        segment_index: usize::from(c_struct.place),
        vs: c_struct.vs,
        va: c_struct.va,
        vr: c_struct.vr,
        acked_messages: c_struct.done,
        rejecting: c_struct.rejecting != 0,
        retries: c_struct.repeats,
        reassembly: c_struct.joined.octets(),
        part,
    })
}

pub(crate) fn role_of(number: u8) -> Option<Role>
    ensures { result ≡ role_of number }
{
    match number {
        0 => Some(Role::Mobile),
        1 => Some(Role::Network),
        _ => None,
    }
}

pub(crate) fn sapi_of(number: u8) -> Option<Sapi>
    ensures { result ≡ sapi_of number }
{
    match number {
        0 => Some(Sapi::Zero),
        3 => Some(Sapi::Three),
        _ => None,
    }
}

fn state_of(number: u8) -> Option<State>
    ensures { result ≡ state_of number }
{
    match number {
        0 => Some(State::Idle),
        1 => Some(State::Opening),
        2 => Some(State::Open),
        3 => Some(State::Closing),
        4 => Some(State::Closed),
        _ => None,
    }
}

fn reassembly_from_number(number: u8) -> Option<ReassemblyState>
    ensures { result ≡ reassembly_from_number number }
{
    match number {
        0 => Some(ReassemblyState::Open),
        1 => Some(ReassemblyState::Whole),
        2 => Some(ReassemblyState::Discarding),
        _ => None,
    }
}

pub(crate) fn write_endpoint(endpoint: &Endpoint, c_struct: &mut CEndpoint)
    ensures { c_struct.new ≡ c_endpoint (values_of endpoint.now) }
{
    write_endpoint_view(&endpoint.parts(), c_struct);
}

pub(crate) fn write_endpoint_view(parts: &EndpointView<'_>, c_struct: &mut CEndpoint)
    requires size { length parts.now.window.held.now ≤ 8 }
    requires sabm_info { length parts.now.sabm_info.now ≤ largest_n201 }
    requires place { parts.now.window.segment_index < max_segments_per_message parts.now.window.channel }
    requires most { length parts.now.window.reassembly.now ≤ max_message_octets }
    ensures { c_struct.new ≡ c_endpoint (values_of_parts parts.now) }
{
    let window = parts.window;
    c_struct.done = window.acked_messages;
    c_struct.role = role_number(parts.role);
    c_struct.sapi = sapi_number(parts.sapi);
    c_struct.channel = channel_number(window.channel);
    c_struct.state = state_number(parts.state);
    c_struct.retries = parts.retries;
    c_struct.vs = window.vs;
    c_struct.va = window.va;
    c_struct.vr = window.vr;
    c_struct.repeats = window.retries;
    c_struct.rejecting = u8::from(window.rejecting);
    c_struct.place = window.segment_index as u8;
    c_struct.held_count = window.held.len() as u8;
    c_struct.part = reassembly_number(window.part);
    c_struct.kept.write(parts.sabm_info);
    c_struct.joined.write(window.reassembly);
    write_buffers(window.held, &mut c_struct.held);
}

/// Writes these messages to the array, and fills the rest of it with empty messages, so that equal endpoints have equal structs.
fn write_buffers(messages: &[MessageBuffer], buffers: &mut [MessageBuffer; 8])
    requires { length messages.now ≤ 8 }
    ensures { buffers.new ≡ buffers_of_messages 8 (map octets_in_buffer messages.now) }
{
    *buffers = [MessageBuffer::empty(); 8];
    for (i, message) in messages.iter().enumerate() {
        buffers[i].write(message.octets());
    }
}

fn role_number(role: Role) -> u8
    ensures { result ≡ role_number role }
{
    role as u8
}

fn sapi_number(sapi: Sapi) -> u8
    ensures { result ≡ sapi_number sapi }
{
    match sapi {
        Sapi::Zero => 0,
        Sapi::Three => 3,
    }
}

fn channel_number(channel: Channel) -> u8
    ensures { result ≡ channel_number channel }
{
    channel as u8
}

fn state_number(state: State) -> u8
    ensures { result ≡ state_number state }
{
    state as u8
}

fn reassembly_number(reassembly: ReassemblyState) -> u8
    ensures { result ≡ reassembly_number reassembly }
{
    reassembly as u8
}
