//! C functions for one endpoint, whose state the caller holds.
//!
//! Each function creates the buffer for its effects before it creates the endpoint, so that the compiler fills the buffer with zeros only
//! once.
ghost use Rattle.std.specs.Prelude.{◌≡◌, false, OnOk, IfErr, IsTrue};
ghost use Rattle.um_air.specs.segmenting.Buffers.{octets_in_buffer};
ghost use Rattle.um_air.specs.lapdm_window.Ends.{EndpointState};
ghost use Rattle.lapdm_end.specs.Abstraction.{Represents, role_of as link_role, sapi_of as link_sapi};
ghost use Rattle.um_air.specs.lapdm_window.Calls.{endpoint_call_of, IsCallAllowedFor, IsCallAllowedForEndpoint, IsUiFrameCall, Opens};
ghost use Rattle.um_air.specs.lapdm_window.Calls.{OpensWithoutInfo, Sends, SendsUi, Closes, T200Expires, SendsFillFrame};
ghost use Rattle.lapdm_end.specs.Parts.{values_of};
ghost use Rattle.um_c.specs.States.{c_endpoint, IsCanonicalStruct};
ghost use Rattle.um_c.specs.Effects.{c_effects};
ghost use Rattle.um_c.specs.EndCalls.{
  call_refusal_number,
  EndpointAnswersCall,
  EndpointReceivesBlock,
  IsNewEndpointResult,
};

use crate::effects::{CEffects, write_effects};
use crate::frames::channel_of;
use crate::states::{CEndpoint, read_endpoint, role_of, sapi_of, write_endpoint};
use lapdm_end::{Call, Effects, Endpoint, MessageBuffer, Refused, Role, Sapi};
use lapdm_frame::{BLOCK_OCTETS, Channel, read_on};

pub(crate) const INVALID_ENDPOINT: u32 = 7;

pub(crate) const CALL_NOT_SUPPORTED: u32 = 8;

pub(crate) const INVALID_FRAME: u32 = 9;

/// Writes the state of a new endpoint. Returns false, and writes nothing, if the role, SAPI or channel is invalid.
#[unsafe(no_mangle)]
pub extern "C" fn um_end_new(end: &mut CEndpoint, role: u8, sapi: u8, channel: u8) -> bool
    ensures new_endpoint { IsNewEndpointResult role sapi channel result end.old end.new }
    ensures numbers { IsTrue result → (end.new.role ≡ role) × (end.new.sapi ≡ sapi) × (end.new.channel ≡ channel) }
    ensures c_struct { IsTrue result → IsCanonicalStruct end.new }
{
    let Some(role) = role_of(role) else {
        return false;
    };
    let Some(sapi) = sapi_of(sapi) else {
        return false;
    };
    let Some(channel) = channel_of(channel) else {
        return false;
    };
    write_endpoint(&Endpoint::new_on(role, sapi, channel), end);
    true
}

/// Begins to establish the link of SAPI 0: sends a SABM with this information. Returns 0, or an error number.
#[unsafe(no_mangle)]
pub extern "C" fn um_end_open(
    end: &mut CEndpoint,
    info: &MessageBuffer,
    effects: &mut CEffects,
) -> u32
    ensures answers_call { EndpointAnswersCall (Opens (octets_in_buffer info.now)) result end.old end.new effects.old effects.new }
    ensures c_struct { result ≡ 0 → IsCanonicalStruct end.new }
{
    call_endpoint(end, &Call::Open(info.octets()), effects)
}

/// Begins to establish the link of SAPI 3: sends a SABM without information. Returns 0, or an error number.
#[unsafe(no_mangle)]
pub extern "C" fn um_end_open_bare(end: &mut CEndpoint, effects: &mut CEffects) -> u32
    ensures answers_call { EndpointAnswersCall OpensWithoutInfo result end.old end.new effects.old effects.new }
    ensures c_struct { result ≡ 0 → IsCanonicalStruct end.new }
{
    call_endpoint(end, &Call::OpenBare, effects)
}

/// Sends a message in I frames, which the other endpoint acknowledges. Returns 0, or an error number.
#[unsafe(no_mangle)]
pub extern "C" fn um_end_send(
    end: &mut CEndpoint,
    message: &MessageBuffer,
    effects: &mut CEffects,
) -> u32
    ensures answers_call { EndpointAnswersCall (Sends (octets_in_buffer message.now)) result end.old end.new effects.old effects.new }
    ensures c_struct { result ≡ 0 → IsCanonicalStruct end.new }
{
    call_endpoint(end, &Call::Send(message.octets()), effects)
}

/// Sends a message in one UI frame, which is not acknowledged. Returns 0, or an error number.
#[unsafe(no_mangle)]
pub extern "C" fn um_end_unit(
    end: &CEndpoint,
    message: &MessageBuffer,
    effects: &mut CEffects,
) -> u32
    ensures { EndpointAnswersCall (SendsUi (octets_in_buffer message.now)) result end.now end.now effects.old effects.new }
{
    send_ui_frame(end, &Call::Unit(message.octets()), effects)
}

/// Begins to release the link: sends a DISC. Unacknowledged messages are discarded. Returns 0, or an error number.
#[unsafe(no_mangle)]
pub extern "C" fn um_end_close(end: &mut CEndpoint, effects: &mut CEffects) -> u32
    ensures answers_call { EndpointAnswersCall Closes result end.old end.new effects.old effects.new }
    ensures c_struct { result ≡ 0 → IsCanonicalStruct end.new }
{
    call_endpoint(end, &Call::Close, effects)
}

/// Handles T200 expiry. Returns 0, or an error number.
#[unsafe(no_mangle)]
pub extern "C" fn um_end_timer(end: &mut CEndpoint, effects: &mut CEffects) -> u32
    ensures answers_call { EndpointAnswersCall T200Expires result end.old end.new effects.old effects.new }
    ensures c_struct { result ≡ 0 → IsCanonicalStruct end.new }
{
    call_endpoint(end, &Call::Timer, effects)
}

/// Sends the fill frame, for use when there is nothing else to send in a block. Returns 0, or 7 if the struct represents no endpoint.
#[unsafe(no_mangle)]
pub extern "C" fn um_end_idle(end: &CEndpoint, effects: &mut CEffects) -> u32
    ensures { EndpointAnswersCall SendsFillFrame result end.now end.now effects.old effects.new }
{
    let mut output = Effects::new();
    let mut held = placeholder_endpoint();
    if !read_endpoint(end, &mut held) {
        return INVALID_ENDPOINT;
    }
    held.send_fill_frame_into(&mut output);
    write_call_effects(Ok(()), &output, effects)
}

/// Processes a received block of 23 octets. Returns 0, 7 if the struct represents no endpoint, or 9 if the block encodes no frame.
#[unsafe(no_mangle)]
pub extern "C" fn um_end_take(
    end: &mut CEndpoint,
    octets: &[u8; BLOCK_OCTETS],
    effects: &mut CEffects,
) -> u32
    ensures answers_block { EndpointReceivesBlock octets.now result end.old end.new effects.old effects.new }
    ensures c_struct { result ≡ 0 → IsCanonicalStruct end.new }
{
    let mut output = Effects::new();
    let mut held = placeholder_endpoint();
    if !read_endpoint(end, &mut held) {
        return INVALID_ENDPOINT;
    }
    match read_on(octets, held.channel()) {
        Err(_) => return INVALID_FRAME,
        Ok(frame) => held.take_frame_into(&frame, &mut output),
    }
    write_call_result(Ok(()), &output, &held, end, effects)
}

/// Carries out a layer 3 call to an endpoint. Returns 0, or an error number.
// Inlined, as `Endpoint::call`, because most callers pass a constant call.
#[inline(always)]
pub(crate) fn call_endpoint(end: &mut CEndpoint, call: &Call<'_>, effects: &mut CEffects) -> u32
    ensures answers_call { EndpointAnswersCall (endpoint_call_of call.now) result end.old end.new effects.old effects.new }
    ensures c_struct { result ≡ 0 → IsCanonicalStruct end.new }
{
    let mut output = Effects::new();
    let mut held = placeholder_endpoint();
    if !read_endpoint(end, &mut held) {
        return INVALID_ENDPOINT;
    }
    if !endpoint_supports_call(&held, call) {
        return CALL_NOT_SUPPORTED;
    }
    let answer = held.call(call, &mut output);
    write_call_result(answer, &output, &held, end, effects)
}

/// Carries out a call that sends a UI frame. It leaves the endpoint unchanged, so the state is not written back.
#[inline(always)]
pub(crate) fn send_ui_frame(end: &CEndpoint, call: &Call<'_>, effects: &mut CEffects) -> u32
    requires { IsUiFrameCall (endpoint_call_of call.now) }
    ensures { EndpointAnswersCall (endpoint_call_of call.now) result end.now end.now effects.old effects.new }
{
    let mut output = Effects::new();
    let mut held = placeholder_endpoint();
    if !read_endpoint(end, &mut held) {
        return INVALID_ENDPOINT;
    }
    let answer = held.call(call, &mut output);
    write_call_effects(answer, &output, effects)
}

/// Returns whether the endpoint supports this call: only a mobile establishes the link of SAPI 0, with information in its SABM; either side
/// establishes that of SAPI 3, without information. A mobile would answer the network's SABM on SAPI 0 with a DM.
fn endpoint_supports_call(endpoint: &Endpoint, call: &Call<'_>) -> bool
    ensures exists { IsTrue result → IsCallAllowedFor (link_role endpoint.now) (link_sapi endpoint.now) (endpoint_call_of call.now) }
    ensures allowed { IsTrue result → (e : EndpointState) → Represents endpoint.now e
        → IsCallAllowedForEndpoint e (endpoint_call_of call.now) }
    ensures never { result ≡ false → (e : EndpointState) → Represents endpoint.now e
        → IsCallAllowedForEndpoint e (endpoint_call_of call.now) → ⊥ }
{
    match *call {
        Call::Open(_) => match (endpoint.sapi(), endpoint.role()) {
            (Sapi::Zero, Role::Mobile) => true,
            (Sapi::Zero, Role::Network) => false,
            (Sapi::Three, _) => false,
        },
        Call::OpenBare => match endpoint.sapi() {
            Sapi::Zero => false,
            Sapi::Three => true,
        },
        Call::Send(_) => true,
        Call::Unit(_) => true,
        Call::Close => true,
        Call::Timer => true,
        Call::Idle => true,
    }
}

/// Creates a placeholder endpoint, which is then overwritten in place with the state that the caller holds: an endpoint built as a value
/// was copied several times.
fn placeholder_endpoint() -> Endpoint {
    Endpoint::new_on(Role::Mobile, Sapi::Zero, Channel::Sdcch)
}

/// Writes the effects of a call and the new state and returns 0, or returns the number of the refusal and writes nothing.
fn write_call_result(
    answer: Result<(), Refused>,
    output: &Effects,
    endpoint_after: &Endpoint,
    end: &mut CEndpoint,
    effects: &mut CEffects,
) -> u32
    ensures done { OnOk answer ((result ≡ 0) × (end.new ≡ c_endpoint (values_of endpoint_after.now))
        × (effects.new ≡ c_effects output.now.frames output.now.notices)) }
    ensures c_struct { result ≡ 0 → end.new ≡ c_endpoint (values_of endpoint_after.now) }
    ensures refused { IfErr answer (λ reason. (result ≡ call_refusal_number reason) × (end.new ≡ end.old)
        × (effects.new ≡ effects.old)) }
{
    let number = write_call_effects(answer, output, effects);
    if answer.is_ok() {
        write_endpoint(endpoint_after, end);
    }
    number
}

/// Writes the effects of a call and returns 0, or returns the number of the refusal and writes nothing.
fn write_call_effects(answer: Result<(), Refused>, output: &Effects, effects: &mut CEffects) -> u32
    ensures done { OnOk answer ((result ≡ 0) × (effects.new ≡ c_effects output.now.frames output.now.notices)) }
    ensures refused { IfErr answer (λ reason. (result ≡ call_refusal_number reason) × (effects.new ≡ effects.old)) }
{
    match answer {
        Ok(()) => {
            write_effects(output, effects);
            0
        }
        Err(reason) => call_refusal_number(reason),
    }
}

pub(crate) fn call_refusal_number(reason: Refused) -> u32
    ensures { result ≡ call_refusal_number reason }
{
    reason as u32 + 1
}
