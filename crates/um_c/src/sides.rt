//! C functions for one side, mobile or network: its endpoints for SAPI 0 and SAPI 3. The caller holds the state.
ghost use Rattle.std.specs.Prelude.{◌≡◌, ◌≢◌, ◌↔◌, Some, IsTrue};
ghost use Rattle.um_air.specs.segmenting.Buffers.{octets_in_buffer};
ghost use Rattle.um_air.specs.lapdm_window.declared.Sapi.{Sapi as LinkSapi};
ghost use Rattle.um_air.specs.lapdm_window.Calls.{endpoint_call_of, Opens, OpensWithoutInfo, Sends, SendsUi, Closes, T200Expires};
ghost use Rattle.um_air.specs.lapdm_window.Calls.{SendsFillFrame};
ghost use Rattle.um_c.specs.States.{sapi_of, IsCanonicalStruct};
ghost use Rattle.um_c.specs.SideCalls.{IsValidSide, endpoint_of, IsFrameOnSapi3, IsNewSideResult, SideAnswersCall, SideReceivesBlock};

use crate::effects::CEffects;
use crate::ends::{
    CALL_NOT_SUPPORTED, INVALID_ENDPOINT, call_endpoint, send_ui_frame, um_end_idle, um_end_new,
    um_end_take,
};
use crate::frames::channel_of;
use crate::states::{CEndpoint, sapi_of};
use lapdm_end::{Call, MessageBuffer, Sapi};
use lapdm_frame::{BLOCK_OCTETS, read_on};

/// The state of both endpoints of a side.
#[repr(C)]
#[derive(Drop)]
pub struct CSide {
    /// The endpoint of SAPI 0.
    pub link0: CEndpoint,
    /// The endpoint of SAPI 3.
    pub link3: CEndpoint,
}

/// Writes the state of a new side. Returns false, and writes nothing, if the role or channel is invalid.
#[unsafe(no_mangle)]
pub extern "C" fn um_side_new(side: &mut CSide, role: u8, channel: u8) -> bool
    ensures new_endpoint { IsNewSideResult role channel result side.old side.new }
    ensures side { IsTrue result → IsValidSide side.new }
    ensures canonical0 { IsTrue result → IsCanonicalStruct side.new.link0 }
    ensures canonical3 { IsTrue result → IsCanonicalStruct side.new.link3 }
{
    if !um_end_new(&mut side.link0, role, 0, channel) {
        return false;
    }
    // This cannot fail: the first call has tested role and channel.
    um_end_new(&mut side.link3, role, 3, channel)
}

/// Begins to establish the link of SAPI 0: sends a SABM with this information. Only a mobile supports this call. Returns 0, or an error
/// number.
#[unsafe(no_mangle)]
pub extern "C" fn um_side_open(
    side: &mut CSide,
    info: &MessageBuffer,
    effects: &mut CEffects,
) -> u32
    ensures answers_call { SideAnswersCall 0 (Opens (octets_in_buffer info.now)) result side.old side.new effects.old effects.new }
    ensures c_struct { result ≡ 0 → IsCanonicalStruct side.new.link0 }
{
    call_endpoint_of_side(side, 0, &Call::Open(info.octets()), effects)
}

/// Begins to establish the link of SAPI 3: sends a SABM without information. Returns 0, or an error number.
#[unsafe(no_mangle)]
pub extern "C" fn um_side_open_bare(side: &mut CSide, effects: &mut CEffects) -> u32
    ensures answers_call { SideAnswersCall 3 OpensWithoutInfo result side.old side.new effects.old effects.new }
    ensures c_struct { result ≡ 0 → IsCanonicalStruct side.new.link3 }
{
    call_endpoint_of_side(side, 3, &Call::OpenBare, effects)
}

/// Sends a message over the link of this SAPI in I frames, which the other side acknowledges. Returns 0, or an error number.
#[unsafe(no_mangle)]
pub extern "C" fn um_side_send(
    side: &mut CSide,
    sapi: u8,
    message: &MessageBuffer,
    effects: &mut CEffects,
) -> u32
    ensures answers_call { SideAnswersCall sapi (Sends (octets_in_buffer message.now)) result side.old side.new effects.old effects.new }
    ensures c_struct { result ≡ 0 → (s : LinkSapi) → Some s ≡ sapi_of sapi → IsCanonicalStruct (endpoint_of s side.new) }
{
    call_endpoint_of_side(side, sapi, &Call::Send(message.octets()), effects)
}

/// Sends a message in one UI frame with this SAPI, which is not acknowledged. Returns 0, or an error number.
#[unsafe(no_mangle)]
pub extern "C" fn um_side_unit(
    side: &CSide,
    sapi: u8,
    message: &MessageBuffer,
    effects: &mut CEffects,
) -> u32
    ensures { SideAnswersCall sapi (SendsUi (octets_in_buffer message.now)) result side.now side.now effects.old effects.new }
{
    if !is_valid_side(side) {
        return INVALID_ENDPOINT;
    }
    let call = Call::Unit(message.octets());
    match sapi_of(sapi) {
        Some(Sapi::Zero) => send_ui_frame(&side.link0, &call, effects),
        Some(Sapi::Three) => send_ui_frame(&side.link3, &call, effects),
        None => CALL_NOT_SUPPORTED,
    }
}

/// Begins to release the link of this SAPI: sends a DISC. Unacknowledged messages are discarded. Returns 0, or an error number.
#[unsafe(no_mangle)]
pub extern "C" fn um_side_close(side: &mut CSide, sapi: u8, effects: &mut CEffects) -> u32
    ensures answers_call { SideAnswersCall sapi Closes result side.old side.new effects.old effects.new }
    ensures c_struct { result ≡ 0 → (s : LinkSapi) → Some s ≡ sapi_of sapi → IsCanonicalStruct (endpoint_of s side.new) }
{
    call_endpoint_of_side(side, sapi, &Call::Close, effects)
}

/// Handles T200 expiry on the link of this SAPI. Returns 0, or an error number.
#[unsafe(no_mangle)]
pub extern "C" fn um_side_timer(side: &mut CSide, sapi: u8, effects: &mut CEffects) -> u32
    ensures answers_call { SideAnswersCall sapi T200Expires result side.old side.new effects.old effects.new }
    ensures c_struct { result ≡ 0 → (s : LinkSapi) → Some s ≡ sapi_of sapi → IsCanonicalStruct (endpoint_of s side.new) }
{
    call_endpoint_of_side(side, sapi, &Call::Timer, effects)
}

/// Sends the fill frame, for use when there is nothing else to send in a block.
#[unsafe(no_mangle)]
pub extern "C" fn um_side_idle(side: &CSide, effects: &mut CEffects) -> u32
    ensures { SideAnswersCall 0 SendsFillFrame result side.now side.now effects.old effects.new }
{
    if !is_valid_side(side) {
        return INVALID_ENDPOINT;
    }
    um_end_idle(&side.link0, effects)
}

/// Passes a received block to the endpoint of its SAPI, and writes that SAPI. A block that is not a frame with SAPI 3 goes to the endpoint
/// of SAPI 0.
#[unsafe(no_mangle)]
pub extern "C" fn um_side_take(
    side: &mut CSide,
    octets: &[u8; BLOCK_OCTETS],
    sapi: &mut u8,
    effects: &mut CEffects,
) -> u32
    ensures answers_block { SideReceivesBlock octets.now result side.old side.new sapi.old sapi.new effects.old effects.new }
    ensures c_struct { result ≡ 0 → (s : LinkSapi) → Some s ≡ sapi_of sapi.new → IsCanonicalStruct (endpoint_of s side.new) }
{
    if !is_valid_side(side) {
        return INVALID_ENDPOINT;
    }
    // `lapdm_end::Side::take_block` needs both endpoints restored, of 2.6 KB each. To read the frame twice and restore one is cheaper.
    if is_frame_on_sapi_3(octets, side.link0.channel) {
        let answer = um_end_take(&mut side.link3, octets, effects);
        write_sapi_if_successful(answer, 3, sapi);
        return answer;
    }
    let answer = um_end_take(&mut side.link0, octets, effects);
    write_sapi_if_successful(answer, 0, sapi);
    answer
}

fn write_sapi_if_successful(call_status: u32, answering_sapi: u8, sapi: &mut u8)
    ensures written { call_status ≡ 0 → sapi.new ≡ answering_sapi }
    ensures unchanged { call_status ≢ 0 → sapi.new ≡ sapi.old }
{
    if call_status == 0 {
        *sapi = answering_sapi;
    }
}

fn call_endpoint_of_side(side: &mut CSide, sapi: u8, call: &Call<'_>, effects: &mut CEffects) -> u32
    ensures answers_call { SideAnswersCall sapi (endpoint_call_of call.now) result side.old side.new effects.old effects.new }
    ensures c_struct { result ≡ 0 → (s : LinkSapi) → Some s ≡ sapi_of sapi → IsCanonicalStruct (endpoint_of s side.new) }
{
    if !is_valid_side(side) {
        return INVALID_ENDPOINT;
    }
    match sapi_of(sapi) {
        Some(Sapi::Zero) => call_endpoint(&mut side.link0, call, effects),
        Some(Sapi::Three) => call_endpoint(&mut side.link3, call, effects),
        None => CALL_NOT_SUPPORTED,
    }
}

/// Returns whether the two endpoints form a side: SAPI 0 and SAPI 3, with the same role and channel.
fn is_valid_side(side: &CSide) -> bool
    ensures { IsTrue result ↔ IsValidSide side.now }
{
    side.link0.sapi == 0
        && side.link3.sapi == 3
        && side.link0.role == side.link3.role
        && side.link0.channel == side.link3.channel
}

fn is_frame_on_sapi_3(octets: &[u8; BLOCK_OCTETS], channel: u8) -> bool
    ensures { IsTrue result ↔ IsFrameOnSapi3 channel octets.now }
{
    let Some(channel) = channel_of(channel) else {
        return false;
    };
    match read_on(octets, channel) {
        Ok(frame) => frame.sapi == 3,
        Err(_) => false,
    }
}
