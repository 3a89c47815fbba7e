//! C functions for the calls of layer 3 to a data link.
ghost use Rattle.std.specs.Prelude.{◌≡◌, false, IsTrue};
ghost use Rattle.um_air.specs.segmenting.Buffers.{octets_in_buffer};
ghost use Rattle.um_air.specs.lapdm_window.Calls.{endpoint_call_of, IsCallAllowedFor, IsCallAllowedForEndpoint, Opens, OpensWithoutInfo};
ghost use Rattle.um_air.specs.lapdm_window.Calls.{Sends, Closes};
ghost use Rattle.lapdm_datalink.specs.Links.{afresh, IsLinkCall};
ghost use Rattle.lapdm_datalink.specs.DataLinks.{DataLinkState, link_with_sapi, having_main};
ghost use Rattle.lapdm_datalink.specs.Abstraction.{sapi_of as link_sapi};
ghost use Rattle.lapdm_datalink.specs.Sides.{role_of as data_link_role, link_of, Represents};
ghost use Rattle.um_c.specs.DataLinkCalls.{DataLinkAnswersCall, DataLinkEstablishes, DataLinkHasUnacked, DataLinkChangesLink};
ghost use Rattle.um_c.specs.DataLinkCalls.{DataLinkChanges, DataLinkEncodesUnit};

use crate::datalinks::{CDataLink, read_data_link, with_layer1, write_data_link};
use crate::ends::{CALL_NOT_SUPPORTED, INVALID_ENDPOINT, call_refusal_number};
use crate::states::sapi_of;
use lapdm_datalink::{DataLink, Establishment};
use lapdm_end::{Call, MessageBuffer, Role, Sapi};
use lapdm_frame::{BLOCK_OCTETS, Channel};

const NO_MESSAGE: u32 = 4;

/// Returns a new data link, to restore another in its place.
fn room_for_data_link() -> DataLink {
    DataLink::new_on(
        Role::Mobile,
        Channel::Sdcch,
        Establishment::Contention,
        1,
        1,
    )
}

/// Returns whether the link of this SAPI supports the call: only a mobile establishes a link with contention resolution, with information
/// in its SABM; either side establishes one of normal establishment and that of SAPI 3, without information.
fn link_supports_call(held: &DataLink, sapi: Sapi, call: &Call<'_>) -> bool
    ensures exists { IsTrue result
        → IsCallAllowedFor (data_link_role held.now) (link_sapi (link_of sapi held.now)) (endpoint_call_of call.now) }
    ensures allowed { IsTrue result → (s : DataLinkState) → Represents held.now s
        → IsCallAllowedForEndpoint (link_with_sapi sapi s).endpoint (endpoint_call_of call.now) }
    ensures never { result ≡ false → (s : DataLinkState) → Represents held.now s
        → IsCallAllowedForEndpoint (link_with_sapi sapi s).endpoint (endpoint_call_of call.now) → ⊥ }
{
    match *call {
        Call::Open(_) => match (held.endpoint_sapi(sapi), held.role()) {
            (Sapi::Zero, Role::Mobile) => true,
            (Sapi::Zero, Role::Network) => false,
            (Sapi::Three, _) => false,
        },
        Call::OpenBare => match held.endpoint_sapi(sapi) {
            Sapi::Zero => false,
            Sapi::Three => true,
        },
        Call::Send(_) => true,
        Call::Unit(_) => true,
        Call::Close => true,
        Call::Timer => true,
        Call::Idle => true,
    }
}

/// Carries out a call of layer 3 to the link of this SAPI. Returns 0, or an error number.
fn call_data_link(data_link: &mut CDataLink, sapi: u8, call: &Call<'_>) -> u32
    requires { IsLinkCall (endpoint_call_of call.now) }
    ensures { DataLinkAnswersCall sapi (endpoint_call_of call.now) result data_link.old data_link.new }
{
    let mut held = room_for_data_link();
    if !read_data_link(data_link, &mut held) {
        return INVALID_ENDPOINT;
    }
    let Some(sapi) = sapi_of(sapi) else {
        return CALL_NOT_SUPPORTED;
    };
    if !link_supports_call(&held, sapi, call) {
        return CALL_NOT_SUPPORTED;
    }
    match held.call(sapi, call) {
        Err(refusal) => call_refusal_number(refusal),
        Ok(()) => {
            write_data_link(&held, data_link);
            0
        }
    }
}

/// Begins to establish the link of SAPI 0, at the mobile, with this information in its SABM. Returns 0, or an error number.
#[unsafe(no_mangle)]
pub extern "C" fn um_datalink_open(data_link: &mut CDataLink, info: &MessageBuffer) -> u32
    ensures { DataLinkAnswersCall 0 (Opens (octets_in_buffer info.now)) result data_link.old data_link.new }
{
    call_data_link(data_link, 0, &Call::Open(info.octets()))
}

/// Begins to establish the link of this SAPI without information. A link that is closed or open starts afresh first; that of SAPI 0 is one
/// of normal establishment from then on. Returns 0, or an error number.
#[unsafe(no_mangle)]
pub extern "C" fn um_datalink_establish(data_link: &mut CDataLink, sapi: u8) -> u32
    ensures { DataLinkEstablishes sapi result data_link.old data_link.new }
{
    let mut held = room_for_data_link();
    if !read_data_link(data_link, &mut held) {
        return INVALID_ENDPOINT;
    }
    let Some(sapi) = sapi_of(sapi) else {
        return CALL_NOT_SUPPORTED;
    };
    match held.establish(sapi) {
        Err(refusal) => call_refusal_number(refusal),
        Ok(()) => {
            write_data_link(&held, data_link);
            0
        }
    }
}

/// Begins to establish the link of SAPI 3. If it is closed or open, it starts afresh first. Returns 0, or an error number.
#[unsafe(no_mangle)]
pub extern "C" fn um_datalink_open_bare(data_link: &mut CDataLink) -> u32
    ensures { DataLinkAnswersCall 3 OpensWithoutInfo result data_link.old data_link.new }
{
    call_data_link(data_link, 3, &Call::OpenBare)
}

/// Sends a message over the link of this SAPI in I frames, which the other side acknowledges. Returns 0, or an error number.
#[unsafe(no_mangle)]
pub extern "C" fn um_datalink_send(
    data_link: &mut CDataLink,
    sapi: u8,
    message: &MessageBuffer,
) -> u32
    ensures { DataLinkAnswersCall sapi (Sends (octets_in_buffer message.now)) result data_link.old data_link.new }
{
    call_data_link(data_link, sapi, &Call::Send(message.octets()))
}

/// Writes the message with this index of those that the link of this SAPI was asked to send and that are not completely acknowledged,
/// oldest first. Returns 0, 4 if there is none, or an error number.
#[unsafe(no_mangle)]
pub extern "C" fn um_datalink_unacked(
    data_link: &CDataLink,
    sapi: u8,
    index: u8,
    message: &mut MessageBuffer,
) -> u32
    ensures { DataLinkHasUnacked sapi index result data_link.now message.old message.new }
{
    let mut held = room_for_data_link();
    if !read_data_link(data_link, &mut held) {
        return INVALID_ENDPOINT;
    }
    let Some(sapi) = sapi_of(sapi) else {
        return CALL_NOT_SUPPORTED;
    };
    match held.unacked(sapi).get(usize::from(index)) {
        None => NO_MESSAGE,
        Some(unacked) => {
            message.write(unacked.octets());
            0
        }
    }
}

/// Begins to release the link of this SAPI. Unacknowledged messages are discarded. Returns 0, or an error number.
#[unsafe(no_mangle)]
pub extern "C" fn um_datalink_close(data_link: &mut CDataLink, sapi: u8) -> u32
    ensures { DataLinkAnswersCall sapi Closes result data_link.old data_link.new }
{
    call_data_link(data_link, sapi, &Call::Close)
}

/// Local end release: the link of this SAPI starts afresh, and nothing is reported. Returns 0, or an error number.
#[unsafe(no_mangle)]
pub extern "C" fn um_datalink_close_local(data_link: &mut CDataLink, sapi: u8) -> u32
    ensures { DataLinkChangesLink sapi afresh result data_link.old data_link.new }
{
    let mut held = room_for_data_link();
    if !read_data_link(data_link, &mut held) {
        return INVALID_ENDPOINT;
    }
    let Some(sapi) = sapi_of(sapi) else {
        return CALL_NOT_SUPPORTED;
    };
    held.restart(sapi);
    write_data_link(&held, data_link);
    0
}

/// At a mobile on SACCH, says whether the link of SAPI 0 on the main channel is established. Returns 0, or 7.
#[unsafe(no_mangle)]
pub extern "C" fn um_datalink_main(data_link: &mut CDataLink, established: bool) -> u32
    ensures { DataLinkChanges (having_main established) result data_link.old data_link.new }
{
    let mut held = room_for_data_link();
    if !read_data_link(data_link, &mut held) {
        return INVALID_ENDPOINT;
    }
    held.set_main_established(established);
    write_data_link(&held, data_link);
    0
}

/// Encodes a UI frame, for a slot that is free. UI frames are not queued, so they delay nothing. Returns 0, or an error number.
#[unsafe(no_mangle)]
pub extern "C" fn um_datalink_unit(
    data_link: &CDataLink,
    sapi: u8,
    message: &MessageBuffer,
    layer1: &[u8; 2],
    block: &mut [u8; BLOCK_OCTETS],
) -> u32
    ensures { DataLinkEncodesUnit sapi (octets_in_buffer message.now) layer1.now result data_link.now block.old block.new }
{
    let mut held = room_for_data_link();
    if !read_data_link(data_link, &mut held) {
        return INVALID_ENDPOINT;
    }
    let Some(sapi) = sapi_of(sapi) else {
        return CALL_NOT_SUPPORTED;
    };
    match held.unit(sapi, message.octets()) {
        Err(refusal) => call_refusal_number(refusal),
        Ok(written) => {
            *block = with_layer1(held.channel(), layer1, written);
            0
        }
    }
}
