//! C functions for the channel and the block of a frame.
ghost use Rattle.std.specs.Prelude.{◌≡◌};
ghost use Rattle.um_slot.specs.Numbers.{channel_of, combination_of, direction_of};
ghost use Rattle.um_c.specs.TimeCalls.{IsNextResult, IsPlaceResult, are_in_hyperframe};

use um_slot::{
    HYPERFRAME, channel_number, channel_of, combination_of, direction_of, next_block,
    place_of_frame,
};

/// The answer if the frame has a place.
pub(crate) const PLACED: u32 = 0;

/// The answer if the frame has none of the channels.
pub(crate) const UNPLACED: u32 = 1;

/// The answer if an argument is out of range.
pub(crate) const NO_PLACE: u32 = 2;

/// Where the burst of a frame belongs.
#[repr(C)]
#[derive(Drop)]
pub struct CPlace {
    /// The frame number of the first burst of the block.
    pub first: u32,
    /// The channel, 0 to 6.
    pub channel: u8,
    /// The subchannel of SDCCH and SACCH; of CCCH the number of the block in the 51-multiframe, 0 to 8, so that each number names one
    /// block; otherwise 0.
    pub subchannel: u8,
    /// Which burst of the block, 0 to 3.
    pub burst: u8,
}

/// Writes the place of a frame and returns 0. Returns 1 if the frame has none, or 2 if there is no such combination, direction, time slot
/// or frame number, and then writes nothing.
#[unsafe(no_mangle)]
pub extern "C" fn um_place_frame(
    combination: u8,
    direction: u8,
    timeslot: u8,
    frame: u32,
    place: &mut CPlace,
) -> u32
    ensures { IsPlaceResult (combination_of combination) (direction_of direction) (are_in_hyperframe timeslot frame) timeslot frame result
        place.old place.new }
{
    let Some(combination) = combination_of(combination) else {
        return NO_PLACE;
    };
    let Some(direction) = direction_of(direction) else {
        return NO_PLACE;
    };
    if !are_in_hyperframe(timeslot, frame) {
        return NO_PLACE;
    }
    match place_of_frame(combination, direction, timeslot, frame) {
        Some(found) => {
            *place = CPlace {
                first: found.first,
                channel: channel_number(found.position.channel),
                subchannel: found.position.subchannel,
                burst: found.position.burst,
            };
            PLACED
        }
        None => UNPLACED,
    }
}

/// Writes the first frame number, from `frame` on, in which a block (or single burst) of this channel and subchannel begins. Returns false,
/// and writes nothing, if there is none, or an argument is out of range.
#[unsafe(no_mangle)]
pub extern "C" fn um_next_block(
    combination: u8,
    direction: u8,
    timeslot: u8,
    channel: u8,
    subchannel: u8,
    frame: u32,
    first: &mut u32,
) -> bool
    ensures { IsNextResult (combination_of combination) (direction_of direction) (channel_of channel) (are_in_hyperframe timeslot frame)
        timeslot subchannel frame result first.old first.new }
{
    let Some(combination) = combination_of(combination) else {
        return false;
    };
    let Some(direction) = direction_of(direction) else {
        return false;
    };
    let Some(channel) = channel_of(channel) else {
        return false;
    };
    if !are_in_hyperframe(timeslot, frame) {
        return false;
    }
    match next_block(combination, direction, timeslot, channel, subchannel, frame) {
        Some(found) => {
            *first = found;
            true
        }
        None => false,
    }
}

fn are_in_hyperframe(timeslot: u8, frame: u32) -> bool
    ensures { result ≡ are_in_hyperframe timeslot frame }
{
    timeslot < 8 && frame < HYPERFRAME
}
