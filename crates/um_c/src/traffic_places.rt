//! C functions for the frames of a traffic channel.
ghost use Rattle.std.specs.Prelude.{◌≡◌, nat_lt};
ghost use Rattle.um_slot.specs.Numbers.{direction_of, traffic_channel_of};
ghost use Rattle.um_slot.specs.tdma.declared.TheConstants.{HYPERFRAME as FRAMES};
ghost use Rattle.um_c.specs.TrafficPlaces.{IsNextFacchResult, IsTrafficPlaceResult, number_or_none};

use crate::places::{NO_PLACE, PLACED, UNPLACED};
use um_slot::{
    HYPERFRAME, direction_of, next_facch_block, place_of_traffic_frame, traffic_channel_of,
};

/// The number that says that no block begins, or none ends.
const NO_BLOCK: u8 = 255;

/// The traffic burst of a frame.
#[repr(C)]
#[derive(Drop)]
pub struct CTrafficPlace {
    /// The number of the traffic burst in the 26-multiframe: 0 to 23, at half rate 0 to 11.
    pub burst: u8,
    /// The number of the block of FACCH that begins with it, or 255 if none does.
    pub begins: u8,
    /// The number of the block of FACCH that ends with it, or 255 if none does.
    pub ends: u8,
}

/// Writes the place of a frame in a traffic channel and returns 0. Returns 1 if the frame has none, or 2 if there is no such channel,
/// direction or frame number, and then writes nothing.
#[unsafe(no_mangle)]
pub extern "C" fn um_place_traffic(
    channel: u8,
    direction: u8,
    frame: u32,
    place: &mut CTrafficPlace,
) -> u32
    ensures { IsTrafficPlaceResult (traffic_channel_of channel) (direction_of direction) (nat_lt frame FRAMES) frame result place.old
        place.new }
{
    let Some(channel) = traffic_channel_of(channel) else {
        return NO_PLACE;
    };
    let Some(direction) = direction_of(direction) else {
        return NO_PLACE;
    };
    if frame >= HYPERFRAME {
        return NO_PLACE;
    }
    match place_of_traffic_frame(channel, direction, frame) {
        Some(found) => {
            *place = CTrafficPlace {
                burst: found.burst,
                begins: number_or_none(found.begins),
                ends: number_or_none(found.ends),
            };
            PLACED
        }
        None => UNPLACED,
    }
}

/// Writes the first frame number, from `frame` on, in which a block of FACCH begins. Returns false, and writes nothing, if there is no such
/// channel, direction or frame number.
#[unsafe(no_mangle)]
pub extern "C" fn um_next_facch(channel: u8, direction: u8, frame: u32, first: &mut u32) -> bool
    ensures { IsNextFacchResult (traffic_channel_of channel) (direction_of direction) (nat_lt frame FRAMES) frame result first.old
        first.new }
{
    let Some(channel) = traffic_channel_of(channel) else {
        return false;
    };
    let Some(direction) = direction_of(direction) else {
        return false;
    };
    if frame >= HYPERFRAME {
        return false;
    }
    *first = next_facch_block(channel, direction, frame);
    true
}

fn number_or_none(number: Option<u8>) -> u8
    ensures { result ≡ number_or_none number }
{
    match number {
        Some(number) => number,
        None => NO_BLOCK,
    }
}
