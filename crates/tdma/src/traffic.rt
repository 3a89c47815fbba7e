//! The frames of a traffic channel, and the blocks of FACCH in them.
ghost use Rattle.std.specs.Prelude.{◌≡◌, ◌<◌, if◌then◌else◌, None, Some};
ghost use Rattle.tdma.specs.Traffic.{IsNextFacch, channels_in_slot, facch_bursts, facch_that_begins, first_facch_burst};
ghost use Rattle.tdma.specs.Traffic.{subchannel_of, traffic_place_of};

use crate::HYPERFRAME;
use crate::channels::Direction;

/// A traffic channel of a time slot.
#[derive(Clone, Copy, PartialEq, Eq, Debug)]
pub enum TrafficChannel {
    /// TCH/F: all traffic frames of the time slot.
    FullRate,
    /// TCH/H, subchannel 0: every other traffic frame, from the first on.
    HalfRate0,
    /// TCH/H, subchannel 1.
    HalfRate1,
}

/// The traffic burst of a frame.
#[derive(Clone, Copy, PartialEq, Eq, Debug)]
pub struct TrafficPlace {
    /// The number of the traffic burst in the 26-multiframe: 0 to 23, at half rate 0 to 11.
    pub burst: u8,
    /// The number of the block of FACCH that begins with this burst: 0 to 5, at half rate 0 to 2.
    pub begins: Option<u8>,
    /// The number of the block of FACCH that ends with this burst.
    pub ends: Option<u8>,
}

impl TrafficChannel {
    /// How many bursts carry a block of FACCH.
    pub fn facch_bursts(self) -> u8
        ensures { result ≡ facch_bursts self }
    {
        match self {
            TrafficChannel::FullRate => 8,
            TrafficChannel::HalfRate0 | TrafficChannel::HalfRate1 => 6,
        }
    }

    /// How many traffic channels share the traffic frames of a time slot, burst by burst.
    pub fn channels_in_slot(self) -> u8
        ensures { result ≡ channels_in_slot self }
    {
        match self {
            TrafficChannel::FullRate => 1,
            TrafficChannel::HalfRate0 | TrafficChannel::HalfRate1 => 2,
        }
    }

    /// The number of this traffic channel among these.
    pub fn subchannel(self) -> u8
        ensures { result ≡ subchannel_of self }
    {
        match self {
            TrafficChannel::FullRate | TrafficChannel::HalfRate0 => 0,
            TrafficChannel::HalfRate1 => 1,
        }
    }

    /// The number of the first traffic burst in a multiframe with which a block of FACCH begins; each fourth burst from there on begins
    /// one.
    pub fn first_facch_burst(self, direction: Direction) -> u8
        ensures { result ≡ first_facch_burst self direction }
    {
        match self {
            TrafficChannel::FullRate => 0,
            TrafficChannel::HalfRate0 | TrafficChannel::HalfRate1 => match direction {
                Direction::Uplink => 0,
                Direction::Downlink => 2,
            },
        }
    }
}

/// Returns the place of a frame in a traffic channel, or `None` if the frame is of SACCH, of the other half of the time slot, or idle.
pub fn place_of_traffic_frame(
    channel: TrafficChannel,
    direction: Direction,
    frame: u32,
) -> Option<TrafficPlace>
    ensures { result ≡ traffic_place_of channel direction frame }
{
    place_in_multiframe(channel, direction, (frame % 26) as u8)
}

/// Returns the first frame number, at or after `frame`, in which a block of FACCH begins: after the last frame of the hyperframe the first
/// follows.
pub fn next_facch_block(channel: TrafficChannel, direction: Direction, frame: u32) -> u32
    requires within { frame < HYPERFRAME }
    ensures next { IsNextFacch channel direction frame result }
{
    for ahead in 0..25 {
        let candidate = (frame + ahead) % HYPERFRAME;
        match facch_that_begins(channel, direction, candidate) {
            Some(_) => return candidate,
            None => {}
        }
    }
    (frame + 25) % HYPERFRAME
}

#[tactic(auto, using(crate::proofs::TrafficTables::begin_of_some, crate::proofs::TrafficTables::begin_of_none))]
fn facch_that_begins(channel: TrafficChannel, direction: Direction, frame: u32) -> Option<u8>
    ensures { result ≡ facch_that_begins channel direction frame }
{
    match place_of_traffic_frame(channel, direction, frame) {
        Some(place) => place.begins,
        None => None,
    }
}

/// The place of a frame of a 26-multiframe.
#[tactic(auto, using(crate::proofs::TrafficTables::place_is_of_table))]
fn place_in_multiframe(
    channel: TrafficChannel,
    direction: Direction,
    frame: u8,
) -> Option<TrafficPlace>
    requires { frame < 26 }
    ensures { result ≡ traffic_place_of channel direction frame }
{
    let channels = channel.channels_in_slot();
    let number = frame - frame / 13;
    if frame % 13 == 12 || number % channels != channel.subchannel() {
        return None;
    }
    let burst = number / channels;
    let first = channel.first_facch_burst(direction);
    let blocks = 6 / channels;
    Some(TrafficPlace {
        burst,
        begins: number_if(burst % 4 == first, burst / 4),
        ends: number_if(
            burst % 4 == (first + channel.facch_bursts() - 1) % 4,
            (burst / 4 + blocks - 1) % blocks,
        ),
    })
}

fn number_if(holds: bool, number: u8) -> Option<u8>
    ensures { result ≡ (if holds then Some number else None) }
{
    if holds { Some(number) } else { None }
}
