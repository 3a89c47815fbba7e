//! Numbers of traffic bursts, counted through the hyperframe.
ghost use Rattle.std.specs.Prelude.{◌≡◌, ◌<◌, ◌≤◌, ◌+◌};
ghost use Rattle.um_traffic.specs.Receivers.{burst_number, bursts_after, bursts_in_hyperframe, bursts_in_multiframe};
ghost use Rattle.um_traffic.specs.Receivers.{frame_of_burst, index_in_oldest};
ghost use Rattle.um_slot.specs.tdma.declared.TheConstants.{HYPERFRAME as FRAMES};
ghost use Rattle.um_slot.specs.tdma.Traffic.{facch_bursts};

use um_slot::{Direction, TrafficChannel};

pub(crate) fn bursts_in_multiframe(channel: TrafficChannel) -> u32
    ensures value { result ≡ bursts_in_multiframe channel }
{
    24 / u32::from(channel.channels_in_slot())
}

pub(crate) fn bursts_in_hyperframe(channel: TrafficChannel) -> u32
    ensures value { result ≡ bursts_in_hyperframe channel }
{
    104_448 * bursts_in_multiframe(channel)
}

/// The number of a traffic burst.
pub(crate) fn burst_number(channel: TrafficChannel, frame: u32, burst: u8) -> u32
    requires within { frame < FRAMES }
    ensures value { result ≡ burst_number channel frame burst }
    ensures below { result < FRAMES }
{
    frame / 26 * bursts_in_multiframe(channel) + u32::from(burst)
}

/// How many traffic bursts one is after another, modulo a hyperframe.
pub(crate) fn bursts_after(channel: TrafficChannel, first: u32, number: u32) -> u32
    requires number { number < FRAMES }
    requires first { first < bursts_in_hyperframe channel }
    ensures { result ≡ bursts_after channel first number }
{
    let all = bursts_in_hyperframe(channel);
    (number + all - first) % all
}

/// The frame of a traffic burst.
#[tactic(auto, using(crate::proofs::Frames::frame_by_rule))]
pub(crate) fn frame_of_burst(channel: TrafficChannel, number: u32) -> u32
    requires { number < FRAMES }
    ensures { result ≡ frame_of_burst channel number }
{
    let bursts = bursts_in_multiframe(channel);
    let place = number % bursts * u32::from(channel.channels_in_slot())
        + u32::from(channel.subchannel());
    number / bursts * 26 + (place + place / 12)
}

/// Which burst a burst is of the oldest block that it carries a half of.
pub(crate) fn index_in_oldest(channel: TrafficChannel, direction: Direction, number: u32) -> u32
    requires { number < FRAMES }
    ensures value { result ≡ index_in_oldest channel direction number }
    ensures within { result < facch_bursts channel }
{
    let since = (number + 4 - u32::from(channel.first_facch_burst(direction))) % 4;
    if since + 4 < u32::from(channel.facch_bursts()) {
        since + 4
    } else {
        since
    }
}
