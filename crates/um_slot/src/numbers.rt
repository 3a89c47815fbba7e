//! The numbers that stand for combinations, directions and channels in plain data.
ghost use Rattle.std.specs.Prelude.{◌≡◌};
ghost use Rattle.um_slot.specs.Numbers.{channel_number, channel_of, combination_of, direction_of, is_channel_of_blocks};
ghost use Rattle.um_slot.specs.Numbers.{slot_combination_of, traffic_channel_of};

use tdma::{Channel, Combination, Direction, TrafficChannel};

/// Returns the combination with this number, 0 to 4.
pub fn combination_of(number: u8) -> Option<Combination>
    ensures { result ≡ combination_of number }
{
    match number {
        0 => Some(Combination::BcchCcch),
        1 => Some(Combination::BcchCcchSdcch4),
        2 => Some(Combination::Sdcch8),
        3 => Some(Combination::TchF),
        4 => Some(Combination::TchH),
        _ => None,
    }
}

/// Returns the combination with this number, 0 to 3, if the blocks of its time slot come one after another.
pub(crate) fn slot_combination_of(number: u8) -> Option<Combination>
    ensures { result ≡ slot_combination_of number }
{
    if number == 4 {
        return None;
    }
    combination_of(number)
}

/// Returns the direction with this number: 0 downlink, 1 uplink.
pub fn direction_of(number: u8) -> Option<Direction>
    ensures { result ≡ direction_of number }
{
    match number {
        0 => Some(Direction::Downlink),
        1 => Some(Direction::Uplink),
        _ => None,
    }
}

/// Returns the channel with this number, 0 to 6.
pub fn channel_of(number: u8) -> Option<Channel>
    ensures { result ≡ channel_of number }
{
    match number {
        0 => Some(Channel::Sdcch),
        1 => Some(Channel::Sacch),
        2 => Some(Channel::Bcch),
        3 => Some(Channel::Ccch),
        4 => Some(Channel::Fcch),
        5 => Some(Channel::Sch),
        6 => Some(Channel::Rach),
        _ => None,
    }
}

/// Returns the number of a channel, 0 to 6.
pub fn channel_number(channel: Channel) -> u8
    ensures { result ≡ channel_number channel }
{
    match channel {
        Channel::Sdcch => 0,
        Channel::Sacch => 1,
        Channel::Bcch => 2,
        Channel::Ccch => 3,
        Channel::Fcch => 4,
        Channel::Sch => 5,
        Channel::Rach => 6,
    }
}

pub(crate) fn is_channel_of_blocks(channel: Channel) -> bool
    ensures { result ≡ is_channel_of_blocks channel }
{
    match channel {
        Channel::Sdcch | Channel::Sacch | Channel::Bcch | Channel::Ccch => true,
        Channel::Fcch | Channel::Sch | Channel::Rach => false,
    }
}

/// Returns the traffic channel with this number, 0 to 2.
pub fn traffic_channel_of(number: u8) -> Option<TrafficChannel>
    ensures { result ≡ traffic_channel_of number }
{
    match number {
        0 => Some(TrafficChannel::FullRate),
        1 => Some(TrafficChannel::HalfRate0),
        2 => Some(TrafficChannel::HalfRate1),
        _ => None,
    }
}
