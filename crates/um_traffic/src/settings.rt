//! What a receiver is set to, and the test of its state.
ghost use Rattle.std.specs.Prelude.{◌≡◌, ◌≢◌, ◌<◌, ◌≤◌, IfSome, IsSome, IsTrue};
ghost use Rattle.um_traffic.specs.Receivers.{bursts_in_hyperframe, is_in_range, traffic_settings_of};
ghost use Rattle.um_slot.specs.tdma.declared.TheConstants.{HYPERFRAME as FRAMES};

use crate::numbers::bursts_in_hyperframe;
use crate::receivers::Traffic;
use um_slot::{Direction, HYPERFRAME, TrafficChannel, traffic_channel_of};

/// The channel and the direction of a receiver.
#[derive(Clone, Copy, PartialEq, Eq, Debug)]
pub struct TrafficSettings {
    pub channel: TrafficChannel,
    pub direction: Direction,
}

impl Traffic {
    /// Returns what the receiver is set to, or `None` if its state is not valid.
    pub fn settings(&self) -> Option<TrafficSettings>
        ensures value { result ≡ traffic_settings_of self.now }
        ensures order { IsSome result → self.now.sacch.last ≤ FRAMES }
        ensures decoding { IsSome result →
            (1 ≤ self.now.sacch.words) × (self.now.sacch.words ≤ 64) × (self.now.sacch.erasures ≤ 4) }
        ensures first { IfSome result (λ settings. self.now.first ≢ FRAMES → self.now.first < bursts_in_hyperframe settings.channel) }
    {
        let sacch = self.sacch.settings()?;
        let channel = traffic_channel_of(self.channel)?;
        if self.is_in_range(channel, sacch.direction) {
            Some(TrafficSettings {
                channel,
                direction: sacch.direction,
            })
        } else {
            None
        }
    }

    fn is_in_range(&self, channel: TrafficChannel, direction: Direction) -> bool
        ensures value { result ≡ is_in_range channel direction self.now }
        ensures first { IsTrue result → self.now.first ≢ FRAMES → self.now.first < bursts_in_hyperframe channel }
    {
        self.sacch.combination == 3
            && self.sacch.timeslot % channel.channels_in_slot() == channel.subchannel()
            && (self.first == HYPERFRAME
                || (self.first < bursts_in_hyperframe(channel)
                    && self.first % 4 == u32::from(channel.first_facch_burst(direction))))
    }
}
