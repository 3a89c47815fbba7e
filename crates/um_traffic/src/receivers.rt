//! The state of a receiver of a traffic channel, as plain data.
ghost use Rattle.std.specs.Prelude.{◌≡◌, ◌<◌, ◌≤◌, IsOk, IsSome, MatchOption, None, SomeIff};
ghost use Rattle.um_slot.specs.Numbers.{traffic_channel_of};
ghost use Rattle.um_slot.specs.Slots.{new_slot, restarted, settings_of};
ghost use Rattle.um_traffic.specs.Receivers.{EndsWith, Takes, new_traffic, sacch_timeslot, traffic_settings_of};

use burst_map::BURST_BITS;
use um_slot::{
    HYPERFRAME, Refusal, Slot, TrafficChannel, place_of_traffic_frame, traffic_channel_of,
};

/// A receiver of a traffic channel. A caller may copy it, or save and restore it; each call tests it.
#[repr(C)]
#[derive(Clone, Copy, PartialEq, Eq, Debug)]
pub struct Traffic {
    /// The receiver of the SACCH, set to that of a full rate channel which comes in the same frames. Its last frame and direction are also
    /// those of the traffic channel.
    pub sacch: Slot,
    /// The number of the first burst of the block that is being collected, counted in traffic bursts of the channel through the hyperframe,
    /// or 2,715,648 if none is.
    pub first: u32,
    /// The traffic channel, 0 to 2.
    pub channel: u8,
    /// Whether that block was finished; any value but 0 means yes. Its bursts are there until the next call.
    pub ended: u8,
    /// For each burst of the block 0, 1 if its frame was missed, or 2 if it came.
    pub came: [u8; 8],
    /// The bursts of the block, eight or, at half rate, six, with zeros where none came.
    pub bursts: [[i8; BURST_BITS]; 8],
}

/// A block of FACCH whose bursts were collected; they are those of the receiver.
#[derive(Clone, Copy, PartialEq, Eq, Debug)]
pub struct FinishedFacch {
    pub channel: TrafficChannel,
    /// The frame number of the first burst.
    pub first: u32,
    /// How many of its bursts came.
    pub heard: u8,
}

/// What a traffic frame brought.
#[derive(Clone, Copy, PartialEq, Eq, Debug)]
pub enum Heard {
    /// The frame was taken, and no block is complete.
    Taken,
    /// The frame was taken, and completes a block.
    Finished(FinishedFacch),
    /// A block ended before this frame, since its last bursts never came. The frame is not taken yet.
    Earlier(FinishedFacch),
}

impl Traffic {
    /// Returns a receiver that has taken no frame, or `None` if a number is out of range. `words` is 1 to 64, `erasures` 0 to 4.
    pub fn new(channel: u8, direction: u8, timeslot: u8, words: u8, erasures: u8) -> Option<Traffic>
        ensures { MatchOption (traffic_channel_of channel) (result ≡ None) (λ known.
            let sacch = new_slot 3 direction (sacch_timeslot known timeslot) words erasures in
            SomeIff result ((timeslot < 8) × IsSome (settings_of sacch)) (new_traffic sacch channel)) }
    {
        let known = traffic_channel_of(channel)?;
        if timeslot >= 8 {
            return None;
        }
        let timeslot = sacch_timeslot(known, timeslot);
        let sacch = Slot::new(3, direction, timeslot, words, erasures)?;
        Some(Traffic::of_sacch(&sacch, channel))
    }

    /// Returns a receiver with the settings of this one that has taken no frame, or `None` if a setting is out of range.
    pub fn restarted(&self) -> Option<Traffic>
        ensures { let made = new_traffic (restarted self.now.sacch) self.now.channel in
            SomeIff result (IsSome (traffic_settings_of made)) made }
    {
        let sacch = self.sacch.restarted()?;
        let traffic = Traffic::of_sacch(&sacch, self.channel);
        if traffic.settings().is_some() {
            Some(traffic)
        } else {
            None
        }
    }

    fn of_sacch(sacch: &Slot, channel: u8) -> Traffic
        ensures { result ≡ new_traffic sacch.now channel }
    {
        Traffic {
            sacch: *sacch,
            first: HYPERFRAME,
            channel,
            ended: 0,
            came: [0; 8],
            bursts: [[0; BURST_BITS]; 8],
        }
    }

    /// Takes the burst of a frame (`came` 1), or misses it (`came` 0, and the burst is zeros). Returns `None`, and changes nothing, if the
    /// frame is none of the traffic channel: it is for the receiver of the SACCH.
    pub fn take(
        &mut self,
        frame: u32,
        burst: &[i8; BURST_BITS],
        came: u8,
    ) -> Result<Option<Heard>, Refusal>
        requires { came ≤ 1 }
        ensures takes { Takes self.old frame came burst.now result self.new }
        ensures valid { IsOk result → (1 ≤ self.old.sacch.words) × (self.old.sacch.words ≤ 64) × (self.old.sacch.erasures ≤ 4) }
    {
        let Some(settings) = self.settings() else {
            return Err(Refusal::Invalid);
        };
        if let Some(refusal) = self.sacch.frame_refusal(frame) {
            return Err(refusal);
        }
        match place_of_traffic_frame(settings.channel, settings.direction, frame) {
            Some(place) => Ok(Some(self.take_at(&settings, frame, place.burst, burst, came))),
            None => Ok(None),
        }
    }

    /// Ends the block that is being collected, if there is one, at once. Calls until `Taken` end them all.
    pub fn end(&mut self) -> Result<Heard, Refusal>
        ensures ends { EndsWith (traffic_settings_of self.old) self.old result self.new }
        ensures valid { IsOk result → (1 ≤ self.old.sacch.words) × (self.old.sacch.words ≤ 64) × (self.old.sacch.erasures ≤ 4) }
    {
        let Some(settings) = self.settings() else {
            return Err(Refusal::Invalid);
        };
        self.collect(settings.channel);
        Ok(self.end_block(settings.channel))
    }
}

/// The time slot in which the SACCH of a full rate channel comes where that of this channel does.
fn sacch_timeslot(channel: TrafficChannel, timeslot: u8) -> u8
    requires { timeslot < 8 }
    ensures { result ≡ sacch_timeslot channel timeslot }
{
    timeslot / channel.channels_in_slot() * channel.channels_in_slot() + channel.subchannel()
}
