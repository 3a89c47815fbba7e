//! The steps of a sender: the next block begins, and a burst is written.
ghost use Rattle.std.specs.Prelude.{◌≡◌, ◌≢◌, ◌<◌, if◌then◌else◌, IfSome, IsTrue};
ghost use Rattle.um_slot.specs.tdma.declared.TheConstants.{HYPERFRAME as FRAMES};
ghost use Rattle.um_traffic.specs.Receivers.{burst_number, bursts_in_hyperframe};
ghost use Rattle.um_traffic.specs.Senders.{begun_next, first_of_four, has_half, index_of_four, is_late, is_next, is_shared};
ghost use Rattle.um_traffic.specs.Senders.{is_sender_in_range};
ghost use Rattle.um_traffic.specs.Senders.{moved_on, send_number, sender_settings_of, sent_burst, turned_to, with_block};
ghost use Rattle.um_traffic.specs.declared.senders.Sending.TheVariants as S;

use crate::numbers::{burst_number, bursts_after, bursts_in_hyperframe};
use crate::senders::{NO_BLOCK, Sending, SentBlock, TrafficSender};
use crate::settings::TrafficSettings;
use burst_map::BURST_BITS;
use half_bursts::write_other_than;
use um_slot::{Direction, HYPERFRAME, TrafficChannel, direction_of, traffic_channel_of};

impl TrafficSender {
    /// Returns what the sender is set to, or `None` if its state is not valid.
    pub fn settings(&self) -> Option<TrafficSettings>
        ensures value { result ≡ sender_settings_of self.now }
        ensures first { IfSome result (λ settings. self.now.first ≢ FRAMES → self.now.first < bursts_in_hyperframe settings.channel) }
    {
        let channel = traffic_channel_of(self.channel)?;
        let direction = direction_of(self.direction)?;
        if self.is_in_range(channel, direction) && self.tsc <= 7 {
            Some(TrafficSettings { channel, direction })
        } else {
            None
        }
    }

    fn is_in_range(&self, channel: TrafficChannel, direction: Direction) -> bool
        ensures value { result ≡ is_sender_in_range channel direction self.now }
        ensures first { IsTrue result → self.now.first ≢ FRAMES → self.now.first < bursts_in_hyperframe channel }
    {
        self.first == HYPERFRAME
            || (self.first < bursts_in_hyperframe(channel)
                && self.first % 4 == u32::from(channel.first_facch_burst(direction)))
    }

    /// Writes the traffic burst of a frame, whose number in the multiframe is `burst_in_multiframe`.
    pub(crate) fn send_at(
        &mut self,
        settings: &TrafficSettings,
        frame: u32,
        burst_in_multiframe: u8,
        burst: &mut [u8; BURST_BITS],
    ) -> Sending
        requires within { frame < FRAMES }
        requires first { self.old.first ≢ FRAMES → self.old.first < bursts_in_hyperframe settings.now.channel }
        ensures answer { result ≡
            (send_number settings.now (burst_number settings.now.channel frame burst_in_multiframe) self.old burst.old).answer }
        ensures burst { burst.new ≡
            (send_number settings.now (burst_number settings.now.channel frame burst_in_multiframe) self.old burst.old).burst }
        ensures state { self.new ≡
            (send_number settings.now (burst_number settings.now.channel frame burst_in_multiframe) self.old burst.old).sender }
    {
        let channel = settings.channel;
        let number = burst_number(channel, frame, burst_in_multiframe);
        let index = index_of_four(channel, settings.direction, number);
        let first = first_of_four(channel, settings.direction, number);
        if self.is_late(channel, first) {
            return Sending::Late;
        }
        self.turn_to(channel, first, index);
        self.write_halves(channel, index, burst)
    }

    /// Goes on to the four bursts from number `first` on, if these are others.
    fn turn_to(&mut self, channel: TrafficChannel, first: u32, index: u32)
        requires first { first < FRAMES }
        requires own { self.old.first ≢ FRAMES → self.old.first < bursts_in_hyperframe channel }
        ensures { self.new ≡ turned_to channel first index self.old }
    {
        if self.first != first {
            self.move_on(channel, first, index);
        }
    }

    /// Writes burst `index` of the four, if a block has a half in it.
    fn write_halves(
        &self,
        channel: TrafficChannel,
        index: u32,
        burst: &mut [u8; BURST_BITS],
    ) -> Sending
        requires { index < 4 }
        ensures answer { result ≡ (if has_half channel index self.now then S.Burst else S.Silence) }
        ensures burst { burst.new ≡ (if has_half channel index self.now then sent_burst channel index self.now else burst.old) }
    {
        if !self.has_half(channel, index) {
            return Sending::Silence;
        }
        self.write(channel, index, burst);
        Sending::Burst
    }

    fn is_late(&self, channel: TrafficChannel, first: u32) -> bool
        requires first { first < FRAMES }
        requires own { self.now.first ≢ FRAMES → self.now.first < bursts_in_hyperframe channel }
        ensures { result ≡ is_late channel first self.now }
    {
        self.first != HYPERFRAME
            && bursts_after(channel, self.first, first) > bursts_in_hyperframe(channel) / 2
    }

    fn is_next(&self, channel: TrafficChannel, first: u32) -> bool
        requires first { first < FRAMES }
        requires own { self.now.first ≢ FRAMES → self.now.first < bursts_in_hyperframe channel }
        ensures { result ≡ is_next channel first self.now }
    {
        self.first != HYPERFRAME && bursts_after(channel, self.first, first) == 4
    }

    fn move_on(&mut self, channel: TrafficChannel, first: u32, index: u32)
        requires first { first < FRAMES }
        requires own { self.old.first ≢ FRAMES → self.old.first < bursts_in_hyperframe channel }
        ensures { self.new ≡ moved_on channel first index self.old }
    {
        if self.is_next(channel, first) {
            self.before = self.begun;
        } else {
            self.before.kind = NO_BLOCK;
        }
        self.begin(index);
        self.first = first;
    }

    fn begin(&mut self, index: u32)
        ensures { self.new ≡ begun_next index self.old }
    {
        if index == 0 {
            self.begun = self.waiting;
            self.waiting.kind = NO_BLOCK;
        } else {
            self.begun.kind = NO_BLOCK;
        }
    }

    fn has_half(&self, channel: TrafficChannel, index: u32) -> bool
        requires { index < 4 }
        ensures { result ≡ has_half channel index self.now }
    {
        self.begun.kind != NO_BLOCK || (is_shared(channel, index) && self.before.kind != NO_BLOCK)
    }

    fn write(&self, channel: TrafficChannel, index: u32, burst: &mut [u8; BURST_BITS])
        requires { index < 4 }
        ensures { burst.new ≡ sent_burst channel index self.now }
    {
        *burst = [0; BURST_BITS];
        if is_shared(channel, index) {
            write_block(1, &self.before, index, burst);
            write_block(2, &self.begun, index, burst);
        } else {
            write_block(3, &self.begun, index, burst);
        }
    }
}

/// Which of the four bursts with which a block begins a traffic burst is.
fn index_of_four(channel: TrafficChannel, direction: Direction, number: u32) -> u32
    requires { number < FRAMES }
    ensures value { result ≡ index_of_four channel direction number }
    ensures within { result < 4 }
{
    (number + 4 - u32::from(channel.first_facch_burst(direction))) % 4
}

/// The number of the first of these.
fn first_of_four(channel: TrafficChannel, direction: Direction, number: u32) -> u32
    requires { number < FRAMES }
    ensures value { result ≡ first_of_four channel direction number }
    ensures within { result < FRAMES }
{
    let all = bursts_in_hyperframe(channel);
    (number + all - index_of_four(channel, direction, number)) % all
}

/// Whether a burst carries a half of the block that began four bursts before.
fn is_shared(channel: TrafficChannel, index: u32) -> bool
    requires { index < 4 }
    ensures { result ≡ is_shared channel index }
{
    index + 4 < u32::from(channel.facch_bursts())
}

/// Overwrites all of a burst but one half, if the block is sent.
fn write_block(half: u8, block: &SentBlock, index: u32, burst: &mut [u8; BURST_BITS])
    requires { index < 4 }
    ensures { burst.new ≡ with_block half block.now index burst.old }
{
    if block.kind != NO_BLOCK {
        write_other_than(half, &block.bursts[index as usize], burst);
    }
}
