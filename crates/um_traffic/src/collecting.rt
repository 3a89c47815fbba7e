//! The steps of a receiver: a block begins, a burst is put into it, and it ends.
ghost use Rattle.std.specs.Prelude.{◌≡◌, ◌≢◌, ◌<◌, ◌≤◌, ◌+◌, ◌%◌, ◌++◌, drop, if◌then◌else◌};
ghost use Rattle.std.specs.Prelude.{pos, replicate};
ghost use Rattle.um_slot.specs.tdma.Traffic.{facch_bursts};
ghost use Rattle.um_slot.specs.tdma.declared.TheConstants.{HYPERFRAME as FRAMES};
ghost use Rattle.um_traffic.specs.Receivers.{begun, burst_number, bursts_in_hyperframe, collecting, end_block, finished_facch};
ghost use Rattle.um_traffic.specs.Receivers.{heard_bursts, moved, none_came, put_burst, take_burst, with_burst};

use crate::numbers::{
    burst_number, bursts_after, bursts_in_hyperframe, frame_of_burst, index_in_oldest,
};
use crate::receivers::{FinishedFacch, Heard, Traffic};
use crate::settings::TrafficSettings;
use burst_map::BURST_BITS;
use um_slot::{Direction, HYPERFRAME, TrafficChannel};

impl Traffic {
    /// Takes the burst of a traffic frame, whose number in the multiframe is `burst_in_multiframe`.
    pub(crate) fn take_at(
        &mut self,
        settings: &TrafficSettings,
        frame: u32,
        burst_in_multiframe: u8,
        burst: &[i8; BURST_BITS],
        came: u8,
    ) -> Heard
        requires within { frame < FRAMES }
        requires came { came ≤ 1 }
        requires first { self.old.first ≢ FRAMES → self.old.first < bursts_in_hyperframe settings.now.channel }
        ensures heard { result ≡ (take_burst settings.now.channel settings.now.direction
            (burst_number settings.now.channel frame burst_in_multiframe) frame came burst.now self.old).heard }
        ensures state { self.new ≡ (take_burst settings.now.channel settings.now.direction
            (burst_number settings.now.channel frame burst_in_multiframe) frame came burst.now self.old).traffic }
    {
        let channel = settings.channel;
        let number = burst_number(channel, frame, burst_in_multiframe);
        self.collect(channel);
        self.begin(channel, settings.direction, number);
        let index = bursts_after(channel, self.first, number);
        self.put(channel, index, frame, burst, came)
    }

    /// Goes on to the next block if this one was finished.
    pub(crate) fn collect(&mut self, channel: TrafficChannel)
        requires { self.old.first ≢ FRAMES → self.old.first < bursts_in_hyperframe channel }
        ensures state { self.new ≡ collecting channel self.old }
        ensures first { self.new.first ≢ FRAMES → self.new.first < bursts_in_hyperframe channel }
    {
        if self.ended != 0 {
            self.move_on(channel);
        }
    }

    fn move_on(&mut self, channel: TrafficChannel)
        ensures state { self.new ≡ moved channel self.old }
        ensures first { self.new.first ≢ FRAMES → self.new.first < bursts_in_hyperframe channel }
    {
        let came = last_four(&self.came);
        self.first = self.first_of_next(channel, none_came(&came));
        self.ended = 0;
        self.came = [came[0], came[1], came[2], came[3], 0, 0, 0, 0];
        self.bursts = moved_bursts(&self.bursts);
    }

    fn first_of_next(&self, channel: TrafficChannel, none: bool) -> u32
        ensures value { result ≡ (if none then FRAMES else (self.now.first + 4) % bursts_in_hyperframe channel) }
        ensures first { result ≢ FRAMES → result < bursts_in_hyperframe channel }
    {
        if none {
            HYPERFRAME
        } else {
            ((u64::from(self.first) + 4) % u64::from(bursts_in_hyperframe(channel))) as u32
        }
    }

    /// Begins with the oldest block that a burst carries a half of, if no block is being collected.
    pub(crate) fn begin(&mut self, channel: TrafficChannel, direction: Direction, number: u32)
        requires number { number < FRAMES }
        requires first { self.old.first ≢ FRAMES → self.old.first < bursts_in_hyperframe channel }
        ensures state { self.new ≡ begun channel direction number self.old }
        ensures first { self.new.first < bursts_in_hyperframe channel }
    {
        if self.first == HYPERFRAME {
            let all = bursts_in_hyperframe(channel);
            self.first = (number + all - index_in_oldest(channel, direction, number)) % all;
        }
    }

    /// Puts a burst into the block by its index there, and finishes the block that it completes, or the one that it is past.
    pub(crate) fn put(
        &mut self,
        channel: TrafficChannel,
        index: u32,
        frame: u32,
        burst: &[i8; BURST_BITS],
        came: u8,
    ) -> Heard
        requires first { self.old.first < bursts_in_hyperframe channel }
        requires came { came ≤ 1 }
        ensures heard { result ≡ (put_burst channel index frame came burst.now self.old).heard }
        ensures state { self.new ≡ (put_burst channel index frame came burst.now self.old).traffic }
    {
        let last = u32::from(channel.facch_bursts()) - 1;
        if index > last {
            return Heard::Earlier(self.finish(channel));
        }
        self.sacch.last = frame;
        self.came[index as usize] = came + 1;
        self.bursts[index as usize] = *burst;
        if index == last {
            return Heard::Finished(self.finish(channel));
        }
        Heard::Taken
    }

    /// Finishes the block that is being collected, if there is one.
    pub(crate) fn end_block(&mut self, channel: TrafficChannel) -> Heard
        requires first { self.old.first ≢ FRAMES → self.old.first < bursts_in_hyperframe channel }
        ensures heard { result ≡ (end_block channel self.old).heard }
        ensures state { self.new ≡ (end_block channel self.old).traffic }
    {
        if self.first == HYPERFRAME {
            return Heard::Taken;
        }
        Heard::Earlier(self.finish(channel))
    }

    fn finish(&mut self, channel: TrafficChannel) -> FinishedFacch
        requires first { self.old.first < bursts_in_hyperframe channel }
        ensures block { result ≡ finished_facch channel self.old }
        ensures state { self.new ≡ record self.old { ended = 1 } }
    {
        self.ended = 1;
        FinishedFacch {
            channel,
            first: frame_of_burst(channel, self.first),
            heard: heard_bursts(&self.came),
        }
    }
}

#[tactic(auto, using(crate::proofs::Lists::last_four_of_eight))]
fn last_four(came: &[u8; 8]) -> [u8; 4]
    ensures { result ≡ drop 4 came.now }
{
    [came[4], came[5], came[6], came[7]]
}

#[tactic(auto, using(crate::proofs::Lists::last_four_bursts))]
fn moved_bursts(bursts: &[[i8; BURST_BITS]; 8]) -> [[i8; BURST_BITS]; 8]
    ensures { result ≡ drop 4 bursts.now ++ replicate 4 (replicate BURST_BITS (pos 0)) }
{
    let none = [0; BURST_BITS];
    [
        bursts[4], bursts[5], bursts[6], bursts[7], none, none, none, none,
    ]
}

fn none_came(came: &[u8; 4]) -> bool
    ensures { result ≡ none_came came.now }
{
    came[0] == 0 && came[1] == 0 && came[2] == 0 && came[3] == 0
}

fn heard_bursts(came: &[u8; 8]) -> u8
    ensures { result ≡ heard_bursts came.now }
{
    let mut heard = 0;
    for times in came {
        if *times == 2 {
            heard += 1;
        }
    }
    heard
}
