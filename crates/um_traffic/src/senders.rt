//! The state of a sender of a traffic channel, as plain data.
ghost use Rattle.std.specs.Prelude.{◌≡◌, ◌≢◌, ◌↔◌, IsTrue, IsSome, SomeIff};
ghost use Rattle.um_traffic.specs.Senders.{given, new_sender, send, sender_settings_of};

use burst_map::BURST_BITS;
use um_slot::{HYPERFRAME, place_of_traffic_frame};

/// The kind of a block that is not sent.
pub const NO_BLOCK: u8 = 0;

/// The kind of a block of FACCH.
pub const FACCH_BLOCK: u8 = 2;

/// A block of a sender.
#[repr(C)]
#[derive(Clone, Copy, PartialEq, Eq, Debug)]
pub struct SentBlock {
    /// 0 no block, 2 FACCH, any other value other traffic.
    pub kind: u8,
    /// The four joined bursts.
    pub bursts: [[u8; BURST_BITS]; 4],
}

/// A sender of a traffic channel. A caller may copy it, or save and restore it; each call tests it.
#[repr(C)]
#[derive(Clone, Copy, PartialEq, Eq, Debug)]
pub struct TrafficSender {
    /// The number of the traffic burst with which the block `begun` began, counted through the hyperframe, or 2,715,648 if no burst was
    /// asked for.
    pub first: u32,
    /// The traffic channel, 0 to 2.
    pub channel: u8,
    /// The direction: 0 downlink, 1 uplink.
    pub direction: u8,
    /// The training sequence code of blocks of FACCH, 0 to 7.
    pub tsc: u8,
    /// The block that begins next.
    pub waiting: SentBlock,
    /// The block that began with the burst `first`.
    pub begun: SentBlock,
    /// The block that began four bursts before that one.
    pub before: SentBlock,
}

/// What a sender answers when it is asked for a burst.
#[derive(Clone, Copy, PartialEq, Eq, Debug)]
pub enum Sending {
    /// The burst.
    Burst,
    /// No block has a half in the burst: nothing is to be sent.
    Silence,
    /// The frame is none of the traffic channel.
    Unplaced,
    /// The numbers in the sender are out of range.
    Invalid,
    /// There is no such frame number.
    NoFrame,
    /// The frame is before those of the blocks that are being sent.
    Late,
}

impl TrafficSender {
    /// Returns a sender that has no block, or `None` if a number is out of range.
    pub fn new(channel: u8, direction: u8, tsc: u8) -> Option<TrafficSender>
        ensures { let sender = new_sender channel direction tsc in SomeIff result (IsSome (sender_settings_of sender)) sender }
    {
        let none = SentBlock {
            kind: NO_BLOCK,
            bursts: [[0; BURST_BITS]; 4],
        };
        let sender = TrafficSender {
            first: HYPERFRAME,
            channel,
            direction,
            tsc,
            waiting: none,
            begun: none,
            before: none,
        };
        if sender.settings().is_some() {
            Some(sender)
        } else {
            None
        }
    }

    /// Gives the block that begins next, in place of one that waits. Returns false, and changes nothing, if a block of FACCH waits: it goes
    /// before other traffic, and that is stolen.
    pub fn give(&mut self, kind: u8, block: &[[u8; BURST_BITS]; 4]) -> bool
        ensures taken { IsTrue result ↔ (self.old.waiting.kind ≢ FACCH_BLOCK) }
        ensures state { self.new ≡ given kind block.now self.old }
    {
        if self.waiting.kind == FACCH_BLOCK {
            return false;
        }
        self.waiting = SentBlock {
            kind,
            bursts: *block,
        };
        true
    }

    /// Writes the burst of a frame. The block that waits begins with it if a block begins in this frame. Any other answer writes nothing.
    pub fn send(&mut self, frame: u32, burst: &mut [u8; BURST_BITS]) -> Sending
        ensures answer { result ≡ (send frame self.old burst.old).answer }
        ensures burst { burst.new ≡ (send frame self.old burst.old).burst }
        ensures state { self.new ≡ (send frame self.old burst.old).sender }
    {
        let Some(settings) = self.settings() else {
            return Sending::Invalid;
        };
        if frame >= HYPERFRAME {
            return Sending::NoFrame;
        }
        match place_of_traffic_frame(settings.channel, settings.direction, frame) {
            Some(place) => self.send_at(&settings, frame, place.burst, burst),
            None => Sending::Unplaced,
        }
    }
}
