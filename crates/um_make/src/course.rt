//! Keeps track of how far a generated session has proceeded.
ghost use Rattle.std.specs.Prelude.{◌≡◌, ◌≤◌, ◌<◌, ◌+◌, ◌%◌, ℕ, [], ◌∷◌, map, length, MatchOption};
ghost use Rattle.std.specs.Prelude.{IfSome, All};
ghost use Rattle.std.specs.List.{range_with_len};
ghost use Rattle.um_link.specs.lapdm_link.Events.{other};
ghost use Rattle.um_link.specs.Naming.{spec_event_of, spec_role_of, sender_of};
ghost use Rattle.um_link.specs.Possible.{IsPossibleEvent};
ghost use Rattle.um_link.specs.Queues.{AreBitIndices};
ghost use Rattle.um_make.specs.declared.course.SessionStage.TheVariants as S;
ghost use Rattle.um_make.specs.Generated.{generated_events, message_length, message, message_segment_count, inverted_bits, sender};

use um_link::{Air, Call, End, Event, Sapi, Way};
use um_script::Room;

#[derive(Clone, Copy)]
pub(crate) enum SessionStage {
    /// Layer 3 of the mobile asks to establish the link.
    Opening,
    /// The mobile's SABM arrives at the network.
    SabmInTransit,
    /// The network's UA arrives at the mobile.
    UaInTransit,
    /// The next segment or, if none is left, the next message is sent.
    SendNext,
    /// The response to a segment arrives.
    SegmentReplyInTransit,
    /// A segment was lost, so T200 of its sender expires.
    SegmentLost,
}

#[derive(Drop)]
pub(crate) struct SessionProgress {
    stage: SessionStage,
    /// How many messages have not been sent yet.
    messages_left: u32,
    /// The number of the message that was sent last; 0 before the first.
    message_number: u32,
    /// How many segments of the current message have not arrived yet.
    segments_left: u32,
    /// How many transmissions of segments have begun.
    segment_transmissions: u32,
}

impl SessionProgress {
    ghost use Rattle.um_make.specs.Courses.{remaining_events, HasBoundedTransmissions};

    pub(crate) fn new(message_count: u32) -> SessionProgress
        requires { message_count ≤ 1000 }
        ensures all { remaining_events result ≡ generated_events message_count }
        ensures bounded { HasBoundedTransmissions result }
    {
        SessionProgress {
            stage: SessionStage::Opening,
            messages_left: message_count,
            message_number: 0,
            segments_left: 0,
            segment_transmissions: 0,
        }
    }

    pub(crate) fn next<'a>(&mut self, room: &'a mut Room) -> Option<Event<'a>>
        requires { HasBoundedTransmissions self.old }
        ensures event { MatchOption result ((remaining_events self.old ≡ []) × (remaining_events self.new ≡ []))
            (λ e. remaining_events self.old ≡ spec_event_of e ∷ remaining_events self.new) }
        ensures possible { IfSome result (λ e. IsPossibleEvent e) }
        ensures bounded { HasBoundedTransmissions self.new }
    {
        match self.stage {
            SessionStage::Opening => {
                self.stage = SessionStage::SabmInTransit;
                Some(Event::Open(&[1]))
            }
            SessionStage::SabmInTransit => {
                self.stage = SessionStage::UaInTransit;
                Some(Event::Air(Way::Up, Air::Deliver))
            }
            SessionStage::UaInTransit => {
                self.stage = SessionStage::SendNext;
                Some(Event::Air(Way::Down, Air::Deliver))
            }
            SessionStage::SegmentReplyInTransit => {
                self.stage = SessionStage::SendNext;
                Some(Event::Air(self.reply_direction(), Air::Deliver))
            }
            SessionStage::SegmentLost => {
                self.stage = SessionStage::SendNext;
                Some(Event::End(self.sender(), Sapi::Zero, Call::Timer))
            }
            SessionStage::SendNext => self.next_transmission_event(room),
        }
    }

    /// Returns the first event of the next transmission or, if no segment is left, the event that sends the next message.
    fn next_transmission_event<'a>(&mut self, room: &'a mut Room) -> Option<Event<'a>>
        requires bounded { HasBoundedTransmissions self.old }
        requires stage { self.old.stage ≡ S.SendNext }
        ensures event { MatchOption result ((remaining_events self.old ≡ []) × (remaining_events self.new ≡ []))
            (λ e. remaining_events self.old ≡ spec_event_of e ∷ remaining_events self.new) }
        ensures possible { IfSome result (λ e. IsPossibleEvent e) }
        ensures bounded { HasBoundedTransmissions self.new }
    {
        if self.segments_left > 0 {
            Some(self.segment_transmission(room))
        } else if self.messages_left > 0 {
            Some(self.send(room))
        } else {
            None
        }
    }

    /// Returns the first event of a transmission: the block of a segment arrives or is lost.
    fn segment_transmission<'a>(&mut self, room: &'a mut Room) -> Event<'a>
        requires bounded { HasBoundedTransmissions self.old }
        requires stage { self.old.stage ≡ S.SendNext }
        requires some { 0 < self.old.segments_left }
        ensures event { remaining_events self.old ≡ spec_event_of result ∷ remaining_events self.new }
        ensures possible { IsPossibleEvent result }
        ensures bounded { HasBoundedTransmissions self.new }
    {
        self.segment_transmissions += 1;
        let segment_direction = self.segment_direction();
        if self.segment_transmissions % 8 == 0 {
            self.stage = SessionStage::SegmentLost;
            return Event::Air(segment_direction, Air::Lose);
        }
        self.segments_left -= 1;
        self.stage = SessionStage::SegmentReplyInTransit;
        if self.segment_transmissions % 8 == 4 {
            let inverted_bits = inverted_bits(self.segment_transmissions);
            return Event::Air(
                segment_direction,
                Air::Flip(room.hold_places(&inverted_bits)),
            );
        }
        Event::Air(segment_direction, Air::Deliver)
    }

    fn send<'a>(&mut self, room: &'a mut Room) -> Event<'a>
        requires bounded { HasBoundedTransmissions self.old }
        requires stage { self.old.stage ≡ S.SendNext }
        requires none { self.old.segments_left ≡ 0 }
        requires some { 0 < self.old.messages_left }
        ensures event { remaining_events self.old ≡ spec_event_of result ∷ remaining_events self.new }
        ensures possible { IsPossibleEvent result }
        ensures bounded { HasBoundedTransmissions self.new }
    {
        self.messages_left -= 1;
        self.message_number += 1;
        let size = message_octet_count(self.message_number);
        self.segments_left = (size - 1) / 20 + 1;
        let octets = message_octets(self.message_number);
        let message = room.hold_octets(&octets[..size as usize]);
        Event::End(self.sender(), Sapi::Zero, Call::Send(message))
    }

    fn sender(&self) -> End
        ensures { spec_role_of result ≡ sender self.now.message_number }
    {
        if self.message_number % 2 == 1 {
            End::Mobile
        } else {
            End::Network
        }
    }

    fn segment_direction(&self) -> Way
        ensures { sender_of result ≡ sender self.now.message_number }
    {
        match self.sender() {
            End::Mobile => Way::Up,
            End::Network => Way::Down,
        }
    }

    fn reply_direction(&self) -> Way
        ensures { sender_of result ≡ other (sender self.now.message_number) }
    {
        match self.sender() {
            End::Mobile => Way::Down,
            End::Network => Way::Up,
        }
    }
}

fn message_octet_count(message_number: u32) -> u32
    requires { message_number ≤ 1000 }
    ensures size { result ≡ message_length message_number }
    ensures some { 1 ≤ result }
    ensures most { result ≤ 251 }
{
    1 + 37 * message_number % 251
}

/// The octets of message `number`, continued by the same rule up to 251 octets.
fn message_octets(number: u32) -> [u8; 251]
    requires { number ≤ 1000 }
    ensures { result ≡ map (λ j. (number + j) % 256) (range_with_len 0 251) }
{
    let mut octets = [0; 251];
    for j in 0..251 {
        octets[j] = ((number + j as u32) % 256) as u8;
    }
    octets
}

/// The indices of the three bits that are inverted in this transmission.
fn inverted_bits(segment_transmission: u32) -> [u16; 3]
    requires size { segment_transmission ≤ 30000 }
    requires inverted_transmission { segment_transmission % 8 ≡ 4 }
    ensures inverted_bits { result ≡ inverted_bits segment_transmission }
    ensures within { AreBitIndices result }
{
    let first = 7 * segment_transmission;
    [
        (first % 592) as u16,
        ((first + 1) % 592) as u16,
        ((first + 50) % 592) as u16,
    ]
}
