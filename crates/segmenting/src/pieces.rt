//! Cuts messages into segments.

ghost use Rattle.std.specs.Prelude.{◌≡◌, ◌<◌, ◌≤◌, length};
ghost use Rattle.lapdm_frame.specs.Layout.{n201};
ghost use Rattle.segmenting.specs.Segments.{max_message_octets};

use lapdm_frame::Channel;

/// A segment: the part of a message that one I frame carries.
#[derive(Clone, Copy, PartialEq, Eq, Debug)]
pub struct Piece<'a> {
    pub octets: &'a [u8],
    /// The M bit: the message continues in the next segment.
    pub more: bool,
}

/// All segments of a message. They borrow their octets from the message.
#[derive(Clone, Copy, Debug)]
pub struct Pieces<'a> {
    message: &'a [u8],
    channel: Channel,
    ghost nonempty: { 1 ≤ length message.now },
    ghost at_most: { length message.now ≤ max_message_octets },
}

impl<'a> Pieces<'a> {
    ghost use Rattle.std.specs.Prelude.{slice_get, Some};
    ghost use Rattle.segmenting.specs.Segments.{segments, max_segments_per_message};
    ghost use Rattle.segmenting.specs.Cuttings.{segments_of_pieces, channel_of_pieces, SegmentIsBorrowed};

    /// Returns the segments of the message for SDCCH, of at most 20 octets each.
    pub fn new(message: &'a [u8]) -> Pieces<'a>
        requires some { 1 ≤ length message.now }
        requires most { length message.now ≤ max_message_octets }
        ensures pieces { segments_of_pieces result ≡ segments (n201 Channel.Sdcch) message.now }
        ensures channel { channel_of_pieces result ≡ Channel.Sdcch }
    {
        Pieces::new_on(message, Channel::Sdcch)
    }

    /// Returns the segments of the message for `channel`, of at most N201 octets each: 20 on SDCCH, 18 on SACCH.
    pub fn new_on(message: &'a [u8], channel: Channel) -> Pieces<'a>
        requires some { 1 ≤ length message.now }
        requires most { length message.now ≤ max_message_octets }
        ensures pieces { segments_of_pieces result ≡ segments (n201 channel) message.now }
        ensures channel { channel_of_pieces result ≡ channel }
    {
        Pieces { message, channel }
    }

    /// Returns the number of segments: at most 13 on SDCCH, 14 on SACCH.
    pub fn count(&self) -> usize
        ensures count { result ≡ length (segments_of_pieces self.now) }
        ensures some { 1 ≤ result }
        ensures most { result ≤ max_segments_per_message (channel_of_pieces self.now) }
    {
        (self.message.len() - 1) / self.channel.n201() + 1
    }

    /// Returns the segment with index `i`, counted from 0.
    pub fn piece(&self, i: usize) -> Piece<'a>
        requires { i < length (segments_of_pieces self.now) }
        ensures value { slice_get (segments_of_pieces self.now) i ≡ Some (result.octets.now, result.more) }
        ensures borrowed { SegmentIsBorrowed self.now i result.octets }
    {
        let most = self.channel.n201();
        let start = i * most;
        let left = self.message.len() - start;
        Piece {
            octets: &self.message[start..start + left.min(most)],
            more: most < left,
        }
    }
}
