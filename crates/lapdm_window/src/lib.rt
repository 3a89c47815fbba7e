//! Defines an endpoint of a data link (GSM 04.06, section 5) and implements its window, which sends messages in segments, at most one of
//! them outstanding, and reassembles received segments. Also defines the calls and notices of an endpoint. No call allocates memory.
#![tactic(auto)]

ghost use Rattle.std.specs.Prelude.{◌≡◌, ◌≤◌};
ghost use Rattle.lapdm_window.specs.Ends.{n200 as most_repeats};

mod effects;
mod held;
mod laws;
mod message;
mod window;

pub use effects::{Effects, Frames, Notices};
pub use laws::{
    law_at_most_two_frames_and_notices, law_endpoint_frames_fit_blocks, law_endpoint_stays_valid,
    law_message_acked_iff_segments_acked, law_notices_deliver_completed_messages,
};
pub use message::Message;
use segmenting::Channel;
pub use segmenting::{Joined, MessageBuffer, Piece, ReassemblyState};
use thiserror::Error;
pub use window::{LapdmWindowView, Window};

/// Returns N200 of GSM 04.06: how many times a frame is repeated before the link fails, for this channel and link state.
pub fn n200(channel: Channel, state: State) -> u8
    ensures value { result ≡ most_repeats channel state }
    ensures most { result ≤ 23 }
{
    match (channel, state) {
        (Channel::Sdcch, State::Open) => 23,
        _ => 5,
    }
}

/// The service access point identifier (SAPI) of a link.
#[derive(Clone, Copy, PartialEq, Eq, Debug)]
pub enum Sapi {
    /// Signalling.
    Zero,
    /// Short messages.
    Three,
}

/// The state of an endpoint.
#[derive(Clone, Copy, PartialEq, Eq, Debug)]
pub enum State {
    /// The initial state: the link is not established, and no SABM was sent.
    Idle,
    /// A SABM was sent, and the endpoint waits for the response.
    Opening,
    /// The link is established.
    Open,
    /// A DISC was sent, and the endpoint waits for the response.
    Closing,
    /// The link has ended. An endpoint never leaves this state.
    Closed,
}

/// Why a link is closed.
#[derive(Clone, Copy, PartialEq, Eq, Debug)]
pub enum Reason {
    /// The network established the link with another mobile (contention resolution).
    Contention,
    /// A frame was repeated N200 times without a response or an acknowledgement, or a DM was received in state Open.
    Failed,
    /// The other endpoint answered the SABM with a DM.
    Refused,
    /// One of the endpoints released the link.
    Released,
}

/// A report to layer 3: an indication or confirm primitive.
#[derive(Debug, Drop)]
pub enum Notice {
    /// The link is established; the UA or SABM that established it had this information.
    Opened(Message),
    /// A message was received in I frames.
    Got(Message),
    /// A message was received in a UI frame, which is not acknowledged.
    Unit(Message),
    /// All segments of a message are acknowledged. The field is the number of the message, counted from 1 and limited to the largest `u64`.
    Acked(u64),
    /// A received message had more than 251 octets and was discarded.
    Oversize,
    Closed(Reason),
}

// The default notice fills the unused elements of lists in other crates.
impl Default for Notice {
    fn default() -> Notice
        ensures { result ≡ Notice.Oversize }
    {
        Notice::Oversize
    }
}

/// A layer 3 call to an endpoint, or T200 expiry.
#[derive(Clone, Copy, Drop)]
pub enum Call<'a> {
    /// Establish the link of SAPI 0, with this information.
    Open(&'a [u8]),
    /// Establish the link of SAPI 3, without information.
    OpenBare,
    /// Send a message of 1 to 251 octets in acknowledged I frames.
    Send(&'a [u8]),
    /// Send a message of 1 to N201 octets in one unacknowledged UI frame.
    Unit(&'a [u8]),
    /// Release the link. Unacknowledged messages are discarded.
    Close,
    /// T200 expiry.
    Timer,
    /// Send the fill frame. It has SAPI 0, even if the endpoint has SAPI 3.
    Idle,
}

/// Why a call is refused. If several reasons apply, the call returns the first one that it tests. It tests the state first, so that to send
/// no octets before establishment is `NotOpen`.
#[derive(Clone, Copy, PartialEq, Eq, Debug, Error)]
pub enum Refused {
    /// The state is not Idle.
    #[error("the link was opened before")]
    NotIdle,
    /// The state is not Open.
    #[error("the link is not open")]
    NotOpen,
    /// No frame awaits a response or an acknowledgement, so T200 is not running.
    #[error("the timer T200 is not running: no frame awaits an answer")]
    NotRunning,
    /// The message has no octets.
    #[error("the message is empty, expected at least one octet")]
    Empty,
    /// The message has more than 251 octets, or more than N201 if it must fit in one frame.
    #[error("the message is too long: more than 251 octets, or more than N201 in one frame")]
    TooLong,
    /// Eight messages are not yet fully acknowledged.
    #[error("eight messages are not wholly acknowledged, the most that a link holds")]
    Full,
}

/// What a received N(R) acknowledges.
#[derive(Clone, Copy, PartialEq, Eq, Debug)]
pub enum Acked {
    Nothing,
    /// The N(R) acknowledges a segment that is not the last one of its message.
    Piece,
    /// The N(R) acknowledges the last segment of a message. The field is the number of this message, counted from 1.
    Message(u64),
}

/// The result of receiving a segment.
#[derive(Clone, Copy, PartialEq, Eq, Debug)]
pub enum Info {
    Accepted(Joined),
    /// The N(S) of the segment differs from V(R), so the segment is discarded.
    OutOfSequence {
        /// Whether a REJ must be sent.
        reject: bool,
    },
}

/// The result of T200 expiry for the outstanding segment.
#[derive(Clone, Copy, PartialEq, Eq, Debug)]
pub enum Timer {
    /// The outstanding segment must be sent again.
    Again,
    /// The outstanding segment was already repeated N200 times.
    Spent,
    /// No segment is outstanding.
    NotRunning,
}
