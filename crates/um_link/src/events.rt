//! The events of a session between a mobile and a network, and their results.

ghost use Rattle.std.specs.Prelude.{◌≡◌, None, []};
ghost use Rattle.um_air.specs.lapdm_window.declared.Sapi.TheVariants as S;
ghost use Rattle.um_air.specs.lapdm_window.declared.Sapi.{Sapi as AnySapi};
ghost use Rattle.um_air.specs.lapdm_window.Ends.{Role as AnyRole};
ghost use Rattle.um_air.specs.lapdm_window.Calls.{endpoint_call_of, IsCallAllowedFor};
ghost use Rattle.um_air.specs.lapdm_link.Events as E;
ghost use Rattle.um_link.specs.Naming.{spec_request_of};

use lapdm_end::{Call as EndCall, Effects, Sapi};
use thiserror::Error;
use um_block::Received;

/// The direction of blocks: up to the network, or down to the mobile.
#[derive(Clone, Copy, PartialEq, Eq, Debug)]
pub enum Way {
    Up,
    Down,
}

/// A side, mobile or network.
#[derive(Clone, Copy, PartialEq, Eq, Debug)]
pub enum End {
    Mobile,
    Network,
}

/// A layer 3 call that every endpoint supports, on either side and with either SAPI, or T200 expiry.
#[derive(Clone, Copy, Drop)]
pub enum Call<'a> {
    /// Send a message of 1 to 251 octets in I frames, which the other side acknowledges.
    Send(&'a [u8]),
    /// Send a message of 1 to N201 octets in one UI frame, which is not acknowledged.
    Unit(&'a [u8]),
    Close,
    /// T200 expiry.
    Timer,
    /// Send the fill frame. It has SAPI 0, even if the endpoint has SAPI 3.
    Idle,
}

impl<'a> Call<'a> {
    /// Converts this call into a call to a single endpoint (`lapdm_end::Call`).
    pub fn as_endpoint_call(self) -> EndCall<'a>
        ensures same { endpoint_call_of result ≡ E.endpoint_call_of (spec_request_of self.entry) }
        ensures any { (role : AnyRole) (sapi : AnySapi) → IsCallAllowedFor role sapi (endpoint_call_of result) }
    {
        match self {
            Call::Send(message) => EndCall::Send(message),
            Call::Unit(message) => EndCall::Unit(message),
            Call::Close => EndCall::Close,
            Call::Timer => EndCall::Timer,
            Call::Idle => EndCall::Idle,
        }
    }
}

/// What happens to the oldest block in transit in one direction.
#[derive(Clone, Copy, Drop)]
pub enum Air<'a> {
    Deliver,
    Lose,
    /// The block arrives with the bits at these indices inverted; an index that occurs twice leaves its bit unchanged. Index `p`, 0 to 591,
    /// is bit `p % 148` of burst `p / 148`.
    Flip(&'a [u16]),
}

/// An event of a session.
#[derive(Clone, Copy, Drop)]
pub enum Event<'a> {
    /// The mobile establishes SAPI 0, with this information for contention resolution.
    Open(&'a [u8]),
    /// A side establishes SAPI 3, without information.
    OpenBare(End),
    End(End, Sapi, Call<'a>),
    Air(Way, Air<'a>),
    /// Another mobile on the same channel sends a SABM for SAPI 0, with its own information.
    Rival(&'a [u8]),
}

/// Who acted in an event.
#[derive(Clone, Copy, PartialEq, Eq, Debug)]
pub enum Who {
    Mobile,
    Network,
    /// Another mobile on the same channel.
    Rival,
    /// Nobody acted, because a block was lost.
    Nobody,
}

/// The result of an event that is not refused.
#[derive(Debug, Drop)]
pub struct Step {
    pub who: Who,
    /// The SAPI of the endpoint that was called or that received the frame; SAPI 0 if no endpoint acted.
    pub sapi: Sapi,
    /// The report on the block that arrived, if one did.
    pub received: Option<Received>,
    pub effects: Effects,
}

impl Step {
    ghost use Rattle.um_link.specs.Naming.{spec_step_of};

    /// Creates a step in which nobody acts: nothing is sent, received or reported.
    pub fn new() -> Step
        ensures { spec_step_of result
            ≡ record { who = E.Nobody; sapi = S.Zero; received = None; frames = []; notices = [] } }
    {
        Step {
            who: Who::Nobody,
            sapi: Sapi::Zero,
            received: None,
            effects: Effects::new(),
        }
    }
}

/// Why an event is refused.
#[derive(Clone, Copy, PartialEq, Eq, Debug, Error)]
pub enum No {
    #[error("the link was opened before")]
    NotIdle,
    #[error("the link is not open")]
    NotOpen,
    #[error("the timer T200 is not running: no frame awaits an answer")]
    NotRunning,
    #[error("the message is empty, expected at least one octet")]
    Empty,
    #[error("the message is too long: more than 251 octets, or more than N201 in one frame")]
    TooLong,
    #[error("eight messages are not wholly acknowledged, the most that a link holds")]
    Full,
    /// No block is in transit in the direction of the event.
    #[error("no block is in transit in that direction")]
    Nothing,
    /// The queue to which the event would add its frames holds more than 62 blocks.
    #[error("more than 62 blocks are in transit in the direction in which the event sends")]
    AirFull,
}
