//! An endpoint of a data link (GSM 04.06, section 5), in the mobile or the network. No call allocates memory.
#![tactic(auto)]

mod blocks;
mod calls;
mod ends;
mod link;
mod open;
mod parts;
mod replies;
mod sides;
mod taking;

pub use ends::Endpoint;
pub use lapdm_frame::{Body, Channel, FrameView, fits, fits_on, read};
pub use lapdm_window::{
    Call, Effects, Frames, LapdmWindowView, Message, MessageBuffer, Notice, Notices, Reason,
    ReassemblyState, Refused, Sapi, State,
};
pub use parts::EndpointView;
pub use sides::Side;

/// The side of an endpoint.
#[derive(Clone, Copy, PartialEq, Eq, Debug)]
pub enum Role {
    /// The mobile, whose commands have C/R 0.
    Mobile,
    /// The network, whose commands have C/R 1.
    Network,
}
