//! A receiver of a traffic channel: collects the bursts that carry each block of FACCH by their frame numbers, beside the SACCH. A sender
//! of one: writes each burst from the halves of two blocks.
#![tactic(auto)]

mod collecting;
mod laws;
mod numbers;
mod receivers;
mod senders;
mod sending;
mod settings;
mod softening;

pub use laws::{law_each_facch_is_reported_once, law_given_block_is_carried};
pub use receivers::{FinishedFacch, Heard, Traffic};
pub use senders::{FACCH_BLOCK, NO_BLOCK, Sending, SentBlock, TrafficSender};
pub use settings::TrafficSettings;
pub use softening::soft_bursts;
pub use um_slot::Refusal;
