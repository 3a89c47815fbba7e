//! The fast associated control channels at full and half rate (FACCH, GSM 05.03, today 3GPP TS 45.003, sections 4.2 and 4.3): blocks of 23
//! octets in halves of the bursts of a traffic channel, eight at full rate and six at half rate.
#![tactic(auto)]

mod receiving;
mod sending;
mod training;

pub use half_bursts::{join, steal, stealing_sum, wrong_flags};
pub use receiving::{receive, receive_among, receive_carried};
pub use sending::send;
pub use training::{MAX_BURSTS, TrainingErrors, detect_training};
