//! The eight training sequences (midambles) of the normal burst (GSM 05.02, today 3GPP TS 45.002, section 5.2.3), and the detection of the
//! sequence in a received block.
#![tactic(auto)]

mod choice;
mod correlation;
mod sequences;

pub use choice::{best, best_of_bursts, best_of_eight};
pub use correlation::correlate;
pub use sequences::sequence;
