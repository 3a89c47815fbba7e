//! Time and channels on a GSM carrier (GSM 05.02, today 3GPP TS 45.002): frame numbers, the fields of a synchronisation burst (04.08, today
//! 3GPP TS 44.018), the bits of RA and BSIC, and the channel that each frame of a time slot carries.
#![tactic(auto)]

mod channels;
mod frames;
mod laws;
mod numbers;
mod places;
mod schedule;
mod sync;
mod traffic;

pub use channels::{Channel, Combination, Direction};
pub use frames::{FrameTime, frame_of_time, time_of_frame};
pub use laws::{
    law_blocks_share_no_frame, law_first_frame_begins_block, law_four_bursts_are_of_one_block,
    law_sch_bits_determine_frame,
};
pub use numbers::{bits_of_bsic, bits_of_ra, bsic_of_bits, ra_of_bits};
pub use places::{Place, next_block, place_of_frame};
pub use schedule::Position;
pub use sync::{SchInfo, bits_of_sch, sch_of_bits};
pub use traffic::{TrafficChannel, TrafficPlace, next_facch_block, place_of_traffic_frame};

/// The number of frames of a hyperframe: frame numbers are 0 to 2,715,647.
pub const HYPERFRAME: u32 = 2_715_648;
