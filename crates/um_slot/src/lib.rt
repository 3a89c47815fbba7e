//! A receiver of one time slot: collects the bursts of each block by their frame numbers.
#![tactic(auto)]

mod accepting;
mod laws;
mod numbers;
mod restarting;
mod settings;
mod slots;
mod softening;
mod steps;

pub use accepting::AcceptedFrame;
pub use burst_map::BURST_BITS;
pub use laws::law_each_block_is_reported_once;
pub use numbers::{channel_number, channel_of, combination_of, direction_of, traffic_channel_of};
pub use settings::Settings;
pub use slots::{FinishedBlock, NO_LIMIT, Refusal, Slot};
pub use softening::{softened, softened_burst};
pub use tdma::{
    Channel, Combination, Direction, FrameTime, HYPERFRAME, Place, Position, SchInfo,
    TrafficChannel, TrafficPlace, bits_of_bsic, bits_of_ra, bits_of_sch, bsic_of_bits,
    frame_of_time, next_block, next_facch_block, place_of_frame, place_of_traffic_frame,
    ra_of_bits, sch_of_bits, time_of_frame,
};
