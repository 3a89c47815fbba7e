//! The layouts of bursts (GSM 05.02, today 3GPP TS 45.002, section 5.2): builds bursts from coded bits and a training sequence, and splits
//! received bursts into their parts.
#![tactic(auto)]

mod access_burst;
mod laws;
mod lending;
mod normal_burst;
mod normal_parts;
mod place;
mod sync_burst;

pub use access_burst::{AccessView, access, access_sequence};
pub use laws::law_burst_halves_fill_in_any_order;
pub use normal_burst::{NormalView, normal};
pub use normal_parts::NormalParts;
pub use sync_burst::{SyncView, sync, sync_sequence};

/// The number of bits in a normal burst, and also in a synchronisation burst.
pub const BURST_BITS: usize = 148;
