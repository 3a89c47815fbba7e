//! Blocks, access bursts and synchronisation bursts (GSM 05.03, today 3GPP TS 45.003): encodes information bits into bursts, and decodes
//! received bursts of soft bits.
#![tactic(auto)]

mod counting;
mod laws;
mod radio;
mod received;
mod receiving;
mod sending;
mod softening;

pub use bit_blocks::{
    BLOCK_BITS, BLOCK_OCTETS, Bits, CODED_BITS, ENCODER_INPUT_BITS, from_octets, to_octets,
};
pub use burst_map::{AccessView, BURST_BITS, SyncView};
pub use counting::{wrong_access_bits, wrong_block_bits, wrong_coded_bits, wrong_sync_bits};
pub use fire_code::{rach_holds, sch_holds, xcch_holds};
pub use laws::{
    law_coded_bits_are_at_burst_positions, law_coded_errors_at_most_burst_errors,
    law_computed_reports_are_those_of_reception,
};
pub use radio::{PlainRadio, Radio};
pub use received::{Received, ReceivedAccess, ReceivedSync};
pub use receiving::{
    access_bits_if_crc_holds, deinterleave_block, join_sync_halves, octets_if_crc_holds,
    receive_access, receive_block, receive_deinterleaved, receive_detected, receive_sync,
    sync_bits_if_crc_holds,
};
pub use sending::{send_access, send_block, send_sync};
pub use softening::{soften, soften_block};
