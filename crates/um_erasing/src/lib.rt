//! Erasure decoding: a block whose CRC holds for no word is decoded again without its least trusted bursts.
#![tactic(auto)]

mod blocks;
mod facch;
mod laws;
mod training;

pub use blocks::{ErasingDecodedBlock, receive_first, receive_later_erasing, without_burst};
pub use facch::{ErasingDecodedFacch, join_without, receive_later_facch_erasing};
pub use laws::law_accepted_first_word_is_taken;
pub use training::{TrainingErrors, detect_training};
pub use um_list_receive::{ListDecodedBlock, MAX_RANK};
