//! Reception of a block with a list decoder: the most likely words are tried in order of rank, and the first whose CRC is correct is taken.
//!
//! A receiver that decodes only the most likely word loses the block if its CRC fails. The functions of this crate try further words (list
//! Viterbi decoding: Seshadri and Sundberg, 1994) and take the most likely of all words whose CRC is correct. The list decoder runs only if
//! the CRC of the most likely word fails.
#![tactic(auto)]

mod blocks;
mod crc;
mod reports;
mod search;

pub use blocks::{receive_block_among, receive_deinterleaved_among, receive_later_among};
pub use list_decode::{MAX_RANK, margin};
pub use reports::ListDecodedBlock;
