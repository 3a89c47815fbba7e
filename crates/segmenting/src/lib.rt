//! Segmentation of messages into I frames, and their reassembly (GSM 04.06). A `Piece` is a segment; it borrows its octets from the
//! message. No call allocates memory.
#![tactic(auto)]

mod buffers;
mod joiner;
mod laws;
mod pieces;

pub use buffers::MessageBuffer;
pub use joiner::{Joined, Joiner, ReassemblyState};
pub use lapdm_frame::{BLOCK_OCTETS, Channel};
pub use laws::{
    law_messages_are_reassembled, law_segment_delivers_completed_message,
    law_segmentation_is_unique, law_segments_complete_messages_in_order,
};
pub use pieces::{Piece, Pieces};

/// The maximum length of a message, in octets.
pub const LONGEST_MESSAGE: usize = 251;
