//! The report of a receiver that tries more than one word (encoder input).

use um_block::Received;

/// The report of a block, and the rank of the word (encoder input) that was taken.
#[derive(Clone, Copy, PartialEq, Eq, Debug)]
pub struct ListDecodedBlock {
    /// The report, in the form that `receive_block` returns, for the word that was taken: the first whose CRC is correct, or the most
    /// likely word if the CRC of every word tried fails.
    pub report: Received,
    /// The rank of the word that was taken, 1 for the most likely word.
    pub rank: u32,
}
