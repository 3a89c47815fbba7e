//! The search for the first word whose CRC is correct.
ghost use Rattle.std.specs.Prelude.{◌≡◌, ◌*◌, ◌≤◌, MatchOption, length};
ghost use Rattle.um_block.specs.bit_blocks.SoftValues.{AllSoftBits};
ghost use Rattle.um_block.specs.conv_code.Code.{encoding, IsEncoderInput};
ghost use Rattle.um_block.specs.conv_code.Likelihood.{IsMostLikely, likelihood};
ghost use Rattle.um_list_receive.specs.ListDecoding.{BlockCrcHolds, IsFirstCrcMatch, NoCrcHolds};

use crate::crc::block_crc_holds;
use list_decode::{ListDecoder, MAX_RANK};

/// The rank of the word that was found, and its path metric.
#[derive(Clone, Copy)]
pub(crate) struct CrcMatch {
    pub(crate) rank: u32,
    pub(crate) metric: i32,
}

/// Replaces `u`, the most likely word, by the first of the `max_rank` most likely words whose CRC is correct. The CRC of the most likely
/// word must be wrong; `first_metric` is its path metric. Returns `None` if none of the CRCs is correct.
pub(crate) fn first_crc_match(
    soft: &[i8],
    first_metric: i32,
    max_rank: u32,
    u: &mut [u8],
) -> Option<CrcMatch>
    requires word_length { length u.old ≡ 228 }
    requires pairs { length soft.now ≡ 2 * length u.old }
    requires soft { AllSoftBits soft.now }
    requires best { IsMostLikely soft.now u.old }
    requires metric { first_metric ≡ likelihood soft.now (encoding u.old) }
    requires fails { ¬ BlockCrcHolds u.old }
    requires at_least { 1 ≤ max_rank }
    requires at_most { max_rank ≤ MAX_RANK }
    ensures { MatchOption result
        (NoCrcHolds BlockCrcHolds soft.now max_rank)
        (λ found. IsFirstCrcMatch BlockCrcHolds soft.now max_rank found.rank u.new
        × (found.metric ≡ likelihood soft.now (encoding u.new)) × IsEncoderInput u.new) }
{
    if max_rank == 1 {
        return None;
    }
    let mut ranked = ListDecoder::after_first(soft, u, first_metric);
    for tried in 1..max_rank {
        let metric = ranked.next(u)?;
        if block_crc_holds(u) {
            return Some(CrcMatch {
                rank: tried + 1,
                metric,
            });
        }
    }
    None
}
