//! Receives blocks with a list decoder: takes the first of the most likely words whose CRC is correct.
ghost use Rattle.std.specs.Prelude.{◌≡◌, ◌≢◌, ◌≤◌, ◌↔◌, ℕ, ℤ, All, IsNone, IsSome, List, map, None};
ghost use Rattle.um_block.specs.bit_blocks.SoftValues.{AllSoftBits};
ghost use Rattle.um_block.specs.conv_code.Code.{IsEncoderInput, encoding};
ghost use Rattle.um_block.specs.conv_code.Likelihood.{IsMostLikely, RanksAfter, likelihood};
ghost use Rattle.um_block.specs.interleave.Bursts.{IsInterleaved};
ghost use Rattle.list_decode.specs.Ranking.{IsCandidate};
ghost use Rattle.um_block.specs.Received.{IsReceivedBlock, coded_soft_bits};
ghost use Rattle.um_list_receive.specs.ListDecoding.{BlockCrcHolds, IsBlockChoice, IsListDecodedBlock, NoCrcHolds};

use crate::reports::ListDecodedBlock;
use crate::search::first_crc_match;
use list_decode::MAX_RANK;
use um_block::{
    BURST_BITS, Bits, CODED_BITS, ENCODER_INPUT_BITS, Received, deinterleave_block,
    octets_if_crc_holds, receive_deinterleaved,
};

/// Receives the four bursts of a block: takes the first of the `max_rank` most likely words whose CRC is correct. `max_rank` is 1 to 64.
///
/// The CRC of a word that was not sent is correct by chance with probability 2^-40 for each word tried. With 64 words, this happens about
/// once in 17 billion lost blocks.
pub fn receive_block_among(bursts: &[[i8; BURST_BITS]; 4], max_rank: u32) -> ListDecodedBlock
    requires soft { All AllSoftBits bursts.now }
    requires at_least { 1 ≤ max_rank }
    requires at_most { max_rank ≤ MAX_RANK }
    ensures received { IsListDecodedBlock bursts.now max_rank result }
    ensures only { (other : ListDecodedBlock) → IsListDecodedBlock bursts.now max_rank other → other ≡ result }
    ensures best { IsSome result.report.accepted → (soft : List ℤ) (v : List ℕ) →
        IsInterleaved soft (map coded_soft_bits bursts.now) → IsCandidate soft v → BlockCrcHolds v → v ≢ result.report.u →
        RanksAfter soft v result.report.u }
    ensures none { (soft : List ℤ) → IsInterleaved soft (map coded_soft_bits bursts.now) →
        (IsNone result.report.accepted ↔ NoCrcHolds BlockCrcHolds soft max_rank) }
    ensures information { IsEncoderInput result.report.u }
    ensures first { (r : Received) → IsReceivedBlock bursts.now r → IsSome r.accepted → result ≡ record { report = r; rank = 1 } }
    ensures alone { result.rank ≡ 1 → IsReceivedBlock bursts.now result.report }
    ensures one { max_rank ≡ 1 → result.rank ≡ 1 }
{
    receive_deinterleaved_among(bursts, &deinterleave_block(bursts), max_rank)
}

/// Receives a block as `receive_block_among` does, with its coded soft bits already deinterleaved into `soft`. The contract states only
/// that the report meets its definition; the other guarantees of `receive_block_among` follow from this. The block is decoded once, as
/// `receive_block` does, and the search begins only if its CRC fails; so a block that is received well costs at most 1.05 times as much.
pub fn receive_deinterleaved_among(
    bursts: &[[i8; BURST_BITS]; 4],
    soft: &[i8; CODED_BITS],
    max_rank: u32,
) -> ListDecodedBlock
    requires soft { AllSoftBits soft.now }
    requires deinterleaved { IsInterleaved soft.now (map coded_soft_bits bursts.now) }
    requires at_least { 1 ≤ max_rank }
    requires at_most { max_rank ≤ MAX_RANK }
    ensures { IsListDecodedBlock bursts.now max_rank result }
{
    let report = receive_deinterleaved(bursts, soft);
    match report.accepted {
        Some(_) => ListDecodedBlock { report, rank: 1 },
        None => receive_later_among(soft, &report, max_rank),
    }
}

/// Receives a block as `receive_deinterleaved_among` does after `first`, the report of the most likely word, whose CRC is wrong.
#[cold]
pub fn receive_later_among(
    soft: &[i8; CODED_BITS],
    first: &Received,
    max_rank: u32,
) -> ListDecodedBlock
    requires soft { AllSoftBits soft.now }
    requires at_least { 1 ≤ max_rank }
    requires at_most { max_rank ≤ MAX_RANK }
    requires best { IsMostLikely soft.now first.now.u }
    requires metric { first.now.metric ≡ likelihood soft.now (encoding first.now.u) }
    requires fails { ¬ BlockCrcHolds first.now.u }
    requires refused { first.now.accepted ≡ None }
    ensures choice { IsBlockChoice soft.now max_rank result.rank result.report.u result.report.accepted }
    ensures metric { result.report.metric ≡ likelihood soft.now (encoding result.report.u) }
    ensures training { (result.report.tsc ≡ first.now.tsc) × (result.report.wrong_training ≡ first.now.wrong_training) }
{
    let mut u = [0; ENCODER_INPUT_BITS];
    u.copy_from_slice(first.u.as_slice());
    let Some(found) = first_crc_match(soft, first.metric, max_rank, &mut u) else {
        return ListDecodedBlock {
            report: *first,
            rank: 1,
        };
    };
    ListDecodedBlock {
        report: Received {
            u: Bits::from_array(u),
            metric: found.metric,
            tsc: first.tsc,
            wrong_training: first.wrong_training,
            accepted: octets_if_crc_holds(&u),
        },
        rank: found.rank,
    }
}
