//! Receives a block of FACCH.
ghost use Rattle.std.specs.Prelude.{◌≡◌, ◌≤◌, ◌+◌, ℕ, ℤ, List, IsSome, Some, All, length, map, slice_index};
ghost use Rattle.half_bursts.specs.Halves.{AreCarried};
ghost use Rattle.um_block.specs.bit_blocks.SoftValues.{AllSoftBits};
ghost use Rattle.um_block.specs.weight_bound.Restoring.{IsCorrectable};
ghost use Rattle.um_block.specs.Restored.{IsErrorFreeBlock};
ghost use Rattle.um_block.specs.Sent.{IsCodedBlock};
ghost use Rattle.um_block.specs.Received.{soft_bits};
ghost use Rattle.um_block.specs.conv_code.Code.{IsEncoderInput};
ghost use Rattle.um_facch.specs.Facch.{IsListDecodedFacch, IsReceivedFacch, IsSentFacch};
ghost use Rattle.um_facch.specs.Training.{wrong_training_of_each};

use crate::training::{MAX_BURSTS, TrainingErrors, detect_training};
use half_bursts::join;
use um_block::{BURST_BITS, CODED_BITS, Received, deinterleave_block, receive_detected};
use um_list_receive::{ListDecodedBlock, MAX_RANK, receive_later_among};

/// Decodes a block from its halves of the eight (full rate) or six bursts (half rate) that carry it, as `receive_block` does: to the most
/// likely encoder input. The training sequence is that of all bursts, and their wrong training bits are counted, at most 208 or 156.
pub fn receive(bursts: &[[i8; BURST_BITS]]) -> Received
    requires at_least { 4 ≤ length bursts.now }
    requires at_most { length bursts.now ≤ 8 }
    requires soft { All AllSoftBits bursts.now }
    ensures received { IsReceivedFacch bursts.now result }
    ensures only { (other : Received) → IsReceivedFacch bursts.now other → other ≡ result }
    ensures clean { (octets : List ℕ) (tsc : ℕ) (old sent : List (List ℕ)) → IsSentFacch octets tsc old sent →
        bursts.now ≡ map soft_bits sent → IsErrorFreeBlock octets tsc result }
    ensures restores { (octets c : List ℕ) (soft : List ℤ) → IsCodedBlock octets c → AreCarried soft bursts.now →
        IsCorrectable soft c → result.accepted ≡ Some octets }
{
    let mut wrong_training = [0; MAX_BURSTS];
    receive_carried(
        bursts,
        &deinterleave_block(&join(bursts)),
        &mut wrong_training,
    )
}

/// Decodes a block from its halves of the bursts that carry it, as `receive_block_among` does: takes the first of the `max_rank` most
/// likely words, 1 to 64, whose CRC is correct.
pub fn receive_among(bursts: &[[i8; BURST_BITS]], max_rank: u32) -> ListDecodedBlock
    requires at_least { 4 ≤ length bursts.now }
    requires at_most { length bursts.now ≤ 8 }
    requires soft { All AllSoftBits bursts.now }
    requires some_words { 1 ≤ max_rank }
    requires few_words { max_rank ≤ MAX_RANK }
    ensures received { IsListDecodedFacch bursts.now max_rank result }
    ensures only { (other : ListDecodedBlock) → IsListDecodedFacch bursts.now max_rank other → other ≡ result }
    ensures information { IsEncoderInput result.report.u }
    ensures first { (r : Received) → IsReceivedFacch bursts.now r → IsSome r.accepted → result ≡ record { report = r; rank = 1 } }
{
    let soft = deinterleave_block(&join(bursts));
    let report = receive_carried(bursts, &soft, &mut [0; MAX_BURSTS]);
    match report.accepted {
        Some(_) => ListDecodedBlock { report, rank: 1 },
        None => receive_later_among(&soft, &report, max_rank),
    }
}

/// Decodes the coded soft bits of a block that these bursts carry to the most likely word, and writes the number of wrong training bits of
/// each burst.
#[inline]
pub fn receive_carried(
    bursts: &[[i8; BURST_BITS]],
    soft: &[i8; CODED_BITS],
    wrong_training: &mut [u8; MAX_BURSTS],
) -> Received
    requires soft { AllSoftBits soft.now }
    requires carried { AreCarried soft.now bursts.now }
    ensures received { IsReceivedFacch bursts.now result }
    ensures wrong { wrong_training.new ≡ wrong_training_of_each bursts.now result.tsc }
    ensures few { All (λ wrong. wrong ≤ 26) wrong_training.new }
{
    let TrainingErrors { tsc, wrong } = detect_training(bursts);
    *wrong_training = wrong;
    receive_detected(soft, tsc, sum_of_eight(&wrong))
}

fn sum_of_eight(wrong: &[u8; MAX_BURSTS]) -> u32
    requires { All (λ wrong. wrong ≤ 26) wrong.now }
    ensures { result ≡ ((((((slice_index wrong.now 0 + slice_index wrong.now 1) + slice_index wrong.now 2) + slice_index wrong.now 3)
        + slice_index wrong.now 4) + slice_index wrong.now 5) + slice_index wrong.now 6) + slice_index wrong.now 7 }
{
    u32::from(wrong[0])
        + u32::from(wrong[1])
        + u32::from(wrong[2])
        + u32::from(wrong[3])
        + u32::from(wrong[4])
        + u32::from(wrong[5])
        + u32::from(wrong[6])
        + u32::from(wrong[7])
}
