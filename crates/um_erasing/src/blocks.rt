//! Receives a block with a list decoder, and again without single bursts.
ghost use Rattle.std.specs.Prelude.{◌≡◌, ◌<◌, ◌≤◌, ◌+◌, All, IfSome, map, None};
ghost use Rattle.um_block.specs.bit_blocks.SoftValues.{AllSoftBits};
ghost use Rattle.um_block.specs.conv_code.Code.{IsEncoderInput};
ghost use Rattle.um_block.specs.interleave.Bursts.{IsInterleaved};
ghost use Rattle.um_block.specs.Received.{IsReceivedBlock, coded_soft_bits};
ghost use Rattle.um_list_receive.specs.ListDecoding.{IsListDecodedBlock};
ghost use Rattle.um_erasing.specs.Erasing.{IsErasingDecodedBlock, IsErasingSearch, index_of_greatest, without_burst};
ghost use Rattle.um_erasing.specs.Erasing.{wrong_training_of_bursts};

use crate::training::{TrainingErrors, detect_training};
use burst_map::BURST_BITS;
use um_block::{CODED_BITS, Received, deinterleave_block, receive_detected};
use um_list_receive::{ListDecodedBlock, MAX_RANK, receive_block_among, receive_later_among};

/// The report of a block, which burst was erased for it, and how far each burst is to be trusted.
#[derive(Clone, Copy, PartialEq, Eq, Debug)]
pub struct ErasingDecodedBlock {
    /// The report: of the block as received, or of the block without one burst if only that is accepted.
    pub block: ListDecodedBlock,
    /// The burst that was erased, 0 to 3.
    pub erased: Option<u8>,
    /// For each burst as received, the number of soft bits, 0 to 26, that disagree with the training sequence of the block as received.
    pub wrong_training: [u8; 4],
}

/// A block that was accepted with one burst erased.
#[derive(Clone, Copy)]
pub(crate) struct ErasedBlock {
    pub(crate) block: ListDecodedBlock,
    pub(crate) erased: u8,
}

/// Decodes a deinterleaved block to its most likely word, and writes the number of wrong training bits of each burst.
#[inline(always)]
pub fn receive_first(
    bursts: &[[i8; BURST_BITS]; 4],
    soft: &[i8; CODED_BITS],
    wrong_training: &mut [u8; 4],
) -> Received
    requires soft { AllSoftBits soft.now }
    requires deinterleaved { IsInterleaved soft.now (map coded_soft_bits bursts.now) }
    ensures received { IsReceivedBlock bursts.now result }
    ensures wrong { wrong_training.new ≡ wrong_training_of_bursts bursts.now result.tsc }
    ensures few { All (λ wrong. wrong ≤ 26) wrong_training.new }
{
    let TrainingErrors { tsc, wrong } = detect_training(bursts);
    let wrong_in_block = u32::from(wrong[0])
        + u32::from(wrong[1])
        + u32::from(wrong[2])
        + u32::from(wrong[3]);
    *wrong_training = wrong;
    receive_detected(soft, tsc, wrong_in_block)
}

/// Receives a block after `first`, the report of its most likely word, whose CRC is wrong: with a list decoder, and if the CRC of no word
/// holds, with each of at most `erasures` bursts (0 to 4) erased in turn, the burst with the most wrong training bits first.
#[cold]
pub fn receive_later_erasing(
    bursts: &[[i8; BURST_BITS]; 4],
    soft: &[i8; CODED_BITS],
    first: &Received,
    wrong_training: [u8; 4],
    max_rank: u32,
    erasures: u8,
) -> ErasingDecodedBlock
    requires bursts { All AllSoftBits bursts.now }
    requires soft { AllSoftBits soft.now }
    requires deinterleaved { IsInterleaved soft.now (map coded_soft_bits bursts.now) }
    requires first { IsReceivedBlock bursts.now first.now }
    requires refused { first.now.accepted ≡ None }
    requires wrong { wrong_training ≡ wrong_training_of_bursts bursts.now first.now.tsc }
    requires few { All (λ wrong. wrong ≤ 26) wrong_training }
    requires at_least { 1 ≤ max_rank }
    requires at_most { max_rank ≤ MAX_RANK }
    ensures received { IsErasingDecodedBlock bursts.now max_rank erasures result }
    ensures information { IsEncoderInput result.block.report.u }
    ensures erased { IfSome result.erased (λ index. index < 4) }
{
    let block = receive_later_among(soft, first, max_rank);
    match block.report.accepted {
        Some(_) => ErasingDecodedBlock {
            block,
            erased: None,
            wrong_training,
        },
        None => match search(bursts, max_rank, erasures, distrust_of(&wrong_training)) {
            Some(found) => ErasingDecodedBlock {
                block: found.block,
                erased: Some(found.erased),
                wrong_training,
            },
            None => ErasingDecodedBlock {
                block,
                erased: None,
                wrong_training,
            },
        },
    }
}

/// Erases at most `count` bursts in turn, that with the greatest distrust first, until the block is accepted.
fn search(
    bursts: &[[i8; BURST_BITS]; 4],
    max_rank: u32,
    count: u8,
    distrust: [u8; 4],
) -> Option<ErasedBlock>
    requires soft { All AllSoftBits bursts.now }
    requires at_least { 1 ≤ max_rank }
    requires at_most { max_rank ≤ MAX_RANK }
    ensures found { IsErasingSearch 3 (λ rest block. IsListDecodedBlock rest max_rank block) bursts.now count distrust result }
    ensures information { IfSome result (λ found. IsEncoderInput found.block.report.u) }
    ensures erased { IfSome result (λ found. found.erased < 4) }
{
    if count == 0 {
        return None;
    }
    let index = index_of_greatest(&distrust);
    let decoded = receive_block_among(&without_burst(bursts, index), max_rank);
    match decoded.report.accepted {
        Some(_) => Some(ErasedBlock {
            block: decoded,
            erased: index,
        }),
        None => {
            let mut rest = distrust;
            rest[usize::from(index)] = 0;
            search(bursts, max_rank, count - 1, rest)
        }
    }
}

/// The distrust of bursts that are not erased yet, by their wrong training bits.
fn distrust_of(wrong: &[u8; 4]) -> [u8; 4]
    requires { All (λ bits. bits ≤ 26) wrong.now }
    ensures { result ≡ map (λ bits. bits + 1) wrong.now }
{
    [wrong[0] + 1, wrong[1] + 1, wrong[2] + 1, wrong[3] + 1]
}

/// The bursts with one of them set to zeros.
pub fn without_burst(bursts: &[[i8; BURST_BITS]; 4], index: u8) -> [[i8; BURST_BITS]; 4]
    requires index { index < 4 }
    requires soft { All AllSoftBits bursts.now }
    ensures value { result ≡ without_burst bursts.now index }
    ensures soft { All AllSoftBits result }
{
    let mut rest = *bursts;
    rest[usize::from(index)] = [0; BURST_BITS];
    rest
}

/// The index of the greatest of four numbers, the first of equal ones.
fn index_of_greatest(numbers: &[u8; 4]) -> u8
    ensures value { result ≡ index_of_greatest 3 numbers.now }
    ensures within { result < 4 }
{
    let mut greatest = 0;
    if numbers[0] < numbers[1] {
        greatest = 1;
    }
    if numbers[usize::from(greatest)] < numbers[2] {
        greatest = 2;
    }
    if numbers[usize::from(greatest)] < numbers[3] {
        greatest = 3;
    }
    greatest
}
