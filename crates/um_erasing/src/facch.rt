//! Receives a block of FACCH with a list decoder, and again without single bursts as they were sent.
ghost use Rattle.std.specs.Prelude.{◌≡◌, ◌<◌, ◌≤◌, ◌+◌, ◌-◌, All, IfSome, None, length, map, pos, take};
ghost use Rattle.um_block.specs.bit_blocks.SoftValues.{AllSoftBits};
ghost use Rattle.um_block.specs.conv_code.Code.{IsEncoderInput};
ghost use Rattle.um_facch.specs.half_bursts.Halves.{AreCarried, joined_block};
ghost use Rattle.um_facch.specs.Facch.{IsListDecodedFacch, IsReceivedFacch};
ghost use Rattle.um_facch.specs.Training.{wrong_training_of_each};
ghost use Rattle.um_erasing.specs.Erasing.{IsErasingSearch, greater_of, index_of_greatest, without_burst};
ghost use Rattle.um_erasing.specs.ErasingFacch.{IsErasingDecodedFacch};

use crate::blocks::ErasedBlock;
use burst_map::BURST_BITS;
use um_block::{CODED_BITS, Received, deinterleave_block};
use um_facch::{MAX_BURSTS, join, receive_among, receive_carried};
use um_list_receive::{ListDecodedBlock, MAX_RANK, receive_later_among};

/// The report of a block of FACCH, which burst was erased for it, and how far each burst is to be trusted.
#[derive(Clone, Copy, PartialEq, Eq, Debug)]
pub struct ErasingDecodedFacch {
    /// The report: of the block as received, or of the block without one burst if only that is accepted.
    pub block: ListDecodedBlock,
    /// The burst that was erased, of those that were sent: 0 to 7, at half rate 0 to 5.
    pub erased: Option<u8>,
    /// For each burst as received, the number of soft bits, 0 to 26, that disagree with the training sequence of the block as received; 0
    /// where there is no burst.
    pub wrong_training: [u8; MAX_BURSTS],
}

/// Receives a block after `first`, the report of its most likely word, whose CRC is wrong: with a list decoder, and if the CRC of no word
/// holds, with each of at most `erasures` of the bursts, as they were sent, erased in turn, the burst with the most wrong training bits
/// first.
#[cold]
pub fn receive_later_facch_erasing(
    bursts: &[[i8; BURST_BITS]],
    soft: &[i8; CODED_BITS],
    first: &Received,
    wrong_training: [u8; MAX_BURSTS],
    max_rank: u32,
    erasures: u8,
) -> ErasingDecodedFacch
    requires at_least { 4 ≤ length bursts.now }
    requires at_most { length bursts.now ≤ 8 }
    requires bursts { All AllSoftBits bursts.now }
    requires soft { AllSoftBits soft.now }
    requires carried { AreCarried soft.now bursts.now }
    requires first { IsReceivedFacch bursts.now first.now }
    requires refused { first.now.accepted ≡ None }
    requires wrong { wrong_training ≡ wrong_training_of_each bursts.now first.now.tsc }
    requires few { All (λ wrong. wrong ≤ 26) wrong_training }
    requires some_words { 1 ≤ max_rank }
    requires few_words { max_rank ≤ MAX_RANK }
    ensures received { IsErasingDecodedFacch bursts.now max_rank erasures result }
    ensures information { IsEncoderInput result.block.report.u }
    ensures erased { IfSome result.erased (λ index. index < length bursts.now) }
{
    let block = receive_later_among(soft, first, max_rank);
    match block.report.accepted {
        Some(_) => ErasingDecodedFacch {
            block,
            erased: None,
            wrong_training,
        },
        None => match search_facch(
            bursts,
            max_rank,
            erasures,
            distrust_of_eight(&wrong_training),
        ) {
            Some(found) => ErasingDecodedFacch {
                block: found.block,
                erased: Some(found.erased),
                wrong_training,
            },
            None => ErasingDecodedFacch {
                block,
                erased: None,
                wrong_training,
            },
        },
    }
}

/// Erases at most `count` bursts in turn, that with the greatest distrust first, until the block is accepted.
fn search_facch(
    bursts: &[[i8; BURST_BITS]],
    max_rank: u32,
    count: u8,
    distrust: [u8; MAX_BURSTS],
) -> Option<ErasedBlock>
    requires at_least { 4 ≤ length bursts.now }
    requires at_most { length bursts.now ≤ 8 }
    requires soft { All AllSoftBits bursts.now }
    requires some_words { 1 ≤ max_rank }
    requires few_words { max_rank ≤ MAX_RANK }
    ensures found { IsErasingSearch (length bursts.now - 1) (λ rest block. IsListDecodedFacch rest max_rank block) bursts.now count
        distrust result }
    ensures information { IfSome result (λ found. IsEncoderInput found.block.report.u) }
    ensures erased { IfSome result (λ found. found.erased < length bursts.now) }
{
    if count == 0 {
        return None;
    }
    let index = index_of_greatest_below(&distrust, bursts.len());
    let decoded = receive_without(bursts, index, max_rank);
    match decoded.report.accepted {
        Some(_) => Some(ErasedBlock {
            block: decoded,
            erased: index,
        }),
        None => {
            let mut rest = distrust;
            rest[usize::from(index)] = 0;
            search_facch(bursts, max_rank, count - 1, rest)
        }
    }
}

fn receive_without(bursts: &[[i8; BURST_BITS]], index: u8, max_rank: u32) -> ListDecodedBlock
    requires at_least { 4 ≤ length bursts.now }
    requires at_most { length bursts.now ≤ 8 }
    requires soft { All AllSoftBits bursts.now }
    requires index { index < length bursts.now }
    requires some_words { 1 ≤ max_rank }
    requires few_words { max_rank ≤ MAX_RANK }
    ensures decoded { IsListDecodedFacch (without_burst bursts.now index) max_rank result }
    ensures information { IsEncoderInput result.report.u }
{
    receive_among(&without_one(bursts, index)[..bursts.len()], max_rank)
}

/// The four bursts of the block that some bursts carry, with one of these set to zeros.
pub fn join_without(bursts: &[[i8; BURST_BITS]], index: u8) -> [[i8; BURST_BITS]; 4]
    requires at_least { 4 ≤ length bursts.now }
    requires at_most { length bursts.now ≤ 8 }
    requires soft { All AllSoftBits bursts.now }
    requires index { index < length bursts.now }
    ensures value { result ≡ joined_block (pos 0) (without_burst bursts.now index) }
    ensures soft { All AllSoftBits result }
{
    join(&without_one(bursts, index)[..bursts.len()])
}

fn without_one(bursts: &[[i8; BURST_BITS]], index: u8) -> [[i8; BURST_BITS]; MAX_BURSTS]
    requires at_most { length bursts.now ≤ 8 }
    requires soft { All AllSoftBits bursts.now }
    requires index { index < length bursts.now }
    ensures value { take (length bursts.now) result ≡ without_burst bursts.now index }
    ensures soft { All AllSoftBits (take (length bursts.now) result) }
{
    let mut rest = [[0; BURST_BITS]; MAX_BURSTS];
    rest[..bursts.len()].copy_from_slice(bursts);
    rest[usize::from(index)] = [0; BURST_BITS];
    rest
}

/// The distrust of bursts that are not erased yet, by their wrong training bits.
fn distrust_of_eight(wrong: &[u8; MAX_BURSTS]) -> [u8; MAX_BURSTS]
    requires { All (λ bits. bits ≤ 26) wrong.now }
    ensures { result ≡ map (λ bits. bits + 1) wrong.now }
{
    [
        wrong[0] + 1,
        wrong[1] + 1,
        wrong[2] + 1,
        wrong[3] + 1,
        wrong[4] + 1,
        wrong[5] + 1,
        wrong[6] + 1,
        wrong[7] + 1,
    ]
}

/// The index of the greatest of the first `count` numbers, the first of equal ones.
fn index_of_greatest_below(numbers: &[u8; MAX_BURSTS], count: usize) -> u8
    requires some { 1 ≤ count }
    requires few { count ≤ 8 }
    ensures value { result ≡ index_of_greatest (count - 1) numbers.now }
    ensures within { result < count }
{
    let mut greatest = 0;
    for index in 1..count {
        greatest = greater_of(numbers, greatest, index);
    }
    greatest as u8
}

#[inline(always)]
fn greater_of(numbers: &[u8; MAX_BURSTS], first: usize, second: usize) -> usize
    requires first { first < 8 }
    requires second { second < 8 }
    ensures { result ≡ greater_of numbers.now first second }
{
    if numbers[first] < numbers[second] {
        second
    } else {
        first
    }
}
