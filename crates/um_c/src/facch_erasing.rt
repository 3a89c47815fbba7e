//! C functions that receive a block of FACCH, and again without its least trusted bursts.
ghost use Rattle.std.specs.Prelude.{◌≡◌, ◌≤◌, ◌↔◌, All, IsTrue, List, None, false, length, map, pos, ℕ, ℤ};
ghost use Rattle.half_bursts.specs.Halves.{AreCarried, coded_values, joined_block};
ghost use Rattle.um_block.specs.interleave.Bursts.{IsInterleaved};
ghost use Rattle.um_block.specs.bit_blocks.SoftValues.{AllSoftBits};
ghost use Rattle.um_facch.specs.Facch.{IsReceivedFacch};
ghost use Rattle.um_facch.specs.Training.{wrong_training_of_each};
ghost use Rattle.um_block.specs.conv_code.Code.{IsEncoderInput};
ghost use Rattle.um_c.specs.Reports.{ReportsBlock};
ghost use Rattle.um_c.specs.FacchReports.{IsFacchReport, IsLimitedFacchReport};

use crate::blocks::{BlockReport, block_report_of};
use crate::limited::{three_best, tried_erasures, tried_words};
use crate::soft::are_soft_rows;
use half_bursts::join;
use um_block::{BURST_BITS, CODED_BITS, Received, deinterleave_block};
use um_erasing::{ErasingDecodedFacch, detect_training, join_without, receive_later_facch_erasing};
use um_facch::receive_carried;
use um_list_receive::MAX_RANK;

/// The index of an erased burst of FACCH if none was erased.
const NO_BURST: u8 = 8;

/// Which burst of FACCH was erased, of those that were sent, and the wrong training bits of each.
#[repr(C)]
#[derive(Drop)]
pub struct FacchErasure {
    /// The burst that was set to zeros, 0 to 7, or 8 if none was.
    pub erased: u8,
    /// How many of the 26 training bits of each burst, as received, are wrong; 0 where there is no burst.
    pub wrong_training: [u8; 8],
}

/// The report on a block of FACCH that was decoded with erasures.
#[derive(Drop)]
pub(crate) struct FacchReport {
    pub(crate) report: BlockReport,
    pub(crate) rank: u32,
    pub(crate) erasure: FacchErasure,
}

/// Decodes a block from its halves of eight bursts by trying the `most` (1 to 64) most likely words. If the CRC of no word holds, decodes
/// it again with one burst set to zeros, for each of at most `erasures` bursts (0 to 8) in turn, the burst with the most wrong training
/// bits first. Returns false, and writes nothing, if a soft value is -128 or `most` or `erasures` is out of range.
#[unsafe(no_mangle)]
pub extern "C" fn um_receive_facch_f_erasing(
    bursts: &[[i8; BURST_BITS]; 8],
    most: u32,
    erasures: u8,
    report: &mut BlockReport,
    rank: &mut u32,
    erasure: &mut FacchErasure,
) -> bool
    ensures valid { IsTrue result ↔ (All AllSoftBits bursts.now × (1 ≤ most) × (most ≤ MAX_RANK) × (erasures ≤ 8)) }
    ensures received { IsTrue result → IsFacchReport bursts.now most erasures rank.new report.new erasure.new }
    ensures only { IsTrue result → (place : ℕ) (other : BlockReport) (erased : FacchErasure)
        → IsFacchReport bursts.now most erasures place other erased
        → (place ≡ rank.new) × (other ≡ report.new) × (erased ≡ erasure.new) }
    ensures refused { result ≡ false → (report.new ≡ report.old) × (rank.new ≡ rank.old) × (erasure.new ≡ erasure.old) }
{
    if most == 0 || most > MAX_RANK as u32 || erasures > 8 || !are_soft_rows(bursts) {
        return false;
    }
    write_facch_report(bursts, most, erasures, report, rank, erasure);
    true
}

/// Decodes a block from its halves of six bursts, as `um_receive_facch_f_erasing` does of eight, with 0 to 6 erasures.
#[unsafe(no_mangle)]
pub extern "C" fn um_receive_facch_h_erasing(
    bursts: &[[i8; BURST_BITS]; 6],
    most: u32,
    erasures: u8,
    report: &mut BlockReport,
    rank: &mut u32,
    erasure: &mut FacchErasure,
) -> bool
    ensures valid { IsTrue result ↔ (All AllSoftBits bursts.now × (1 ≤ most) × (most ≤ MAX_RANK) × (erasures ≤ 6)) }
    ensures received { IsTrue result → IsFacchReport bursts.now most erasures rank.new report.new erasure.new }
    ensures only { IsTrue result → (place : ℕ) (other : BlockReport) (erased : FacchErasure)
        → IsFacchReport bursts.now most erasures place other erased
        → (place ≡ rank.new) × (other ≡ report.new) × (erased ≡ erasure.new) }
    ensures refused { result ≡ false → (report.new ≡ report.old) × (rank.new ≡ rank.old) × (erasure.new ≡ erasure.old) }
{
    if most == 0 || most > MAX_RANK as u32 || erasures > 6 || !are_soft_rows(bursts) {
        return false;
    }
    write_facch_report(bursts, most, erasures, report, rank, erasure);
    true
}

/// Writes the report on the block that some bursts carry, decoded with erasures.
fn write_facch_report(
    bursts: &[[i8; BURST_BITS]],
    most: u32,
    erasures: u8,
    report: &mut BlockReport,
    rank: &mut u32,
    erasure: &mut FacchErasure,
)
    requires at_least { 4 ≤ length bursts.now }
    requires at_most { length bursts.now ≤ 8 }
    requires soft { All AllSoftBits bursts.now }
    requires some_words { 1 ≤ most }
    requires few_words { most ≤ MAX_RANK }
    ensures { IsFacchReport bursts.now most erasures rank.new report.new erasure.new }
{
    let block = join(bursts);
    let soft = deinterleave_block(&block);
    let mut wrong_training = [0; 8];
    let first = receive_carried(bursts, &soft, &mut wrong_training);
    match first.accepted {
        Some(_) => {
            *report = block_report_of(&block, &soft, &first);
            *rank = 1;
            *erasure = FacchErasure {
                erased: NO_BURST,
                wrong_training,
            };
        }
        None => {
            let later = later_facch_report_of(
                bursts,
                &soft,
                &first,
                wrong_training,
                most,
                erasures,
            );
            *report = later.report;
            *rank = later.rank;
            *erasure = later.erasure;
        }
    }
}

/// Writes the report on the block of FACCH that a receiver has collected, which is joined to `block`. If the CRC of the most likely word is
/// wrong, at most `most` words and `erasures` erasures are tried, but only if the three bursts of `block` with the fewest wrong training
/// bits have at most `limit` of them.
pub(crate) fn write_limited_facch_report(
    bursts: &[[i8; BURST_BITS]],
    block: &[[i8; BURST_BITS]; 4],
    most: u32,
    erasures: u8,
    limit: u8,
    report: &mut BlockReport,
    rank: &mut u32,
    erasure: &mut FacchErasure,
)
    requires at_least { 4 ≤ length bursts.now }
    requires at_most { length bursts.now ≤ 8 }
    requires soft { All AllSoftBits bursts.now }
    requires joined { block.now ≡ joined_block (pos 0) bursts.now }
    requires carried { (coded : List ℤ) → IsInterleaved coded (map coded_values block.now) → AreCarried coded bursts.now }
    requires soft_block { All AllSoftBits block.now }
    requires some_words { 1 ≤ most }
    requires few_words { most ≤ MAX_RANK }
    ensures { IsLimitedFacchReport bursts.now most erasures limit rank.new report.new erasure.new }
{
    let soft = deinterleave_block(block);
    let mut wrong_training = [0; 8];
    let first = receive_carried(bursts, &soft, &mut wrong_training);
    match first.accepted {
        Some(_) => {
            *report = block_report_of(block, &soft, &first);
            *rank = 1;
            *erasure = FacchErasure {
                erased: NO_BURST,
                wrong_training,
            };
        }
        None => {
            let three = three_best(&detect_training(block).wrong);
            let most = tried_words(limit, three, most);
            let erasures = tried_erasures(limit, three, erasures);
            let later = later_facch_report_of(
                bursts,
                &soft,
                &first,
                wrong_training,
                most,
                erasures,
            );
            *report = later.report;
            *rank = later.rank;
            *erasure = later.erasure;
        }
    }
}

/// The report on a block of FACCH whose most likely word has a wrong CRC.
#[cold]
fn later_facch_report_of(
    bursts: &[[i8; BURST_BITS]],
    soft: &[i8; CODED_BITS],
    first: &Received,
    wrong_training: [u8; 8],
    most: u32,
    erasures: u8,
) -> FacchReport
    requires at_least { 4 ≤ length bursts.now }
    requires at_most { length bursts.now ≤ 8 }
    requires bursts { All AllSoftBits bursts.now }
    requires soft { AllSoftBits soft.now }
    requires carried { AreCarried soft.now bursts.now }
    requires first { IsReceivedFacch bursts.now first.now }
    requires refused { first.now.accepted ≡ None }
    requires wrong { wrong_training ≡ wrong_training_of_each bursts.now first.now.tsc }
    requires few { All (λ wrong. wrong ≤ 26) wrong_training }
    requires some_words { 1 ≤ most }
    requires few_words { most ≤ MAX_RANK }
    ensures { IsFacchReport bursts.now most erasures result.rank result.report result.erasure }
{
    let decoded = receive_later_facch_erasing(bursts, soft, first, wrong_training, most, erasures);
    match decoded.erased {
        None => facch_report_of(&join(bursts), &decoded, NO_BURST),
        Some(index) => facch_report_of(&join_without(bursts, index), &decoded, index),
    }
}

fn facch_report_of(
    block: &[[i8; BURST_BITS]; 4],
    decoded: &ErasingDecodedFacch,
    erased: u8,
) -> FacchReport
    requires soft { All AllSoftBits block.now }
    requires information { IsEncoderInput decoded.now.block.report.u }
    ensures reports { ReportsBlock block.now decoded.now.block.report result.report }
    ensures rank { result.rank ≡ decoded.now.block.rank }
    ensures erasure { result.erasure ≡ record { erased = erased; wrong_training = decoded.now.wrong_training } }
{
    FacchReport {
        report: block_report_of(block, &deinterleave_block(block), &decoded.block.report),
        rank: decoded.block.rank,
        erasure: FacchErasure {
            erased,
            wrong_training: decoded.wrong_training,
        },
    }
}
