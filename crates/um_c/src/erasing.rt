//! C functions that decode a block again without its least trusted bursts, and count wrong training bits.
ghost use Rattle.std.specs.Prelude.{◌≡◌, ◌≤◌, ◌↔◌, All, IsTrue, false, map, ℕ, Option, MatchOption, None};
ghost use Rattle.um_block.specs.bit_blocks.SoftValues.{AllSoftBits};
ghost use Rattle.um_block.specs.Received.{IsReceivedBlock, IsReceivedTsc, coded_soft_bits};
ghost use Rattle.um_block.specs.interleave.Bursts.{IsInterleaved};
ghost use Rattle.um_erasing.specs.Erasing.{wrong_training_of_bursts};
ghost use Rattle.um_c.specs.SlotCalls.{IsErasingReport};

use crate::blocks::{BlockReport, block_report_of};
use crate::soft::are_soft_bursts;
use um_block::{BURST_BITS, CODED_BITS, Received, deinterleave_block};
use um_erasing::{detect_training, receive_first, receive_later_erasing, without_burst};
use um_list_receive::MAX_RANK;

/// The index of an erased burst if none was erased.
pub(crate) const NO_BURST: u8 = 4;

/// Which burst was erased, and the wrong training bits of each burst.
#[repr(C)]
#[derive(Drop)]
pub struct Erasure {
    /// The burst that was set to zeros, 0 to 3, or 4 if none was.
    pub erased: u8,
    /// How many of the 26 training bits of each burst, as received, are wrong.
    pub wrong_training: [u8; 4],
}

/// The report on a block that was decoded with erasures.
#[derive(Drop)]
pub(crate) struct ErasingReport {
    pub(crate) report: BlockReport,
    pub(crate) rank: u32,
    pub(crate) erasure: Erasure,
}

/// Decodes the soft values of four bursts as `um_receive_block_among` does. If the CRC of no word holds, decodes them again with one burst
/// set to zeros, for each of at most `erasures` bursts (0 to 4) in turn, the burst with the most wrong training bits first. Returns false,
/// and writes nothing, if a soft value is -128 or `most` or `erasures` is out of range.
#[unsafe(no_mangle)]
pub extern "C" fn um_receive_block_erasing(
    bursts: &[[i8; BURST_BITS]; 4],
    most: u32,
    erasures: u8,
    report: &mut BlockReport,
    rank: &mut u32,
    erasure: &mut Erasure,
) -> bool
    ensures valid { IsTrue result ↔ (All AllSoftBits bursts.now × (1 ≤ most) × (most ≤ MAX_RANK) × (erasures ≤ 4)) }
    ensures received { IsTrue result → IsErasingReport bursts.now most erasures rank.new report.new erasure.new }
    ensures only { IsTrue result → (place : ℕ) (other : BlockReport) (erased : Erasure)
        → IsErasingReport bursts.now most erasures place other erased
        → (place ≡ rank.new) × (other ≡ report.new) × (erased ≡ erasure.new) }
    ensures refused { result ≡ false → (report.new ≡ report.old) × (rank.new ≡ rank.old) × (erasure.new ≡ erasure.old) }
{
    if most == 0 || most > MAX_RANK as u32 || erasures > 4 || !are_soft_bursts(bursts) {
        return false;
    }
    write_erasing_report(bursts, most, erasures, report, rank, erasure);
    true
}

/// Writes the report on the block that is decoded from four bursts with erasures.
pub(crate) fn write_erasing_report(
    bursts: &[[i8; BURST_BITS]; 4],
    most: u32,
    erasures: u8,
    report: &mut BlockReport,
    rank: &mut u32,
    erasure: &mut Erasure,
)
    requires soft { All AllSoftBits bursts.now }
    requires at_least { 1 ≤ most }
    requires at_most { most ≤ MAX_RANK }
    requires erasures { erasures ≤ 4 }
    ensures { IsErasingReport bursts.now most erasures rank.new report.new erasure.new }
{
    let soft = deinterleave_block(bursts);
    let mut wrong_training = [0; 4];
    let first = receive_first(bursts, &soft, &mut wrong_training);
    match first.accepted {
        Some(_) => {
            *report = block_report_of(bursts, &soft, &first);
            *rank = 1;
            *erasure = Erasure {
                erased: NO_BURST,
                wrong_training,
            };
        }
        None => {
            let later = later_report_of(bursts, &soft, &first, wrong_training, most, erasures);
            *report = later.report;
            *rank = later.rank;
            *erasure = later.erasure;
        }
    }
}

/// The report on a block whose most likely word has a wrong CRC.
// Kept out of the caller: with the list decoder inlined there, a block whose first word holds took 707 instructions over
// `um_receive_block`, and now it takes 207.
#[cold]
pub(crate) fn later_report_of(
    bursts: &[[i8; BURST_BITS]; 4],
    soft: &[i8; CODED_BITS],
    first: &Received,
    wrong_training: [u8; 4],
    most: u32,
    erasures: u8,
) -> ErasingReport
    requires bursts { All AllSoftBits bursts.now }
    requires soft { AllSoftBits soft.now }
    requires deinterleaved { IsInterleaved soft.now (map coded_soft_bits bursts.now) }
    requires first { IsReceivedBlock bursts.now first.now }
    requires refused { first.now.accepted ≡ None }
    requires wrong { wrong_training ≡ wrong_training_of_bursts bursts.now first.now.tsc }
    requires few { All (λ wrong. wrong ≤ 26) wrong_training }
    requires at_least { 1 ≤ most }
    requires at_most { most ≤ MAX_RANK }
    requires erasures { erasures ≤ 4 }
    ensures { IsErasingReport bursts.now most erasures result.rank result.report result.erasure }
{
    let decoded = receive_later_erasing(bursts, soft, first, wrong_training, most, erasures);
    match decoded.erased {
        None => ErasingReport {
            report: block_report_of(bursts, soft, &decoded.block.report),
            rank: decoded.block.rank,
            erasure: Erasure {
                erased: NO_BURST,
                wrong_training: decoded.wrong_training,
            },
        },
        Some(index) => {
            let rest = without_burst(bursts, index);
            ErasingReport {
                report: block_report_of(&rest, &deinterleave_block(&rest), &decoded.block.report),
                rank: decoded.block.rank,
                erasure: Erasure {
                    erased: index,
                    wrong_training: decoded.wrong_training,
                },
            }
        }
    }
}

/// Detects the training sequence of four bursts without decoding them, and counts the wrong training bits of each burst. Returns false, and
/// writes nothing, if a soft value is -128.
#[unsafe(no_mangle)]
pub extern "C" fn um_detect_training(
    bursts: &[[i8; BURST_BITS]; 4],
    tsc: &mut u8,
    wrong_training: &mut [u8; 4],
) -> bool
    ensures soft { IsTrue result ↔ All AllSoftBits bursts.now }
    ensures tsc { IsTrue result → IsReceivedTsc bursts.now tsc.new }
    ensures wrong { IsTrue result → wrong_training.new ≡ wrong_training_of_bursts bursts.now tsc.new }
    ensures refused { result ≡ false → (tsc.new ≡ tsc.old) × (wrong_training.new ≡ wrong_training.old) }
{
    if !are_soft_bursts(bursts) {
        return false;
    }
    let found = detect_training(bursts);
    let wrong = found.wrong;
    *tsc = found.tsc;
    *wrong_training = wrong;
    true
}
