//! Decodes a block of a receiver: more words and erasures are tried only if its training bits say that it may be a block.
ghost use Rattle.std.specs.Prelude.{◌≡◌, ◌≤◌, All, if◌then◌else◌, nat_le};
ghost use Rattle.um_block.specs.bit_blocks.SoftValues.{AllSoftBits};
ghost use Rattle.um_c.specs.SlotCalls.{IsLimitedReport, three_best};

use crate::blocks::{BlockReport, block_report_of};
use crate::erasing::{Erasure, NO_BURST, later_report_of};
use um_block::{BURST_BITS, deinterleave_block};
use um_erasing::receive_first;
use um_list_receive::MAX_RANK;

/// Writes the report on the block that is decoded from four bursts. If the CRC of the most likely word is wrong, at most `most` words and
/// `erasures` erasures are tried, but only if the three bursts with the fewest wrong training bits have at most `limit` of them.
pub(crate) fn write_limited_report(
    bursts: &[[i8; BURST_BITS]; 4],
    most: u32,
    erasures: u8,
    limit: u8,
    report: &mut BlockReport,
    rank: &mut u32,
    erasure: &mut Erasure,
)
    requires soft { All AllSoftBits bursts.now }
    requires at_least { 1 ≤ most }
    requires at_most { most ≤ MAX_RANK }
    requires erasures { erasures ≤ 4 }
    ensures { IsLimitedReport bursts.now most erasures limit rank.new report.new erasure.new }
{
    let soft = deinterleave_block(bursts);
    let mut wrong_training = [0; 4];
    let first = receive_first(bursts, &soft, &mut wrong_training);
    match first.accepted {
        Some(_) => {
            *report = block_report_of(bursts, &soft, &first);
            *rank = 1;
            *erasure = Erasure {
                erased: NO_BURST,
                wrong_training,
            };
        }
        None => {
            let three = three_best(&wrong_training);
            let most = tried_words(limit, three, most);
            let erasures = tried_erasures(limit, three, erasures);
            let later = later_report_of(bursts, &soft, &first, wrong_training, most, erasures);
            *report = later.report;
            *rank = later.rank;
            *erasure = later.erasure;
        }
    }
}

pub(crate) fn tried_words(limit: u8, three: u8, most: u32) -> u32
    ensures { result ≡ (if nat_le three limit then most else 1) }
{
    if three <= limit { most } else { 1 }
}

pub(crate) fn tried_erasures(limit: u8, three: u8, erasures: u8) -> u8
    ensures { result ≡ (if nat_le three limit then erasures else 0) }
{
    if three <= limit { erasures } else { 0 }
}

/// The sum of the three least of four numbers of wrong training bits.
pub(crate) fn three_best(wrong: &[u8; 4]) -> u8
    requires { All (λ wrong. wrong ≤ 26) wrong.now }
    ensures { result ≡ three_best wrong.now }
{
    let sum = wrong[0] + wrong[1] + wrong[2] + wrong[3];
    sum - wrong[0].max(wrong[1]).max(wrong[2].max(wrong[3]))
}
