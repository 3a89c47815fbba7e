//! The reliability of a decoded block: the difference between the path metrics of its two most likely words.
ghost use Rattle.std.specs.Prelude.{◌≡◌, ◌↔◌, All, IsTrue, false};
ghost use Rattle.um_block.specs.bit_blocks.SoftValues.{AllSoftBits};
ghost use Rattle.um_c.specs.MarginReports.{IsMarginReport};

use crate::soft::are_soft_bursts;
use um_block::{BURST_BITS, ENCODER_INPUT_BITS, deinterleave_block};
use um_list_receive::margin;

/// The two most likely words of a block, and the difference between their path metrics.
#[repr(C)]
#[derive(Drop)]
pub struct MarginReport {
    /// The path metric of the most likely word minus that of the second. It is 0 if and only if another word is equally likely.
    pub margin: i32,
    /// The most likely word, with one bit in each octet: 184 data bits, 40 CRC bits and four zeros.
    pub word: [u8; ENCODER_INPUT_BITS],
    /// The second most likely word; of equally likely words, the first in lexicographic order.
    pub next: [u8; ENCODER_INPUT_BITS],
}

/// Finds the two most likely words of four bursts. Returns false, and writes nothing, if a soft value is -128.
#[unsafe(no_mangle)]
pub extern "C" fn um_margin_block(bursts: &[[i8; BURST_BITS]; 4], report: &mut MarginReport) -> bool
    ensures soft { IsTrue result ↔ All AllSoftBits bursts.now }
    ensures compared { IsTrue result → IsMarginReport bursts.now report.new }
    ensures only { IsTrue result → (other : MarginReport) → IsMarginReport bursts.now other
        → other ≡ report.new }
    ensures refused { result ≡ false → report.new ≡ report.old }
{
    if !are_soft_bursts(bursts) {
        return false;
    }
    let soft = deinterleave_block(bursts);
    let mut word = [0; ENCODER_INPUT_BITS];
    let mut next = [0; ENCODER_INPUT_BITS];
    let margin_difference = margin(&soft, &mut word, &mut next);
    *report = MarginReport {
        margin: margin_difference,
        word,
        next,
    };
    true
}
