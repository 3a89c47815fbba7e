//! The `margin` command, which reads the same lines as `replay`.
ghost use Rattle.std.specs.Prelude.{◌≡◌, ◌++◌, ◌<◌, length};
ghost use Rattle.std.specs.List.{All};
ghost use Rattle.um_block.specs.bit_blocks.SoftValues.{AllSoftBits};
ghost use Rattle.um_block.specs.Received.{access_soft_bits, sync_soft_bits};
ghost use Rattle.um_margin.specs.Compared.{compared_words, compared_block_words};
ghost use Rattle.um_margin.specs.Margins.{margin_burst_answers};

use crate::comparison::{WordComparison, compare_words};
use crate::lines::{write_access_margin_line, write_block_margin_line, write_sync_margin_line};
use um_block::{
    AccessView, BURST_BITS, Bits, ENCODER_INPUT_BITS, SyncView, deinterleave_block,
    join_sync_halves,
};
use um_replay::{Reports, Text};

/// Writes, for each block or single burst, a line that compares its two most likely words.
#[derive(Drop)]
pub struct Margins {}

impl Reports for Margins {
    ghost answers = { margin_burst_answers };

    fn block(&self, out: &mut Text, bursts: &[[i8; BURST_BITS]; 4]) {
        write_block_margin_line(out, &compare_block(bursts));
    }

    fn access(&self, out: &mut Text, bsic: &Bits<6>, burst: &[i8; 88]) {
        write_access_margin_line(out, bsic, &compare_access_burst_words(burst));
    }

    fn sync(&self, out: &mut Text, burst: &[i8; BURST_BITS]) {
        write_sync_margin_line(out, &compare_sync_burst_words(burst));
    }
}

fn compare_block(bursts: &[[i8; BURST_BITS]; 4]) -> WordComparison<ENCODER_INPUT_BITS>
    requires { All AllSoftBits bursts.now }
    ensures { result ≡ compared_block_words bursts.now }
{
    compare_words(&deinterleave_block(bursts))
}

fn compare_access_burst_words(burst: &[i8; 88]) -> WordComparison<18>
    requires { AllSoftBits burst.now }
    ensures { result ≡ compared_words (access_soft_bits burst.now) }
{
    compare_words(AccessView::new(burst).body())
}

fn compare_sync_burst_words(burst: &[i8; BURST_BITS]) -> WordComparison<39>
    requires { AllSoftBits burst.now }
    ensures { result ≡ compared_words (sync_soft_bits burst.now) }
{
    let parts = SyncView::new(burst);
    compare_words(&join_sync_halves(parts.first(), parts.second()))
}
