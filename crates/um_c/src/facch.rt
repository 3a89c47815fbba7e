//! C functions for blocks in stolen halves of the bursts of a traffic channel.
ghost use Rattle.std.specs.Prelude.{◌≡◌, ◌↔◌, All, IsTrue, false, map, pos, ℕ, ℤ, List};
ghost use Rattle.half_bursts.specs.Halves.{AreCarried, coded_values, joined_block, stealing_sum, stolen, wrong_flags};
ghost use Rattle.um_block.specs.bit_blocks.Bits.{AllBits};
ghost use Rattle.um_block.specs.bit_blocks.SoftValues.{AllSoftBits};
ghost use Rattle.um_block.specs.interleave.Bursts.{IsInterleaved};

use crate::soft::{are_bit_rows, are_soft_bursts, are_soft_rows};
use half_bursts::{join, steal, stealing_sum, wrong_flags};
use um_block::BURST_BITS;

/// Writes a block into its halves of eight bursts, with its tail bits and training sequence. Returns false, and writes nothing, if an octet
/// is neither 0 nor 1.
#[unsafe(no_mangle)]
pub extern "C" fn um_steal_facch_f(
    block: &[[u8; BURST_BITS]; 4],
    bursts: &mut [[u8; BURST_BITS]; 8],
) -> bool
    ensures valid { IsTrue result ↔ (All AllBits block.now × All AllBits bursts.old) }
    ensures stolen { IsTrue result → bursts.new ≡ stolen block.now bursts.old }
    ensures joined { IsTrue result → joined_block 0 bursts.new ≡ block.now }
    ensures refused { result ≡ false → bursts.new ≡ bursts.old }
{
    if !are_bit_rows(block) || !are_bit_rows(bursts) {
        return false;
    }
    steal(block, bursts);
    true
}

/// Writes a block into its halves of six bursts, with its tail bits and training sequence. Returns false, and writes nothing, if an octet
/// is neither 0 nor 1.
#[unsafe(no_mangle)]
pub extern "C" fn um_steal_facch_h(
    block: &[[u8; BURST_BITS]; 4],
    bursts: &mut [[u8; BURST_BITS]; 6],
) -> bool
    ensures valid { IsTrue result ↔ (All AllBits block.now × All AllBits bursts.old) }
    ensures stolen { IsTrue result → bursts.new ≡ stolen block.now bursts.old }
    ensures joined { IsTrue result → joined_block 0 bursts.new ≡ block.now }
    ensures refused { result ≡ false → bursts.new ≡ bursts.old }
{
    if !are_bit_rows(block) || !are_bit_rows(bursts) {
        return false;
    }
    steal(block, bursts);
    true
}

/// Joins the halves of eight received bursts to the four bursts of a block. Returns false, and writes nothing, if a soft value is -128.
#[unsafe(no_mangle)]
pub extern "C" fn um_join_facch_f(
    bursts: &[[i8; BURST_BITS]; 8],
    block: &mut [[i8; BURST_BITS]; 4],
) -> bool
    ensures soft { IsTrue result ↔ All AllSoftBits bursts.now }
    ensures joined { IsTrue result → block.new ≡ joined_block (pos 0) bursts.now }
    ensures carried { IsTrue result → (coded : List ℤ) →
        IsInterleaved coded (map coded_values block.new) ↔ AreCarried coded bursts.now }
    ensures refused { result ≡ false → block.new ≡ block.old }
{
    if !are_soft_rows(bursts) {
        return false;
    }
    *block = join(bursts);
    true
}

/// Joins the halves of six received bursts to the four bursts of a block. Returns false, and writes nothing, if a soft value is -128.
#[unsafe(no_mangle)]
pub extern "C" fn um_join_facch_h(
    bursts: &[[i8; BURST_BITS]; 6],
    block: &mut [[i8; BURST_BITS]; 4],
) -> bool
    ensures soft { IsTrue result ↔ All AllSoftBits bursts.now }
    ensures joined { IsTrue result → block.new ≡ joined_block (pos 0) bursts.now }
    ensures carried { IsTrue result → (coded : List ℤ) →
        IsInterleaved coded (map coded_values block.new) ↔ AreCarried coded bursts.now }
    ensures refused { result ≡ false → block.new ≡ block.old }
{
    if !are_soft_rows(bursts) {
        return false;
    }
    *block = join(bursts);
    true
}

/// Writes the sum of the eight stealing flags of a block, and how many of them do not say FACCH. Returns false, and writes nothing, if a
/// soft value is -128.
#[unsafe(no_mangle)]
pub extern "C" fn um_stealing_flags(
    block: &[[i8; BURST_BITS]; 4],
    sum: &mut i32,
    wrong: &mut u8,
) -> bool
    ensures soft { IsTrue result ↔ All AllSoftBits block.now }
    ensures sum { IsTrue result → sum.new ≡ stealing_sum block.now }
    ensures wrong { IsTrue result → wrong.new ≡ wrong_flags block.now }
    ensures refused { result ≡ false → (sum.new ≡ sum.old) × (wrong.new ≡ wrong.old) }
{
    if !are_soft_bursts(block) {
        return false;
    }
    *sum = i32::from(stealing_sum(block));
    *wrong = wrong_flags(block);
    true
}
