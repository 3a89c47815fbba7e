//! Counts bit errors before decoding: the received soft bits that disagree with the coded bits of an encoder input. A soft bit of 0 counts
//! as wrong.
ghost use Rattle.std.specs.Prelude.{◌≡◌, ◌≤◌, ℤ, List, map, All};
ghost use Rattle.bit_blocks.specs.SoftValues.{AllSoftBits, count_wrong_bits};
ghost use Rattle.conv_code.specs.Code.{encoding, IsEncoderInput};
ghost use Rattle.interleave.specs.Bursts.{IsInterleaved};
ghost use Rattle.um_block.specs.Received.{coded_soft_bits, access_soft_bits, sync_soft_bits};

use crate::receiving::{deinterleave_block, join_sync_halves};
use bit_blocks::{CODED_BITS, ENCODER_INPUT_BITS, count_wrong_bits};
use burst_map::{AccessView, BURST_BITS, SyncView};
use conv_code::encode;

/// The number of coded soft bits of a block, 0 to 456, that disagree with the coded bits of the encoder input (184 information bits, 40
/// Fire code bits, four tail bits).
pub fn wrong_block_bits(bursts: &[[i8; BURST_BITS]; 4], input: &[u8; ENCODER_INPUT_BITS]) -> u32
    requires soft { All AllSoftBits bursts.now }
    requires information { IsEncoderInput input.now }
    ensures value { (soft : List ℤ) → IsInterleaved soft (map coded_soft_bits bursts.now) →
        result ≡ count_wrong_bits soft (encoding input.now) }
    ensures some { (soft : List ℤ) × IsInterleaved soft (map coded_soft_bits bursts.now) }
    ensures within { result ≤ CODED_BITS }
{
    wrong_coded_bits(&deinterleave_block(bursts), input)
}

/// As `wrong_block_bits`, for deinterleaved soft bits: a caller that has decoded them does not deinterleave again.
pub fn wrong_coded_bits(soft: &[i8; CODED_BITS], input: &[u8; ENCODER_INPUT_BITS]) -> u32
    requires { IsEncoderInput input.now }
    ensures value { result ≡ count_wrong_bits soft.now (encoding input.now) }
    ensures within { result ≤ CODED_BITS }
{
    let mut coded = [0; CODED_BITS];
    encode(input, &mut coded);
    count_wrong_bits(soft, &coded)
}

/// The number of coded soft bits of an access burst, 0 to 36, that disagree with the coded bits of the encoder input (eight information
/// bits, six check bits, four tail bits).
pub fn wrong_access_bits(burst: &[i8; 88], input: &[u8; 18]) -> u32
    requires { IsEncoderInput input.now }
    ensures value { result ≡ count_wrong_bits (access_soft_bits burst.now) (encoding input.now) }
    ensures within { result ≤ 36 }
{
    let mut coded = [0; 36];
    encode(input, &mut coded);
    count_wrong_bits(AccessView::new(burst).body(), &coded)
}

/// The number of coded soft bits of a synchronisation burst, 0 to 78, that disagree with the coded bits of the encoder input (25
/// information bits, ten check bits, four tail bits).
pub fn wrong_sync_bits(burst: &[i8; BURST_BITS], input: &[u8; 39]) -> u32
    requires { IsEncoderInput input.now }
    ensures value { result ≡ count_wrong_bits (sync_soft_bits burst.now) (encoding input.now) }
    ensures within { result ≤ 78 }
{
    let view = SyncView::new(burst);
    let mut coded = [0; 78];
    encode(input, &mut coded);
    count_wrong_bits(&join_sync_halves(view.first(), view.second()), &coded)
}
