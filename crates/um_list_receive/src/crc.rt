//! The CRC of a block, as the list decoder checks it for a word.
ghost use Rattle.std.specs.Prelude.{◌≡◌, ◌↔◌, ◌≤◌, IsTrue, length, take};
ghost use Rattle.um_block.specs.bit_blocks.Bits.{AllBits};
ghost use Rattle.um_list_receive.specs.ListDecoding.{BlockCrcHolds};

use um_block::{Bits, xcch_holds};

pub(crate) fn block_crc_holds(word: &[u8]) -> bool
    requires word_length { length word.now ≡ 228 }
    requires bits { AllBits word.now }
    ensures { IsTrue result ↔ BlockCrcHolds word.now }
{
    xcch_holds(&Bits::from_array(first_bits::<224>(word)))
}

fn first_bits<const N: usize>(decoded: &[u8]) -> [u8; N]
    requires size { N ≤ length decoded.now }
    requires bits { AllBits decoded.now }
    ensures value { result ≡ take N decoded.now }
    ensures bits { AllBits result }
{
    let mut word = [0; N];
    word.copy_from_slice(&decoded[..N]);
    word
}
