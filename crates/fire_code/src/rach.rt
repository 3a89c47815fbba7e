//! The six check bits of the access burst (RACH): the modulo 2 sum of an inverted CRC and the base station identity code (BSIC). A burst
//! for another cell therefore fails its check (GSM 05.03, today 3GPP TS 45.003, section 4.6).
ghost use Rattle.std.specs.Prelude.{◌≡◌, ◌↔◌, ◌++◌, List, ℕ, length, replicate, IsTrue};
ghost use Rattle.bit_blocks.specs.Bits.{AllBits, xor_bits};
ghost use Rattle.fire_code.specs.Words.{IsRachCodeword};

use crate::division::crc;
use bit_blocks::Bits;

// The generator without D^6: D^5 + D^3 + D^2 + D + 1. The least significant bit is the coefficient of D^5.
const CRC_TAPS: u64 = 0b11_1101;

/// Returns the CRC of the eight information bits of an access burst, before the BSIC is added.
///
/// The burst carries the sum of this CRC and the BSIC (GSM 05.03 section 4.6).
pub fn rach_parity(d: &Bits<8>) -> Bits<6>
    ensures word { IsRachCodeword (d.now ++ result) (replicate 6 0) }
    ensures only { (p : List ℕ) → IsRachCodeword (d.now ++ p) (replicate 6 0) → p ≡ result }

    // For every BSIC, the check bits sent are the sum modulo 2 of the CRC and the BSIC.
    ensures with_bsic { (b : List ℕ) → length b ≡ 6 → AllBits b → IsRachCodeword (d.now ++ xor_bits result b) b }
    ensures only_with_bsic { (p b : List ℕ) → IsRachCodeword (d.now ++ p) b → p ≡ xor_bits result b }

    ensures count { length result ≡ 6 }
    ensures bits { AllBits result }
{
    crc(d.as_slice(), CRC_TAPS)
}

/// Returns whether `w`, eight information bits and six check bits, is a codeword for this BSIC.
pub fn rach_holds(w: &Bits<14>, bsic: &Bits<6>) -> bool
    ensures { IsTrue result ↔ IsRachCodeword w.now bsic.now }
{
    let (info, sum) = w.as_slice().split_at(8);
    let sum = Bits::<6>::from_slice(sum).unwrap();
    // `w` is a codeword for one BSIC only: the modulo 2 sum of the CRC and the received check bits.
    let code = crc::<6>(info, CRC_TAPS).xor(&sum);
    code.as_slice() == bsic.as_slice()
}
